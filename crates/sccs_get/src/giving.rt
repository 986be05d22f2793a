ghost use Rattle.std.specs.Prelude.{◌≡◌, ◌≢◌, ◌≤◌, ℕ, true, false, List, Option, Err, IfOk, IfSome, OnOk};
ghost use Rattle.std.specs.Str.{bytes_eq};
ghost use Rattle.sccs_base.specs.Name.{IsSFileName, y_file};
ghost use Rattle.sccs_disk.specs.Calls.{IsThere};
ghost use Rattle.sccs_disk.specs.Images.{IsFirm};
ghost use Rattle.sccs_disk.specs.Told.{seen};
ghost use Rattle.sccs_name_files.specs.StepFiles.{Moves};
ghost use Rattle.sccs_history.specs.Applied.{serials_of};
ghost use Rattle.sccs_history.specs.Numbers.{Falls, has};
ghost use Rattle.sccs_history.specs.declared.headers.Item.{Item};
ghost use Rattle.sccs_name_files.specs.Touches.{Leaves, TouchesOnly};
ghost use Rattle.sccs_keywords.specs.Expansion.{HasMoments};
ghost use Rattle.sccs_steps.specs.Actions.{RefusesWithin};
ghost use Rattle.sccs_steps.specs.Calls.{world};
ghost use Rattle.sccs_steps.specs.Causes.{PrintCauses};
ghost use Rattle.sccs_table.specs.ReaderState.{bytes_in};
ghost use Rattle.sccs_versions.specs.Coming.{IsBody};
ghost use Rattle.sccs_printing.specs.Printing.{file_checks, may_write};
ghost use Rattle.sccs_get.specs.Giving.{GivesVersion};
ghost use Rattle.sccs_get.specs.VersionStep.{lines_got, stays_writable, writes_g};
ghost use Rattle.sccs_get.specs.Whole.{GivesWhole};

use crate::checks::writes_g;
use crate::found::Found;
use sccs_base::{Name, Sink};
use sccs_disk::Disk;
use sccs_printing::{Shown, make_y, print_text};
use sccs_sid::StepFault;
use sccs_store::Mode;
use sccs_table::Front;
use sccs_words::GetWords;
use std::alloc::Global;

// whether the g-file may be written: with -k and -e
fn mode_of(words: &GetWords) -> Mode
    ensures { may_write result ≡ stays_writable words.now }
{
    if words.keep || words.edit {
        Mode::Writable
    } else {
        Mode::Protected
    }
}

/// Gives the text of a version: to standard output with -p, nowhere with -g, else into the y-file, which is
/// to take the g-file's place. Tells how many lines there are, and whether a keyword was replaced; with -g
/// none. POSIX get.
pub fn give_version<O: Sink, D: Disk>(
    alloc: Global,
    words: &GetWords,
    name: &Name,
    front: &Front,
    found: &Found,
    out: &mut O,
    disk: &mut D,
) -> Result<Shown, StepFault>
    requires sfile { IsSFileName name.now }
    requires facts { IfSome found.now.facts HasMoments }
    requires table { Falls 65536 (serials_of front.now.header.records) }
    ensures gives { (file : List ℕ) (items : List Item) (err : Option (List ℕ))
        → IsBody (bytes_in (seen (D.told disk.old)) name.now) front.now found.now.set file items
        → GivesVersion words.now name.now front.now.header.records found.now (lines_got found.now items) result
        (world (seen (D.told disk.old)) (O.given out.old) err) (world (seen (D.told disk.new)) (O.given out.new) err) }
    ensures moves { Moves (bytes_eq (y_file name.now)) (λ v. v) (seen (D.told disk.old)) (seen (D.told disk.new)) }
    ensures there { OnOk result (writes_g words.now ≡ true → IsThere (y_file name.now) (D.told disk.new)) }
    ensures touches { TouchesOnly (bytes_eq (y_file name.now)) (D.told disk.old) (D.told disk.new) }
    ensures firm { OnOk result (writes_g words.now ≡ true → Leaves (IsFirm (y_file name.now)) (D.told disk.old)
        (D.told disk.new)) }
    ensures same { writes_g words.now ≡ false → D.told disk.new ≡ D.told disk.old }
    ensures whole { IfOk result (λ s. words.now.no_text ≡ false → has found.now.set 0 ≡ false
        → GivesWhole words.now name.now front.now.header.records found.now s (O.given out.old) (O.given out.new)
        (seen (D.told disk.new))) }
    ensures checks { RefusesWithin file_checks result }
    ensures causes { PrintCauses result (O.faults out.old) (O.faults out.new) (D.faults disk.old) (D.faults disk.new) }
{
    if words.no_text {
        return Ok(Shown {
            lines: 0,
            keywords: false,
        });
    }
    let form = found.form(words);
    if words.print {
        print_text(alloc, name, front, &found.set, &form, out, disk)
    } else {
        make_y(alloc, name, front, &found.set, &form, mode_of(words), disk)
    }
}
