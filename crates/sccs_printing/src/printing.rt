ghost use Rattle.std.specs.Prelude.{◌≡◌, ◌≢◌, ◌≤◌, ◌⊎◌, false, ℕ, List, [], Err, IfOk, IfSome, IsOk, None, OnOk};
ghost use Rattle.std.specs.Prelude.{Option};
ghost use Rattle.sccs_base.specs.Stream.{Rose};
ghost use Rattle.sccs_disk.specs.Told.{seen};
ghost use Rattle.sccs_history.specs.Applied.{serials_of};
ghost use Rattle.sccs_history.specs.Body.{HistoryLine, lines_of};
ghost use Rattle.sccs_history.specs.Numbers.{Falls, has};
ghost use Rattle.sccs_history.specs.declared.headers.Item.{Item};
ghost use Rattle.sccs_keywords.specs.Expansion.{HasMoments};
ghost use Rattle.sccs_sid.specs.declared.refusals.StepFault.TheVariants as faults;
ghost use Rattle.sccs_steps.specs.Actions.{RefusesWithin};
ghost use Rattle.sccs_steps.specs.Causes.{PrintCauses};
ghost use Rattle.sccs_table.specs.ReaderState.{bytes_in};
ghost use Rattle.sccs_keywords.specs.Forms.{line_form};
ghost use Rattle.sccs_versions.specs.Coming.{IsBody, shown};
ghost use Rattle.sccs_printing.specs.Counted.{shown_of};
ghost use Rattle.sccs_printing.specs.Printing.{CanForm, PrintsWhole, file_checks, version_text};
ghost use Rattle.sccs_printing.specs.Targets.{CanTake, GivesTo, IsFreshTarget, KeepsTargetMark, Prints, Reaches};
ghost use Rattle.sccs_printing.specs.Targets.{Spares, UsesTarget, file_of, target_bytes, held_back};

use crate::givings::{Giving, give_all};
use crate::shown::Shown;
use crate::targets::{Target, flush};
use sccs_base::{Name, OutputBuffer, Sink};
use sccs_disk::Disk;
use sccs_keywords::LineForm;
use sccs_sets::Applied;
use sccs_sid::StepFault;
use sccs_table::Front;
use sccs_versions::VersionReader;
use std::alloc::Global;

// what is answered when what was held back is given too, or couldn't be
fn finish<O: Sink, D: Disk>(
    given: Result<(), StepFault>,
    giving: &mut Giving<'_>,
    out: &mut O,
    disk: &mut D,
) -> Result<Shown, StepFault>
    requires there { CanTake (file_of giving.old.target) (D.told disk.old) }
    ensures reaches { Reaches (file_of giving.old.target) (O.given out.old) (O.given out.new) (D.told disk.old)
        (D.told disk.new) }
    ensures mark { OnOk result (KeepsTargetMark (file_of giving.old.target) (D.told disk.old) (D.told disk.new)) }
    ensures spares { Spares (file_of giving.old.target) given → Spares (file_of giving.old.target) result }
    ensures later { O.faults out.old ≤ O.faults out.new }
    ensures disk_later { D.faults disk.old ≤ D.faults disk.new }
    ensures write { result ≡ Err faults.WriteFault → (given ≡ Err faults.WriteFault) ⊎ Rose (O.faults out.old)
        (O.faults out.new) }
    ensures broke { result ≡ Err faults.DiskFault → (given ≡ Err faults.DiskFault) ⊎ Rose (D.faults disk.old)
        (D.faults disk.new) }
    ensures read { given ≢ Err faults.ReadFault → result ≢ Err faults.ReadFault }
    ensures checks { RefusesWithin file_checks given → RefusesWithin file_checks result }
    ensures prints { (text : List ℕ) (before : Option (List ℕ))
        → GivesTo (file_of giving.old.target) text given [] (held_back giving.old.target) before
        (target_bytes (file_of giving.old.target) (O.given out.old) (D.told disk.old))
        → Prints (file_of giving.old.target) text result before (target_bytes (file_of giving.old.target)
        (O.given out.new) (D.told disk.new)) }
    ensures given { OnOk result (IsOk given) }
    ensures shown { IfOk result (λ s. s ≡ giving.old.shown) }
{
    match flush(&mut giving.target, out, disk) {
        Ok(()) => match given {
            Ok(()) => Ok(giving.shown),
            Err(fault) => Err(fault),
        },
        Err(fault) => match given {
            Ok(()) => Err(fault),
            Err(first) => Err(first),
        },
    }
}

/// Gives the text of the version that a set shows of a body to a target that holds nothing back yet. At the
/// end all that was to be given before is given, also where the disk that is read failed.
pub fn give_text<O: Sink, D: Disk>(
    alloc: Global,
    name: &Name,
    front: &Front,
    set: &Applied,
    form: &LineForm,
    target: Target,
    out: &mut O,
    disk: &mut D,
) -> Result<Shown, StepFault>
    requires text { CanForm (line_form form.now) front.now.header.records }
    requires target { IsFreshTarget target name.now (D.told disk.old) }
    ensures frame { UsesTarget (file_of target) O.given O.faults D.told D.faults out.old out.new disk.old disk.new
        result }
    ensures prints { (file : List ℕ) (items : List Item)
        → IsBody (bytes_in (seen (D.told disk.old)) name.now) front.now set.now file items
        → Prints (file_of target) (version_text (line_form form.now) front.now.header.records
        (shown set.now (lines_of items))) result
        (target_bytes (file_of target) (O.given out.old) (D.told disk.old)) (target_bytes (file_of target)
        (O.given out.new) (D.told disk.new)) }
    ensures found { (file : List ℕ) (items : List Item)
        → IsBody (bytes_in (seen (D.told disk.old)) name.now) front.now set.now file items
        → IfOk result (λ s. s ≡ shown_of (line_form form.now) (shown set.now (lines_of items))) }
    ensures whole { IfOk result (λ s. has set.now 0 ≡ false → PrintsWhole (line_form form.now) front.now.header.records
        set.now s
        (target_bytes (file_of target) (O.given out.old) (D.told disk.old)) (target_bytes (file_of target)
        (O.given out.new) (D.told disk.new))) }
{
    let Ok(mut version) = VersionReader::new(alloc, name, front, set) else {
        return Err(StepFault::Memory);
    };
    let mut giving = Giving::new(alloc, form, front.header.records.items(), target);
    let given = give_all(&mut giving, &mut version, out, disk);
    finish(given, &mut giving, out, disk)
}

/// Gives the text of the version that a set shows of a body, in a form, and tells what was found of its
/// lines. It is held back in pieces of 64 KiB; at the end all that was to be given before is given, also
/// where the disk failed. POSIX get, -p.
pub fn print_text<O: Sink, D: Disk>(
    alloc: Global,
    name: &Name,
    front: &Front,
    set: &Applied,
    form: &LineForm,
    out: &mut O,
    disk: &mut D,
) -> Result<Shown, StepFault>
    requires facts { IfSome (line_form form.now).facts HasMoments }
    requires table { Falls 65536 (serials_of front.now.header.records) }
    ensures same { D.told disk.new ≡ D.told disk.old }
    ensures causes { PrintCauses result (O.faults out.old) (O.faults out.new) (D.faults disk.old) (D.faults disk.new) }
    ensures checks { RefusesWithin file_checks result }
    ensures prints { (file : List ℕ) (items : List Item)
        → IsBody (bytes_in (seen (D.told disk.old)) name.now) front.now set.now file items
        → Prints None (version_text (line_form form.now) front.now.header.records (shown set.now (lines_of items)))
        result (O.given out.old) (O.given out.new) }
    ensures found { (file : List ℕ) (items : List Item)
        → IsBody (bytes_in (seen (D.told disk.old)) name.now) front.now set.now file items
        → IfOk result (λ s. s ≡ shown_of (line_form form.now) (shown set.now (lines_of items))) }
    ensures whole { IfOk result (λ s. has set.now 0 ≡ false → PrintsWhole (line_form form.now) front.now.header.records
        set.now s (O.given out.old) (O.given out.new)) }
{
    let Ok(buffer) = OutputBuffer::new(alloc) else {
        return Err(StepFault::Memory);
    };
    give_text(
        alloc,
        name,
        front,
        set,
        form,
        Target::ToSink(buffer),
        out,
        disk,
    )
}
