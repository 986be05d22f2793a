ghost use Rattle.std.specs.Prelude.{◌≡◌, ◌≢◌, ◌≤◌, false, ℕ, List, [], Err, IfOk, IfSome, OnOk, Some};
ghost use Rattle.std.specs.Str.{bytes_eq};
ghost use Rattle.sccs_base.specs.Name.{IsSFileName, y_file};
ghost use Rattle.sccs_base.specs.Stream.{Rose};
ghost use Rattle.sccs_disk.specs.Calls.{IsThere};
ghost use Rattle.sccs_disk.specs.Images.{IsFirm};
ghost use Rattle.sccs_disk.specs.Told.{seen};
ghost use Rattle.sccs_name_files.specs.StepFiles.{Moves};
ghost use Rattle.sccs_history.specs.Applied.{serials_of};
ghost use Rattle.sccs_history.specs.Body.{HistoryLine, lines_of};
ghost use Rattle.sccs_history.specs.Numbers.{Falls, has};
ghost use Rattle.sccs_history.specs.declared.headers.Item.{Item};
ghost use Rattle.sccs_name_files.specs.Touches.{Leaves, TouchesOnly};
ghost use Rattle.sccs_keywords.specs.Expansion.{HasMoments};
ghost use Rattle.sccs_sid.specs.declared.refusals.StepFault.TheVariants as faults;
ghost use Rattle.sccs_steps.specs.Actions.{RefusesWithin};
ghost use Rattle.sccs_table.specs.ReaderState.{bytes_in};
ghost use Rattle.sccs_keywords.specs.Forms.{line_form};
ghost use Rattle.sccs_versions.specs.Coming.{IsBody, shown};
ghost use Rattle.sccs_printing.specs.Counted.{shown_of};
ghost use Rattle.sccs_printing.specs.Printing.{CanForm, Makes, MakesWhole, PrintsWhole, file_checks, version_text};
ghost use Rattle.sccs_printing.specs.Targets.{Prints, WritesText};

use crate::printing::give_text;
use crate::shown::Shown;
use crate::targets::{Target, step_fault};
use sccs_base::Name;
use sccs_disk::Disk;
use sccs_keywords::{HeldLine, LineForm};
use sccs_sets::Applied;
use sccs_sid::StepFault;
use sccs_store::{Mode, finish_y, start};
use sccs_table::{Front, Sum};
use sccs_writers::PieceWriter;
use std::alloc::Global;

// appends the text of a version to a file; no sink gets anything
fn append_text<D: Disk>(
    alloc: Global,
    name: &Name,
    front: &Front,
    set: &Applied,
    form: &LineForm,
    to: &Name,
    disk: &mut D,
) -> Result<Shown, StepFault>
    requires text { CanForm (line_form form.now) front.now.header.records }
    requires there { IsThere to.now (D.told disk.old) }
    requires apart { bytes_eq to.now name.now ≡ false }
    ensures frame { WritesText to.now (D.told disk.old) (D.told disk.new) (D.faults disk.old) (D.faults disk.new)
        result }
    ensures appends { (file : List ℕ) (items : List Item)
        → IsBody (bytes_in (seen (D.told disk.old)) name.now) front.now set.now file items
        → Prints (Some to.now) (version_text (line_form form.now) front.now.header.records
        (shown set.now (lines_of items))) result
        (bytes_in (seen (D.told disk.old)) to.now) (bytes_in (seen (D.told disk.new)) to.now) }
    ensures found { (file : List ℕ) (items : List Item)
        → IsBody (bytes_in (seen (D.told disk.old)) name.now) front.now set.now file items
        → IfOk result (λ s. s ≡ shown_of (line_form form.now) (shown set.now (lines_of items))) }
    ensures whole { IfOk result (λ s. has set.now 0 ≡ false → PrintsWhole (line_form form.now) front.now.header.records
        set.now s
        (bytes_in (seen (D.told disk.old)) to.now) (bytes_in (seen (D.told disk.new)) to.now)) }
{
    let writer = PieceWriter::new(to, Sum::new());
    let mut nothing = HeldLine::new(alloc);
    give_text(
        alloc,
        name,
        front,
        set,
        form,
        Target::ToFile(writer),
        &mut nothing,
        disk,
    )
}

// appends the text of a version to the y-file
fn append_y<D: Disk>(
    alloc: Global,
    name: &Name,
    front: &Front,
    set: &Applied,
    form: &LineForm,
    disk: &mut D,
) -> Result<Shown, StepFault>
    requires sfile { IsSFileName name.now }
    requires text { CanForm (line_form form.now) front.now.header.records }
    requires there { IsThere (y_file name.now) (D.told disk.old) }
    ensures frame { WritesText (y_file name.now) (D.told disk.old) (D.told disk.new) (D.faults disk.old)
        (D.faults disk.new) result }
    ensures appends { (file : List ℕ) (items : List Item)
        → IsBody (bytes_in (seen (D.told disk.old)) name.now) front.now set.now file items
        → Prints (Some (y_file name.now)) (version_text (line_form form.now) front.now.header.records
        (shown set.now (lines_of items))) result
        (bytes_in (seen (D.told disk.old)) (y_file name.now)) (bytes_in (seen (D.told disk.new)) (y_file name.now)) }
    ensures found { (file : List ℕ) (items : List Item)
        → IsBody (bytes_in (seen (D.told disk.old)) name.now) front.now set.now file items
        → IfOk result (λ s. s ≡ shown_of (line_form form.now) (shown set.now (lines_of items))) }
    ensures whole { IfOk result (λ s. has set.now 0 ≡ false → PrintsWhole (line_form form.now) front.now.header.records
        set.now s
        (bytes_in (seen (D.told disk.old)) (y_file name.now)) (bytes_in (seen (D.told disk.new)) (y_file name.now))) }
{
    append_text(alloc, name, front, set, form, &name.sibling(b'y'), disk)
}

/// Makes the y-file of an s-file's name with the text of the version that a set shows of its body, in a
/// form, and tells what was found of its lines: it is begun, written in pieces of 4,096 bytes, protected
/// unless the g-file may be written, and synced. Changed comes where the s-file is another than at the
/// first reading. POSIX get.
pub fn make_y<D: Disk>(
    alloc: Global,
    name: &Name,
    front: &Front,
    set: &Applied,
    form: &LineForm,
    mode: Mode,
    disk: &mut D,
) -> Result<Shown, StepFault>
    requires sfile { IsSFileName name.now }
    requires facts { IfSome (line_form form.now).facts HasMoments }
    requires table { Falls 65536 (serials_of front.now.header.records) }
    ensures view { (file : List ℕ) (items : List Item)
        → IsBody (bytes_in (seen (D.told disk.old)) name.now) front.now set.now file items
        → Makes (y_file name.now) mode (version_text (line_form form.now) front.now.header.records
        (shown set.now (lines_of items))) (line_form form.now) (shown set.now (lines_of items))
        (seen (D.told disk.old)) (seen (D.told disk.new)) result }
    ensures moves { Moves (bytes_eq (y_file name.now)) (λ v. v) (seen (D.told disk.old)) (seen (D.told disk.new)) }
    ensures there { OnOk result (IsThere (y_file name.now) (D.told disk.new)) }
    ensures touches { TouchesOnly (bytes_eq (y_file name.now)) (D.told disk.old) (D.told disk.new) }
    ensures firm { OnOk result (Leaves (IsFirm (y_file name.now)) (D.told disk.old) (D.told disk.new)) }
    ensures checks { RefusesWithin file_checks result }
    ensures whole { IfOk result (λ s. has set.now 0 ≡ false → MakesWhole (y_file name.now) mode (line_form form.now)
        front.now.header.records set.now s (seen (D.told disk.new))) }
    ensures later { D.faults disk.old ≤ D.faults disk.new }
    ensures cause { result ≡ Err faults.DiskFault → Rose (D.faults disk.old) (D.faults disk.new) }
    ensures read { result ≢ Err faults.ReadFault }
    ensures write { result ≢ Err faults.WriteFault }
{
    if let Err(refusal) = start(disk, name, b'y') {
        return Err(step_fault(refusal));
    }
    let shown = append_y(alloc, name, front, set, form, disk)?;
    match finish_y(disk, name, mode) {
        Ok(()) => Ok(shown),
        Err(_) => Err(StepFault::DiskFault),
    }
}
