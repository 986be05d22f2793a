ghost use Rattle.std.specs.Prelude.{◌≡◌, ℕ, List, [], true, Some, Ok, IfOk, OnOk};
ghost use Rattle.std.specs.Str.{bytes_eq};
ghost use Rattle.sccs_base.specs.Name.{IsSFileName, x_file};
ghost use Rattle.sccs_disk.specs.Calls.{IsThere};
ghost use Rattle.sccs_disk.specs.Images.{IsFirm};
ghost use Rattle.sccs_disk.specs.Told.{seen};
ghost use Rattle.sccs_name_files.specs.StepFiles.{Moves};
ghost use Rattle.sccs_history.specs.Applied.{live_serials};
ghost use Rattle.sccs_history.specs.History.{IsHeader, IsSpelled};
ghost use Rattle.sccs_history.specs.Numbers.{has};
ghost use Rattle.sccs_history.specs.Removal.{dropped};
ghost use Rattle.sccs_history.specs.declared.headers.Item.{Item};
ghost use Rattle.sccs_name_files.specs.Touches.{Leaves, TouchesOnly};
ghost use Rattle.sccs_steps.specs.Actions.{RefusesWithin};
ghost use Rattle.sccs_table.specs.ReaderState.{bytes_in};
ghost use Rattle.sccs_body.specs.BodyFile.{items_of};
ghost use Rattle.sccs_body.specs.Reader.{name_read};
ghost use Rattle.sccs_body.specs.ToCome.{IsFrontFor};
ghost use Rattle.sccs_changes.specs.Stops.{IsFirmPrepared};
ghost use Rattle.sccs_copies.specs.Copies.{CopyComes};
ghost use Rattle.sccs_rmdel.specs.Removed.{without_delta};
ghost use Rattle.sccs_rmdel.specs.Dropping.{dropping};
ghost use Rattle.sccs_rmdel.specs.RmdelStep.{rmdel_checks};
ghost use Rattle.sccs_changes.specs.PFiles.{ChangesDisk};
ghost use Rattle.sccs_rmdel.specs.Writing.{IsRewrite, WritesRemoval};

use crate::droppers::Dropper;
use crate::removals::remove_delta;
use sccs_base::{Bytes, Memory, Name};
use sccs_changes::Prepared;
use sccs_copies::{Copying, write_sfile};
use sccs_disk::Disk;
use sccs_history::{Header, Serials};
use sccs_sets::delta_set;
use sccs_sid::StepFault;
use sccs_store::NewFile;
use sccs_table::Front;
use sccs_versions::Weaver;
use std::alloc::Global;

// a dropper of the delta of a serial, before all items
fn dropper_of(alloc: Global, header: &Header, serial: u16) -> Result<Dropper, Memory>
    requires rules { IsHeader header.now }
    requires live { has (live_serials header.now.records) serial ≡ true }
    ensures serial { IfOk result (λ d. d.serial ≡ serial) }
    ensures begins { IfOk result (λ d. d.weaver ≡ []) }
{
    let none = Serials::empty(alloc);
    match delta_set(alloc, header, serial, &none, &none, None) {
        Ok(set) => Ok(Dropper {
            serial,
            weaver: Weaver::new(alloc),
            set,
        }),
        Err(_) => Err(Memory),
    }
}

// a copy of a body without the delta of a serial
fn copying_of(
    alloc: Global,
    name: &Name,
    front: &Front,
    serial: u16,
) -> Result<Copying<Dropper>, Memory>
    requires rules { IsHeader front.now.header }
    requires live { has (live_serials front.now.header.records) serial ≡ true }
    ensures name { IfOk result (λ c. name_read c.items ≡ name.now) }
    ensures told { (file : List ℕ) (items : List Item) → IsFrontFor file front.now → items_of file front.now ≡ Ok items
        → IfOk result (CopyComes dropping file (dropped serial items)) }
{
    let dropper = dropper_of(alloc, &front.header, serial)?;
    Copying::new(alloc, name, front, dropper)
}

// writes the x-file of a header and a body without a delta
fn write_x<D: Disk>(
    alloc: Global,
    name: &Name,
    header: &Header,
    copying: Copying<Dropper>,
    disk: &mut D,
) -> Result<(), StepFault>
    requires sfile { IsSFileName name.now }
    requires spelled { IsSpelled header.now }
    requires own { name_read copying.items ≡ name.now }
    ensures told { (file : List ℕ) (items : List Item) → bytes_in (seen (D.told disk.old)) name.now ≡ Some file
        → CopyComes dropping file items copying
        → WritesRemoval name.now header.now items (seen (D.told disk.old)) (seen (D.told disk.new)) result }
    ensures moves { Moves (bytes_eq (x_file name.now)) (λ v. v) (seen (D.told disk.old)) (seen (D.told disk.new)) }
    ensures there { OnOk result (IsThere (x_file name.now) (D.told disk.new)) }
    ensures touches { TouchesOnly (bytes_eq (x_file name.now)) (D.told disk.old) (D.told disk.new) }
    ensures firm { OnOk result (Leaves (IsFirm (x_file name.now)) (D.told disk.old) (D.told disk.new)) }
    ensures checks { RefusesWithin rmdel_checks result }
    ensures causes { ChangesDisk D.faults disk.old disk.new result }
{
    write_sfile(alloc, header, copying, name, disk)?;
    Ok(())
}

// what is prepared where the x-file is the s-file anew
fn prepared(alloc: Global) -> Prepared
    ensures { IsRewrite result }
{
    Prepared {
        new_s: true,
        new_p: NewFile::Keep,
        new_g: NewFile::Keep,
        report: Bytes::empty(alloc),
        message: Bytes::empty(alloc),
    }
}

/// Writes an s-file anew as the x-file, without the delta of a serial.
pub fn write_without<D: Disk>(
    alloc: Global,
    name: &Name,
    front: Front,
    serial: u16,
    disk: &mut D,
) -> Result<Prepared, StepFault>
    requires sfile { IsSFileName name.now }
    requires rules { IsHeader front.header }
    requires spelled { IsSpelled front.header }
    requires live { has (live_serials front.header.records) serial ≡ true }
    ensures told { (file : List ℕ) (items : List Item) → bytes_in (seen (D.told disk.old)) name.now ≡ Some file
        → IsFrontFor file front → items_of file front ≡ Ok items
        → WritesRemoval name.now (without_delta serial front.header) (dropped serial items)
        (seen (D.told disk.old)) (seen (D.told disk.new)) result }
    ensures quiet { IfOk result IsRewrite }
    ensures moves { Moves (bytes_eq (x_file name.now)) (λ v. v) (seen (D.told disk.old)) (seen (D.told disk.new)) }
    ensures there { IfOk result (λ _. IsThere (x_file name.now) (D.told disk.new)) }
    ensures touches { TouchesOnly (bytes_eq (x_file name.now)) (D.told disk.old) (D.told disk.new) }
    ensures firm { IfOk result (λ p. IsFirmPrepared name.now p (D.told disk.old) (D.told disk.new)) }
    ensures checks { RefusesWithin rmdel_checks result }
    ensures causes { ChangesDisk D.faults disk.old disk.new result }
{
    let Ok(copying) = copying_of(alloc, name, &front, serial) else {
        return Err(StepFault::Memory);
    };
    let Ok(header) = remove_delta(alloc, front.header, serial) else {
        return Err(StepFault::Memory);
    };
    write_x(alloc, name, &header, copying, disk)?;
    Ok(prepared(alloc))
}
