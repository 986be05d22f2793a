ghost use Rattle.std.specs.Prelude.{◌≡◌, ◌≢◌, ◌≤◌, None, Err, IfOk, IfSome, OnOk};
ghost use Rattle.sccs_base.specs.Name.{IsSFileName};
ghost use Rattle.sccs_base.specs.Stream.{Rose};
ghost use Rattle.sccs_disk.specs.Told.{seen};
ghost use Rattle.sccs_sid.specs.declared.refusals.StepFault.TheVariants as fault;
ghost use Rattle.sccs_steps.specs.Actions.{RefusesWithin};
ghost use Rattle.sccs_changes.specs.PFiles.{OnlyReads};
ghost use Rattle.sccs_rcs.specs.ImportStep.{import_checks, rcs_file};
ghost use Rattle.sccs_rcs.specs.Parts.{FindsBytes, FindsRcs, IsFresh, IsRead, TakesTrunk};

use sccs_admin::read_named;
use sccs_base::{Bytes, Memory, Name};
use sccs_disk::Disk;
use sccs_name_files::WholeFault;
use sccs_rcs_file::{RcsFault, read_rcs};
use sccs_sid::{Refusal, StepFault};
use sccs_trunks::Rcs;
use std::alloc::Global;

/// The bytes of an RCS file, or that it is too long, which is said behind another check.
#[derive(Drop)]
pub enum Found {
    Whole(Bytes),
    TooLong,
}

// the RCS file of a name
fn rcs_name(alloc: Global, name: &Name) -> Result<Name, Memory>
    requires { IsSFileName name.now }
    ensures { IfOk result (λ file. file ≡ rcs_file name.now) }
{
    let _bytes = name.bytes();
    let module = name.module();
    let mut bytes = Vec::new(alloc);
    bytes.extend_from_slice(module.bytes())?;
    bytes.extend_from_slice(b",v")?;
    match Name::read(bytes.as_slice()) {
        Some(file) => Ok(file),
        None => unreachable!(),
    }
}

// the bytes of the RCS file of a name
fn read_file<D: Disk>(alloc: Global, name: &Name, disk: &mut D) -> Result<Found, StepFault>
    requires { IsSFileName name.now }
    ensures finds { FindsBytes result name.now (seen (D.told disk.old)) }
    ensures checks { RefusesWithin import_checks result }
    ensures frame { OnlyReads D.told D.faults disk.old disk.new result }
{
    let Ok(file) = rcs_name(alloc, name) else {
        return Err(StepFault::Memory);
    };
    match read_named(alloc, &file, name, disk) {
        Ok(bytes) => Ok(Found::Whole(bytes)),
        Err(WholeFault::TooLong) => Ok(Found::TooLong),
        Err(WholeFault::Missing) => Err(StepFault::Refused(Refusal::Missing)),
        Err(WholeFault::Failed) => Err(StepFault::DiskFault),
        Err(WholeFault::Memory) => Err(StepFault::Memory),
    }
}

// whether a name has no s-file yet
fn check_fresh<D: Disk>(name: &Name, disk: &mut D) -> Result<(), StepFault>
    ensures fresh { IsFresh result name.now (seen (D.told disk.old)) }
    ensures checks { RefusesWithin import_checks result }
    ensures frame { OnlyReads D.told D.faults disk.old disk.new result }
{
    match disk.size(name) {
        Ok(None) => Ok(()),
        Ok(Some(_)) => Err(StepFault::Refused(Refusal::Exists)),
        Err(_) => Err(StepFault::DiskFault),
    }
}

// the trunk of what was found
fn trunk_in(alloc: Global, found: &Found) -> Result<Rcs, StepFault>
    ensures takes { TakesTrunk result found.now }
    ensures checks { RefusesWithin import_checks result }
    ensures read { result ≢ Err fault.ReadFault }
    ensures write { result ≢ Err fault.WriteFault }
    ensures broke { result ≢ Err fault.DiskFault }
{
    let bytes = match found {
        Found::Whole(bytes) => bytes,
        Found::TooLong => return Err(StepFault::Refused(Refusal::TooLong)),
    };
    match read_rcs(alloc, bytes.bytes()) {
        Ok(rcs) => Ok(rcs),
        Err(RcsFault::BadRcs(byte)) => Err(StepFault::Refused(Refusal::BadRcs(byte))),
        Err(RcsFault::BadRevision(n)) => Err(StepFault::Refused(Refusal::BadRevision(n))),
        Err(RcsFault::RcsScript(n, line)) => Err(StepFault::Refused(Refusal::RcsScript(n, line))),
        Err(RcsFault::Memory) => Err(StepFault::Memory),
    }
}

/// The trunk of the RCS file of a name that has no s-file yet. These checks are made in their order: the RCS file is
/// there, the s-file isn't, the RCS file has at most 1,073,741,824 bytes, and a trunk.
pub fn find_rcs<D: Disk>(alloc: Global, name: &Name, disk: &mut D) -> Result<Rcs, StepFault>
    requires { IsSFileName name.now }
    ensures finds { FindsRcs result name.now (seen (D.told disk.old)) }
    ensures free { OnOk result (IfSome (seen (D.told disk.old)) (λ v. v name.now ≡ None)) }
    ensures read { IfOk result IsRead }
    ensures checks { RefusesWithin import_checks result }
    ensures frame { OnlyReads D.told D.faults disk.old disk.new result }
{
    let found = read_file(alloc, name, disk)?;
    check_fresh(name, disk)?;
    trunk_in(alloc, &found)
}
