ghost use Rattle.std.specs.Prelude.{◌≡◌, ◌≢◌, ◌≤◌, Err, IfOk};
ghost use Rattle.std.specs.Str.{bytes_eq};
ghost use Rattle.sccs_base.specs.Name.{IsSFileName, x_file};
ghost use Rattle.sccs_base.specs.Stream.{Rose};
ghost use Rattle.sccs_disk.specs.Told.{seen};
ghost use Rattle.sccs_name_files.specs.Touches.{TouchesOnly};
ghost use Rattle.sccs_sid.specs.declared.refusals.StepFault.TheVariants as fault;
ghost use Rattle.sccs_changes.specs.Stops.{IsFirmPrepared};
ghost use Rattle.sccs_rcs.specs.ImportStep.{import_change, import_report};
ghost use Rattle.sccs_rcs.specs.Locks.{import_locked};
ghost use Rattle.sccs_rcs.specs.Parts.{IsImported, IsRead, WritesRcs};

use crate::bodies::RunsBody;
use crate::finding::find_rcs;
use crate::headers::trunk_header;
use itoa::Buffer;
use sccs_base::{Bytes, Memory, Name, Sink, Source};
use sccs_changes::{Change, Prepared, heading};
use sccs_disk::{Disk, DiskRefusal};
use sccs_new_files::write_new;
use sccs_sid::StepFault;
use sccs_store::NewFile;
use sccs_trunks::{Rcs, trunk_runs};
use std::alloc::Global;

/// import on a name that is to become an s-file: a delta for each revision of the trunk of the RCS file beside it,
/// `X,v` for `s.X`. It refuses a name that is locked, an RCS file that isn't there, an s-file that is, an RCS file of
/// more than 1,073,741,824 bytes, one that is bad, whose trunk has an unfit revision, or a script that fails, in this
/// order. rcsfile(5); sccsfile(4).
#[derive(Clone, Copy)]
pub struct Import {
    /// Whether a heading stands before the report.
    pub heading: bool,
}

// how many revisions came
fn report_of(alloc: Global, head: bool, name: &Name, rcs: &Rcs) -> Result<Bytes, Memory>
    ensures { IfOk result (λ report. report ≡ import_report head name.now rcs.now) }
{
    let mut report = Vec::new(alloc);
    heading(head, name, &mut report)?;
    let mut buffer = Buffer::new();
    report.extend_from_slice(buffer.format(rcs.revisions.len()).as_bytes())?;
    report.extend_from_slice(b" revisions\n")?;
    Ok(Bytes::from_vec(report))
}

// what is prepared where the x-file is the s-file of a trunk
fn imported(alloc: Global, report: Bytes) -> Prepared
    ensures { IsImported report result }
{
    Prepared {
        new_s: true,
        new_p: NewFile::Keep,
        new_g: NewFile::Keep,
        report,
        message: Bytes::empty(alloc),
    }
}

// writes the x-file of a trunk
fn write_rcs<D: Disk>(
    alloc: Global,
    rcs: &Rcs,
    heading: bool,
    name: &Name,
    disk: &mut D,
) -> Result<Prepared, StepFault>
    requires sfile { IsSFileName name.now }
    requires read { IsRead rcs.now }
    ensures writes { WritesRcs result heading rcs.now name.now (seen (D.told disk.old)) (seen (D.told disk.new)) }
    ensures touches { TouchesOnly (bytes_eq (x_file name.now)) (D.told disk.old) (D.told disk.new) }
    ensures firm { IfOk result (λ p. IsFirmPrepared name.now p (D.told disk.old) (D.told disk.new)) }
    ensures later { D.faults disk.old ≤ D.faults disk.new }
    ensures read { result ≢ Err fault.ReadFault }
    ensures write { result ≢ Err fault.WriteFault }
    ensures broke { result ≡ Err fault.DiskFault → Rose (D.faults disk.old) (D.faults disk.new) }
{
    let Ok(runs) = trunk_runs(alloc, rcs.revisions.items()) else {
        return Err(StepFault::Memory);
    };
    let Ok(header) = trunk_header(alloc, rcs, runs.as_slice()) else {
        return Err(StepFault::Memory);
    };
    let Ok(report) = report_of(alloc, heading, name, rcs) else {
        return Err(StepFault::Memory);
    };
    let body = RunsBody {
        runs: runs.as_slice(),
    };
    match write_new(alloc, &header, &body, name, disk) {
        Ok(()) => Ok(imported(alloc, report)),
        Err(DiskRefusal::Failed) => Err(StepFault::DiskFault),
        Err(DiskRefusal::Memory) => Err(StepFault::Memory),
    }
}

impl Change for Import {
    ghost change = { λ i. import_change i.heading };

    ghost locked = { λ i. import_locked i.heading };

    fn takes_input(&self) -> bool {
        false
    }

    fn prepare<I: Source, O: Sink, D: Disk>(
        &self,
        alloc: Global,
        name: &Name,
        _input: &mut I,
        _out: &mut O,
        disk: &mut D,
    ) -> Result<Prepared, StepFault> {
        let rcs = find_rcs(alloc, name, disk)?;
        write_rcs(alloc, &rcs, self.heading, name, disk)
    }
}
