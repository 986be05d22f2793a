ghost use Rattle.std.specs.Prelude.{◌≡◌, [], ◌++◌, Some, IfOk, IsErrOf, OnErr, OnOk};
ghost use Rattle.std.specs.Str.{bytes_eq};
ghost use Rattle.sccs_base.specs.Name.{IsSFileName, x_file};
ghost use Rattle.sccs_disk.specs.Calls.{IsThere};
ghost use Rattle.sccs_disk.specs.Files.{put};
ghost use Rattle.sccs_disk.specs.Images.{IsFirm};
ghost use Rattle.sccs_disk.specs.Told.{seen};
ghost use Rattle.sccs_name_files.specs.StepFiles.{Moves};
ghost use Rattle.sccs_tokens.specs.Written.{ended, sum_line};
ghost use Rattle.sccs_history.specs.History.{IsSpelled};
ghost use Rattle.sccs_name_files.specs.Touches.{Leaves, TouchesOnly};
ghost use Rattle.sccs_store.specs.Commits.{Becomes};
ghost use Rattle.sccs_table.specs.SumOf.{IsSumOf};
ghost use Rattle.sccs_writers.specs.HeaderBytes.{header_bytes};
ghost use Rattle.sccs_writers.specs.OneFile.{OnlyWrites};
ghost use Rattle.sccs_writers.specs.Puts.{Appends, PutsText};
ghost use Rattle.sccs_store.specs.SealedFiles.{sealed};
ghost use Rattle.sccs_new_files.specs.Writing.{AppendsSum, body_bytes};
ghost use Rattle.sccs_disk.specs.Causes.{DiskCauses};

use crate::bodies::NewBody;
use sccs_base::Name;
use sccs_disk::{Disk, DiskRefusal};
use sccs_history::Header;
use sccs_store::{finish_x, start};
use sccs_table::Sum;
use sccs_writers::{ItemWriter, write_header};
use std::alloc::Global;

// puts the body of a new file, and appends what is held back
fn put_whole<B: NewBody, D: Disk>(
    body: &B,
    out: &mut ItemWriter,
    disk: &mut D,
) -> Result<(), DiskRefusal>
    requires { IsThere out.old.name (D.told disk.old) }
    ensures puts { PutsText (body_bytes (B.items body.now)) out.old out.new (D.told disk.old) (D.told disk.new)
        (D.faults disk.old) (D.faults disk.new) result }
    ensures empty { OnOk result (out.new.held ≡ []) }
{
    body.put(out, disk)?;
    out.flush(disk)
}

// appends the body of a new file, and answers the sums that go on with it
fn append_body<B: NewBody, D: Disk>(
    alloc: Global,
    body: &B,
    name: &Name,
    sum: Sum,
    disk: &mut D,
) -> Result<Sum, DiskRefusal>
    requires { IsThere name.now (D.told disk.old) }
    ensures { AppendsSum (body_bytes (B.items body.now)) name.now sum (D.told disk.old) (D.told disk.new)
        (D.faults disk.old) (D.faults disk.new) result }
{
    let Ok(mut out) = ItemWriter::new(alloc, name, sum) else {
        return Err(DiskRefusal::Memory);
    };
    if let Err(fault) = put_whole(body, &mut out, disk) {
        return Err(fault);
    }
    Ok(out.sum())
}

// appends header and body of a new file
fn append_all<B: NewBody, D: Disk>(
    alloc: Global,
    header: &Header,
    body: &B,
    name: &Name,
    disk: &mut D,
) -> Result<Sum, DiskRefusal>
    requires spelled { IsSpelled header.now }
    requires there { IsThere name.now (D.told disk.old) }
    ensures appends { OnOk result (Appends name.now (ended (sum_line 0) ++ header_bytes header.now
        ++ body_bytes (B.items body.now)) (D.told disk.old) (D.told disk.new)) }
    ensures sum { IfOk result (λ sums. IsSumOf sums (header_bytes header.now ++ body_bytes (B.items body.now))) }
    ensures only { OnlyWrites name.now (D.told disk.old) (D.told disk.new) }
    ensures causes { DiskCauses (IsErrOf result DiskRefusal.Failed) (D.faults disk.old) (D.faults disk.new) }
{
    let mut sum = Sum::new();
    write_header(header, disk, name, &mut sum)?;
    append_body(alloc, body, name, sum, disk)
}

// appends header and body of a new file to the x-file
fn append_x<B: NewBody, D: Disk>(
    alloc: Global,
    header: &Header,
    body: &B,
    name: &Name,
    disk: &mut D,
) -> Result<Sum, DiskRefusal>
    requires sfile { IsSFileName name.now }
    requires spelled { IsSpelled header.now }
    requires there { IsThere (x_file name.now) (D.told disk.old) }
    ensures appends { OnOk result (Appends (x_file name.now) (ended (sum_line 0) ++ header_bytes header.now
        ++ body_bytes (B.items body.now)) (D.told disk.old) (D.told disk.new)) }
    ensures sum { IfOk result (λ sums. IsSumOf sums (header_bytes header.now ++ body_bytes (B.items body.now))) }
    ensures only { OnlyWrites (x_file name.now) (D.told disk.old) (D.told disk.new) }
    ensures causes { DiskCauses (IsErrOf result DiskRefusal.Failed) (D.faults disk.old) (D.faults disk.new) }
{
    append_all(alloc, header, body, &name.sibling(b'x'), disk)
}

/// Writes the x-file of a new s-file: the header, and the items of the body. It is protected and synced.
pub fn write_new<B: NewBody, D: Disk>(
    alloc: Global,
    header: &Header,
    body: &B,
    name: &Name,
    disk: &mut D,
) -> Result<(), DiskRefusal>
    requires sfile { IsSFileName name.now }
    requires spelled { IsSpelled header.now }
    ensures view { OnOk result (Becomes (λ v. put v (x_file name.now) (Some (sealed header.now (B.items body.now))))
        (seen (D.told disk.old)) (seen (D.told disk.new))) }
    ensures view_err { OnErr result (Moves (bytes_eq (x_file name.now)) (λ v. v)
        (seen (D.told disk.old)) (seen (D.told disk.new))) }
    ensures touches { TouchesOnly (bytes_eq (x_file name.now)) (D.told disk.old) (D.told disk.new) }
    ensures firm { OnOk result (Leaves (IsFirm (x_file name.now)) (D.told disk.old) (D.told disk.new)) }
    ensures causes { DiskCauses (IsErrOf result DiskRefusal.Failed) (D.faults disk.old) (D.faults disk.new) }
{
    start(disk, name, b'x')?;
    let sum = append_x(alloc, header, body, name, disk)?;
    finish_x(disk, name, &sum)
}
