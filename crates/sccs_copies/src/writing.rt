ghost use Rattle.std.specs.Prelude.{◌≡◌, ℕ, List, [], Some, Ok, IfOk, OnOk};
ghost use Rattle.sccs_base.specs.Name.{IsSFileName, x_file};
ghost use Rattle.sccs_disk.specs.Calls.{IsThere};
ghost use Rattle.sccs_disk.specs.Files.{put};
ghost use Rattle.sccs_disk.specs.Told.{seen};
ghost use Rattle.sccs_tokens.specs.Written.{ended, sum_line};
ghost use Rattle.sccs_grammar.specs.declared.faults.FileFault.TheVariants as faults;
ghost use Rattle.sccs_history.specs.Applied.{live_serials};
ghost use Rattle.sccs_history.specs.Body.{GoesOn};
ghost use Rattle.sccs_history.specs.History.{IsSpelled};
ghost use Rattle.sccs_history.specs.declared.headers.Item.{Item};
ghost use Rattle.sccs_store.specs.Commits.{Becomes};
ghost use Rattle.sccs_store.specs.SealedFiles.{sealed};
ghost use Rattle.sccs_table.specs.ReaderState.{bytes_in};
ghost use Rattle.sccs_body.specs.BodyFile.{items_of};
ghost use Rattle.sccs_body.specs.Reader.{name_read};
ghost use Rattle.sccs_body.specs.ToCome.{IsFrontFor};
ghost use Rattle.sccs_writers.specs.Spelled.{spelled};
ghost use Rattle.sccs_copies.specs.Copies.{AppendsFile, AppendsItems, AppendsSome, AppendsText, AppendsWhole, CanCopy};
ghost use Rattle.sccs_copies.specs.Copies.{CopyComes, IsBegun, MakesFile, MakesOneFile, OfSomeBody};

use crate::copies::{Copying, file_fault, put_body};
use crate::filters::{BodyFilter, Identity};
use sccs_base::Name;
use sccs_disk::Disk;
use sccs_grammar::FileFault;
use sccs_history::Header;
use sccs_store::{finish_x, start};
use sccs_table::{Front, Sum};
use sccs_writers::{ItemWriter, write_header};
use std::alloc::Global;

// appends what a filter makes of a body, and answers the sums that go on with it
fn append_body<F: BodyFilter + Drop, D: Disk>(
    alloc: Global,
    copying: Copying<F>,
    name: &Name,
    sum: Sum,
    disk: &mut D,
) -> Result<Sum, FileFault>
    requires { CanCopy copying name.now (D.told disk.old) }
    ensures appends { AppendsSome name.now [] (D.told disk.old) (D.told disk.new) (D.faults disk.old)
        (D.faults disk.new) result }
    ensures told { (file : List ℕ) (items : List Item) → bytes_in (seen (D.told disk.old)) (name_read copying.items)
        ≡ Some file
        → CopyComes F.filter file items copying → AppendsItems items name.now sum (D.told disk.old)
        (D.told disk.new) result }
    ensures whole { (live : List ℕ) → IsBegun F.filter live copying
        → IfOk result (λ after. OfSomeBody F.filter live copying.filter (λ items. AppendsText name.now
        (spelled items) sum after (D.told disk.old) (D.told disk.new))) }
{
    let Ok(mut out) = ItemWriter::new(alloc, name, sum) else {
        return Err(FileFault::Memory);
    };
    let mut copying = copying;
    put_body(&mut copying, &mut out, disk)?;
    Ok(out.sum())
}

// appends header and body
fn append_all<F: BodyFilter + Drop, D: Disk>(
    alloc: Global,
    header: &Header,
    copying: Copying<F>,
    name: &Name,
    disk: &mut D,
) -> Result<Sum, FileFault>
    requires spelled { IsSpelled header.now }
    requires copy { CanCopy copying name.now (D.told disk.old) }
    ensures appends { AppendsSome name.now (ended (sum_line 0)) (D.told disk.old) (D.told disk.new) (D.faults disk.old)
        (D.faults disk.new) result }
    ensures told { (file : List ℕ) (items : List Item) → bytes_in (seen (D.told disk.old)) (name_read copying.items)
        ≡ Some file
        → CopyComes F.filter file items copying → AppendsWhole header.now items name.now (D.told disk.old)
        (D.told disk.new) result }
    ensures whole { (live : List ℕ) → IsBegun F.filter live copying
        → IfOk result (λ after. OfSomeBody F.filter live copying.filter (λ items. AppendsFile header.now items name.now
        after (D.told disk.old) (D.told disk.new))) }
{
    let mut sum = Sum::new();
    if let Err(refusal) = write_header(header, disk, name, &mut sum) {
        return Err(file_fault(refusal));
    }
    append_body(alloc, copying, name, sum, disk)
}

// appends header and body to the x-file
fn append_x<F: BodyFilter + Drop, D: Disk>(
    alloc: Global,
    header: &Header,
    copying: Copying<F>,
    name: &Name,
    disk: &mut D,
) -> Result<Sum, FileFault>
    requires sfile { IsSFileName name.now }
    requires spelled { IsSpelled header.now }
    requires there { IsThere (x_file name.now) (D.told disk.old) }
    requires own { name_read copying.items ≡ name.now }
    ensures appends { AppendsSome (x_file name.now) (ended (sum_line 0)) (D.told disk.old) (D.told disk.new)
        (D.faults disk.old) (D.faults disk.new) result }
    ensures told { (file : List ℕ) (items : List Item) → bytes_in (seen (D.told disk.old)) name.now ≡ Some file
        → CopyComes F.filter file items copying → AppendsWhole header.now items (x_file name.now) (D.told disk.old)
        (D.told disk.new) result }
    ensures whole { (live : List ℕ) → IsBegun F.filter live copying
        → IfOk result (λ after. OfSomeBody F.filter live copying.filter (λ items. AppendsFile header.now items
        (x_file name.now) after (D.told disk.old) (D.told disk.new))) }
{
    append_all(alloc, header, copying, &name.sibling(b'x'), disk)
}

/// Writes an s-file anew as the x-file: a header, and what a filter makes of the items of the body. It is
/// protected and synced. BadFormat comes where the filter refuses the body, Changed where the file is
/// another than at the first reading; of a told file whose body the filter doesn't refuse neither comes.
/// Whatever the disk tells, at Ok some whole body was read that the filter doesn't refuse, and the x-file is
/// of what the filter makes of it.
pub fn write_sfile<F: BodyFilter + Drop, D: Disk>(
    alloc: Global,
    header: &Header,
    copying: Copying<F>,
    name: &Name,
    disk: &mut D,
) -> Result<(), FileFault>
    requires sfile { IsSFileName name.now }
    requires spelled { IsSpelled header.now }
    requires own { name_read copying.items ≡ name.now }
    ensures frame { MakesOneFile (x_file name.now) faults.Failed (D.told disk.old) (D.told disk.new) (D.faults disk.old)
        (D.faults disk.new) result }
    ensures told { (file : List ℕ) (items : List Item) → bytes_in (seen (D.told disk.old)) name.now ≡ Some file
        → CopyComes F.filter file items copying
        → MakesFile header.now items (x_file name.now) (seen (D.told disk.old)) (seen (D.told disk.new)) result }
    ensures whole { (live : List ℕ) → IsBegun F.filter live copying
        → OnOk result (OfSomeBody F.filter live copying.filter
        (λ items. Becomes (λ v. put v (x_file name.now) (Some (sealed header.now items)))
        (seen (D.told disk.old)) (seen (D.told disk.new)))) }
{
    if let Err(refusal) = start(disk, name, b'x') {
        return Err(file_fault(refusal));
    }
    let sum = append_x(alloc, header, copying, name, disk)?;
    match finish_x(disk, name, &sum) {
        Ok(()) => Ok(()),
        Err(refusal) => Err(file_fault(refusal)),
    }
}

/// Writes an s-file anew as the x-file, with another header over the body of the file that a front was read
/// from. It is protected and synced. Changed comes where the file is another than at the first reading, of a
/// told file never.
pub fn replace_header<D: Disk>(
    alloc: Global,
    header: &Header,
    front: &Front,
    name: &Name,
    disk: &mut D,
) -> Result<(), FileFault>
    requires sfile { IsSFileName name.now }
    requires spelled { IsSpelled header.now }
    ensures frame { MakesOneFile (x_file name.now) faults.Failed (D.told disk.old) (D.told disk.new) (D.faults disk.old)
        (D.faults disk.new) result }
    ensures told { (file : List ℕ) (items : List Item) → bytes_in (seen (D.told disk.old)) name.now ≡ Some file
        → IsFrontFor file front.now → items_of file front.now ≡ Ok items
        → MakesFile header.now items (x_file name.now) (seen (D.told disk.old)) (seen (D.told disk.new)) result }
    ensures whole { OnOk result ((items : List Item) × GoesOn (live_serials front.now.header.records) [] items
        × Becomes (λ v. put v (x_file name.now) (Some (sealed header.now items))) (seen (D.told disk.old))
        (seen (D.told disk.new))) }
{
    let Ok(copying) = Copying::new(alloc, name, front, Identity) else {
        return Err(FileFault::Memory);
    };
    write_sfile(alloc, header, copying, name, disk)
}
