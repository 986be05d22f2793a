ghost use Rattle.std.specs.Prelude.{◌≡◌, ◌<◌, ◌≤◌, ℕ, List, [], true, Some, Ok, IfOk, IfSome, OnOk, if◌then◌else◌};
ghost use Rattle.sccs_disk.specs.Calls.{IsThere};
ghost use Rattle.sccs_disk.specs.Told.{seen};
ghost use Rattle.sccs_history.specs.Applied.{live_serials};
ghost use Rattle.sccs_history.specs.declared.headers.Item.{Item};
ghost use Rattle.sccs_table.specs.ReaderState.{bytes_in};
ghost use Rattle.sccs_body.specs.BodyFile.{items_of};
ghost use Rattle.sccs_body.specs.ItemsRead.{IsBehind};
ghost use Rattle.sccs_body.specs.Reader.{bytes_left, name_read};
ghost use Rattle.sccs_body.specs.ToCome.{IsFrontFor, ToCome};
ghost use Rattle.sccs_writers.specs.Puts.{Puts, PutsText};
ghost use Rattle.sccs_writers.specs.Spelled.{spelled};
ghost use Rattle.sccs_copies.specs.Copies.{CanCopy, CopiesAll, CopiesBody, CopiesItem, CopiesNext, CopiesOn};
ghost use Rattle.sccs_copies.specs.Copies.{CopiesTexts, CopyComes, IsBegun, OfSomeBody, PutsItems, PutsSome};
ghost use Rattle.sccs_copies.specs.Copies.{as_file_fault};
ghost use Rattle.sccs_copies.specs.Filters.{Finishes};

use crate::filters::BodyFilter;
use sccs_base::{Memory, Name};
use sccs_body::ItemReader;
use sccs_disk::{Disk, DiskRefusal};
use sccs_grammar::FileFault;
use sccs_table::Front;
use sccs_writers::ItemWriter;
use std::alloc::Global;

/// A body that is copied: where it is read, what is made of its items, and the number of the next line.
#[derive(Drop)]
pub struct Copying<F> {
    pub items: ItemReader,
    pub filter: F,
    pub line: u64,
}

impl<F: Drop> Copying<F> {
    /// Before all items of the body of a file that a front was read from.
    pub fn new(alloc: Global, name: &Name, front: &Front, filter: F) -> Result<Copying<F>, Memory>
        ensures name { IfOk result (λ c. name_read c.items ≡ name.now) }
        ensures filter { IfOk result (λ c. c.filter ≡ filter) }
        ensures behind { IfOk result (λ c. IsBehind (live_serials front.now.header.records) [] c.items) }
        ensures told { (file : List ℕ) → IsFrontFor file front.now
            → IfOk result (λ c. ToCome file (live_serials front.now.header.records) [] (items_of file front.now)
            c.items) }
    {
        let items = ItemReader::new(alloc, name, front)?;
        Ok(Copying {
            items,
            filter,
            line: front.body_line,
        })
    }
}

// the fault of a file, where writing another one ended
pub(crate) fn file_fault(refusal: DiskRefusal) -> FileFault
    ensures { result ≡ as_file_fault refusal }
{
    match refusal {
        DiskRefusal::Failed => FileFault::Failed,
        DiskRefusal::Memory => FileFault::Memory,
    }
}

// puts text lines that stand together, where they are wanted
fn put_texts<D: Disk>(
    wanted: bool,
    texts: &[u8],
    out: &mut ItemWriter,
    disk: &mut D,
) -> Result<(), DiskRefusal>
    requires { IsThere out.old.name (D.told disk.old) }
    ensures { PutsText (if wanted then texts.now else []) out.old out.new (D.told disk.old) (D.told disk.new)
        (D.faults disk.old) (D.faults disk.new) result }
{
    if wanted {
        out.put_text(disk, texts)
    } else {
        Ok(())
    }
}

// copies the text lines that are held whole, where the filter takes them together
fn copy_texts<F: BodyFilter, D: Disk>(
    copying: &mut Copying<F>,
    out: &mut ItemWriter,
    disk: &mut D,
) -> Result<(), FileFault>
    requires { IsThere out.old.name (D.told disk.old) }
    ensures puts { PutsSome out.old out.new (D.told disk.old) (D.told disk.new) (D.faults disk.old) (D.faults disk.new)
        result }
    ensures read { name_read copying.new.items ≡ name_read copying.old.items }
    ensures left { bytes_left copying.new.items ≤ bytes_left copying.old.items }
    ensures goes { (live : List ℕ) (before : List Item) → IsBehind live before copying.old.items
        → F.filter.stands copying.old.filter before
        → OnOk result (CopiesOn F.filter live before copying.old copying.new out.old out.new (D.told disk.old)
        (D.told disk.new)) }
    ensures told { (file : List ℕ) (items : List Item) → CopyComes F.filter file items copying.old
        → CopiesTexts F.filter file items copying.old copying.new out.old out.new (D.told disk.old)
        (D.told disk.new) result }
{
    let Some(wanted) = copying.filter.passes_texts() else {
        return Ok(());
    };
    let texts = copying.items.texts();
    let count = texts.len();
    match put_texts(wanted, texts, out, disk) {
        Ok(()) => {}
        Err(refusal) => return Err(file_fault(refusal)),
    }
    let lines = copying.items.lines_held(count);
    copying.items.pass(count);
    copying.line = copying.line.saturating_add(lines);
    Ok(())
}

// copies the next item; false at the end of the body
fn copy_item<F: BodyFilter, D: Disk>(
    copying: &mut Copying<F>,
    out: &mut ItemWriter,
    disk: &mut D,
) -> Result<bool, FileFault>
    requires { IsThere out.old.name (D.told disk.old) }
    ensures puts { PutsSome out.old out.new (D.told disk.old) (D.told disk.new) (D.faults disk.old) (D.faults disk.new)
        result }
    ensures read { name_read copying.new.items ≡ name_read copying.old.items }
    ensures further { IfOk result (λ more. more ≡ true → bytes_left copying.new.items < bytes_left copying.old.items) }
    ensures goes { (live : List ℕ) (before : List Item) → IsBehind live before copying.old.items
        → F.filter.stands copying.old.filter before
        → CopiesItem F.filter live before copying.old copying.new out.old out.new (D.told disk.old)
        (D.told disk.new) result }
    ensures told { (file : List ℕ) (items : List Item) → bytes_in (seen (D.told disk.old)) (name_read copying.old.items)
        ≡ Some file
        → CopyComes F.filter file items copying.old
        → CopiesNext F.filter file items copying.old copying.new out.old out.new (D.told disk.old)
        (D.told disk.new) result }
{
    let Some(item) = copying.items.next(disk)? else {
        return Ok(false);
    };
    copying.line = copying.line.saturating_add(1);
    match copying.filter.push(&item, out, disk) {
        Ok(()) => Ok(true),
        Err(refusal) => Err(file_fault(refusal)),
    }
}

// copies the text lines that are held whole, and then the next item; false at the end of the body
fn copy_next<F: BodyFilter, D: Disk>(
    copying: &mut Copying<F>,
    out: &mut ItemWriter,
    disk: &mut D,
) -> Result<bool, FileFault>
    requires { CanCopy copying.old out.old.name (D.told disk.old) }
    ensures puts { PutsSome out.old out.new (D.told disk.old) (D.told disk.new) (D.faults disk.old) (D.faults disk.new)
        result }
    ensures read { name_read copying.new.items ≡ name_read copying.old.items }
    ensures further { IfOk result (λ more. more ≡ true → bytes_left copying.new.items < bytes_left copying.old.items) }
    ensures goes { (live : List ℕ) (before : List Item) → IsBehind live before copying.old.items
        → F.filter.stands copying.old.filter before
        → CopiesItem F.filter live before copying.old copying.new out.old out.new (D.told disk.old)
        (D.told disk.new) result }
    ensures told { (file : List ℕ) (items : List Item) → bytes_in (seen (D.told disk.old)) (name_read copying.old.items)
        ≡ Some file
        → CopyComes F.filter file items copying.old
        → CopiesNext F.filter file items copying.old copying.new out.old out.new (D.told disk.old)
        (D.told disk.new) result }
{
    copy_texts(copying, out, disk)?;
    copy_item(copying, out, disk)
}

// copies all items
fn copy_all<F: BodyFilter, D: Disk>(
    copying: &mut Copying<F>,
    out: &mut ItemWriter,
    disk: &mut D,
) -> Result<(), FileFault>
    requires { CanCopy copying.old out.old.name (D.told disk.old) }
    ensures puts { PutsSome out.old out.new (D.told disk.old) (D.told disk.new) (D.faults disk.old) (D.faults disk.new)
        result }
    ensures goes { (live : List ℕ) → IsBegun F.filter live copying.old
        → OnOk result (CopiesBody F.filter live [] copying.old copying.new out.old out.new (D.told disk.old)
        (D.told disk.new)) }
    ensures told { (file : List ℕ) (items : List Item) → bytes_in (seen (D.told disk.old)) (name_read copying.old.items)
        ≡ Some file
        → CopyComes F.filter file items copying.old
        → CopiesAll F.filter items copying.new.filter out.old out.new (D.told disk.old) (D.told disk.new) result }
{
    'items: loop {
        if !copy_next(copying, out, disk)? {
            return Ok(());
        }
    }
}

// puts what is left behind the last item, and appends what is held back
fn finish<F: BodyFilter, D: Disk>(
    filter: &mut F,
    out: &mut ItemWriter,
    disk: &mut D,
) -> Result<bool, DiskRefusal>
    requires { IsThere out.old.name (D.told disk.old) }
    ensures finishes { Finishes F.filter filter.old out.old out.new (D.told disk.old) (D.told disk.new)
        (D.faults disk.old) (D.faults disk.new) result }
    ensures empty { IfOk result (λ accepts. accepts ≡ true → out.new.held ≡ []) }
{
    if !filter.finish(out, disk)? {
        return Ok(false);
    }
    out.flush(disk)?;
    Ok(true)
}

/// Puts what a filter makes of the items of a body, and appends what is held back. BadFormat has the line
/// behind the last item, where the filter refuses the body.
pub fn put_body<F: BodyFilter, D: Disk>(
    copying: &mut Copying<F>,
    out: &mut ItemWriter,
    disk: &mut D,
) -> Result<(), FileFault>
    requires { CanCopy copying.old out.old.name (D.told disk.old) }
    ensures puts { PutsSome out.old out.new (D.told disk.old) (D.told disk.new) (D.faults disk.old) (D.faults disk.new)
        result }
    ensures empty { OnOk result (out.new.held ≡ []) }
    ensures told { (file : List ℕ) (items : List Item) → bytes_in (seen (D.told disk.old)) (name_read copying.old.items)
        ≡ Some file
        → CopyComes F.filter file items copying.old → PutsItems items out.old out.new (D.told disk.old)
        (D.told disk.new) result }
    ensures whole { (live : List ℕ) → IsBegun F.filter live copying.old
        → OnOk result (OfSomeBody F.filter live copying.old.filter (λ items. Puts (spelled items) out.old out.new
        (D.told disk.old) (D.told disk.new))) }
{
    copy_all(copying, out, disk)?;
    match finish(&mut copying.filter, out, disk) {
        Ok(true) => Ok(()),
        Ok(false) => Err(FileFault::BadFormat(copying.line)),
        Err(refusal) => Err(file_fault(refusal)),
    }
}
