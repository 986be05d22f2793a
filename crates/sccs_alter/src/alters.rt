ghost use Rattle.std.specs.Prelude.{◌≡◌, ◌≢◌, ◌≤◌, ℕ, List, Err, IfOk, Ok, OnOk, Some, false, length};
ghost use Rattle.std.specs.Str.{bytes_eq};
ghost use Rattle.sccs_base.specs.Constants.{file_limit};
ghost use Rattle.sccs_base.specs.Name.{IsSFileName, x_file};
ghost use Rattle.sccs_base.specs.Stream.{Rose};
ghost use Rattle.sccs_disk.specs.Calls.{IsThere};
ghost use Rattle.sccs_disk.specs.Told.{seen};
ghost use Rattle.sccs_body.specs.BodyFile.{items_of};
ghost use Rattle.sccs_body.specs.Reader.{name_read};
ghost use Rattle.sccs_body.specs.ToCome.{IsFrontFor};
ghost use Rattle.sccs_copies.specs.Copies.{CopyComes, MakesOneFile};
ghost use Rattle.sccs_copies.specs.Filters.{identity};
ghost use Rattle.sccs_history.specs.History.{IsSpelled};
ghost use Rattle.sccs_history.specs.declared.headers.Item.{Item};
ghost use Rattle.sccs_name_files.specs.Touches.{TouchesOnly};
ghost use Rattle.sccs_name_files.specs.StepFiles.{Moves};
ghost use Rattle.sccs_sid.specs.declared.refusals.StepFault.TheVariants as faults;
ghost use Rattle.sccs_steps.specs.Actions.{RefusesWithin};
ghost use Rattle.sccs_table.specs.ReaderState.{bytes_in};
ghost use Rattle.sccs_changes.specs.Stops.{IsFirmPrepared};
ghost use Rattle.sccs_admin.specs.Parts.{IsNewSfile};
ghost use Rattle.sccs_alter.specs.AlterStep.{alter_change, alter_checks, altered_header};
ghost use Rattle.sccs_alter.specs.CheckStep.{check_checks};
ghost use Rattle.sccs_alter.specs.Locks.{alter_locked};
ghost use Rattle.sccs_alter.specs.Parts.{Alters};

use crate::headers::altered_header;
use crate::reading::{Read, read_both};
use sccs_admin::prepared;
use sccs_base::{Name, Sink, Source};
use sccs_changes::{Change, Prepared};
use sccs_copies::{Copying, Identity, write_sfile};
use sccs_disk::Disk;
use sccs_history::Header;
use sccs_sid::StepFault;
use sccs_words::AdminWords;
use std::alloc::Global;

/// admin on an s-file that is there: other users, flags and description over the same body. POSIX, Shell and
/// Utilities, admin, -a, -e, -f, -d, -t and -z.
#[derive(Clone, Copy)]
pub struct Alter<'a> {
    pub words: &'a AdminWords,
}

/// Writes the x-file of a header over the body of an s-file, as it is read again.
pub fn write_header<D: Disk>(
    alloc: Global,
    header: &Header,
    copying: Copying<Identity>,
    name: &Name,
    disk: &mut D,
) -> Result<Prepared, StepFault>
    requires sfile { IsSFileName name.now }
    requires spelled { IsSpelled header.now }
    requires own { name_read copying.items ≡ name.now }
    ensures told { (file : List ℕ) (items : List Item) → bytes_in (seen (D.told disk.old)) name.now ≡ Some file
        → CopyComes identity file items copying → Alters result (Ok header.now) items name.now (seen (D.told disk.old))
        (seen (D.told disk.new)) }
    ensures new { IfOk result IsNewSfile }
    ensures firm { IfOk result (λ p. IsFirmPrepared name.now p (D.told disk.old) (D.told disk.new)) }
    ensures frame { MakesOneFile (x_file name.now) faults.DiskFault (D.told disk.old) (D.told disk.new)
        (D.faults disk.old) (D.faults disk.new) result }
    ensures checks { RefusesWithin check_checks result }
    ensures read { result ≢ Err faults.ReadFault }
    ensures write { result ≢ Err faults.WriteFault }
{
    write_sfile(alloc, header, copying, name, disk)?;
    Ok(prepared(alloc))
}

// writes the x-file of an s-file that was read
fn write_read<D: Disk>(
    alloc: Global,
    words: &AdminWords,
    x: Read,
    name: &Name,
    disk: &mut D,
) -> Result<Prepared, StepFault>
    requires sfile { IsSFileName name.now }
    requires spelled { IsSpelled x.front.header }
    requires bound { length x.text ≤ file_limit }
    ensures told { (file : List ℕ) (items : List Item) → bytes_in (seen (D.told disk.old)) name.now ≡ Some file
        → IsFrontFor file x.front → items_of file x.front ≡ Ok items
        → Alters result (altered_header words.now x.front.header x.text) items name.now (seen (D.told disk.old))
        (seen (D.told disk.new)) }
    ensures new { IfOk result IsNewSfile }
    ensures firm { IfOk result (λ p. IsFirmPrepared name.now p (D.told disk.old) (D.told disk.new)) }
    ensures frame { MakesOneFile (x_file name.now) faults.DiskFault (D.told disk.old) (D.told disk.new)
        (D.faults disk.old) (D.faults disk.new) result }
    ensures checks { RefusesWithin alter_checks result }
    ensures read { result ≢ Err faults.ReadFault }
    ensures write { result ≢ Err faults.WriteFault }
{
    let Ok(copying) = Copying::new(alloc, name, &x.front, Identity) else {
        return Err(StepFault::Memory);
    };
    let header = altered_header(alloc, words, x.front.header, x.text.bytes())?;
    write_header(alloc, &header, copying, name, disk)
}

impl Change for Alter<'_> {
    ghost change = { λ a. alter_change a.words.now };

    ghost locked = { λ a. alter_locked a.words.now };

    fn takes_input(&self) -> bool {
        false
    }

    fn prepare<I: Source, O: Sink, D: Disk>(
        &self,
        alloc: Global,
        name: &Name,
        _input: &mut I,
        _out: &mut O,
        disk: &mut D,
    ) -> Result<Prepared, StepFault> {
        let x = read_both(alloc, self.words, name, disk)?;
        write_read(alloc, self.words, x, name, disk)
    }
}
