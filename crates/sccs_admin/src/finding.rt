ghost use Rattle.std.specs.Prelude.{◌≡◌, ◌≢◌, ◌≤◌, ℕ, List, Some, length, Err, None, false, IfOk, IfSome, IsErrOf};
ghost use Rattle.std.specs.Prelude.{OnOk};
ghost use Rattle.std.specs.Str.{bytes_eq};
ghost use Rattle.sccs_base.specs.Constants.{file_limit};
ghost use Rattle.sccs_base.specs.Name.{IsSFileName, z_file};
ghost use Rattle.sccs_base.specs.Stream.{Rose};
ghost use Rattle.sccs_disk.specs.Told.{seen};
ghost use Rattle.sccs_sid.specs.declared.refusals.StepFault.TheVariants as fault;
ghost use Rattle.sccs_steps.specs.Actions.{RefusesWithin};
ghost use Rattle.sccs_steps.specs.Causes.{Ignores};
ghost use Rattle.sccs_changes.specs.PFiles.{OnlyReads};
ghost use Rattle.sccs_admin.specs.AdminStep.{admin_checks};
ghost use Rattle.sccs_admin.specs.Parts.{AreShort, FindsNamed, FindsTexts, Hears, IsFresh, IsShort, ReadsNamed};
ghost use Rattle.sccs_admin.specs.Parts.{TakesText, whole_text};
ghost use Rattle.sccs_admin.specs.Texts.{takes_input};
ghost use Rattle.sccs_words.specs.declared.commands.Given.TheVariants as given;
ghost use Rattle.sccs_disk.specs.Causes.{DiskCauses};

use sccs_base::{Bytes, FILE_LIMIT, Name, Source, TakeFault, take_all};
use sccs_disk::Disk;
use sccs_name_files::{WholeFault, read_whole};
use sccs_sid::{Refusal, StepFault};
use sccs_words::{AdminWords, Given};
use std::alloc::Global;

/// The text of a new file, and that of its description.
#[derive(Drop)]
pub struct NewTexts {
    pub text: Bytes,
    pub description: Bytes,
}

/// The text of a file that is named, or that it is too long, which is said behind other checks.
#[derive(Drop)]
pub enum Found {
    Whole(Bytes),
    TooLong,
}

// the input, whole
fn hear<I: Source>(alloc: Global, input: &mut I) -> Result<Bytes, StepFault>
    ensures hears { (i : List ℕ) → I.left input.old ≡ Some i → Hears result i }
    ensures bound { IfOk result (λ text. length text ≤ file_limit) }
    ensures checks { RefusesWithin admin_checks result }
    ensures later { I.faults input.old ≤ I.faults input.new }
    ensures read { result ≡ Err fault.ReadFault → Rose (I.faults input.old) (I.faults input.new) }
    ensures write { result ≢ Err fault.WriteFault }
    ensures broke { result ≢ Err fault.DiskFault }
{
    match take_all(alloc, input, FILE_LIMIT) {
        Ok(text) => Ok(text),
        Err(TakeFault::TooLong) => Err(StepFault::Refused(Refusal::TooLong)),
        Err(TakeFault::Failed) => Err(StepFault::ReadFault),
        Err(TakeFault::Memory) => Err(StepFault::Memory),
    }
}

// whether a name has no s-file yet
fn check_fresh<D: Disk>(name: &Name, disk: &mut D) -> Result<(), StepFault>
    ensures fresh { IsFresh result name.now (seen (D.told disk.old)) }
    ensures checks { RefusesWithin admin_checks result }
    ensures same { D.told disk.new ≡ D.told disk.old }
    ensures later { D.faults disk.old ≤ D.faults disk.new }
    ensures read { result ≢ Err fault.ReadFault }
    ensures write { result ≢ Err fault.WriteFault }
    ensures broke { result ≡ Err fault.DiskFault → Rose (D.faults disk.old) (D.faults disk.new) }
{
    match disk.size(name) {
        Ok(None) => Ok(()),
        Ok(Some(_)) => Err(StepFault::Refused(Refusal::Exists)),
        Err(_) => Err(StepFault::DiskFault),
    }
}

// whether a file is the z-file of a name
fn is_lock(file: &Name, name: &Name) -> bool
    requires { IsSFileName name.now }
    ensures { result ≡ bytes_eq (z_file name.now) file.now }
{
    name.sibling(b'z').is(file)
}

/// The bytes of a file that an option names; before the lock its own z-file wasn't there.
pub fn read_named<D: Disk>(
    alloc: Global,
    file: &Name,
    name: &Name,
    disk: &mut D,
) -> Result<Bytes, WholeFault>
    requires { IsSFileName name.now }
    ensures reads { ReadsNamed result file.now name.now (seen (D.told disk.old)) }
    ensures bound { IfOk result (λ text. length text ≤ file_limit) }
    ensures same { D.told disk.new ≡ D.told disk.old }
    ensures causes { DiskCauses (IsErrOf result WholeFault.Failed) (D.faults disk.old) (D.faults disk.new) }
{
    if is_lock(file, name) {
        return Err(WholeFault::Missing);
    }
    read_whole(alloc, disk, file)
}

// the text of a file that is named
fn named_file<D: Disk>(
    alloc: Global,
    file: &Name,
    name: &Name,
    disk: &mut D,
) -> Result<Found, StepFault>
    requires { IsSFileName name.now }
    ensures finds { FindsNamed result (given.From file.now) name.now (seen (D.told disk.old)) }
    ensures bound { IfOk result IsShort }
    ensures checks { RefusesWithin admin_checks result }
    ensures frame { OnlyReads D.told D.faults disk.old disk.new result }
{
    match read_named(alloc, file, name, disk) {
        Ok(text) => Ok(Found::Whole(text)),
        Err(WholeFault::TooLong) => Ok(Found::TooLong),
        Err(WholeFault::Missing) => Err(StepFault::Refused(Refusal::Missing)),
        Err(WholeFault::Failed) => Err(StepFault::DiskFault),
        Err(WholeFault::Memory) => Err(StepFault::Memory),
    }
}

// the text of the file that an option names; without one it is empty
fn named_text<D: Disk>(
    alloc: Global,
    given: Given,
    name: &Name,
    disk: &mut D,
) -> Result<Found, StepFault>
    requires { IsSFileName name.now }
    ensures finds { FindsNamed result given name.now (seen (D.told disk.old)) }
    ensures bound { IfOk result IsShort }
    ensures checks { RefusesWithin admin_checks result }
    ensures frame { OnlyReads D.told D.faults disk.old disk.new result }
{
    match given {
        Given::No => Ok(Found::Whole(Bytes::empty(alloc))),
        Given::Bare => Ok(Found::Whole(Bytes::empty(alloc))),
        Given::From(file) => named_file(alloc, &file, name, disk),
    }
}

// a text, or that it is too long
fn whole_text(found: Found) -> Result<Bytes, StepFault>
    requires { IsShort found }
    ensures value { result ≡ whole_text found }
    ensures bound { IfOk result (λ text. length text ≤ file_limit) }
    ensures checks { RefusesWithin admin_checks result }
    ensures broke { result ≢ Err fault.DiskFault }
    ensures read { result ≢ Err fault.ReadFault }
    ensures write { result ≢ Err fault.WriteFault }
{
    match found {
        Found::Whole(text) => Ok(text),
        Found::TooLong => Err(StepFault::Refused(Refusal::TooLong)),
    }
}

// the text of the new file: the input where it is asked for, else what was found
fn taken_text<I: Source>(
    alloc: Global,
    given: Given,
    found: Found,
    input: &mut I,
) -> Result<Bytes, StepFault>
    requires { IsShort found }
    ensures takes { TakesText result given found (I.left input.old) }
    ensures bound { IfOk result (λ text. length text ≤ file_limit) }
    ensures ignores { takes_input given ≡ false
        → Ignores fault.ReadFault (I.left input.old) (I.left input.new) (I.faults input.old) (I.faults input.new)
        result }
    ensures checks { RefusesWithin admin_checks result }
    ensures heard { I.faults input.old ≤ I.faults input.new }
    ensures read { result ≡ Err fault.ReadFault → Rose (I.faults input.old) (I.faults input.new) }
    ensures write { result ≢ Err fault.WriteFault }
    ensures broke { result ≢ Err fault.DiskFault }
{
    match given {
        Given::Bare => hear(alloc, input),
        Given::No => whole_text(found),
        Given::From(_) => whole_text(found),
    }
}

/// The texts of a new file, where its s-file isn't there yet. These checks are made in their order: a file that is
/// named is there, the s-file isn't, no text is longer than 1,073,741,824 bytes. The input is read behind the second.
pub fn find_texts<I: Source, D: Disk>(
    alloc: Global,
    words: &AdminWords,
    name: &Name,
    input: &mut I,
    disk: &mut D,
) -> Result<NewTexts, StepFault>
    requires { IsSFileName name.now }
    ensures finds { FindsTexts words.now result name.now (I.left input.old) (seen (D.told disk.old)) }
    ensures free { OnOk result (IfSome (seen (D.told disk.old)) (λ v. v name.now ≡ None)) }
    ensures bound { IfOk result AreShort }
    ensures checks { RefusesWithin admin_checks result }
    ensures same { D.told disk.new ≡ D.told disk.old }
    ensures ignores { takes_input words.now.text ≡ false
        → Ignores fault.ReadFault (I.left input.old) (I.left input.new) (I.faults input.old) (I.faults input.new)
        result }
    ensures heard { I.faults input.old ≤ I.faults input.new }
    ensures later { D.faults disk.old ≤ D.faults disk.new }
    ensures read { result ≡ Err fault.ReadFault → Rose (I.faults input.old) (I.faults input.new) }
    ensures write { result ≢ Err fault.WriteFault }
    ensures broke { result ≡ Err fault.DiskFault → Rose (D.faults disk.old) (D.faults disk.new) }
{
    let found = named_text(alloc, words.text, name, disk)?;
    let other = named_text(alloc, words.description, name, disk)?;
    check_fresh(name, disk)?;
    let text = taken_text(alloc, words.text, found, input)?;
    let description = whole_text(other)?;
    Ok(NewTexts { text, description })
}
