ghost use Rattle.std.specs.Prelude.{◌≤◌, IfOk, IfSome, is_some, length, map};
ghost use Rattle.sccs_base.specs.Constants.{file_limit};
ghost use Rattle.sccs_base.specs.Name.{IsSFileName};
ghost use Rattle.sccs_disk.specs.Files.{View};
ghost use Rattle.sccs_disk.specs.Told.{seen};
ghost use Rattle.sccs_history.specs.History.{IsHeader, IsSpelled};
ghost use Rattle.sccs_sid.specs.declared.refusals.Refusal.TheVariants.{Missing};
ghost use Rattle.sccs_steps.specs.Actions.{RefusesWithin};
ghost use Rattle.sccs_steps.specs.StepEffects.{check};
ghost use Rattle.sccs_changes.specs.Changes.{unlocked};
ghost use Rattle.sccs_words.specs.declared.commands.Given.TheVariants as given;
ghost use Rattle.sccs_changes.specs.PFiles.{Answers, OnlyReads, PassesCheck};
ghost use Rattle.sccs_admin.specs.Texts.{named_by};
ghost use Rattle.sccs_alter.specs.AlterStep.{alter_checks, description_text};
ghost use Rattle.sccs_table.specs.FrontFile.{IsFirst, IsPlaced, ReadsDisk};
ghost use Rattle.sccs_table.specs.ReaderState.{file_in};
ghost use Rattle.sccs_alter.specs.Parts.{AnswersRead, ReadsAt};

use sccs_admin::read_named;
use sccs_base::{Bytes, Name};
use sccs_body::{inspect, inspect_any_sum};
use sccs_disk::Disk;
use sccs_grammar::FileFault;
use sccs_name_files::WholeFault;
use sccs_sid::{Refusal, StepFault};
use sccs_table::Front;
use sccs_words::{AdminWords, Given};
use std::alloc::Global;

/// An s-file that was read to its end, and the text of the file that -t names.
#[derive(Drop)]
pub struct Read {
    pub front: Front,
    pub text: Bytes,
}

// whether the s-file is there
fn check_there<D: Disk>(disk: &mut D, name: &Name) -> Result<(), StepFault>
    ensures told { IfSome (seen (D.told disk.old)) (λ (v : View). PassesCheck (check (is_some (v name.now)) Missing)
        result) }
    ensures checks { RefusesWithin alter_checks result }
    ensures frame { OnlyReads D.told D.faults disk.old disk.new result }
{
    match disk.size(name) {
        Ok(Some(_)) => Ok(()),
        Ok(None) => Err(StepFault::Refused(Refusal::Missing)),
        Err(_) => Err(StepFault::DiskFault),
    }
}

// the text of the file that is named
fn named_text<D: Disk>(
    alloc: Global,
    file: &Name,
    name: &Name,
    disk: &mut D,
) -> Result<Bytes, StepFault>
    requires { IsSFileName name.now }
    ensures told { IfSome (seen (D.told disk.old)) (λ v. Answers (description_text (given.From file.now)
        (map (unlocked name.now v) (named_by (given.From file.now)))) result) }
    ensures bound { IfOk result (λ text. length text ≤ file_limit) }
    ensures checks { RefusesWithin alter_checks result }
    ensures frame { OnlyReads D.told D.faults disk.old disk.new result }
{
    match read_named(alloc, file, name, disk) {
        Ok(text) => Ok(text),
        Err(WholeFault::Missing) => Err(StepFault::Refused(Refusal::Missing)),
        Err(WholeFault::TooLong) => Err(StepFault::Refused(Refusal::TooLong)),
        Err(WholeFault::Failed) => Err(StepFault::DiskFault),
        Err(WholeFault::Memory) => Err(StepFault::Memory),
    }
}

// the text of the file that -t names, or none
fn read_text<D: Disk>(
    alloc: Global,
    given: Given,
    name: &Name,
    disk: &mut D,
) -> Result<Bytes, StepFault>
    requires { IsSFileName name.now }
    ensures told { IfSome (seen (D.told disk.old))
        (λ v. Answers (description_text given (map (unlocked name.now v) (named_by given))) result) }
    ensures bound { IfOk result (λ text. length text ≤ file_limit) }
    ensures checks { RefusesWithin alter_checks result }
    ensures frame { OnlyReads D.told D.faults disk.old disk.new result }
{
    match given {
        Given::No => Ok(Bytes::empty(alloc)),
        Given::Bare => Ok(Bytes::empty(alloc)),
        Given::From(file) => named_text(alloc, &file, name, disk),
    }
}

// reads an s-file to its end; with -z its stored sum is passed over
fn read_sfile<D: Disk>(
    alloc: Global,
    fix: bool,
    disk: &mut D,
    name: &Name,
) -> Result<Front, FileFault>
    ensures frame { ReadsDisk D.told D.faults disk.old disk.new result }
    ensures first { IsFirst result }
    ensures placed { IfOk result IsPlaced }
    ensures rules { IfOk result (λ front. IsHeader front.header) }
    ensures spelled { IfOk result (λ front. IsSpelled front.header) }
    ensures told { IfSome (seen (D.told disk.old)) (λ view. AnswersRead fix (file_in view name.now) result) }
{
    if fix {
        inspect_any_sum(alloc, disk, name)
    } else {
        inspect(alloc, disk, name)
    }
}

/// Reads an s-file to its end and the text of the file that -t names, and makes these checks in their order:
/// both are there, neither is longer than 1,073,741,824 bytes, and the s-file is one, with its sum unless -z is given.
pub fn read_both<D: Disk>(
    alloc: Global,
    words: &AdminWords,
    name: &Name,
    disk: &mut D,
) -> Result<Read, StepFault>
    requires { IsSFileName name.now }
    ensures told { IfSome (seen (D.told disk.old)) (λ v. ReadsAt words.now name.now v result) }
    ensures placed { IfOk result (λ x. IsPlaced x.front) }
    ensures rules { IfOk result (λ x. IsHeader x.front.header) }
    ensures spelled { IfOk result (λ x. IsSpelled x.front.header) }
    ensures bound { IfOk result (λ x. length x.text ≤ file_limit) }
    ensures checks { RefusesWithin alter_checks result }
    ensures frame { OnlyReads D.told D.faults disk.old disk.new result }
{
    check_there(disk, name)?;
    let text = read_text(alloc, words.description, name, disk)?;
    let front = read_sfile(alloc, words.fix, disk, name)?;
    Ok(Read { front, text })
}
