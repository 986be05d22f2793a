ghost use Rattle.std.specs.Prelude.{◌≡◌, ◌≢◌, ℕ, List, Err, IfOk, IfSome, Ok, Some};
ghost use Rattle.sccs_base.specs.Name.{IsSFileName, x_file};
ghost use Rattle.sccs_disk.specs.Files.{View};
ghost use Rattle.sccs_disk.specs.Told.{seen};
ghost use Rattle.sccs_body.specs.BodyFile.{items_of};
ghost use Rattle.sccs_body.specs.ToCome.{IsFrontFor};
ghost use Rattle.sccs_copies.specs.Copies.{MakesOneFile};
ghost use Rattle.sccs_history.specs.History.{AreLines, IsHeader, IsSpelled};
ghost use Rattle.sccs_history.specs.declared.headers.Item.{Item};
ghost use Rattle.sccs_changes.specs.PFiles.{Answers, OnlyReads};
ghost use Rattle.sccs_sid.specs.Moment.{IsMoment};
ghost use Rattle.sccs_sid.specs.declared.refusals.StepFault.TheVariants as faults;
ghost use Rattle.sccs_steps.specs.Actions.{RefusesWithin};
ghost use Rattle.sccs_table.specs.FrontFile.{IsPlaced};
ghost use Rattle.sccs_table.specs.ReaderState.{bytes_in};
ghost use Rattle.sccs_changes.specs.Stops.{IsFirmPrepared};
ghost use Rattle.sccs_admin.specs.Parts.{IsNewSfile};
ghost use Rattle.sccs_alter.specs.Parts.{Alters};
ghost use Rattle.sccs_alter.specs.CdcStep.{cdc_checks, changed_header, text_changes};
ghost use Rattle.sccs_alter.specs.Changes.{given_lines};
ghost use Rattle.sccs_alter.specs.CdcParts.{HasLines, ReadsSfile};

use crate::alters::write_header;
use crate::cdc_checks::changeable;
use crate::cdc_headers::change_delta;
use crate::changes::{TextChanges, word_lines};
use sccs_base::{Memory, Name, Sink, Source, Text};
use sccs_body::inspect;
use sccs_changes::{Change, Prepared};
use sccs_copies::{Copying, Identity};
use sccs_disk::Disk;
use sccs_history::Header;
use sccs_records::some_lines;
use sccs_sid::{Stamp, StepFault};
use sccs_table::Front;
use sccs_words::CdcWords;
use std::alloc::Global;

/// cdc on a name: the MRs and the comment of the live delta of a SID are changed. It refuses a name that is locked,
/// an s-file that isn't there or can't be read, a login that may not make deltas, a SID that no live delta has, MRs
/// where the flag v isn't set or names a program, and a login that made neither the delta nor the first one, in this
/// order. SCCS has cdc, and POSIX lacks it.
#[derive(Drop)]
pub struct Cdc<'a> {
    pub words: &'a CdcWords,
    pub stamp: &'a Stamp,
    ghost moment: { IsMoment stamp.now.moment },
}

// reads an s-file to its end
fn read_sfile<D: Disk>(alloc: Global, disk: &mut D, name: &Name) -> Result<Front, StepFault>
    ensures told { IfSome (seen (D.told disk.old)) (λ (v : View). ReadsSfile name.now v result) }
    ensures placed { IfOk result IsPlaced }
    ensures rules { IfOk result (λ front. IsHeader front.header) }
    ensures spelled { IfOk result (λ front. IsSpelled front.header) }
    ensures checks { RefusesWithin cdc_checks result }
    ensures frame { OnlyReads D.told D.faults disk.old disk.new result }
{
    Ok(inspect(alloc, disk, name)?)
}

// the lines of a comment that is given
fn given_lines(alloc: Global, comment: &Option<Text>) -> Result<Text, Memory>
    ensures value { IfOk result (λ text. text ≡ given_lines comment.now) }
    ensures lines { IfOk result (λ _. IfSome comment.now AreLines) }
{
    match comment {
        Some(lines) => some_lines(alloc, lines.items()),
        None => Ok(Text::empty(alloc)),
    }
}

// what the words change
fn text_changes(alloc: Global, words: &CdcWords) -> Result<TextChanges, Memory>
    ensures value { IfOk result (λ changes. changes ≡ text_changes words.now) }
    ensures mrs { IfOk result (λ _. AreLines words.now.mrs) }
    ensures comment { IfOk result (λ _. IfSome words.now.comment AreLines) }
{
    let mrs = word_lines(alloc, words.mrs.items())?;
    let comment = given_lines(alloc, &words.comment)?;
    Ok(TextChanges { mrs, comment })
}

// the header with what is said of the delta
fn changed_header(
    alloc: Global,
    words: &CdcWords,
    stamp: &Stamp,
    header: Header,
) -> Result<Header, StepFault>
    requires moment { IsMoment stamp.now.moment }
    requires rules { IsHeader header }
    ensures value { Answers (changed_header words.now stamp.now header) result }
    ensures lines { IfOk result (λ _. HasLines words.now stamp.now) }
    ensures checks { RefusesWithin cdc_checks result }
    ensures broke { result ≢ Err faults.DiskFault }
{
    let serial = changeable(&header, words, stamp)?;
    let _login = stamp.login.bytes();
    let Ok(changes) = text_changes(alloc, words) else {
        return Err(StepFault::Memory);
    };
    match change_delta(alloc, header, serial, &changes, stamp) {
        Ok(header) => Ok(header),
        Err(_) => Err(StepFault::Memory),
    }
}

// writes the x-file of an s-file that was read
fn write_read<D: Disk>(
    alloc: Global,
    words: &CdcWords,
    stamp: &Stamp,
    front: Front,
    name: &Name,
    disk: &mut D,
) -> Result<Prepared, StepFault>
    requires sfile { IsSFileName name.now }
    requires moment { IsMoment stamp.now.moment }
    requires rules { IsHeader front.header }
    requires spelled { IsSpelled front.header }
    ensures told { (file : List ℕ) (items : List Item) → bytes_in (seen (D.told disk.old)) name.now ≡ Some file
        → IsFrontFor file front → items_of file front ≡ Ok items
        → Alters result (changed_header words.now stamp.now front.header) items name.now (seen (D.told disk.old))
        (seen (D.told disk.new)) }
    ensures new { IfOk result IsNewSfile }
    ensures lines { IfOk result (λ _. HasLines words.now stamp.now) }
    ensures firm { IfOk result (λ p. IsFirmPrepared name.now p (D.told disk.old) (D.told disk.new)) }
    ensures frame { MakesOneFile (x_file name.now) faults.DiskFault (D.told disk.old) (D.told disk.new)
        (D.faults disk.old) (D.faults disk.new) result }
    ensures checks { RefusesWithin cdc_checks result }
    ensures read { result ≢ Err faults.ReadFault }
    ensures write { result ≢ Err faults.WriteFault }
{
    let Ok(copying) = Copying::new(alloc, name, &front, Identity) else {
        return Err(StepFault::Memory);
    };
    let header = changed_header(alloc, words, stamp, front.header)?;
    write_header(alloc, &header, copying, name, disk)
}

impl Change for Cdc<'_> {
    ghost use Rattle.sccs_alter.specs.CdcStep.{cdc_change};
    ghost use Rattle.sccs_alter.specs.CdcLocks.{cdc_locked};

    ghost change = { λ c. cdc_change c.words.now c.stamp.now };

    ghost locked = { λ c. cdc_locked c.words.now c.stamp.now };

    fn takes_input(&self) -> bool {
        false
    }

    fn prepare<I: Source, O: Sink, D: Disk>(
        &self,
        alloc: Global,
        name: &Name,
        _input: &mut I,
        _out: &mut O,
        disk: &mut D,
    ) -> Result<Prepared, StepFault> {
        let front = read_sfile(alloc, disk, name)?;
        write_read(alloc, self.words, self.stamp, front, name, disk)
    }
}
