ghost use Rattle.std.specs.Prelude.{◌≡◌, ◌≢◌, ◌<◌, ◌≤◌, ◌+◌, ◌^◌, ℕ, List, [], ◌∷◌, true, false, Some, length, IfOk};
ghost use Rattle.std.specs.Prelude.{OnOk};
ghost use Rattle.sccs_base.specs.Cut.{cut};
ghost use Rattle.sccs_disk.specs.Told.{seen};
ghost use Rattle.sccs_history.specs.Applied.{serials_of};
ghost use Rattle.sccs_history.specs.Body.{HistoryLine};
ghost use Rattle.sccs_history.specs.Numbers.{Falls};
ghost use Rattle.sccs_history.specs.declared.headers.Item.{Item};
ghost use Rattle.sccs_table.specs.ReaderState.{bytes_in};
ghost use Rattle.sccs_table.specs.Runs.{lf_count};
ghost use Rattle.sccs_keywords.specs.Forms.{line_form, formed_lines};
ghost use Rattle.sccs_tokens.specs.Written.{ended};
ghost use Rattle.sccs_versions.specs.Coming.{Coming};
ghost use Rattle.sccs_versions.specs.Place.{name_of, steps_to_end};
ghost use Rattle.sccs_versions.specs.WasRead.{HasRead};
ghost use Rattle.sccs_printing.specs.Counted.{with_lines, no_lines};
ghost use Rattle.sccs_printing.specs.Giving.{CanGive, GivesAll, GivesMore, GivesRun, KeepsForm, KeepsGiving};
ghost use Rattle.sccs_printing.specs.Giving.{KeepsVersion, ReadSome, ReadWhole, ReadsMore, giving_form};
ghost use Rattle.sccs_printing.specs.Targets.{CanTake, GivesTo, IsApart, UsesTarget, file_of, target_bytes, held_back};

use crate::shown::Shown;
use crate::targets::{Target, put, put_line};
use sccs_base::{Line, Sink};
use sccs_disk::Disk;
use sccs_history::Record;
use sccs_keywords::{HeldLine, LineForm, SidFinder, give_line, give_lines};
use sccs_sid::StepFault;
use sccs_versions::{Next, VersionReader};
use std::alloc::Global;

/// How the lines of a version are given, what was found of those that were, and where they go.
#[derive(Drop)]
pub struct Giving<'a> {
    pub form: &'a LineForm<'a>,
    pub sids: SidFinder<'a>,
    // lines that don't go as they stand in the file
    pub formed: HeldLine,
    pub shown: Shown,
    pub target: Target,
}

impl<'a> Giving<'a> {
    /// Before all lines of a version of a table.
    pub fn new(
        alloc: Global,
        form: &'a LineForm<'a>,
        records: &'a [Record],
        target: Target,
    ) -> Giving<'a>
        requires { Falls 65536 (serials_of records.now) }
        ensures form { giving_form result ≡ line_form form.now }
        ensures sids { result.sids ≡ records.now }
        ensures shown { result.shown ≡ no_lines }
        ensures target { result.target ≡ target }
    {
        Giving {
            form,
            sids: SidFinder::new(records),
            formed: HeldLine::new(alloc),
            shown: Shown {
                lines: 0,
                keywords: false,
            },
            target,
        }
    }

    // forms whole lines that one delta inserted, and gives them
    fn form_lines<O: Sink, D: Disk>(
        &mut self,
        inserter: u16,
        lines: &[u8],
        out: &mut O,
        disk: &mut D,
    ) -> Result<(), StepFault>
        requires can { CanGive self.old (D.told disk.old) }
        requires whole { (cut lines.now).tail ≡ [] }
        requires few { self.old.shown.lines + length (cut lines.now).lines < 2 ^ 64 }
        ensures frame { UsesTarget (file_of self.old.target) O.given O.faults D.told D.faults out.old out.new disk.old
            disk.new result }
        ensures gives { GivesTo (file_of self.old.target) (formed_lines (giving_form self.old) self.old.sids
            (self.old.shown.lines + 1) inserter (cut lines.now).lines) result (held_back self.old.target)
            (held_back self.new.target)
            (target_bytes (file_of self.old.target) (O.given out.old) (D.told disk.old))
            (target_bytes (file_of self.old.target) (O.given out.new) (D.told disk.new)) }
        ensures keeps { KeepsGiving self.old self.new }
    {
        self.formed.clear();
        let before = self.shown.lines;
        let Ok(()) = give_lines(
            self.form,
            &mut self.sids,
            inserter,
            before,
            lines,
            &mut self.formed,
        ) else {
            return Err(StepFault::Memory);
        };
        put(&mut self.target, self.formed.bytes(), out, disk)
    }

    // gives whole lines that one delta inserted, as they are or formed
    fn give_formed<O: Sink, D: Disk>(
        &mut self,
        changes: bool,
        inserter: u16,
        lines: &[u8],
        out: &mut O,
        disk: &mut D,
    ) -> Result<(), StepFault>
        requires can { CanGive self.old (D.told disk.old) }
        requires whole { (cut lines.now).tail ≡ [] }
        requires few { self.old.shown.lines + length (cut lines.now).lines < 2 ^ 64 }
        requires same { changes ≡ false → (n : ℕ) → formed_lines (giving_form self.old) self.old.sids
            (self.old.shown.lines + 1) n (cut lines.now).lines ≡ lines.now }
        ensures frame { UsesTarget (file_of self.old.target) O.given O.faults D.told D.faults out.old out.new disk.old
            disk.new result }
        ensures gives { GivesTo (file_of self.old.target) (formed_lines (giving_form self.old) self.old.sids
            (self.old.shown.lines + 1) inserter (cut lines.now).lines) result (held_back self.old.target)
            (held_back self.new.target)
            (target_bytes (file_of self.old.target) (O.given out.old) (D.told disk.old))
            (target_bytes (file_of self.old.target) (O.given out.new) (D.told disk.new)) }
        ensures keeps { KeepsGiving self.old self.new }
    {
        if changes {
            self.form_lines(inserter, lines, out, disk)
        } else {
            put(&mut self.target, lines, out, disk)
        }
    }

    // gives so many whole lines that one delta inserted, and counts them
    fn give_lines<O: Sink, D: Disk>(
        &mut self,
        inserter: u16,
        more: u64,
        lines: &[u8],
        out: &mut O,
        disk: &mut D,
    ) -> Result<(), StepFault>
        requires can { CanGive self.old (D.told disk.old) }
        requires counted { more ≡ lf_count lines.now }
        requires whole { (cut lines.now).tail ≡ [] }
        ensures frame { UsesTarget (file_of self.old.target) O.given O.faults D.told D.faults out.old out.new disk.old
            disk.new result }
        ensures gives { GivesTo (file_of self.old.target) (formed_lines (giving_form self.old) self.old.sids
            (self.old.shown.lines + 1) inserter (cut lines.now).lines) result (held_back self.old.target)
            (held_back self.new.target)
            (target_bytes (file_of self.old.target) (O.given out.old) (D.told disk.old))
            (target_bytes (file_of self.old.target) (O.given out.new) (D.told disk.new)) }
        ensures shown { OnOk result (self.new.shown
            ≡ with_lines (giving_form self.old) self.old.shown (cut lines.now).lines) }
        ensures keeps { KeepsForm self.old self.new }
    {
        let Some(count) = self.shown.lines.checked_add(more) else {
            return Err(StepFault::Memory);
        };
        let replaces = self.form.replaces(lines);
        let changes = replaces | self.form.has_prefix();
        self.give_formed(changes, inserter, lines, out, disk)?;
        self.shown = Shown {
            lines: count,
            keywords: self.shown.keywords | replaces,
        };
        Ok(())
    }

    // forms a line and gives it
    fn form_line<O: Sink, D: Disk>(
        &mut self,
        inserter: u16,
        number: u64,
        line: &Line,
        out: &mut O,
        disk: &mut D,
    ) -> Result<(), StepFault>
        requires can { CanGive self.old (D.told disk.old) }
        ensures frame { UsesTarget (file_of self.old.target) O.given O.faults D.told D.faults out.old out.new disk.old
            disk.new result }
        ensures gives { GivesTo (file_of self.old.target) (formed_lines (giving_form self.old) self.old.sids number
            inserter (line.now ∷ [])) result (held_back self.old.target) (held_back self.new.target)
            (target_bytes (file_of self.old.target) (O.given out.old) (D.told disk.old))
            (target_bytes (file_of self.old.target) (O.given out.new) (D.told disk.new)) }
        ensures keeps { KeepsGiving self.old self.new }
    {
        self.formed.clear();
        let Ok(()) = give_line(
            self.form,
            &mut self.sids,
            inserter,
            number,
            line.bytes(),
            &mut self.formed,
        ) else {
            return Err(StepFault::Memory);
        };
        put(&mut self.target, self.formed.bytes(), out, disk)
    }

    // gives a line, as it is or formed
    fn give_one<O: Sink, D: Disk>(
        &mut self,
        changes: bool,
        inserter: u16,
        number: u64,
        line: &Line,
        out: &mut O,
        disk: &mut D,
    ) -> Result<(), StepFault>
        requires can { CanGive self.old (D.told disk.old) }
        requires same { changes ≡ false → formed_lines (giving_form self.old) self.old.sids number inserter
            (line.now ∷ []) ≡ ended line.now }
        ensures frame { UsesTarget (file_of self.old.target) O.given O.faults D.told D.faults out.old out.new disk.old
            disk.new result }
        ensures gives { GivesTo (file_of self.old.target) (formed_lines (giving_form self.old) self.old.sids number
            inserter (line.now ∷ [])) result (held_back self.old.target) (held_back self.new.target)
            (target_bytes (file_of self.old.target) (O.given out.old) (D.told disk.old))
            (target_bytes (file_of self.old.target) (O.given out.new) (D.told disk.new)) }
        ensures keeps { KeepsGiving self.old self.new }
    {
        if changes {
            self.form_line(inserter, number, line, out, disk)
        } else {
            put_line(&mut self.target, line.bytes(), out, disk)
        }
    }

    // gives a line that a delta inserted, and counts it
    fn give_line<O: Sink, D: Disk>(
        &mut self,
        inserter: u16,
        line: &Line,
        out: &mut O,
        disk: &mut D,
    ) -> Result<(), StepFault>
        requires can { CanGive self.old (D.told disk.old) }
        ensures frame { UsesTarget (file_of self.old.target) O.given O.faults D.told D.faults out.old out.new disk.old
            disk.new result }
        ensures gives { GivesTo (file_of self.old.target) (formed_lines (giving_form self.old) self.old.sids
            (self.old.shown.lines + 1) inserter (line.now ∷ [])) result (held_back self.old.target)
            (held_back self.new.target)
            (target_bytes (file_of self.old.target) (O.given out.old) (D.told disk.old))
            (target_bytes (file_of self.old.target) (O.given out.new) (D.told disk.new)) }
        ensures shown { OnOk result (self.new.shown
            ≡ with_lines (giving_form self.old) self.old.shown (line.now ∷ [])) }
        ensures keeps { KeepsForm self.old self.new }
    {
        let Some(number) = self.shown.lines.checked_add(1) else {
            return Err(StepFault::Memory);
        };
        let replaces = self.form.replaces(line.bytes());
        let changes = replaces | self.form.has_prefix();
        self.give_one(changes, inserter, number, line, out, disk)?;
        self.shown = Shown {
            lines: number,
            keywords: self.shown.keywords | replaces,
        };
        Ok(())
    }
}

// gives the lines that are held whole, and passes over them
fn give_run<O: Sink, D: Disk>(
    giving: &mut Giving<'_>,
    version: &mut VersionReader<'_>,
    out: &mut O,
    disk: &mut D,
) -> Result<(), StepFault>
    requires can { CanGive giving.old (D.told disk.old) }
    ensures frame { UsesTarget (file_of giving.old.target) O.given O.faults D.told D.faults out.old out.new disk.old
        disk.new result }
    ensures keeps { KeepsForm giving.old giving.new }
    ensures version { KeepsVersion version.old version.new }
    ensures left { steps_to_end version.new ≤ steps_to_end version.old }
    ensures gives { (file : List ℕ) (lines : List HistoryLine) → Coming file version.old lines
        → GivesRun file version.new lines result giving.old giving.new (target_bytes (file_of giving.old.target)
        (O.given out.old) (D.told disk.old)) (target_bytes (file_of giving.old.target) (O.given out.new)
        (D.told disk.new)) }
    ensures read { OnOk result ((live : List ℕ) (before : List Item) → HasRead live version.old before
        → ReadSome live version.new before giving.old giving.new (target_bytes (file_of giving.old.target)
        (O.given out.old) (D.told disk.old)) (target_bytes (file_of giving.old.target) (O.given out.new)
        (D.told disk.new))) }
{
    let texts = version.texts();
    let count = texts.len();
    if count == 0 {
        return Ok(());
    }
    let more = version.lines_held(count);
    giving.give_lines(version.inserter(), more, texts, out, disk)?;
    version.pass(count);
    Ok(())
}

// gives the next line; false at the end of the body
fn give_next<O: Sink, D: Disk>(
    giving: &mut Giving<'_>,
    version: &mut VersionReader<'_>,
    out: &mut O,
    disk: &mut D,
) -> Result<bool, StepFault>
    requires can { CanGive giving.old (D.told disk.old) }
    ensures frame { UsesTarget (file_of giving.old.target) O.given O.faults D.told D.faults out.old out.new disk.old
        disk.new result }
    ensures keeps { KeepsForm giving.old giving.new }
    ensures version { KeepsVersion version.old version.new }
    ensures further { IfOk result (λ more. more ≡ true → steps_to_end version.new < steps_to_end version.old) }
    ensures gives { (file : List ℕ) (lines : List HistoryLine) → bytes_in (seen (D.told disk.old)) (name_of version.old)
        ≡ Some file → Coming file version.old lines
        → GivesMore file version.new lines result giving.old giving.new (target_bytes (file_of giving.old.target)
        (O.given out.old) (D.told disk.old)) (target_bytes (file_of giving.old.target) (O.given out.new)
        (D.told disk.new)) }
    ensures read { (live : List ℕ) (before : List Item) → HasRead live version.old before
        → ReadsMore live version.new before result giving.old giving.new (target_bytes (file_of giving.old.target)
        (O.given out.old) (D.told disk.old)) (target_bytes (file_of giving.old.target) (O.given out.new)
        (D.told disk.new)) }
{
    match version.next(disk)? {
        Next::Line(line) => match giving.give_line(version.inserter(), &line, out, disk) {
            Ok(()) => Ok(true),
            Err(fault) => Err(fault),
        },
        Next::Hidden => Ok(true),
        Next::End => Ok(false),
    }
}

/// Gives all lines of a version that are to come.
pub fn give_all<O: Sink, D: Disk>(
    giving: &mut Giving<'_>,
    version: &mut VersionReader<'_>,
    out: &mut O,
    disk: &mut D,
) -> Result<(), StepFault>
    requires can { CanGive giving.old (D.told disk.old) }
    requires apart { IsApart (file_of giving.old.target) (name_of version.old) }
    ensures frame { UsesTarget (file_of giving.old.target) O.given O.faults D.told D.faults out.old out.new disk.old
        disk.new result }
    ensures keeps { KeepsForm giving.old giving.new }
    ensures there { CanTake (file_of giving.new.target) (D.told disk.new) }
    ensures gives { (file : List ℕ) (lines : List HistoryLine) → bytes_in (seen (D.told disk.old)) (name_of version.old)
        ≡ Some file → Coming file version.old lines
        → GivesAll lines result giving.old giving.new (target_bytes (file_of giving.old.target) (O.given out.old)
        (D.told disk.old)) (target_bytes (file_of giving.old.target) (O.given out.new) (D.told disk.new)) }
    ensures read { OnOk result ((live : List ℕ) (before : List Item) → HasRead live version.old before
        → ReadWhole live version.old.set before giving.old giving.new (target_bytes (file_of giving.old.target)
        (O.given out.old) (D.told disk.old)) (target_bytes (file_of giving.old.target) (O.given out.new)
        (D.told disk.new))) }
{
    'lines: loop {
        give_run(giving, version, out, disk)?;
        if !give_next(giving, version, out, disk)? {
            return Ok(());
        }
    }
}
