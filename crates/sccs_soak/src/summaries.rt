ghost use Rattle.std.specs.Prelude.{◌≡◌, ◌++◌, ℕ, List, Some, IfSome, true};
ghost use Rattle.sccs_base.specs.Causes.{GivesText};
ghost use Rattle.sccs_disk.specs.Files.{View};
ghost use Rattle.sccs_disk.specs.Told.{seen};
ghost use Rattle.sccs_name_files.specs.StepFiles.{look};
ghost use Rattle.sccs_history.specs.Applied.{live_serials};
ghost use Rattle.sccs_history.specs.History.{IsTable};
ghost use Rattle.sccs_history.specs.Numbers.{has};
ghost use Rattle.sccs_history.specs.declared.headers.Item.{Item};
ghost use Rattle.sccs_printing.specs.Printing.{file_checks};
ghost use Rattle.sccs_prs.specs.Gives.{IsListedFile, PrintsAll};
ghost use Rattle.sccs_prs.specs.PrsStep.{ShowsOutcome, prs_checks};
ghost use Rattle.sccs_steps.specs.Actions.{RefusesWithin};
ghost use Rattle.sccs_steps.specs.Causes.{PrintCauses};
ghost use Rattle.sccs_table.specs.ReaderState.{bytes_in};
ghost use Rattle.sccs_soak.specs.Counting.{CountsLines};
ghost use Rattle.sccs_soak.specs.Keeps.{summary_keeps};
ghost use Rattle.sccs_soak.specs.Summaries.{four_lines, live_count, newest_trunk, summary_action, summary_outcome};
ghost use Rattle.sccs_soak.specs.Summaries.{summary_text, trunk_lines};

use itoa::Buffer;
use sccs_base::{Failed, Name, NullSink, Sink, Source, give_parts};
use sccs_body::inspect;
use sccs_disk::Disk;
use sccs_history::{Record, Serials};
use sccs_keywords::LineForm;
use sccs_printing::print_text;
use sccs_sets::delta_set;
use sccs_sid::StepFault;
use sccs_steps::Utility;
use sccs_table::Front;
use std::alloc::Global;

/// What a soak prints when its commands are done: how many rounds it made, how many deltas live in its file, how
/// many lines the newest version of the trunk has, and the file's sum.
#[derive(Clone, Copy)]
pub struct Summary {
    pub rounds: u64,
}

// how many deltas live
fn live_count(records: &[Record]) -> u64
    ensures { result ≡ live_count records.now }
{
    records.iter().filter(|record| !record.removed).count() as u64
}

// the serial of the newest delta that lives on the trunk
fn newest_trunk(records: &[Record]) -> Option<u16>
    ensures { result ≡ newest_trunk records.now }
{
    let found = records
        .iter()
        .find(|record| !record.removed && record.sid.branch == 0)?;
    Some(found.serial)
}

// how many lines the version of a delta has
fn version_lines<D: Disk>(
    alloc: Global,
    name: &Name,
    front: &Front,
    serial: u16,
    disk: &mut D,
) -> Result<u64, StepFault>
    requires table { IsTable front.now.header.records }
    requires lives { has (live_serials front.now.header.records) serial ≡ true }
    ensures same { D.told disk.new ≡ D.told disk.old }
    ensures causes { PrintCauses result 0 0 (D.faults disk.old) (D.faults disk.new) }
    ensures checks { RefusesWithin file_checks result }
    ensures counts { (bytes : List ℕ) (items : List Item) → IsListedFile (bytes_in (seen (D.told disk.old)) name.now)
        front.now bytes items
        → CountsLines (Some serial) front.now.header.records items result }
{
    let none = Serials::empty(alloc);
    let Ok(set) = delta_set(alloc, &front.header, serial, &none, &none, None) else {
        return Err(StepFault::Memory);
    };
    let form = LineForm {
        module_name: None,
        has_sids: false,
        facts: None,
    };
    let shown = print_text(alloc, name, front, &set, &form, &mut NullSink, disk)?;
    Ok(shown.lines)
}

// how many lines the newest version of the trunk has
fn trunk_lines<D: Disk>(
    alloc: Global,
    name: &Name,
    front: &Front,
    disk: &mut D,
) -> Result<u64, StepFault>
    requires table { IsTable front.now.header.records }
    ensures same { D.told disk.new ≡ D.told disk.old }
    ensures causes { PrintCauses result 0 0 (D.faults disk.old) (D.faults disk.new) }
    ensures checks { RefusesWithin file_checks result }
    ensures counts { (bytes : List ℕ) (items : List Item) → IsListedFile (bytes_in (seen (D.told disk.old)) name.now)
        front.now bytes items
        → CountsLines (newest_trunk front.now.header.records) front.now.header.records items result }
{
    match newest_trunk(front.header.records.items()) {
        Some(serial) => version_lines(alloc, name, front, serial, disk),
        None => Ok(0),
    }
}

// gives the four lines
fn give_summary<O: Sink>(
    rounds: u64,
    deltas: u64,
    lines: u64,
    sum: u16,
    out: &mut O,
) -> Result<(), Failed>
    ensures { GivesText (four_lines rounds deltas lines sum) (O.given out.old) (O.given out.new) (O.faults out.old)
        (O.faults out.new) result }
{
    let (mut first, mut second) = (Buffer::new(), Buffer::new());
    let (mut third, mut last) = (Buffer::new(), Buffer::new());
    let rounds = first.format(rounds).as_bytes();
    let deltas = second.format(deltas).as_bytes();
    let lines = third.format(lines).as_bytes();
    let sum = last.format(sum).as_bytes();
    give_parts(
        out,
        &[
            rounds,
            b" steps\n",
            deltas,
            b" deltas\n",
            lines,
            b" lines\nsum ",
            sum,
            b"\n",
        ],
    )
}

// prints what is in an s-file
fn print_summary<O: Sink, D: Disk>(
    alloc: Global,
    rounds: u64,
    name: &Name,
    front: &Front,
    out: &mut O,
    disk: &mut D,
) -> Result<(), StepFault>
    requires table { IsTable front.now.header.records }
    ensures same { D.told disk.new ≡ D.told disk.old }
    ensures causes { PrintCauses result (O.faults out.old) (O.faults out.new) (D.faults disk.old) (D.faults disk.new) }
    ensures checks { RefusesWithin file_checks result }
    ensures prints { (bytes : List ℕ) (items : List Item) → IsListedFile (bytes_in (seen (D.told disk.old)) name.now)
        front.now bytes items
        → PrintsAll (summary_text rounds (Some bytes) front.now.header.records items) result (O.given out.old)
        (O.given out.new) }
{
    let lines = trunk_lines(alloc, name, front, disk)?;
    let deltas = live_count(front.header.records.items());
    match give_summary(rounds, deltas, lines, front.sum, out) {
        Ok(()) => Ok(()),
        Err(_) => Err(StepFault::WriteFault),
    }
}

// reads an s-file, and prints what is in it
fn summarize<O: Sink, D: Disk>(
    alloc: Global,
    rounds: u64,
    name: &Name,
    out: &mut O,
    disk: &mut D,
) -> Result<(), StepFault>
    ensures shows { IfSome (seen (D.told disk.old)) (λ (v : View). ShowsOutcome name.now
        (summary_outcome rounds (look v name.now)) result (O.given out.old) (O.given out.new)) }
    ensures same { D.told disk.new ≡ D.told disk.old }
    ensures causes { PrintCauses result (O.faults out.old) (O.faults out.new) (D.faults disk.old) (D.faults disk.new) }
    ensures checks { RefusesWithin prs_checks result }
{
    let front = inspect(alloc, disk, name)?;
    print_summary(alloc, rounds, name, &front, out, disk)
}

impl Utility for Summary {
    ghost action = { λ summary. summary_action summary.rounds };

    ghost keeps = { λ summary. summary_keeps summary.rounds };

    fn step<I: Source, O: Sink, E: Sink, D: Disk>(
        &self,
        alloc: Global,
        name: &Name,
        _input: &mut I,
        out: &mut O,
        _err: &mut E,
        disk: &mut D,
    ) -> Result<(), StepFault> {
        summarize(alloc, self.rounds, name, out, disk)
    }

    fn name(&self, operand: &[u8]) -> Option<Name> {
        Name::read_sfile(operand)
    }

    fn takes_input(&self) -> bool {
        false
    }
}
