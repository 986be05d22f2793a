ghost use Rattle.std.specs.Prelude.{◌≡◌, ℕ, ◌<◌, ◌==◌, suc, Some, IfOk, OnOk, length, replicate, slice_get};
ghost use Rattle.std.specs.Prelude.{if◌then◌else◌};
ghost use Rattle.std.specs.List.{AllByRecursion};
ghost use Rattle.sccs_trunks.specs.Counts.{IsInOrder, both, counted, counts_at, counts_from, no_lines, tally_of};
ghost use Rattle.sccs_trunks.specs.Counts.{with_more};
ghost use Rattle.sccs_trunks.specs.Runs.{lines_of, run_lines};

use crate::runs::LineRun;
use sccs_base::Memory;
use std::alloc::Global;

/// How many lines a delta inserted, deleted and left unchanged.
#[derive(Clone, Copy, Debug, PartialEq, Eq)]
pub struct LineCounts {
    pub inserted: u64,
    pub deleted: u64,
    pub unchanged: u64,
}

// How many lines a serial inserted and deleted.
#[derive(Clone, Copy)]
struct Tally {
    inserted: u64,
    deleted: u64,
}

impl Tally {
    // with more lines
    fn plus(self, more: Tally) -> Result<Tally, Memory>
        ensures { IfOk result (λ sum. sum ≡ both self more) }
    {
        let Some(inserted) = self.inserted.checked_add(more.inserted) else {
            return Err(Memory);
        };
        let Some(deleted) = self.deleted.checked_add(more.deleted) else {
            return Err(Memory);
        };
        Ok(Tally { inserted, deleted })
    }

    // the counts, where the version before has so many lines
    fn counts(&self, before: u64) -> LineCounts
        ensures { result ≡ counted before self.now }
    {
        LineCounts {
            inserted: self.inserted,
            deleted: self.deleted,
            unchanged: before.saturating_sub(self.deleted),
        }
    }
}

// no lines of each serial
fn no_tallies(alloc: Global, serials: u64) -> Result<Vec<Tally>, Memory>
    ensures { IfOk result (λ tallies. tallies.items ≡ replicate serials no_lines) }
{
    let none = Tally {
        inserted: 0,
        deleted: 0,
    };
    let tallies = vec![in alloc; none; serials as usize]?;
    Ok(tallies)
}

// adds lines to those of a serial, if it is there
fn add(tallies: &mut Vec<Tally>, serial: u16, more: Tally) -> Result<(), Memory>
    ensures { OnOk result (tallies.new.items
        ≡ with_more 1 (λ s. if serial == s then more else no_lines) tallies.old.items) }
{
    let Some(at) = usize::from(serial).checked_sub(1) else {
        return Ok(());
    };
    if tallies.len() <= at {
        return Ok(());
    }
    let sum = tallies[at].plus(more)?;
    tallies[at] = sum;
    Ok(())
}

// adds the lines of a run to those of its inserter and its deleter
fn add_run(tallies: &mut Vec<Tally>, run: &LineRun) -> Result<(), Memory>
    ensures { OnOk result (tallies.new.items ≡ with_more 1 (tally_of (lines_of run.now)) tallies.old.items) }
{
    let count = run.lines.len() as u64;
    let inserted = Tally {
        inserted: count,
        deleted: 0,
    };
    let deleted = Tally {
        inserted: 0,
        deleted: count,
    };
    add(tallies, run.inserter, inserted)?;
    add(tallies, run.deleter, deleted)?;
    Ok(())
}

// how many lines each serial inserted and deleted
fn tallies_of(alloc: Global, runs: &[LineRun], serials: u64) -> Result<Vec<Tally>, Memory>
    ensures { IfOk result (λ tallies.
        tallies.items ≡ with_more 1 (tally_of (run_lines runs.now)) (replicate serials no_lines)) }
{
    let mut tallies = no_tallies(alloc, serials)?;
    let mut at = 0;
    'runs: while let Some(run) = runs.get(at) {
        add_run(&mut tallies, run)?;
        at += 1;
    }
    Ok(tallies)
}

// the counts of the serials from 1 on
fn counts_of(alloc: Global, tallies: &[Tally]) -> Result<Vec<LineCounts>, Memory>
    ensures { IfOk result (λ counts. counts.items ≡ counts_from 0 tallies.now) }
{
    let mut counts = Vec::new(alloc);
    let mut rest = tallies;
    let mut before: u64 = 0;
    'serials: while let Some((tally, behind)) = rest.split_first() {
        let found = tally.counts(before);
        counts.push(found)?;
        let Some(len) = found.unchanged.checked_add(found.inserted) else {
            return Err(Memory);
        };
        before = len;
        rest = behind;
    }
    Ok(counts)
}

/// How many lines each of the serials from 1 up to so many inserted, deleted and left unchanged. More
/// lines than 64 bits count are answered as want of memory.
pub fn line_counts(alloc: Global, runs: &[LineRun], serials: u64) -> Result<Vec<LineCounts>, Memory>
    ensures count { IfOk result (λ counts. length counts.items ≡ serials) }
    ensures each { IfOk result (λ counts. AllByRecursion IsInOrder (run_lines runs.now) → (n : ℕ) → n < serials
        → slice_get counts.items n ≡ Some (counts_at (suc n) (run_lines runs.now))) }
{
    let tallies = tallies_of(alloc, runs, serials)?;
    let counts = counts_of(alloc, tallies.as_slice())?;
    Ok(counts)
}
