ghost use Rattle.std.specs.Prelude.{◌≡◌, ℕ, true, List, Result};
ghost use Rattle.sccs_disk.specs.Files.{Folder};
ghost use Rattle.sccs_sid.specs.Moment.{IsMoment};
ghost use Rattle.sccs_steps.specs.StepLists.{NamedStep};
ghost use Rattle.sccs_step_lists.specs.StepLists.{AllTake, StepLists, portions_of};
ghost use Rattle.sccs_step_lists.specs.QuietSettings.{quiet};
ghost use Rattle.sccs_batch.specs.Batches.{RunsOwn};
ghost use Rattle.sccs_batch.specs.BatchText.{is_single};
ghost use Rattle.sccs_batch.specs.declared.entries.BatchEntry.{BatchEntry};

use crate::entries::BatchEntry;
use sccs_base::Sink;
use sccs_disk::Disk;
use sccs_steps::Fault;
use std::alloc::Global;

/// What does single commands.
pub trait Commands {
    /// What the command of an entry does, with the entry's input.
    ghost command: { Self → BatchEntry → StepLists };

    /// What is asked of an entry's words.
    ghost fits: { Self → BatchEntry → Type 0 };

    /// Over any disk: the steps that may come of an entry's command, whole ones with the status.
    ghost whole: { Self → BatchEntry → ℕ → List NamedStep → Type 0 };

    /// The same of a command that was begun.
    ghost begun: { Self → BatchEntry → List NamedStep → Type 0 };

    /// What changes files takes the names of s-files alone.
    ghost takes: { (commands : Self) (entry : BatchEntry) (folder : Folder) (i : List ℕ)
        → AllTake (portions_of (command commands entry) folder i) };

    /// Some steps may have been begun.
    ghost might: { (commands : Self) (entry : BatchEntry) → (ts : List NamedStep) × begun commands entry ts };

    /// Does the command of an entry, with the entry's stamp, words and input. It is no list of commands.
    fn run<O: Sink, E: Sink, D: Disk>(
        &self,
        alloc: Global,
        entry: &BatchEntry,
        out: &mut O,
        err: &mut E,
        disk: &mut D,
    ) -> Result<u8, Fault>
        requires moment { IsMoment entry.now.stamp.moment }
        requires single { is_single entry.now.words ≡ true }
        ensures { RunsOwn (command self.now entry.now) (fits self.now entry.now) (whole self.now entry.now)
            (begun self.now entry.now) result
            (quiet O.Sink E.Sink D.Disk out.old err.old disk.old)
            (quiet O.Sink E.Sink D.Disk out.new err.new disk.new) };
}
