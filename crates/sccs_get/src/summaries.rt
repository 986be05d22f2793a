ghost use Rattle.std.specs.Prelude.{◌≡◌, [], ℕ, List, Option, false};
ghost use Rattle.std.specs.List.{AllByRecursion};
ghost use Rattle.sccs_base.specs.Name.{IsSFileName};
ghost use Rattle.sccs_disk.specs.Told.{seen};
ghost use Rattle.sccs_history.specs.History.{HasSpelling};
ghost use Rattle.sccs_crash_points.specs.Unlocked.{KeepsOthers};
ghost use Rattle.sccs_steps.specs.Actions.{RefusesWithin};
ghost use Rattle.sccs_steps.specs.Calls.{world};
ghost use Rattle.sccs_steps.specs.Causes.{PrintCauses};
ghost use Rattle.sccs_summary.specs.SummaryFiles.{LosesNothing, is_summary};
ghost use Rattle.sccs_get.specs.SummaryGiving.{GivesSummary};
ghost use Rattle.sccs_get.specs.SummaryStep.{summary_got, writes_l};

use crate::found::Found;
use sccs_base::{Name, Sink};
use sccs_disk::Disk;
use sccs_sid::StepFault;
use sccs_summary::{Choices, make_l, print_summary};
use sccs_table::Front;
use sccs_words::{GetWords, Summary};
use std::alloc::Global;

/// Whether the summary becomes the l-file: with -l.
pub fn writes_l(words: &GetWords) -> bool
    ensures { result ≡ writes_l words.now }
{
    matches!(words.summary, Summary::File)
}

/// Gives the summary of a get: to standard output with -L, into the l-file with -l. SCCS, get.
pub fn give_summary<O: Sink, D: Disk>(
    alloc: Global,
    words: &GetWords,
    name: &Name,
    front: &Front,
    found: &Found,
    out: &mut O,
    disk: &mut D,
) -> Result<(), StepFault>
    requires sfile { IsSFileName name.now }
    requires spelled { AllByRecursion HasSpelling front.now.header.records }
    ensures gives { (err : Option (List ℕ)) → GivesSummary words.now name.now
        (summary_got words.now front.now.header.records found.now) result
        (world (seen (D.told disk.old)) (O.given out.old) err) (world (seen (D.told disk.new)) (O.given out.new) err) }
    ensures stops { LosesNothing (D.told disk.old) (D.told disk.new) }
    ensures others { KeepsOthers (is_summary name.now) (D.told disk.old) (D.told disk.new) }
    ensures same { writes_l words.now ≡ false → D.told disk.new ≡ D.told disk.old }
    ensures checks { RefusesWithin [] result }
    ensures causes { PrintCauses result (O.faults out.old) (O.faults out.new) (D.faults disk.old) (D.faults disk.new) }
{
    let choices = Choices {
        set: &found.set,
        include: &found.taken_in,
        exclude: &found.left_out,
        cutoff: words.cutoff,
    };
    let records = front.header.records.items();
    match words.summary {
        Summary::No => Ok(()),
        Summary::File => make_l(alloc, choices, records, name, disk),
        Summary::Out => print_summary(alloc, choices, records, out),
    }
}
