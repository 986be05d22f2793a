ghost use Rattle.std.specs.Prelude.{◌≡◌, ℕ, None};
ghost use Rattle.std.specs.List.{AllByRecursion};
ghost use Rattle.sccs_history.specs.History.{HasSpelling};
ghost use Rattle.sccs_printing.specs.Targets.{Prints};
ghost use Rattle.sccs_steps.specs.Causes.{PrintCauses};
ghost use Rattle.sccs_summary.specs.Summaries.{choice_of, live_text, summary_text};

use crate::choices::Choices;
use crate::entries::entry_of;
use sccs_base::Sink;
use sccs_history::Record;
use sccs_sid::StepFault;
use std::alloc::Global;

// gives what a summary has of a delta
fn give_entry<O: Sink>(
    alloc: Global,
    choices: Choices<'_>,
    delta: &Record,
    out: &mut O,
) -> Result<(), StepFault>
    requires { HasSpelling delta.now }
    ensures gives { Prints None (live_text (choice_of choices.entry) delta.now) result (O.given out.old)
        (O.given out.new) }
    ensures causes { (disk : ℕ) → PrintCauses result (O.faults out.old) (O.faults out.new) disk disk }
{
    let Ok(text) = entry_of(alloc, choices, delta) else {
        return Err(StepFault::Memory);
    };
    match out.give(text.bytes()) {
        Ok(()) => Ok(()),
        Err(_) => Err(StepFault::WriteFault),
    }
}

/// Gives the summary of a table to a sink, delta by delta.
pub fn print_summary<O: Sink>(
    alloc: Global,
    choices: Choices<'_>,
    records: &[Record],
    out: &mut O,
) -> Result<(), StepFault>
    requires { AllByRecursion HasSpelling records.now }
    ensures gives { Prints None (summary_text (choice_of choices.entry) records.now) result (O.given out.old)
        (O.given out.new) }
    ensures causes { (disk : ℕ) → PrintCauses result (O.faults out.old) (O.faults out.new) disk disk }
{
    for delta in records {
        if let Err(fault) = give_entry(alloc, choices, delta, out) {
            return Err(fault);
        }
    }
    Ok(())
}
