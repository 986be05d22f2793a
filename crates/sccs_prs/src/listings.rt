ghost use Rattle.std.specs.Prelude.{◌≡◌, ℕ, [], IfOk};
ghost use Rattle.sccs_history.specs.History.{HasSpelling};
ghost use Rattle.sccs_keywords.specs.Expansion.{HasMoments};
ghost use Rattle.sccs_printing.specs.Printing.{file_checks};
ghost use Rattle.sccs_steps.specs.Actions.{RefusesWithin};
ghost use Rattle.sccs_steps.specs.Causes.{PrintCauses};
ghost use Rattle.sccs_prs.specs.Values.{item_text};
ghost use Rattle.sccs_prs.specs.Gives.{GivesHeld};

use crate::keywords::DataItem;
use crate::values::give_item;
use sccs_base::{Memory, OutputBuffer, Sink};
use sccs_history::{Header, Record};
use sccs_keywords::{Facts, HeldLine};
use sccs_sid::StepFault;
use std::alloc::Global;

/// What is held back of a text that is printed, and a value of it while it is formed.
#[derive(Drop)]
pub struct Listing {
    pub buffer: OutputBuffer,
    pub formed: HeldLine,
}

impl Listing {
    /// Nothing is held back.
    pub fn new(alloc: Global) -> Result<Listing, Memory>
        ensures { IfOk result (λ listing. listing.buffer ≡ []) }
    {
        let buffer = OutputBuffer::new(alloc)?;
        Ok(Listing {
            buffer,
            formed: HeldLine::new(alloc),
        })
    }
}

/// Prints bytes.
pub fn put<O: Sink>(buffer: &mut OutputBuffer, bytes: &[u8], out: &mut O) -> Result<(), StepFault>
    ensures gives { GivesHeld bytes.now result buffer.old buffer.new (O.given out.old) (O.given out.new) }
    ensures causes { (disk : ℕ) → PrintCauses result (O.faults out.old) (O.faults out.new) disk disk }
    ensures checks { RefusesWithin file_checks result }
{
    match buffer.give(out, bytes) {
        Ok(()) => Ok(()),
        Err(_) => Err(StepFault::WriteFault),
    }
}

/// Prints what a keyword stands for that the header answers.
pub fn put_item<O: Sink>(
    item: DataItem,
    header: &Header,
    facts: &Facts,
    delta: &Record,
    listing: &mut Listing,
    out: &mut O,
) -> Result<(), StepFault>
    requires spelled { HasSpelling delta.now }
    requires moments { HasMoments facts.now }
    ensures gives { GivesHeld (item_text header.now facts.now delta.now item) result listing.old.buffer
        listing.new.buffer (O.given out.old) (O.given out.new) }
    ensures causes { (disk : ℕ) → PrintCauses result (O.faults out.old) (O.faults out.new) disk disk }
    ensures checks { RefusesWithin file_checks result }
{
    listing.formed.clear();
    let Ok(()) = give_item(item, header, facts, delta, &mut listing.formed) else {
        return Err(StepFault::Memory);
    };
    put(&mut listing.buffer, listing.formed.bytes(), out)
}
