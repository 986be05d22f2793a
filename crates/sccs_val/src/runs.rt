ghost use Rattle.sccs_steps.specs.Settings.{SameLoans, setting};
ghost use Rattle.sccs_val.specs.ValStep.{RunsVal};

use crate::steps::val;
use sccs_base::{Sink, Source};
use sccs_disk::Disk;
use sccs_steps::{Fault, Streams, conclude};
use sccs_words::ValWords;
use std::alloc::Global;

/// Makes the one step of val: an input past the limit is refused as the operand `-`.
pub fn run_val<I: Source, O: Sink, E: Sink, D: Disk>(
    alloc: Global,
    words: &ValWords,
    streams: &mut Streams<I, O, E, D>,
) -> Result<u8, Fault>
    ensures loans { SameLoans streams.old streams.new }
    ensures run { RunsVal words.now result (setting I.Source O.Sink E.Sink D.Disk streams.old)
        (setting I.Source O.Sink E.Sink D.Disk streams.new) }
{
    let made = val(alloc, words, streams.input, streams.out, streams.disk);
    conclude(b"-", made, streams.err)
}
