ghost use Rattle.std.specs.Prelude.{◌≡◌, true, Ok};
ghost use Rattle.sccs_steps.specs.Settings.{setting_of};
ghost use Rattle.sccs_words.specs.Meaning.{meaning};
ghost use Rattle.sccs_batch.specs.BatchText.{is_single};
ghost use Rattle.sccs_top.specs.CommandLaws.{command_might, command_takes};
ghost use Rattle.sccs_top.specs.Runs.{BegunOf, FitsEntry, RunsWords, WholeOf, caller_by, caller_in, entry_command};

use crate::commands::run_alone;
use crate::context::Context;
use crate::messages::write_usage;
use sccs_base::{Line, Sink, Source, SteadySource, Words};
use sccs_batch::{BatchEntry, Commands};
use sccs_disk::Disk;
use sccs_steps::Fault;
use sccs_words::{WordsFault, read_words};
use std::alloc::Global;

// does the single command that words mean, where it is quiet without its output; a usage fault is said
fn run_words<I: Source, O: Sink, E: Sink, D: Disk>(
    alloc: Global,
    words: &Words,
    context: &Context<'_>,
    input: &mut I,
    out: &mut O,
    err: &mut E,
    disk: &mut D,
) -> Result<u8, Fault>
    requires single { is_single words.now ≡ true }
    ensures { RunsWords (caller_in context.now) (meaning words.now) result
        (setting_of I.Source O.Sink E.Sink D.Disk input.old out.old err.old disk.old)
        (setting_of I.Source O.Sink E.Sink D.Disk input.new out.new err.new disk.new) }
{
    match read_words(alloc, words) {
        Ok(command) => run_alone(alloc, &command, context, input, out, err, disk),
        Err(WordsFault::Usage(usage)) => match write_usage(&usage, err) {
            Ok(()) => Ok(2),
            Err(_) => Err(Fault::WriteFault),
        },
        Err(WordsFault::Memory) => Err(Fault::Memory),
    }
}

/// Does the single commands of a list, in the folder at a path.
#[derive(Clone, Copy)]
pub struct Singles<'a> {
    pub place: &'a Line,
    /// Whether their output is dropped.
    pub quiet: bool,
}

impl<'a> Commands for Singles<'a> {
    ghost command = { λ s e. entry_command s.quiet s.place.now e };

    ghost fits = { λ s e. FitsEntry s.quiet s.place.now e };

    ghost whole = { λ s e. WholeOf s.quiet s.place.now e };

    ghost begun = { λ s e. BegunOf s.quiet s.place.now e };

    ghost takes = { λ s e folder i. command_takes (caller_by s.quiet e.stamp s.place.now) (meaning e.words) folder
        e.input };

    ghost might = { λ s e. command_might (caller_by s.quiet e.stamp s.place.now) (meaning e.words) };

    fn run<O: Sink, E: Sink, D: Disk>(
        &self,
        alloc: Global,
        entry: &BatchEntry,
        out: &mut O,
        err: &mut E,
        disk: &mut D,
    ) -> Result<u8, Fault> {
        let Ok(mut input) = SteadySource::new(alloc, entry.input.bytes()) else {
            return Err(Fault::Memory);
        };
        let context = Context {
            stamp: &entry.stamp,
            place: self.place,
            quiet: self.quiet,
        };
        run_words(alloc, &entry.words, &context, &mut input, out, err, disk)
    }
}
