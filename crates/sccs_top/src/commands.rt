ghost use Rattle.std.specs.Prelude.{◌≡◌, ◌∷◌, [], true, false, Ok, None, Some, IfOk, IfSome};
ghost use Rattle.sccs_sid.specs.Moment.{IsMoment};
ghost use Rattle.sccs_sid.specs.Sid.{IsComponent};
ghost use Rattle.sccs_words.specs.ValidValues.{AreGetValues, HasValidValues};
ghost use Rattle.sccs_steps.specs.Calls.{scene};
ghost use Rattle.sccs_steps.specs.Causes.{Ignores, RunCauses, counts};
ghost use Rattle.sccs_steps.specs.Ordinaries.{ordinary};
ghost use Rattle.sccs_steps.specs.Running.{RunsOperands};
ghost use Rattle.sccs_steps.specs.Settings.{SameLoans, setting, setting_of};
ghost use Rattle.sccs_steps.specs.declared.faults.Fault.TheVariants as ends;
ghost use Rattle.sccs_step_lists.specs.QuietSettings.{quiet};
ghost use Rattle.sccs_changes.specs.Changes.{locking};
ghost use Rattle.sccs_delta.specs.DeltaStep.{delta_change};
ghost use Rattle.sccs_edit.specs.UngetStep.{unget_change};
ghost use Rattle.sccs_alter.specs.CdcStep.{cdc_change};
ghost use Rattle.sccs_edit.specs.PendingStep.{pending_action};
ghost use Rattle.sccs_base.specs.NameSets.{names_in};
ghost use Rattle.sccs_recovery.specs.RecoverStep.{freed_by, recover_action};
ghost use Rattle.sccs_rcs.specs.ImportStep.{import_change};
ghost use Rattle.sccs_top.specs.Asked.{HasValidCommands, asked_of};
ghost use Rattle.sccs_top.specs.declared.commands.GroupUse.TheVariants as uses;
ghost use Rattle.sccs_top.specs.declared.asking.Asked.TheVariants as ask;
ghost use Rattle.sccs_top.specs.Runs.{LeavesAlone, LeavesAsked, LeavesAskedInput, LeavesInput, LeavesMeant, MakesSteps};
ghost use Rattle.sccs_top.specs.Runs.{RecoversRun, RunsAlone, RunsAsked, RunsCommand, RunsMeant, SpeaksWords};
ghost use Rattle.sccs_top.specs.Runs.{StopsSteps, UnlockedSteps, action_of, admin_in, admin_there, caller, caller_in};
ghost use Rattle.sccs_top.specs.Runs.{get_in, group_use, has_heading, hushed, is_silent, list_in, only_reads};
ghost use Rattle.sccs_top.specs.Runs.{operands_of, steps_answer, val_words_of, words_in, words_take_input};

use crate::answers::Answer;
use crate::asking::{Asked, read_asked};
use crate::context::Context;
use crate::messages::write_usage;
use crate::no_input::NoInput;
use crate::singles::Singles;
use sccs_admin::Admin;
use sccs_alter::{Alter, Cdc, Check};
use sccs_base::{Line, Name, NameSet, Sink, Source, Words};
use sccs_batch::run_batch;
use sccs_changes::Locking;
use sccs_delta::Delta;
use sccs_disk::Disk;
use sccs_edit::{Entries, Sact, Unget};
use sccs_get::{Get, Reserve};
use sccs_group_command::run_group;
use sccs_prs::Prs;
use sccs_rcs::Import;
use sccs_recovery::{Recover, finish};
use sccs_rmdel::Rmdel;
use sccs_sid::Stamp;
use sccs_soak::{Dropping, run_soak};
use sccs_steps::{
    Fault, Ordinary, Streams, Utility, UtilityWithStatus, is_several, run_operand, run_operands,
};
use sccs_val::run_val;
use sccs_what::What;
use sccs_words::{
    AdminWords, CdcWords, Command, DeltaWords, GetWords, Operands, UngetWords, Usage, WordsFault,
};
use std::alloc::Global;
use std::collections::BTreeSet;

// how a command ends whose steps end so
fn ended(made: Result<u8, Fault>) -> Answer
    ensures { steps_answer result ≡ made }
{
    match made {
        Ok(status) => Answer::Finished { status },
        Err(Fault::Memory) => Answer::Memory,
        Err(Fault::ReadFault) => Answer::ReadFault,
        Err(Fault::WriteFault) => Answer::WriteFault,
        Err(Fault::DiskFault) => Answer::DiskFault,
    }
}

/// A command that stands for a list of commands.
#[derive(Clone, Copy)]
pub enum CommandList {
    /// Those that the input is.
    Batch,
    /// Those that a number makes.
    Soak(u64),
}

// the list of commands that a command is
fn list_in(command: &Command) -> Option<CommandList>
    ensures { result ≡ list_in command.now }
{
    match command {
        Command::Batch => Some(CommandList::Batch),
        Command::Soak(number) => Some(CommandList::Soak(*number)),
        _ => None,
    }
}

/// What a command does with a group.
#[derive(Clone, Copy)]
pub enum GroupUse {
    /// It makes the group that the input is.
    Makes,
    /// It finishes one that is pending, and then does what it does with its operands.
    Finishes,
}

// what a command does with a group
fn group_use(command: &Command) -> Option<GroupUse>
    ensures { result ≡ group_use command.now }
{
    match command {
        Command::Group => Some(GroupUse::Makes),
        Command::Recover(_) => Some(GroupUse::Finishes),
        _ => None,
    }
}

// whether a heading stands before each report
fn has_heading(operands: &Operands) -> bool
    ensures { result ≡ has_heading operands.now }
{
    let words = operands.words.items();
    operands.from_input || (words.len() > 1 || words.iter().any(|word| is_several(word.bytes())))
}

// makes the steps of operands as they were given
fn run_given<U: UtilityWithStatus, I: Source, O: Sink, E: Sink, D: Disk>(
    alloc: Global,
    utility: &U,
    operands: &Operands,
    streams: &mut Streams<I, O, E, D>,
) -> Result<u8, Fault>
    ensures loans { SameLoans streams.old streams.new }
    ensures run { RunsOperands (U.action utility.now) (words_in operands.now) result
        (setting I.Source O.Sink E.Sink D.Disk streams.old) (setting I.Source O.Sink E.Sink D.Disk streams.new) }
{
    if operands.from_input {
        run_operand(alloc, utility, b"-", streams)
    } else {
        run_operands(alloc, utility, operands.words.items(), streams)
    }
}

// the same; where they are quiet their output is dropped
fn run_list<U: UtilityWithStatus, I: Source, O: Sink, E: Sink, D: Disk>(
    alloc: Global,
    utility: &U,
    operands: &Operands,
    context: &Context<'_>,
    streams: &mut Streams<I, O, E, D>,
) -> Result<u8, Fault>
    ensures loans { SameLoans streams.old streams.new }
    ensures run { RunsOperands (hushed None context.now.quiet (U.action utility.now)) (words_in operands.now) result
        (setting I.Source O.Sink E.Sink D.Disk streams.old) (setting I.Source O.Sink E.Sink D.Disk streams.new) }
{
    if context.quiet {
        run_given(alloc, &Dropping { utility }, operands, streams)
    } else {
        run_given(alloc, utility, operands, streams)
    }
}

// the same of an ordinary utility
fn run_ordinary<U: Utility + Drop, I: Source, O: Sink, E: Sink, D: Disk>(
    alloc: Global,
    utility: U,
    operands: &Operands,
    context: &Context<'_>,
    streams: &mut Streams<I, O, E, D>,
) -> Result<u8, Fault>
    ensures loans { SameLoans streams.old streams.new }
    ensures run { RunsOperands (hushed None context.now.quiet (ordinary (U.action utility))) (words_in operands.now)
        result
        (setting I.Source O.Sink E.Sink D.Disk streams.old) (setting I.Source O.Sink E.Sink D.Disk streams.new) }
{
    run_list(alloc, &Ordinary { utility }, operands, context, streams)
}

// admin on an s-file that is there: with -h it is checked alone
fn run_there<I: Source, O: Sink, E: Sink, D: Disk>(
    alloc: Global,
    words: &AdminWords,
    operands: &Operands,
    context: &Context<'_>,
    streams: &mut Streams<I, O, E, D>,
) -> Result<u8, Fault>
    ensures loans { SameLoans streams.old streams.new }
    ensures run { RunsOperands (hushed None context.now.quiet (admin_there words.now)) (words_in operands.now) result
        (setting I.Source O.Sink E.Sink D.Disk streams.old) (setting I.Source O.Sink E.Sink D.Disk streams.new) }
{
    if words.check {
        run_ordinary(alloc, Check, operands, context, streams)
    } else {
        let change = Alter { words };
        run_ordinary(alloc, Locking { change }, operands, context, streams)
    }
}

// admin: a new file, or an s-file that is there
fn run_admin<I: Source, O: Sink, E: Sink, D: Disk>(
    alloc: Global,
    words: &AdminWords,
    operands: &Operands,
    context: &Context<'_>,
    streams: &mut Streams<I, O, E, D>,
) -> Result<u8, Fault>
    requires values { IfSome words.now.release IsComponent }
    ensures loans { SameLoans streams.old streams.new }
    ensures run { RunsOperands (hushed None context.now.quiet (admin_in words.now context.now.stamp.now))
        (words_in operands.now) result
        (setting I.Source O.Sink E.Sink D.Disk streams.old) (setting I.Source O.Sink E.Sink D.Disk streams.new) }
{
    if words.fresh {
        let stamp = context.stamp;
        let change = Admin { words, stamp };
        run_ordinary(alloc, Locking { change }, operands, context, streams)
    } else {
        run_there(alloc, words, operands, context, streams)
    }
}

// get: with -e an edit is reserved
fn run_get<I: Source, O: Sink, E: Sink, D: Disk>(
    alloc: Global,
    words: &GetWords,
    operands: &Operands,
    context: &Context<'_>,
    streams: &mut Streams<I, O, E, D>,
) -> Result<u8, Fault>
    requires values { AreGetValues words.now }
    ensures loans { SameLoans streams.old streams.new }
    ensures run { RunsOperands (hushed None context.now.quiet (get_in words.now (caller_in context.now)
        (has_heading operands.now))) (words_in operands.now) result (setting I.Source O.Sink E.Sink D.Disk streams.old)
        (setting I.Source O.Sink E.Sink D.Disk streams.new) }
{
    let Context { stamp, place, .. } = *context;
    let heading = has_heading(operands);
    if words.edit {
        let change = Reserve {
            words,
            stamp,
            place,
            heading,
        };
        run_ordinary(alloc, Locking { change }, operands, context, streams)
    } else {
        let get = Get {
            words,
            stamp,
            place,
            heading,
        };
        run_ordinary(alloc, get, operands, context, streams)
    }
}

// unget
fn run_unget<I: Source, O: Sink, E: Sink, D: Disk>(
    alloc: Global,
    words: &UngetWords,
    operands: &Operands,
    context: &Context<'_>,
    streams: &mut Streams<I, O, E, D>,
) -> Result<u8, Fault>
    ensures loans { SameLoans streams.old streams.new }
    ensures run { RunsOperands
        (hushed None context.now.quiet (locking (unget_change words.now context.now.stamp.now
        (has_heading operands.now))))
        (words_in operands.now) result (setting I.Source O.Sink E.Sink D.Disk streams.old)
        (setting I.Source O.Sink E.Sink D.Disk streams.new) }
{
    let heading = has_heading(operands);
    let change = Unget {
        words,
        stamp: context.stamp,
        heading,
    };
    run_ordinary(alloc, Locking { change }, operands, context, streams)
}

// tell and check
fn run_pending<I: Source, O: Sink, E: Sink, D: Disk>(
    alloc: Global,
    whole: bool,
    operands: &Operands,
    context: &Context<'_>,
    streams: &mut Streams<I, O, E, D>,
) -> Result<u8, Fault>
    ensures loans { SameLoans streams.old streams.new }
    ensures run { RunsOperands (hushed None context.now.quiet (pending_action whole)) (words_in operands.now) result
        (setting I.Source O.Sink E.Sink D.Disk streams.old) (setting I.Source O.Sink E.Sink D.Disk streams.new) }
{
    run_list(alloc, &Entries { whole }, operands, context, streams)
}

// import
fn run_import<I: Source, O: Sink, E: Sink, D: Disk>(
    alloc: Global,
    operands: &Operands,
    context: &Context<'_>,
    streams: &mut Streams<I, O, E, D>,
) -> Result<u8, Fault>
    ensures loans { SameLoans streams.old streams.new }
    ensures run { RunsOperands (hushed None context.now.quiet (locking (import_change (has_heading operands.now))))
        (words_in operands.now) result (setting I.Source O.Sink E.Sink D.Disk streams.old)
        (setting I.Source O.Sink E.Sink D.Disk streams.new) }
{
    let heading = has_heading(operands);
    let change = Import { heading };
    run_ordinary(alloc, Locking { change }, operands, context, streams)
}

// cdc
fn run_cdc<I: Source, O: Sink, E: Sink, D: Disk>(
    alloc: Global,
    words: &CdcWords,
    operands: &Operands,
    context: &Context<'_>,
    streams: &mut Streams<I, O, E, D>,
) -> Result<u8, Fault>
    ensures loans { SameLoans streams.old streams.new }
    ensures run { RunsOperands (hushed None context.now.quiet (locking (cdc_change words.now context.now.stamp.now)))
        (words_in operands.now)
        result (setting I.Source O.Sink E.Sink D.Disk streams.old) (setting I.Source O.Sink E.Sink D.Disk streams.new) }
{
    let stamp = context.stamp;
    let change = Cdc { words, stamp };
    run_ordinary(alloc, Locking { change }, operands, context, streams)
}

// delta, whose operand is one name
fn run_delta<I: Source, O: Sink, E: Sink, D: Disk>(
    alloc: Global,
    words: &DeltaWords,
    name: &Name,
    context: &Context<'_>,
    streams: &mut Streams<I, O, E, D>,
) -> Result<u8, Fault>
    ensures loans { SameLoans streams.old streams.new }
    ensures run { RunsOperands (hushed None context.now.quiet (locking (delta_change words.now context.now.stamp.now)))
        (name.now ∷ []) result
        (setting I.Source O.Sink E.Sink D.Disk streams.old) (setting I.Source O.Sink E.Sink D.Disk streams.new) }
{
    let stamp = context.stamp;
    let change = Delta { words, stamp };
    let delta = Ordinary {
        utility: Locking { change },
    };
    if context.quiet {
        run_operand(alloc, &Dropping { utility: &delta }, name.bytes(), streams)
    } else {
        run_operand(alloc, &delta, name.bytes(), streams)
    }
}

// recovers the names of the operands of recover, behind the end of a group that freed some names
fn run_freed<I: Source, O: Sink, E: Sink, D: Disk>(
    alloc: Global,
    command: &Command,
    freed: &NameSet,
    context: &Context<'_>,
    streams: &mut Streams<I, O, E, D>,
) -> Result<u8, Fault>
    requires { group_use command.now ≡ Some uses.Finishes }
    ensures loans { SameLoans streams.old streams.new }
    ensures run { RunsOperands (hushed None context.now.quiet (recover_action (freed_by (names_in freed.now))))
        (operands_of command.now) result (setting I.Source O.Sink E.Sink D.Disk streams.old)
        (setting I.Source O.Sink E.Sink D.Disk streams.new) }
{
    match command {
        Command::Recover(operands) => {
            run_ordinary(alloc, Recover { freed }, operands, context, streams)
        }
        _ => unreachable!(),
    }
}

// makes the steps of the operands of a command; where it is quiet its output is dropped
fn run_single<I: Source, O: Sink, E: Sink, D: Disk>(
    alloc: Global,
    command: &Command,
    context: &Context<'_>,
    streams: &mut Streams<I, O, E, D>,
) -> Result<u8, Fault>
    requires single { list_in command.now ≡ None }
    requires operands { group_use command.now ≡ None }
    requires values { HasValidValues command.now }
    ensures loans { SameLoans streams.old streams.new }
    ensures run { RunsCommand (val_words_of command.now) (action_of (caller_in context.now) command.now)
        (operands_of command.now) result
        (setting I.Source O.Sink E.Sink D.Disk streams.old) (setting I.Source O.Sink E.Sink D.Disk streams.new) }
{
    match command {
        Command::Admin(words, operands) => { run_admin(alloc, words, operands, context, streams) }
        Command::Get(words, operands) => { run_get(alloc, words, operands, context, streams) }
        Command::Delta(words, name) => run_delta(alloc, words, name, context, streams),
        Command::Unget(words, operands) => { run_unget(alloc, words, operands, context, streams) }
        Command::Sact(operands) => {
            let heading = has_heading(operands);
            run_ordinary(alloc, Sact { heading }, operands, context, streams)
        }
        Command::Tell(operands) => run_pending(alloc, false, operands, context, streams),
        Command::Check(operands) => run_pending(alloc, true, operands, context, streams),
        Command::Rmdel(sid, operands) => {
            let stamp = context.stamp;
            let change = Rmdel { sid, stamp };
            run_ordinary(alloc, Locking { change }, operands, context, streams)
        }
        Command::Cdc(words, operands) => run_cdc(alloc, words, operands, context, streams),
        Command::Prs(words, operands) => {
            let place = context.place;
            run_ordinary(alloc, Prs { words, place }, operands, context, streams)
        }
        Command::What(first, operands) => {
            run_list(alloc, &What { first: *first }, operands, context, streams)
        }
        Command::Import(operands) => run_import(alloc, operands, context, streams),
        Command::Val(words) => run_val(alloc, words, streams),
        Command::Recover(_) | Command::Group | Command::Batch | Command::Soak(_) => unreachable!(),
    }
}

// finishes a group that is pending, and then makes the steps of the operands of a command
fn run_finishing<I: Source, O: Sink, E: Sink, D: Disk>(
    alloc: Global,
    command: &Command,
    context: &Context<'_>,
    streams: &mut Streams<I, O, E, D>,
) -> Result<u8, Fault>
    requires finishes { group_use command.now ≡ Some uses.Finishes }
    requires values { HasValidValues command.now }
    ensures loans { SameLoans streams.old streams.new }
    ensures run { RunsAlone (caller_in context.now) command.now result
        (setting I.Source O.Sink E.Sink D.Disk streams.old) (setting I.Source O.Sink E.Sink D.Disk streams.new) }
    ensures leaves { LeavesAlone (caller_in context.now) command.now result
        (setting I.Source O.Sink E.Sink D.Disk streams.old) (setting I.Source O.Sink E.Sink D.Disk streams.new) }
{
    let mut freed = BTreeSet::new(alloc);
    finish(alloc, streams, &mut freed)?;
    run_freed(alloc, command, &freed, context, streams)
}

// does a command that is no list of commands; where it is quiet the output of its operands is dropped
fn run_command<I: Source, O: Sink, E: Sink, D: Disk>(
    alloc: Global,
    command: &Command,
    context: &Context<'_>,
    streams: &mut Streams<I, O, E, D>,
) -> Result<u8, Fault>
    requires single { list_in command.now ≡ None }
    requires values { HasValidValues command.now }
    ensures loans { SameLoans streams.old streams.new }
    ensures run { RunsAlone (caller_in context.now) command.now result
        (setting I.Source O.Sink E.Sink D.Disk streams.old)
        (setting I.Source O.Sink E.Sink D.Disk streams.new) }
    ensures leaves { LeavesAlone (caller_in context.now) command.now result
        (setting I.Source O.Sink E.Sink D.Disk streams.old)
        (setting I.Source O.Sink E.Sink D.Disk streams.new) }
{
    match group_use(command) {
        Some(GroupUse::Makes) => run_group(
            alloc,
            context.stamp,
            streams.input,
            streams.out,
            streams.err,
            streams.disk,
        ),
        Some(GroupUse::Finishes) => run_finishing(alloc, command, context, streams),
        None => run_single(alloc, command, context, streams),
    }
}

// the same over streams that are lent one by one
pub fn run_alone<I: Source, O: Sink, E: Sink, D: Disk>(
    alloc: Global,
    command: &Command,
    context: &Context<'_>,
    input: &mut I,
    out: &mut O,
    err: &mut E,
    disk: &mut D,
) -> Result<u8, Fault>
    requires single { list_in command.now ≡ None }
    requires values { HasValidValues command.now }
    ensures run { RunsAlone (caller_in context.now) command.now result
        (setting_of I.Source O.Sink E.Sink D.Disk input.old out.old err.old disk.old)
        (setting_of I.Source O.Sink E.Sink D.Disk input.new out.new err.new disk.new) }
    ensures leaves { LeavesAlone (caller_in context.now) command.now result
        (setting_of I.Source O.Sink E.Sink D.Disk input.old out.old err.old disk.old)
        (setting_of I.Source O.Sink E.Sink D.Disk input.new out.new err.new disk.new) }
{
    let mut streams = Streams {
        input,
        out,
        err,
        disk,
    };
    run_command(alloc, command, context, &mut streams)
}

// does a command: a list of commands, or a single one
fn run_meant<I: Source, O: Sink, E: Sink, D: Disk>(
    alloc: Global,
    command: &Command,
    context: &Context<'_>,
    input: &mut I,
    out: &mut O,
    err: &mut E,
    disk: &mut D,
) -> Result<u8, Fault>
    requires values { HasValidValues command.now }
    ensures run { RunsMeant (caller_in context.now) (Ok command.now) result
        (setting_of I.Source O.Sink E.Sink D.Disk input.old out.old err.old disk.old)
        (setting_of I.Source O.Sink E.Sink D.Disk input.new out.new err.new disk.new) }
    ensures leaves { LeavesMeant (caller_in context.now) command.now result
        (setting_of I.Source O.Sink E.Sink D.Disk input.old out.old err.old disk.old)
        (setting_of I.Source O.Sink E.Sink D.Disk input.new out.new err.new disk.new) }
    ensures input { LeavesInput (caller_in context.now) command.now result
        (setting_of I.Source O.Sink E.Sink D.Disk input.old out.old err.old disk.old)
        (setting_of I.Source O.Sink E.Sink D.Disk input.new out.new err.new disk.new) }
{
    let place = context.place;
    match list_in(command) {
        Some(CommandList::Batch) => {
            let quiet = false;
            run_batch(alloc, &Singles { place, quiet }, input, out, err, disk)
        }
        Some(CommandList::Soak(number)) => {
            let quiet = true;
            run_soak(alloc, &Singles { place, quiet }, number, out, err, disk)
        }
        None => run_alone(alloc, command, context, input, out, err, disk),
    }
}

// does what follows a first command, without an input; a usage fault is said
fn run_next<O: Sink, E: Sink, D: Disk>(
    alloc: Global,
    next: &Result<Command, Usage>,
    context: &Context<'_>,
    out: &mut O,
    err: &mut E,
    disk: &mut D,
) -> Result<u8, Fault>
    requires values { IfOk next.now HasValidValues }
    ensures { RunsMeant (caller_in context.now) next.now result
        (quiet O.Sink E.Sink D.Disk out.old err.old disk.old) (quiet O.Sink E.Sink D.Disk out.new err.new disk.new) }
{
    match next {
        Ok(command) => {
            let mut input = NoInput;
            run_meant(alloc, command, context, &mut input, out, err, disk)
        }
        Err(usage) => match write_usage(usage, err) {
            Ok(()) => Ok(2),
            Err(_) => Err(Fault::WriteFault),
        },
    }
}

// does two commands, the second where the first one's status is 0
fn run_two<I: Source, O: Sink, E: Sink, D: Disk>(
    alloc: Global,
    first: &Command,
    next: &Result<Command, Usage>,
    context: &Context<'_>,
    input: &mut I,
    out: &mut O,
    err: &mut E,
    disk: &mut D,
) -> Result<u8, Fault>
    requires first { HasValidValues first.now }
    requires next { IfOk next.now HasValidValues }
    ensures run { RunsAsked (caller_in context.now) (Ok (ask.Two first.now next.now)) result
        (setting_of I.Source O.Sink E.Sink D.Disk input.old out.old err.old disk.old)
        (setting_of I.Source O.Sink E.Sink D.Disk input.new out.new err.new disk.new) }
    ensures input { LeavesInput (caller_in context.now) first.now result
        (setting_of I.Source O.Sink E.Sink D.Disk input.old out.old err.old disk.old)
        (setting_of I.Source O.Sink E.Sink D.Disk input.new out.new err.new disk.new) }
{
    let status = run_meant(alloc, first, context, input, out, err, disk)?;
    if status != 0 {
        return Ok(status);
    }
    run_next(alloc, next, context, out, err, disk)
}

// does what words ask for: a command, or two
fn run_asked<I: Source, O: Sink, E: Sink, D: Disk>(
    alloc: Global,
    asked: &Asked,
    context: &Context<'_>,
    input: &mut I,
    out: &mut O,
    err: &mut E,
    disk: &mut D,
) -> Result<u8, Fault>
    requires values { HasValidCommands asked.now }
    ensures run { RunsAsked (caller_in context.now) (Ok asked.now) result
        (setting_of I.Source O.Sink E.Sink D.Disk input.old out.old err.old disk.old)
        (setting_of I.Source O.Sink E.Sink D.Disk input.new out.new err.new disk.new) }
    ensures leaves { LeavesAsked (caller_in context.now) asked.now result
        (setting_of I.Source O.Sink E.Sink D.Disk input.old out.old err.old disk.old)
        (setting_of I.Source O.Sink E.Sink D.Disk input.new out.new err.new disk.new) }
    ensures input { LeavesAskedInput (caller_in context.now) asked.now result
        (setting_of I.Source O.Sink E.Sink D.Disk input.old out.old err.old disk.old)
        (setting_of I.Source O.Sink E.Sink D.Disk input.new out.new err.new disk.new) }
{
    match asked {
        Asked::One(command) => run_meant(alloc, command, context, input, out, err, disk),
        Asked::Two(first, next) => { run_two(alloc, first, next, context, input, out, err, disk) }
    }
}

/// Does a command. The words are those behind the program's name; `stamp` is its moment, of the years
/// 1969 to 2068, and its login, `place` the folder's path. Texts go to `out`, messages to `err`.
///
/// Built are admin, get, delta, sact, tell, check, unget, rmdel, cdc, prs, val, what, recover, import, group, batch
/// and soak, and the words of the front end, `edit`, `unedit`, `delget` and `deledit`. Of two commands, as those of
/// `delget`, the second is done where the status of the first is 0, without an input, and what is said here of a run
/// holds of both together; the status is that of the last one done.
///
/// A stop at any moment of a run that began on a calm disk, with safe operands, leaves what recovers on all
/// names as after the same number of steps, no fewer than are acknowledged; and s-files and p-files are firm
/// at each end, so that recovery may run. No s-file or p-file changes but one whose z-file wasn't there at an
/// earlier moment of the run, unless it recovers.
///
/// recover first finishes a group that was stopped, whatever its operands, and says of the names that this freed
/// that they were recovered. It may begin on any disk whose s-files and p-files, intent, and x- and q-files of
/// names of the intent are firm, as one is that a disk fault has left, where these names are locked, recovery
/// leaves the pairs that it makes, and an intent that is there has its form: a stop leaves what recovers as
/// something that one could leave at its start, it may be run again, and where the run is finished the disk is
/// calm.
pub fn run<I: Source, O: Sink, E: Sink, D: Disk>(
    alloc: Global,
    words: &Words,
    stamp: &Stamp,
    place: &Line,
    input: &mut I,
    out: &mut O,
    err: &mut E,
    disk: &mut D,
) -> Answer
    requires moment { IsMoment stamp.now.moment }
    ensures steps { MakesSteps (caller stamp.now place.now) (asked_of words.now) result (I.left input.old)
        (scene (D.told disk.old) (O.given out.old) (E.given err.old)) (scene (D.told disk.new) (O.given out.new)
        (E.given err.new)) }
    ensures stops { StopsSteps (caller stamp.now place.now) (asked_of words.now) result (I.left input.old)
        (scene (D.told disk.old) (O.given out.old) (E.given err.old)) (scene (D.told disk.new) (O.given out.new)
        (E.given err.new)) }
    ensures unlocked { UnlockedSteps (caller stamp.now place.now) (asked_of words.now) (I.left input.old)
        (D.told disk.old) (D.told disk.new) }
    ensures recovers { RecoversRun (asked_of words.now) result (D.told disk.old) (D.told disk.new) }
    ensures speaks { SpeaksWords (caller stamp.now place.now) (asked_of words.now) result (E.given err.old)
        (E.given err.new) }
    ensures reads { only_reads (caller stamp.now place.now) (asked_of words.now) ≡ true
        → D.told disk.new ≡ D.told disk.old }
    ensures silent { is_silent (caller stamp.now place.now) (asked_of words.now) ≡ true
        → O.given out.new ≡ O.given out.old }
    ensures ignores { words_take_input (caller stamp.now place.now) (asked_of words.now) ≡ false
        → Ignores ends.ReadFault (I.left input.old) (I.left input.new) (I.faults input.old) (I.faults input.new)
        (steps_answer result) }
    ensures causes { RunCauses (steps_answer result) (counts (I.faults input.old) (O.faults out.old) (E.faults err.old)
        (D.faults disk.old))
        (counts (I.faults input.new) (O.faults out.new) (E.faults err.new) (D.faults disk.new)) }
{
    match read_asked(alloc, words) {
        Ok(asked) => {
            let quiet = false;
            let context = Context {
                stamp,
                place,
                quiet,
            };
            ended(run_asked(alloc, &asked, &context, input, out, err, disk))
        }
        Err(WordsFault::Usage(usage)) => match write_usage(&usage, err) {
            Ok(()) => Answer::Finished { status: 2 },
            Err(_) => Answer::WriteFault,
        },
        Err(WordsFault::Memory) => Answer::Memory,
    }
}
