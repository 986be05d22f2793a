ghost use Rattle.std.specs.Prelude.{◌≡◌, List, [], false, IfOk};
ghost use Rattle.std.specs.List.{filter};
ghost use Rattle.sccs_steps.specs.Actions.{is_several, kind_of};
ghost use Rattle.sccs_steps.specs.Running.{RunsKind, RunsLines, RunsOperand, RunsOperands};
ghost use Rattle.sccs_steps.specs.Settings.{SameLoans, setting};
ghost use Rattle.sccs_steps.specs.declared.operands.OperandKind.TheVariants as kind;

use crate::faults::Fault;
use crate::names::{idle_status, joined_status, refuse, run_name, run_names};
use crate::streams::Streams;
use crate::utilities::UtilityWithStatus;
use sccs_base::{Bytes, FILE_LIMIT, Line, Memory, Sink, Source, TakeFault, Words};
use sccs_disk::{Disk, DiskRefusal};
use sccs_operands::{list_sfiles, read_names};
use sccs_sid::Refusal;
use std::alloc::Global;

/// What an operand is: the name of a file, `.`, or `-`.
#[derive(Clone, Copy)]
pub enum OperandKind {
    Named,
    Here,
    FromInput,
}

/// Whether an operand stands for several files, as `.` and `-` do.
pub fn is_several(operand: &[u8]) -> bool
    ensures { result ≡ is_several operand.now }
{
    operand == b".".as_slice() || operand == b"-".as_slice()
}

// what an operand is; where a step takes the input, the name of a file
#[tactic(auto, unfolding(crate::specs::Actions::kind_of))]
fn kind_of(operand: &[u8], takes: bool) -> OperandKind
    ensures { result ≡ kind_of takes operand.now }
{
    if takes {
        return OperandKind::Named;
    }
    if operand == b".".as_slice() {
        return OperandKind::Here;
    }
    if operand == b"-".as_slice() {
        return OperandKind::FromInput;
    }
    OperandKind::Named
}

// makes the steps of the s-files that are there
fn run_here<U: UtilityWithStatus, I: Source, O: Sink, E: Sink, D: Disk>(
    alloc: Global,
    utility: &U,
    streams: &mut Streams<I, O, E, D>,
) -> Result<u8, Fault>
    requires { (U.action utility.now).takes ≡ false }
    ensures loans { SameLoans streams.old streams.new }
    ensures run { RunsKind (U.action utility.now) kind.Here [] result
        (setting I.Source O.Sink E.Sink D.Disk streams.old) (setting I.Source O.Sink E.Sink D.Disk streams.new) }
{
    match list_sfiles(alloc, streams.disk) {
        Ok(names) => run_names(alloc, utility, names.items(), streams),
        Err(DiskRefusal::Failed) => Err(Fault::DiskFault),
        Err(DiskRefusal::Memory) => Err(Fault::Memory),
    }
}

// those of lines that the utility takes
fn names_among<U: UtilityWithStatus>(
    alloc: Global,
    utility: &U,
    lines: &[Line],
) -> Result<Words, Memory>
    ensures { IfOk result (λ names. names ≡ filter (U.action utility.now).fits lines.now) }
{
    let mut names = Words::new(alloc);
    for line in lines {
        if utility.name(line.bytes()).is_some() {
            names.push(Bytes::new(alloc, line.bytes())?)?;
        }
    }
    Ok(names)
}

// makes the steps of the files that lines name
fn run_lines<U: UtilityWithStatus, I: Source, O: Sink, E: Sink, D: Disk>(
    alloc: Global,
    utility: &U,
    lines: &[Line],
    streams: &mut Streams<I, O, E, D>,
) -> Result<u8, Fault>
    requires { (U.action utility.now).takes ≡ false }
    ensures loans { SameLoans streams.old streams.new }
    ensures run { RunsLines (U.action utility.now) lines.now result (setting I.Source O.Sink E.Sink D.Disk streams.old)
        (setting I.Source O.Sink E.Sink D.Disk streams.new) }
{
    match names_among(alloc, utility, lines) {
        Ok(names) => run_names(alloc, utility, names.items(), streams),
        Err(_) => Err(Fault::Memory),
    }
}

// makes the steps of the files that the input names
fn run_input<U: UtilityWithStatus, I: Source, O: Sink, E: Sink, D: Disk>(
    alloc: Global,
    utility: &U,
    streams: &mut Streams<I, O, E, D>,
) -> Result<u8, Fault>
    requires { (U.action utility.now).takes ≡ false }
    ensures loans { SameLoans streams.old streams.new }
    ensures run { RunsKind (U.action utility.now) kind.FromInput [] result
        (setting I.Source O.Sink E.Sink D.Disk streams.old) (setting I.Source O.Sink E.Sink D.Disk streams.new) }
{
    match read_names(alloc, streams.input, FILE_LIMIT) {
        Ok(lines) => run_lines(alloc, utility, lines.items(), streams),
        Err(TakeFault::TooLong) => refuse(b"-", &Refusal::TooLong, streams.err),
        Err(TakeFault::Failed) => Err(Fault::ReadFault),
        Err(TakeFault::Memory) => Err(Fault::Memory),
    }
}

/// Makes the steps of one operand, says why each that is refused was, and answers their status by the
/// utility's rule. `.` stands for the s-files that are there, in byte order, and `-` for the files that the
/// input names, a line each; lines that are no such names are passed over.
pub fn run_operand<U: UtilityWithStatus, I: Source, O: Sink, E: Sink, D: Disk>(
    alloc: Global,
    utility: &U,
    operand: &[u8],
    streams: &mut Streams<I, O, E, D>,
) -> Result<u8, Fault>
    ensures loans { SameLoans streams.old streams.new }
    ensures run { RunsOperand (U.action utility.now) operand.now result
        (setting I.Source O.Sink E.Sink D.Disk streams.old) (setting I.Source O.Sink E.Sink D.Disk streams.new) }
{
    match kind_of(operand, utility.takes_input()) {
        OperandKind::Named => run_name(alloc, utility, operand, streams),
        OperandKind::Here => run_here(alloc, utility, streams),
        OperandKind::FromInput => run_input(alloc, utility, streams),
    }
}

/// Makes the steps of each operand in turn, and answers their status by the utility's rule. Where it begins on a calm
/// disk and the names are safe, a stop at any moment leaves all names as after the same number of steps, no fewer
/// than were acknowledged; and it ends on a calm disk, unless the disk failed.
pub fn run_operands<U: UtilityWithStatus, I: Source, O: Sink, E: Sink, D: Disk>(
    alloc: Global,
    utility: &U,
    operands: &[Bytes],
    streams: &mut Streams<I, O, E, D>,
) -> Result<u8, Fault>
    ensures loans { SameLoans streams.old streams.new }
    ensures run { RunsOperands (U.action utility.now) operands.now result
        (setting I.Source O.Sink E.Sink D.Disk streams.old) (setting I.Source O.Sink E.Sink D.Disk streams.new) }
{
    let mut status = idle_status(utility);
    for operand in operands {
        let one = run_operand(alloc, utility, operand.bytes(), streams)?;
        status = joined_status(utility, status, one);
    }
    Ok(status)
}
