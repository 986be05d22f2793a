ghost use Rattle.std.specs.Prelude.{◌≡◌, ◌<◌, ◌⊎◌, ℕ, false, ◌++◌, [], Err, IfOk, IfSome, OnOk, List, Some, length};
ghost use Rattle.std.specs.Prelude.{nat_lt};
ghost use Rattle.sccs_base.specs.Constants.{file_limit};
ghost use Rattle.sccs_base.specs.Cut.{text_of};
ghost use Rattle.sccs_sid.specs.declared.refusals.Refusal.{Refusal};
ghost use Rattle.sccs_sid.specs.declared.refusals.Refusal.TheVariants as refusals;
ghost use Rattle.sccs_sid.specs.declared.refusals.StepFault.TheVariants as faults;
ghost use Rattle.sccs_disk.specs.Files.{View};
ghost use Rattle.sccs_disk.specs.Told.{seen};
ghost use Rattle.sccs_steps.specs.Actions.{RefusesWithin};
ghost use Rattle.sccs_steps.specs.Causes.{Ignores, PrintCauses, StepCauses, counts};
ghost use Rattle.sccs_val.specs.Reports.{line_heading, line_status, line_text, lines_status, val_lines_text};
ghost use Rattle.sccs_val.specs.Reports.{takes_lines, val_status, val_text, words_status, words_text};
ghost use Rattle.sccs_val.specs.ValStep.{Judges, PrintsStatus, is_long};

use crate::judging::judge_words;
use crate::lines::line_words;
use sccs_base::{FILE_LIMIT, Line, Sink, Source, TakeFault, give_parts};
use sccs_disk::Disk;
use sccs_operands::read_names;
use sccs_sid::{Refusal, StepFault};
use sccs_words::ValWords;
use std::alloc::Global;

/// Judges the words of val, prints what is found of their operands, and answers the status. POSIX, Shell and
/// Utilities, val.
pub fn print_words<O: Sink, D: Disk>(
    alloc: Global,
    words: &ValWords,
    out: &mut O,
    disk: &mut D,
) -> Result<u8, StepFault>
    ensures told { IfSome (seen (D.told disk.old)) (λ v. PrintsStatus (words_text words.now v)
        (words_status words.now v) result (O.given out.old) (O.given out.new)) }
    ensures same { D.told disk.new ≡ D.told disk.old }
    ensures checks { RefusesWithin [] result }
    ensures causes { PrintCauses result (O.faults out.old) (O.faults out.new) (D.faults disk.old) (D.faults disk.new) }
{
    let mut report = Vec::new(alloc);
    let status = judge_words(alloc, words, &mut report, disk)?;
    match out.give(report.as_slice()) {
        Ok(()) => Ok(status),
        Err(_) => Err(StepFault::WriteFault),
    }
}

// gives what is found of a line's words; the line stands before it where its status isn't 0, unless it has -s
fn give_report<O: Sink>(
    line: &[u8],
    status: u8,
    silent: bool,
    report: &[u8],
    out: &mut O,
) -> Result<u8, StepFault>
    ensures prints { PrintsStatus (line_heading line.now status silent ++ report.now) status result (O.given out.old)
        (O.given out.new) }
    ensures checks { RefusesWithin [] result }
    ensures causes { (disk : ℕ) → PrintCauses result (O.faults out.old) (O.faults out.new) disk disk }
{
    let mark: &[u8] = if status == 0 || silent { b"" } else { b":\n" };
    let front: &[u8] = if status == 0 || silent { b"" } else { line };
    match give_parts(out, &[front, mark, report]) {
        Ok(()) => Ok(status),
        Err(_) => Err(StepFault::WriteFault),
    }
}

// judges the words of a line and prints what is found
fn print_under<O: Sink, D: Disk>(
    alloc: Global,
    line: &[u8],
    words: &ValWords,
    out: &mut O,
    disk: &mut D,
) -> Result<u8, StepFault>
    ensures told { IfSome (seen (D.told disk.old))
        (λ v. PrintsStatus (line_heading line.now (words_status words.now v) words.now.silent ++ words_text words.now v)
        (words_status words.now v) result (O.given out.old) (O.given out.new)) }
    ensures same { D.told disk.new ≡ D.told disk.old }
    ensures checks { RefusesWithin [] result }
    ensures causes { PrintCauses result (O.faults out.old) (O.faults out.new) (D.faults disk.old) (D.faults disk.new) }
{
    let mut report = Vec::new(alloc);
    let status = judge_words(alloc, words, &mut report, disk)?;
    give_report(line, status, words.silent, report.as_slice(), out)
}

/// The same of a line of the input, whose words are those of val.
pub fn print_line<O: Sink, D: Disk>(
    alloc: Global,
    line: &[u8],
    out: &mut O,
    disk: &mut D,
) -> Result<u8, StepFault>
    ensures told { IfSome (seen (D.told disk.old)) (λ v. PrintsStatus (line_text v line.now) (line_status v line.now)
        result (O.given out.old) (O.given out.new)) }
    ensures same { D.told disk.new ≡ D.told disk.old }
    ensures checks { RefusesWithin [] result }
    ensures causes { PrintCauses result (O.faults out.old) (O.faults out.new) (D.faults disk.old) (D.faults disk.new) }
{
    match line_words(alloc, line) {
        Ok(words) => print_under(alloc, line, &words, out, disk),
        Err(_) => Err(StepFault::Memory),
    }
}

/// The same of lines of the input, one after the other: their texts, and all their bits together.
pub fn print_lines<O: Sink, D: Disk>(
    alloc: Global,
    lines: &[Line],
    out: &mut O,
    disk: &mut D,
) -> Result<u8, StepFault>
    ensures told { IfSome (seen (D.told disk.old)) (λ v. PrintsStatus (val_lines_text v lines.now)
        (lines_status v lines.now) result (O.given out.old) (O.given out.new)) }
    ensures same { D.told disk.new ≡ D.told disk.old }
    ensures checks { RefusesWithin [] result }
    ensures causes { PrintCauses result (O.faults out.old) (O.faults out.new) (D.faults disk.old) (D.faults disk.new) }
{
    let mut status = 0;
    for line in lines {
        match print_line(alloc, line.bytes(), out, disk) {
            Ok(bits) => status |= bits,
            Err(fault) => return Err(fault),
        }
    }
    Ok(status)
}

/// The same of the input, whose lines are command lines of val without its own word.
pub fn print_input<I: Source, O: Sink, D: Disk>(
    alloc: Global,
    input: &mut I,
    out: &mut O,
    disk: &mut D,
) -> Result<u8, StepFault>
    ensures told { IfSome (seen (D.told disk.old)) (λ v. (i : List ℕ) → I.left input.old ≡ Some i
        → Judges (nat_lt file_limit (length i)) (val_lines_text v (text_of i)) (lines_status v (text_of i)) result
        (O.given out.old) (O.given out.new)) }
    ensures long { (refusal : Refusal) → result ≡ Err (faults.Refused refusal) → (refusal ≡ refusals.TooLong)
        × IfSome (I.left input.old) (λ i. file_limit < length i) }
    ensures same { D.told disk.new ≡ D.told disk.old }
    ensures causes { (err : ℕ) → StepCauses result (counts (I.faults input.old) (O.faults out.old) err
        (D.faults disk.old)) (counts (I.faults input.new) (O.faults out.new) err (D.faults disk.new)) }
{
    match read_names(alloc, input, FILE_LIMIT) {
        Ok(lines) => print_lines(alloc, lines.items(), out, disk),
        Err(TakeFault::TooLong) => Err(StepFault::Refused(Refusal::TooLong)),
        Err(TakeFault::Failed) => Err(StepFault::ReadFault),
        Err(TakeFault::Memory) => Err(StepFault::Memory),
    }
}

// whether the input is taken for command lines
fn takes_lines(words: &ValWords) -> bool
    ensures { result ≡ takes_lines words.now }
{
    words.fault == 0 && words.operands.from_input
}

/// val: judges the operands of its words, or with `-` alone the lines of the input, prints what is found, and answers
/// the status: all their bits together. POSIX, Shell and Utilities, val.
pub fn val<I: Source, O: Sink, D: Disk>(
    alloc: Global,
    words: &ValWords,
    input: &mut I,
    out: &mut O,
    disk: &mut D,
) -> Result<u8, StepFault>
    ensures told { IfSome (seen (D.told disk.old)) (λ v. (i : List ℕ) → (takes_lines words.now ≡ false)
        ⊎ (I.left input.old ≡ Some i)
        → Judges (is_long words.now i) (val_text words.now v i) (val_status words.now v i) result (O.given out.old)
        (O.given out.new)) }
    ensures long { (refusal : Refusal) → result ≡ Err (faults.Refused refusal) → (refusal ≡ refusals.TooLong)
        × IfSome (I.left input.old) (λ i. file_limit < length i) }
    ensures same { D.told disk.new ≡ D.told disk.old }
    ensures ignores { takes_lines words.now ≡ false
        → Ignores faults.ReadFault (I.left input.old) (I.left input.new) (I.faults input.old) (I.faults input.new)
        result }
    ensures causes { (err : ℕ) → StepCauses result (counts (I.faults input.old) (O.faults out.old) err
        (D.faults disk.old)) (counts (I.faults input.new) (O.faults out.new) err (D.faults disk.new)) }
{
    if takes_lines(words) {
        return print_input(alloc, input, out, disk);
    }
    print_words(alloc, words, out, disk)
}
