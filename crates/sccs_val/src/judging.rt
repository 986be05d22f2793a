ghost use Rattle.std.specs.Prelude.{◌≡◌, ℕ, ◌++◌, [], Err, IfOk, IfSome, if◌then◌else◌};
ghost use Rattle.sccs_disk.specs.Files.{View};
ghost use Rattle.sccs_disk.specs.Told.{seen};
ghost use Rattle.sccs_sid.specs.declared.refusals.StepFault.{StepFault};
ghost use Rattle.sccs_sid.specs.declared.refusals.StepFault.TheVariants as faults;
ghost use Rattle.sccs_steps.specs.Actions.{RefusesWithin};
ghost use Rattle.sccs_steps.specs.Causes.{PrintCauses};
ghost use Rattle.sccs_val.specs.Reports.{fault_lines, operand_status, operand_text, operands_status, operands_text};
ghost use Rattle.sccs_val.specs.Reports.{words_status, words_text};

use crate::findings::find;
use crate::reports::{add_faults, add_lines};
use sccs_base::Bytes;
use sccs_disk::Disk;
use sccs_sid::StepFault;
use sccs_words::ValWords;
use std::alloc::Global;

// judges an operand: adds what is printed of it, and answers its bits
fn judge_operand<D: Disk>(
    alloc: Global,
    words: &ValWords,
    operand: &[u8],
    report: &mut Vec<u8>,
    disk: &mut D,
) -> Result<u8, StepFault>
    ensures told { IfSome (seen (D.told disk.old))
        (λ v. IfOk result (λ status. (status ≡ operand_status words.now v operand.now)
        × (report.new.items ≡ report.old.items ++ operand_text words.now v operand.now))) }
    ensures same { D.told disk.new ≡ D.told disk.old }
    ensures checks { RefusesWithin [] result }
    ensures causes { (out : ℕ) → PrintCauses result out out (D.faults disk.old) (D.faults disk.new) }
{
    let found = find(alloc, words, operand, disk)?;
    if !words.silent {
        let Ok(()) = add_lines(operand, &found, report) else {
            return Err(StepFault::Memory);
        };
    }
    Ok(found.bits())
}

// judges operands one after the other: their texts, and all their bits together
fn judge_operands<D: Disk>(
    alloc: Global,
    words: &ValWords,
    operands: &[Bytes],
    report: &mut Vec<u8>,
    disk: &mut D,
) -> Result<u8, StepFault>
    ensures told { IfSome (seen (D.told disk.old))
        (λ v. IfOk result (λ status. (status ≡ operands_status words.now v operands.now)
        × (report.new.items ≡ report.old.items ++ operands_text words.now v operands.now))) }
    ensures same { D.told disk.new ≡ D.told disk.old }
    ensures checks { RefusesWithin [] result }
    ensures causes { (out : ℕ) → PrintCauses result out out (D.faults disk.old) (D.faults disk.new) }
{
    let mut status = 0;
    for operand in operands {
        match judge_operand(alloc, words, operand.bytes(), report, disk) {
            Ok(bits) => status |= bits,
            Err(fault) => return Err(fault),
        }
    }
    Ok(status)
}

// judges words that are at fault: no file is read
fn judge_faults(words: &ValWords, report: &mut Vec<u8>) -> Result<u8, StepFault>
    ensures told { IfOk result (λ status. (status ≡ words.now.fault)
        × (report.new.items ≡ report.old.items ++ (if words.now.silent then [] else fault_lines words.now.fault))) }
    ensures err { (fault : StepFault) → result ≡ Err fault → fault ≡ faults.Memory }
{
    if words.silent {
        return Ok(words.fault);
    }
    match add_faults(words.fault, report) {
        Ok(()) => Ok(words.fault),
        Err(_) => Err(StepFault::Memory),
    }
}

/// Judges the words of val: adds what is printed of them, and answers their status.
pub fn judge_words<D: Disk>(
    alloc: Global,
    words: &ValWords,
    report: &mut Vec<u8>,
    disk: &mut D,
) -> Result<u8, StepFault>
    ensures told { IfSome (seen (D.told disk.old)) (λ v. IfOk result (λ status. (status ≡ words_status words.now v)
        × (report.new.items ≡ report.old.items ++ words_text words.now v))) }
    ensures same { D.told disk.new ≡ D.told disk.old }
    ensures checks { RefusesWithin [] result }
    ensures causes { (out : ℕ) → PrintCauses result out out (D.faults disk.old) (D.faults disk.new) }
{
    if words.fault != 0 {
        return judge_faults(words, report);
    }
    if words.operands.from_input {
        return judge_operand(alloc, words, b"-", report, disk);
    }
    judge_operands(alloc, words, words.operands.words.items(), report, disk)
}
