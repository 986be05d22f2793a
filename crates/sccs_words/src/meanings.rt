ghost use Rattle.std.specs.Prelude.{◌≡◌, ◌+◌, ◌^◌, ◌<◌, ◌≤◌, length, option_and_then, IfOk, IfSome, Ok};
ghost use Rattle.sccs_words.specs.Letters as opt;
ghost use Rattle.sccs_words.specs.declared.commands.Command.TheVariants as commands;
ghost use Rattle.sccs_words.specs.Meaning.{GivesCommand, meaning, first_text, with_name, with_sid, with_changes};
ghost use Rattle.sccs_words.specs.Meaning.{with_number, own_utility, utility_of as utility_spec};
ghost use Rattle.sccs_words.specs.Meaning.{line_command as command_spec, words_fault as refusal_spec};
ghost use Rattle.sccs_words.specs.Meaning.{line_meaning as line_spec};
ghost use Rattle.sccs_words.specs.Records.{value_of as value_spec, admin_words as admin_spec, get_words as get_spec};
ghost use Rattle.sccs_words.specs.Records.{prs_words as prs_spec, operand_words as operands_spec};
ghost use Rattle.sccs_words.specs.Scan.{end_of};
ghost use Rattle.sccs_words.specs.Scanned.{command_line};
ghost use Rattle.sccs_words.specs.ValidValues.{HasValidValues};
ghost use Rattle.sccs_words.specs.Values.{name_value, sid_value as sid_spec, soak_number as soak_spec};

use crate::command_lines::CommandLine;
use crate::commands::{Command, NO_OPERAND, OPTION_NEEDED, UNKNOWN_UTILITY, Usage, WordsFault};
use crate::judging::{first_fault, has};
use crate::records::{
    admin_words, cdc_words, delta_words, get_words, name_in, operands_of, prs_words, sid_at,
    unget_words, val_words,
};
use crate::scanning::{Use, scan_words};
use crate::tables::Utility;
use crate::values::soak_number;
use sccs_base::{Bytes, Memory, Name, Words};
use std::alloc::Global;

// the utilities that the standard lacks: our own, and cdc
fn own_utility(word: &[u8]) -> Option<Utility>
    ensures { result ≡ own_utility word.now }
{
    if word == b"recover".as_slice() {
        Some(Utility::Recover)
    } else if word == b"tell".as_slice() {
        Some(Utility::Tell)
    } else if word == b"check".as_slice() {
        Some(Utility::Check)
    } else if word == b"import".as_slice() {
        Some(Utility::Import)
    } else if word == b"batch".as_slice() {
        Some(Utility::Batch)
    } else if word == b"group".as_slice() {
        Some(Utility::Group)
    } else if word == b"soak".as_slice() {
        Some(Utility::Soak)
    } else if word == b"cdc".as_slice() {
        Some(Utility::Cdc)
    } else {
        None
    }
}

// the utilities of the standard, and those that it lacks
#[tactic(auto, unfolding(crate::specs::Meaning::utility_of))]
fn utility_of(word: &[u8]) -> Option<Utility>
    ensures { result ≡ utility_spec word.now }
{
    if word == b"admin".as_slice() {
        Some(Utility::Admin)
    } else if word == b"get".as_slice() {
        Some(Utility::Get)
    } else if word == b"delta".as_slice() {
        Some(Utility::Delta)
    } else if word == b"unget".as_slice() {
        Some(Utility::Unget)
    } else if word == b"sact".as_slice() {
        Some(Utility::Sact)
    } else if word == b"rmdel".as_slice() {
        Some(Utility::Rmdel)
    } else if word == b"prs".as_slice() {
        Some(Utility::Prs)
    } else if word == b"val".as_slice() {
        Some(Utility::Val)
    } else if word == b"what".as_slice() {
        Some(Utility::What)
    } else {
        own_utility(word)
    }
}

// the name of the first operand
fn first_name(operands: &[Bytes]) -> Option<Name>
    ensures { result ≡ option_and_then name_value (first_text operands.now) }
{
    match operands {
        [] => None,
        [word, ..] => name_in(word.bytes()),
    }
}

// the number of the first operand
fn first_number(operands: &[Bytes]) -> Option<u64>
    ensures value { result ≡ option_and_then soak_spec (first_text operands.now) }
    ensures most { IfSome result (λ n. n ≤ 2000) }
{
    match operands {
        [] => None,
        [word, ..] => soak_number(word.bytes()),
    }
}

fn admin_of(alloc: Global, line: &CommandLine<'_>) -> Result<Command, WordsFault>
    ensures value { GivesCommand result
        (Ok (commands.Admin (admin_spec line.now.uses.now) (operands_spec line.now.operands.now))) }
    ensures valid { IfOk result HasValidValues }
{
    let operands = operands_of(alloc, line.operands)?;
    let words = admin_words(alloc, line.uses)?;
    Ok(Command::Admin(words, operands))
}

fn get_of(alloc: Global, line: &CommandLine<'_>) -> Result<Command, WordsFault>
    ensures value { GivesCommand result
        (Ok (commands.Get (get_spec line.now.uses.now) (operands_spec line.now.operands.now))) }
    ensures valid { IfOk result HasValidValues }
{
    let operands = operands_of(alloc, line.operands)?;
    let words = get_words(alloc, line.uses)?;
    Ok(Command::Get(words, operands))
}

fn prs_of(alloc: Global, line: &CommandLine<'_>) -> Result<Command, WordsFault>
    ensures value { GivesCommand result
        (Ok (commands.Prs (prs_spec line.now.uses.now) (operands_spec line.now.operands.now))) }
    ensures valid { IfOk result HasValidValues }
{
    let operands = operands_of(alloc, line.operands)?;
    let words = prs_words(alloc, line.uses)?;
    Ok(Command::Prs(words, operands))
}

fn delta_of(alloc: Global, line: &CommandLine<'_>) -> Result<Command, WordsFault>
    ensures value { GivesCommand result (with_name line.now.uses.now (end_of (command_line line.now))
        (option_and_then name_value (first_text line.now.operands.now))) }
    ensures valid { IfOk result HasValidValues }
{
    match first_name(line.operands) {
        None => Err(WordsFault::Usage(Usage {
            kind: NO_OPERAND,
            word: line.end(),
        })),
        Some(name) => {
            let words = delta_words(alloc, line.uses)?;
            Ok(Command::Delta(words, name))
        }
    }
}

fn rmdel_of(alloc: Global, line: &CommandLine<'_>) -> Result<Command, WordsFault>
    ensures value { GivesCommand result (with_sid line.now.operands.now (end_of (command_line line.now))
        (option_and_then sid_spec (value_spec opt.r line.now.uses.now))) }
    ensures valid { IfOk result HasValidValues }
{
    match sid_at(line.uses, b'r') {
        None => Err(WordsFault::Usage(Usage {
            kind: OPTION_NEEDED,
            word: line.end(),
        })),
        Some(sid) => {
            let operands = operands_of(alloc, line.operands)?;
            Ok(Command::Rmdel(sid, operands))
        }
    }
}

fn cdc_of(alloc: Global, line: &CommandLine<'_>) -> Result<Command, WordsFault>
    ensures value { GivesCommand result (with_changes line.now.uses.now line.now.operands.now
        (end_of (command_line line.now)) (option_and_then sid_spec (value_spec opt.r line.now.uses.now))) }
    ensures valid { IfOk result HasValidValues }
{
    match sid_at(line.uses, b'r') {
        None => Err(WordsFault::Usage(Usage {
            kind: OPTION_NEEDED,
            word: line.end(),
        })),
        Some(sid) => {
            let operands = operands_of(alloc, line.operands)?;
            let words = cdc_words(alloc, sid, line.uses)?;
            Ok(Command::Cdc(words, operands))
        }
    }
}

fn soak_of(line: &CommandLine<'_>) -> Result<Command, WordsFault>
    ensures value { GivesCommand result (with_number (end_of (command_line line.now)) (option_and_then soak_spec
        (first_text line.now.operands.now))) }
    ensures valid { IfOk result HasValidValues }
{
    match first_number(line.operands) {
        None => Err(WordsFault::Usage(Usage {
            kind: NO_OPERAND,
            word: line.end(),
        })),
        Some(steps) => Ok(Command::Soak(steps)),
    }
}

// the command of a line without a fault
fn command_of(
    alloc: Global,
    utility: Utility,
    line: &CommandLine<'_>,
) -> Result<Command, WordsFault>
    ensures value { GivesCommand result (command_spec utility (command_line line.now)
        (end_of (command_line line.now))) }
    ensures valid { IfOk result HasValidValues }
{
    let uses = line.uses;
    let operands = line.operands;
    match utility {
        Utility::Admin => admin_of(alloc, line),
        Utility::Get => get_of(alloc, line),
        Utility::Delta => delta_of(alloc, line),
        Utility::Unget => Ok(Command::Unget(unget_words(uses), operands_of(alloc, operands)?)),
        Utility::Sact => Ok(Command::Sact(operands_of(alloc, operands)?)),
        Utility::Tell => Ok(Command::Tell(operands_of(alloc, operands)?)),
        Utility::Check => Ok(Command::Check(operands_of(alloc, operands)?)),
        Utility::Rmdel => rmdel_of(alloc, line),
        Utility::Cdc => cdc_of(alloc, line),
        Utility::Prs => prs_of(alloc, line),
        Utility::Val => Ok(Command::Val(val_words(alloc, line)?)),
        Utility::What => Ok(Command::What(has(uses, b's'), operands_of(alloc, operands)?)),
        Utility::Recover => Ok(Command::Recover(operands_of(alloc, operands)?)),
        Utility::Import => Ok(Command::Import(operands_of(alloc, operands)?)),
        Utility::Batch => Ok(Command::Batch),
        Utility::Group => Ok(Command::Group),
        Utility::Soak => soak_of(line),
    }
}

// the first fault; val's faults are bits of its command
fn refusal_of(
    alloc: Global,
    utility: Utility,
    line: &CommandLine<'_>,
) -> Result<Option<Usage>, Memory>
    ensures { IfOk result (λ r. r ≡ refusal_spec utility (command_line line.now) (end_of (command_line line.now))) }
{
    match utility {
        Utility::Val => Ok(None),
        _ => first_fault(alloc, utility, line),
    }
}

#[tactic(auto, unfolding(crate::specs::Meaning::line_meaning))]
fn line_meaning(
    alloc: Global,
    utility: Utility,
    line: &CommandLine<'_>,
) -> Result<Command, WordsFault>
    ensures value { GivesCommand result (line_spec utility (command_line line.now) (end_of (command_line line.now))) }
    ensures valid { IfOk result HasValidValues }
{
    let fault = refusal_of(alloc, utility, line)?;
    match fault {
        Some(usage) => Err(WordsFault::Usage(usage)),
        None => command_of(alloc, utility, line),
    }
}

/// The command that words are, the utility's word among them, or their first usage fault: POSIX,
/// Shell and Utilities, the synopsis of each utility. Each SID, moment, release and list of the command
/// is a valid one.
#[tactic(auto, unfolding(crate::specs::Meaning::meaning))]
pub fn read_words(alloc: Global, words: &Words) -> Result<Command, WordsFault>
    ensures value { GivesCommand result (meaning words.now) }
    ensures valid { IfOk result HasValidValues }
{
    let (utility, rest) = match words.items() {
        [] => {
            return Err(WordsFault::Usage(Usage {
                kind: UNKNOWN_UTILITY,
                word: 1,
            }));
        }
        [word, rest @ ..] => match utility_of(word.bytes()) {
            None => {
                return Err(WordsFault::Usage(Usage {
                    kind: UNKNOWN_UTILITY,
                    word: 1,
                }));
            }
            Some(utility) => (utility, rest),
        },
    };
    let scanned = scan_words(alloc, utility.options(), 2, rest)?;
    let line = CommandLine {
        uses: &scanned.uses,
        first: 2 + scanned.before as u64,
        operands: &rest[scanned.before..],
    };
    line_meaning(alloc, utility, &line)
}
