ghost use Rattle.std.specs.Prelude.{◌≡◌, ◌+◌, ◌^◌, ◌<◌, ◌≤◌, length, option_map, option_and_then, All, IfOk, IfSome};
ghost use Rattle.sccs_sid.specs.Reading.{is_empty};
ghost use Rattle.sccs_sid.specs.Sid.{IsComponent, IsSid};
ghost use Rattle.sccs_sid.specs.Spec.{IsSpec};
ghost use Rattle.sccs_sid.specs.SidLists.{IsRange};
ghost use Rattle.sccs_sid.specs.Moment.{IsMoment};
ghost use Rattle.sccs_words.specs.ValidValues.{AreGetValues, ArePrsValues};
ghost use Rattle.sccs_words.specs.Records.{value_in as value_in_spec, value_of as value_spec, values_of as values_spec};
ghost use Rattle.sccs_words.specs.Records.{mrs_of, option_lines, given_of as given_spec, comment_of as comment_spec};
ghost use Rattle.sccs_words.specs.Records.{get_words as get_spec, summary_of as summary_spec};
ghost use Rattle.sccs_words.specs.Records.{delta_line_words as delta_spec, unget_words as unget_spec};
ghost use Rattle.sccs_words.specs.Records.{cdc_words as cdc_spec, prs_words as prs_spec, admin_words as admin_spec};
ghost use Rattle.sccs_words.specs.Records.{val_words as val_spec, operand_words as operands_spec};
ghost use Rattle.sccs_words.specs.Records.{is_from_input as is_from_input_spec, is_option_fault, usage_bit as bit_spec};
ghost use Rattle.sccs_words.specs.Values.{sid_value as sid_spec, spec_value as spec_spec, moment_value as moment_spec};
ghost use Rattle.sccs_words.specs.Values.{list_value as list_spec, release_value as release_spec, name_value};
ghost use Rattle.sccs_words.specs.Scanned.{command_line};

use crate::command_lines::CommandLine;
use crate::commands::{
    AdminWords, CdcWords, DeltaWords, GetWords, Given, Operands, PrsWords, Summary, UngetWords,
    ValWords,
};
use crate::judging::{has, is_dash, operands_fault, uses_fault};
use crate::scanning::{OptionArgument, Use};
use crate::tables::{OperandRule, Utility};
use crate::values::{
    list_value, moment_value, mr_words, push_copy, release_value, sid_value, spec_value,
};
use sccs_base::{Bytes, Memory, Name, Text, Words};
use sccs_sid::{Moment, Sid, SidList, Spec};
use std::alloc::Global;

// the bits of val's faults
const OPTION_FAULT: u8 = 0x40;

const NO_OPERAND_BIT: u8 = 0x80;

fn value_in(argument: &OptionArgument) -> Option<&[u8]>
    ensures { option_map (λ bytes. bytes.now) result ≡ value_in_spec argument.now }
{
    match argument {
        OptionArgument::Value(bytes, _) => Some(bytes.bytes()),
        OptionArgument::Unknown => None,
        OptionArgument::Bare => None,
        OptionArgument::Missing => None,
    }
}

/// The value of the first use of a letter.
#[tactic(auto, unfolding(crate::specs::Records::value_of))]
pub fn value_of(uses: &[Use], letter: u8) -> Option<&[u8]>
    ensures { option_map (λ bytes. bytes.now) result ≡ value_spec letter uses.now }
{
    for one in uses {
        if one.letter == letter {
            return value_in(&one.argument);
        }
    }
    None
}

// the values of all uses of a letter, in order
#[tactic(auto, unfolding(crate::specs::Records::values_of))]
fn values_of(alloc: Global, uses: &[Use], letter: u8) -> Result<Words, Memory>
    ensures { IfOk result (λ values. values ≡ values_spec letter uses.now) }
{
    let mut values = Words::new(alloc);
    for one in uses {
        let found = if one.letter == letter {
            value_in(&one.argument)
        } else {
            None
        };
        match found {
            Some(bytes) => push_copy(alloc, &mut values, bytes)?,
            None => {}
        }
    }
    Ok(values)
}

pub fn sid_at(uses: &[Use], letter: u8) -> Option<Sid>
    ensures value { result ≡ option_and_then sid_spec (value_spec letter uses.now) }
    ensures valid { IfSome result IsSid }
{
    sid_value(value_of(uses, letter)?)
}

fn spec_at(uses: &[Use], letter: u8) -> Option<Spec>
    ensures value { result ≡ option_and_then spec_spec (value_spec letter uses.now) }
    ensures valid { IfSome result IsSpec }
{
    spec_value(value_of(uses, letter)?)
}

fn list_at(alloc: Global, uses: &[Use], letter: u8) -> Result<Option<SidList>, Memory>
    ensures value { IfOk result (λ r. r ≡ option_and_then list_spec (value_spec letter uses.now)) }
    ensures valid { IfOk result (λ r. IfSome r (All IsRange)) }
{
    match value_of(uses, letter) {
        Some(bytes) => list_value(alloc, bytes),
        None => Ok(None),
    }
}

fn moment_at(uses: &[Use], letter: u8) -> Option<Moment>
    ensures value { result ≡ option_and_then moment_spec (value_spec letter uses.now) }
    ensures valid { IfSome result IsMoment }
{
    moment_value(value_of(uses, letter)?)
}

fn release_at(uses: &[Use], letter: u8) -> Option<u16>
    ensures value { result ≡ option_and_then release_spec (value_spec letter uses.now) }
    ensures valid { IfSome result IsComponent }
{
    release_value(value_of(uses, letter)?)
}

fn bytes_at(alloc: Global, uses: &[Use], letter: u8) -> Result<Option<Bytes>, Memory>
    ensures { IfOk result (λ r. r ≡ value_spec letter uses.now) }
{
    match value_of(uses, letter) {
        Some(bytes) => {
            let bytes = Bytes::new(alloc, bytes)?;
            Ok(Some(bytes))
        }
        None => Ok(None),
    }
}

fn name_at(uses: &[Use], letter: u8) -> Option<Name>
    ensures { result ≡ option_and_then name_value (value_spec letter uses.now) }
{
    match value_of(uses, letter) {
        Some(bytes) => name_in(bytes),
        None => None,
    }
}

pub fn name_in(bytes: &[u8]) -> Option<Name>
    ensures { result ≡ name_value bytes.now }
{
    Name::read(bytes)
}

fn given_of(uses: &[Use], letter: u8) -> Given
    ensures { result ≡ given_spec letter uses.now }
{
    if !has(uses, letter) {
        return Given::No;
    }
    match name_at(uses, letter) {
        Some(name) => Given::From(name),
        None => Given::Bare,
    }
}

fn mrs_at(alloc: Global, uses: &[Use], letter: u8) -> Result<Words, Memory>
    ensures { IfOk result (λ r. r ≡ mrs_of (value_spec letter uses.now)) }
{
    match value_of(uses, letter) {
        Some(bytes) => mr_words(alloc, bytes),
        None => Ok(Words::new(alloc)),
    }
}

fn lines_at(alloc: Global, uses: &[Use], letter: u8) -> Result<Text, Memory>
    ensures { IfOk result (λ r. r ≡ option_lines (value_spec letter uses.now)) }
{
    match value_of(uses, letter) {
        Some(bytes) => Text::read(alloc, bytes),
        None => Ok(Text::empty(alloc)),
    }
}

fn comment_of(alloc: Global, uses: &[Use]) -> Result<Option<Text>, Memory>
    ensures { IfOk result (λ r. r ≡ comment_spec uses.now) }
{
    if !has(uses, b'y') {
        return Ok(None);
    }
    let lines = lines_at(alloc, uses, b'y')?;
    Ok(Some(lines))
}

// where the summary goes; the two options exclude each other
fn summary_at(uses: &[Use]) -> Summary
    ensures { result ≡ summary_spec uses.now }
{
    if has(uses, b'l') {
        return Summary::File;
    }
    if has(uses, b'L') {
        return Summary::Out;
    }
    Summary::No
}

pub fn get_words(alloc: Global, uses: &[Use]) -> Result<GetWords, Memory>
    ensures value { IfOk result (λ r. r ≡ get_spec uses.now) }
    ensures valid { IfOk result AreGetValues }
{
    Ok(GetWords {
        branch: has(uses, b'b'),
        cutoff: moment_at(uses, b'c'),
        edit: has(uses, b'e'),
        no_text: has(uses, b'g'),
        include: list_at(alloc, uses, b'i')?,
        exclude: list_at(alloc, uses, b'x')?,
        keep: has(uses, b'k'),
        sids: has(uses, b'm'),
        module: has(uses, b'n'),
        print: has(uses, b'p'),
        silent: has(uses, b's'),
        spec: spec_at(uses, b'r'),
        top: has(uses, b't'),
        summary: summary_at(uses),
    })
}

pub fn delta_words(alloc: Global, uses: &[Use]) -> Result<DeltaWords, Memory>
    ensures value { IfOk result (λ r. r ≡ delta_spec uses.now) }
    ensures valid { IfOk result (λ r. IfSome r.sid IsSid) }
{
    Ok(DeltaWords {
        mrs: mrs_at(alloc, uses, b'm')?,
        keep: has(uses, b'n'),
        sid: sid_at(uses, b'r'),
        silent: has(uses, b's'),
        comment: lines_at(alloc, uses, b'y')?,
    })
}

pub fn unget_words(uses: &[Use]) -> UngetWords
    ensures value { result ≡ unget_spec uses.now }
    ensures valid { IfSome result.sid IsSid }
{
    UngetWords {
        keep: has(uses, b'n'),
        sid: sid_at(uses, b'r'),
        silent: has(uses, b's'),
    }
}

pub fn cdc_words(alloc: Global, sid: Sid, uses: &[Use]) -> Result<CdcWords, Memory>
    ensures { IfOk result (λ r. r ≡ cdc_spec sid uses.now) }
{
    let mrs = mrs_at(alloc, uses, b'm')?;
    let comment = comment_of(alloc, uses)?;
    Ok(CdcWords { sid, mrs, comment })
}

pub fn prs_words(alloc: Global, uses: &[Use]) -> Result<PrsWords, Memory>
    ensures value { IfOk result (λ r. r ≡ prs_spec uses.now) }
    ensures valid { IfOk result ArePrsValues }
{
    Ok(PrsWords {
        all: has(uses, b'a'),
        earlier: has(uses, b'e'),
        later: has(uses, b'l'),
        cutoff: moment_at(uses, b'c'),
        chosen: has(uses, b'r'),
        sid: sid_at(uses, b'r'),
        spec: bytes_at(alloc, uses, b'd')?,
    })
}

// the values of all uses of two letters
fn values_of_both(
    alloc: Global,
    uses: &[Use],
    first: u8,
    second: u8,
) -> Result<(Words, Words), Memory>
    ensures first { IfOk result (λ both. both.0 ≡ values_spec first uses.now) }
    ensures second { IfOk result (λ both. both.1 ≡ values_spec second uses.now) }
{
    let of_first = values_of(alloc, uses, first)?;
    let of_second = values_of(alloc, uses, second)?;
    Ok((of_first, of_second))
}

pub fn admin_words(alloc: Global, uses: &[Use]) -> Result<AdminWords, Memory>
    ensures value { IfOk result (λ r. r ≡ admin_spec uses.now) }
    ensures valid { IfOk result (λ r. IfSome r.release IsComponent) }
{
    let mrs = mrs_at(alloc, uses, b'm')?;
    let comment = comment_of(alloc, uses)?;
    let (add, erase) = values_of_both(alloc, uses, b'a', b'e')?;
    let (set, unset) = values_of_both(alloc, uses, b'f', b'd')?;
    Ok(AdminWords {
        add,
        erase,
        set,
        unset,
        check: has(uses, b'h'),
        fix: has(uses, b'z'),
        fresh: has(uses, b'n') || has(uses, b'i'),
        text: given_of(uses, b'i'),
        release: release_at(uses, b'r'),
        mrs,
        comment,
        description: given_of(uses, b't'),
    })
}

fn is_from_input(words: &[Bytes]) -> bool
    ensures { result ≡ is_from_input_spec words.now }
{
    match words {
        [word] => is_dash(word.bytes()),
        [] => false,
        _ => false,
    }
}

fn copied(alloc: Global, words: &[Bytes]) -> Result<Words, Memory>
    ensures { IfOk result (λ r. r ≡ words.now) }
{
    let mut copies = Words::new(alloc);
    for word in words {
        push_copy(alloc, &mut copies, word.bytes())?;
    }
    Ok(copies)
}

pub fn operands_of(alloc: Global, words: &[Bytes]) -> Result<Operands, Memory>
    ensures { IfOk result (λ r. r ≡ operands_spec words.now) }
{
    if is_from_input(words) {
        return Ok(Operands {
            words: Words::new(alloc),
            from_input: true,
        });
    }
    let words = copied(alloc, words)?;
    Ok(Operands {
        words,
        from_input: false,
    })
}

// whether an option of val is at fault, or `-` stands with another operand
fn has_option_fault(alloc: Global, line: &CommandLine<'_>) -> Result<bool, Memory>
    ensures { IfOk result (λ r. r ≡ is_option_fault (command_line line.now)) }
{
    let of_uses = uses_fault(alloc, Utility::Val, line.uses)?;
    let of_operands = operands_fault(OperandRule::Many, line);
    Ok(of_uses.is_some() || of_operands.is_some())
}

fn bit(holds: bool, value: u8) -> u8
    ensures value { result ≡ bit_spec holds value }
    ensures most { result ≤ value }
{
    if holds { value } else { 0 }
}

// the bits of the faults of val's words
fn val_fault(alloc: Global, line: &CommandLine<'_>) -> Result<u8, Memory>
    ensures { IfOk result (λ r. r ≡ bit_spec (is_option_fault (command_line line.now)) 64 + bit_spec
        (is_empty line.now.operands.now) 128) }
{
    let option = bit(has_option_fault(alloc, line)?, OPTION_FAULT);
    let none = bit(line.operands.is_empty(), NO_OPERAND_BIT);
    Ok(option + none)
}

pub fn val_words(alloc: Global, line: &CommandLine<'_>) -> Result<ValWords, Memory>
    ensures { IfOk result (λ r. r ≡ val_spec (command_line line.now)) }
{
    let fault = val_fault(alloc, line)?;
    let operands = operands_of(alloc, line.operands)?;
    let sid = bytes_at(alloc, line.uses, b'r')?;
    let kind = bytes_at(alloc, line.uses, b'y')?;
    let module = bytes_at(alloc, line.uses, b'm')?;
    Ok(ValWords {
        fault,
        silent: has(line.uses, b's'),
        sid,
        kind,
        module,
        operands,
    })
}
