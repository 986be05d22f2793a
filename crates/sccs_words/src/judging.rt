ghost use Rattle.std.specs.Prelude.{◌≡◌, ℕ, ◌+◌, ◌^◌, ◌<◌, [], ◌∷◌, ◌++◌, length, IfOk, OnOk};
ghost use Rattle.sccs_words.specs.Judge.{has_use as has_spec, has_letter as has_letter_spec};
ghost use Rattle.sccs_words.specs.Judge.{used_letter as letter_spec, is_same as is_same_spec};
ghost use Rattle.sccs_words.specs.Judge.{excludes_by as excludes_by_spec, is_excluded as is_excluded_spec};
ghost use Rattle.sccs_words.specs.Judge.{is_bare as is_bare_spec, repeats as repeats_spec, option_form as form_spec};
ghost use Rattle.sccs_words.specs.Judge.{is_given_twice as is_given_twice_spec, known_fault as known_spec};
ghost use Rattle.sccs_words.specs.Judge.{fault_by as use_spec, uses_fault as uses_spec, SameLetters};
ghost use Rattle.sccs_words.specs.Judge.{is_dash as is_dash_spec, is_named as is_named_spec};
ghost use Rattle.sccs_words.specs.Judge.{operand_fits as operand_fits_spec, is_late_dash as is_late_dash_spec};
ghost use Rattle.sccs_words.specs.Judge.{dash_with_other as dash_with_other_spec, operand_fault as operand_spec};
ghost use Rattle.sccs_words.specs.Judge.{operands_fault as operands_spec, wants as wants_spec, met as met_spec};
ghost use Rattle.sccs_words.specs.Judge.{takes_one as takes_one_spec, too_many as too_many_spec};
ghost use Rattle.sccs_words.specs.Judge.{none_though_wanted as none_though_wanted_spec, end_fault as end_spec};
ghost use Rattle.sccs_words.specs.Judge.{usage_fault as first_spec};
ghost use Rattle.std.specs.List.{list_any, list_all};
ghost use Rattle.sccs_words.specs.Scan.{end_of};
ghost use Rattle.sccs_words.specs.Scanned.{command_line};
ghost use Rattle.sccs_words.specs.Synopsis.{exclusions_of, needs_of};

use crate::command_lines::CommandLine;
use crate::commands::{
    EXCLUDE, GIVEN_TWICE, MALFORMED, MISSING_ARGUMENT, NO_OPERAND, OPTION_NEEDED, TOO_MANY,
    UNKNOWN_OPTION, Usage,
};
use crate::scanning::{OptionArgument, Use, find_option};
use crate::tables::{Exclusion, Form, Need, OperandRule, OptionSpec, Utility};
use crate::values::{form_fits, soak_number};
use sccs_base::{Bytes, Memory, Name};
use std::alloc::Global;

/// Whether an option of that letter is used.
pub fn has(uses: &[Use], letter: u8) -> bool
    ensures { result ≡ has_spec letter uses.now }
{
    uses.iter().any(|one| one.letter == letter)
}

/// What later options are judged by of an option that was used: its letter, and whether it has no value.
#[derive(Clone, Copy)]
pub struct UsedLetter {
    pub letter: u8,
    pub is_bare: bool,
}

fn is_bare(argument: &OptionArgument) -> bool
    ensures { result ≡ is_bare_spec argument.now }
{
    match argument {
        OptionArgument::Bare => true,
        OptionArgument::Unknown => false,
        OptionArgument::Missing => false,
        OptionArgument::Value(_, _) => false,
    }
}

fn used_letter(one: &Use) -> UsedLetter
    ensures { result ≡ letter_spec one.now }
{
    UsedLetter {
        letter: one.letter,
        is_bare: is_bare(&one.argument),
    }
}

fn has_letter(before: &[UsedLetter], letter: u8) -> bool
    ensures { result ≡ has_letter_spec letter before.now }
{
    before.iter().any(|one| one.letter == letter)
}

// whether a rule speaks of these two, in this order
fn parts(rule: Exclusion, a: UsedLetter, b: UsedLetter) -> bool
    ensures { result ≡ excludes_by_spec rule a b }
{
    match rule {
        Exclusion::Both(x, y) => a.letter == x && b.letter == y,
        Exclusion::Bare(x, y) => a.letter == x && a.is_bare && b.letter == y,
        Exclusion::Alone(x) => a.letter == x && b.letter != x,
    }
}

fn is_excluded(rules: &[Exclusion], a: UsedLetter, b: UsedLetter) -> bool
    ensures { result ≡ is_excluded_spec rules.now a b }
{
    rules
        .iter()
        .any(|rule| parts(*rule, a, b) || parts(*rule, b, a))
}

fn repeats(option: Option<OptionSpec>) -> bool
    ensures { result ≡ repeats_spec option }
{
    match option {
        Some(OptionSpec::Repeated(_, _)) => true,
        Some(OptionSpec::Plain(_)) => false,
        Some(OptionSpec::Joined(_, _)) => false,
        Some(OptionSpec::Valued(_, _)) => false,
        None => false,
    }
}

fn form_of(option: Option<OptionSpec>) -> Form
    ensures { result ≡ form_spec option }
{
    match option {
        Some(OptionSpec::Joined(_, form)) => form,
        Some(OptionSpec::Valued(_, form)) => form,
        Some(OptionSpec::Repeated(_, form)) => form,
        Some(OptionSpec::Plain(_)) => Form::Any,
        None => Form::Any,
    }
}

fn is_given_twice(option: Option<OptionSpec>, before: &[UsedLetter], letter: u8) -> bool
    ensures { result ≡ is_given_twice_spec option before.now letter }
{
    !repeats(option) && has_letter(before, letter)
}

fn excludes(utility: Utility, before: &[UsedLetter], one: UsedLetter) -> bool
    ensures { result ≡ list_any (λ other. is_excluded_spec (exclusions_of utility) one other) before.now }
{
    let rules = utility.exclusions();
    before.iter().any(|other| is_excluded(rules, one, *other))
}

// a use of a letter of the utility
fn known_fault(
    alloc: Global,
    utility: Utility,
    before: &[UsedLetter],
    one: &Use,
    option: Option<OptionSpec>,
) -> Result<Option<Usage>, Memory>
    ensures { IfOk result (λ r. r ≡ known_spec utility before.now one.now option) }
{
    if is_given_twice(option, before, one.letter) {
        return Ok(Some(Usage {
            kind: GIVEN_TWICE,
            word: one.word,
        }));
    }
    if excludes(utility, before, used_letter(one)) {
        return Ok(Some(Usage {
            kind: EXCLUDE,
            word: one.word,
        }));
    }
    match &one.argument {
        OptionArgument::Value(bytes, word) => {
            let fits = form_fits(alloc, form_of(option), bytes.bytes())?;
            if fits {
                return Ok(None);
            }
            Ok(Some(Usage {
                kind: MALFORMED,
                word: *word,
            }))
        }
        OptionArgument::Unknown => Ok(None),
        OptionArgument::Bare => Ok(None),
        OptionArgument::Missing => Ok(None),
    }
}

// the fault of a use, judged after those before it
fn use_fault(
    alloc: Global,
    utility: Utility,
    before: &[UsedLetter],
    one: &Use,
) -> Result<Option<Usage>, Memory>
    ensures { IfOk result (λ r. r ≡ use_spec utility before.now one.now one.now.argument) }
{
    match &one.argument {
        OptionArgument::Unknown => Ok(Some(Usage {
            kind: UNKNOWN_OPTION,
            word: one.word,
        })),
        OptionArgument::Missing => Ok(Some(Usage {
            kind: MISSING_ARGUMENT,
            word: one.word,
        })),
        OptionArgument::Bare => known_fault(
            alloc,
            utility,
            before,
            one,
            find_option(utility.options(), one.letter),
        ),
        OptionArgument::Value(_, _) => known_fault(
            alloc,
            utility,
            before,
            one,
            find_option(utility.options(), one.letter),
        ),
    }
}

fn is_same(a: UsedLetter, b: UsedLetter) -> bool
    ensures { result ≡ is_same_spec a b }
{
    a.letter == b.letter && a.is_bare == b.is_bare
}

fn is_there(letters: &[UsedLetter], one: UsedLetter) -> bool
    ensures { result ≡ list_any (λ other. is_same_spec other one) letters.now }
{
    letters.iter().any(|other| is_same(*other, one))
}

// adds a letter, where it isn't there
fn add_letter(letters: &mut Vec<UsedLetter>, one: UsedLetter) -> Result<(), Memory>
    ensures { OnOk result (SameLetters letters.new.items (letters.old.items ++ one ∷ [])) }
{
    if !is_there(letters, one) {
        letters.push(one)?;
    }
    Ok(())
}

/// The first fault of the uses.
pub fn uses_fault(alloc: Global, utility: Utility, uses: &[Use]) -> Result<Option<Usage>, Memory>
    ensures { IfOk result (λ r. r ≡ uses_spec utility uses.now) }
{
    let mut letters = Vec::new(alloc);
    'uses: for one in uses {
        let found = use_fault(alloc, utility, &letters, one)?;
        match found {
            Some(fault) => return Ok(Some(fault)),
            None => {}
        }
        add_letter(&mut letters, used_letter(one))?;
    }
    Ok(None)
}

pub fn is_dash(word: &[u8]) -> bool
    ensures { result ≡ is_dash_spec word.now }
{
    word == b"-".as_slice()
}

fn is_named(word: &[u8]) -> bool
    ensures { result ≡ is_named_spec word.now }
{
    !is_dash(word) && word != b".".as_slice()
}

fn operand_fits(rule: OperandRule, uses: &[Use], word: &[u8]) -> bool
    ensures { result ≡ operand_fits_spec rule uses.now word.now }
{
    match rule {
        OperandRule::Sfile => Name::read_sfile(word).is_some(),
        OperandRule::Number => soak_number(word).is_some(),
        OperandRule::Named => is_named(word),
        OperandRule::OneWith(letter) => !has(uses, letter) || is_named(word),
        OperandRule::Nothing => true,
        OperandRule::Many => true,
    }
}

// whether a word is `-` and others stand before it
fn is_late_dash(before: &[Bytes], word: &[u8]) -> bool
    ensures { result ≡ is_late_dash_spec before.now word.now }
{
    is_dash(word) && !before.is_empty()
}

fn dash_with_other(had_dash: bool, before: &[Bytes], word: &[u8]) -> bool
    requires dash { had_dash ≡ list_any is_dash_spec before.now }
    ensures { result ≡ dash_with_other_spec before.now word.now }
{
    had_dash || is_late_dash(before, word)
}

// the fault of an operand, judged after those before it
#[tactic(auto, unfolding(crate::specs::Judge::operand_fault))]
fn operand_fault(
    rule: OperandRule,
    line: &CommandLine<'_>,
    had_dash: bool,
    before: &[Bytes],
    word: &[u8],
) -> Option<Usage>
    requires dash { had_dash ≡ list_any is_dash_spec before.now }
    requires few { line.now.first + length before.now < 2 ^ 64 }
    ensures { result ≡ operand_spec rule line.now.uses.now line.now.first before.now word.now }
{
    let here = line.first + before.len() as u64;
    if dash_with_other(had_dash, before, word) {
        return Some(Usage {
            kind: EXCLUDE,
            word: here,
        });
    }
    if operand_fits(rule, line.uses, word) {
        return None;
    }
    Some(Usage {
        kind: MALFORMED,
        word: here,
    })
}

/// The first fault of the operands.
pub fn operands_fault(rule: OperandRule, line: &CommandLine<'_>) -> Option<Usage>
    ensures { result ≡ operands_spec rule line.now.uses.now line.now.first line.now.operands.now }
{
    let words = line.operands;
    let mut had_dash = false;
    'operands: for (i, word) in words.iter().enumerate() {
        let found = operand_fault(rule, line, had_dash, &words[..i], word.bytes());
        match found {
            Some(fault) => return Some(fault),
            None => {}
        }
        had_dash = had_dash | is_dash(word.bytes());
    }
    None
}

fn wants(rule: OperandRule) -> bool
    ensures { result ≡ wants_spec rule }
{
    match rule {
        OperandRule::Nothing => false,
        OperandRule::Sfile => true,
        OperandRule::Number => true,
        OperandRule::Many => true,
        OperandRule::Named => true,
        OperandRule::OneWith(_) => true,
    }
}

fn met(uses: &[Use], need: Need) -> bool
    ensures { result ≡ met_spec uses.now need }
{
    match need {
        Need::Always(letter) => has(uses, letter),
        Need::Either(a, b) => has(uses, a) || has(uses, b),
        Need::With(letter, a, b) => !has(uses, letter) || has(uses, a) || has(uses, b),
    }
}

fn all_met(utility: Utility, uses: &[Use]) -> bool
    ensures { result ≡ list_all (λ need. met_spec uses.now need) (needs_of utility) }
{
    utility.needs().iter().all(|need| met(uses, *need))
}

fn takes_one(rule: OperandRule, uses: &[Use]) -> bool
    ensures { result ≡ takes_one_spec rule uses.now }
{
    match rule {
        OperandRule::Sfile => true,
        OperandRule::Number => true,
        OperandRule::OneWith(letter) => has(uses, letter),
        OperandRule::Nothing => false,
        OperandRule::Many => false,
        OperandRule::Named => false,
    }
}

fn too_many(rule: OperandRule, uses: &[Use], words: &[Bytes]) -> bool
    ensures { result ≡ too_many_spec rule uses.now words.now }
{
    match words {
        [] => false,
        [_] => !wants(rule),
        _ => !wants(rule) || takes_one(rule, uses),
    }
}

fn none_though_wanted(rule: OperandRule, words: &[Bytes]) -> bool
    ensures { result ≡ none_though_wanted_spec rule words.now }
{
    words.is_empty() && wants(rule)
}

#[tactic(auto, unfolding(crate::specs::Judge::end_fault))]
fn end_fault(utility: Utility, line: &CommandLine<'_>) -> Option<Usage>
    ensures { result ≡ end_spec utility line.now.uses.now line.now.operands.now (end_of (command_line line.now)) }
{
    let rule = utility.operand_rule();
    let word = line.end();
    if none_though_wanted(rule, line.operands) {
        return Some(Usage {
            kind: NO_OPERAND,
            word,
        });
    }
    if !all_met(utility, line.uses) {
        return Some(Usage {
            kind: OPTION_NEEDED,
            word,
        });
    }
    if too_many(rule, line.uses, line.operands) {
        return Some(Usage {
            kind: TOO_MANY,
            word,
        });
    }
    None
}

/// The first fault of a command line.
#[tactic(auto, unfolding(crate::specs::Judge::usage_fault))]
pub fn first_fault(
    alloc: Global,
    utility: Utility,
    line: &CommandLine<'_>,
) -> Result<Option<Usage>, Memory>
    ensures { IfOk result (λ r. r ≡ first_spec utility (command_line line.now) (end_of (command_line line.now))) }
{
    let of_uses = uses_fault(alloc, utility, line.uses)?;
    match of_uses {
        Some(fault) => return Ok(Some(fault)),
        None => {}
    }
    match operands_fault(utility.operand_rule(), line) {
        Some(fault) => Ok(Some(fault)),
        None => Ok(end_fault(utility, line)),
    }
}
