ghost use Rattle.std.specs.Prelude.{◌≡◌, ◌≢◌, ◌≤◌, Err, IfOk, length};
ghost use Rattle.sccs_base.specs.Constants.{file_limit};
ghost use Rattle.sccs_base.specs.Cut.{text_of};
ghost use Rattle.sccs_flags.specs.FlagValues.{has_flag};
ghost use Rattle.sccs_sid.specs.declared.refusals.StepFault.TheVariants as faults;
ghost use Rattle.sccs_steps.specs.Actions.{RefusesWithin};
ghost use Rattle.sccs_rules.specs.Flags.{changed_flags};
ghost use Rattle.sccs_changes.specs.PFiles.{Answers, PassesCheck};
ghost use Rattle.sccs_admin.specs.AdminStep.{admin_checks};
ghost use Rattle.sccs_admin.specs.Parts.{AreRules, AreShort};
ghost use Rattle.sccs_admin.specs.Rules.{bare_lines, described, text_has_keyword, has_text, has_wanted_keyword};
ghost use Rattle.sccs_admin.specs.Rules.{is_given, mrs_fit, new_description, new_flags, new_rules, or_bad_flag};
ghost use Rattle.sccs_admin.specs.Rules.{rule_checks};
ghost use Rattle.sccs_admin.specs.Texts.{count_lines, or_bad_text};

use crate::finding::NewTexts;
use crate::texts::{count_lines, has_keywords};
use sccs_base::{Text, Words};
use sccs_history::{Flag, Flags};
use sccs_rules::{FlagFault, change_flags, sets_flag};
use sccs_sid::{Refusal, StepFault};
use sccs_words::{AdminWords, Given};
use std::alloc::Global;

/// How many lines a new file has, its description and its flags.
#[derive(Drop)]
pub struct NewRules {
    pub count: u64,
    pub description: Text,
    pub flags: Flags,
}

// how many lines a text has, of which none begins with SOH
fn count_text(text: &[u8]) -> Result<u64, StepFault>
    requires { length text.now ≤ file_limit }
    ensures value { Answers (or_bad_text (count_lines (text_of text.now))) result }
    ensures checks { RefusesWithin rule_checks result }
    ensures broke { result ≢ Err faults.DiskFault }
{
    match count_lines(text) {
        Ok(count) => Ok(count),
        Err(line) => Err(StepFault::Refused(Refusal::BadText(line))),
    }
}

// the lines of a text, of which none begins with SOH
fn bare_lines(alloc: Global, text: &[u8]) -> Result<Text, StepFault>
    requires { length text.now ≤ file_limit }
    ensures value { Answers (bare_lines (text_of text.now)) result }
    ensures checks { RefusesWithin rule_checks result }
    ensures broke { result ≢ Err faults.DiskFault }
{
    if let Err(line) = count_lines(text) {
        return Err(StepFault::Refused(Refusal::BadText(line)));
    }
    match Text::read(alloc, text) {
        Ok(lines) => Ok(lines),
        Err(_) => Err(StepFault::Memory),
    }
}

/// The description: as it was, none, or the lines of a text.
pub fn described(alloc: Global, given: Given, old: Text, text: &[u8]) -> Result<Text, StepFault>
    requires { length text.now ≤ file_limit }
    ensures value { Answers (described given old text.now) result }
    ensures checks { RefusesWithin rule_checks result }
    ensures broke { result ≢ Err faults.DiskFault }
{
    match given {
        Given::No => Ok(old),
        Given::Bare => Ok(Text::empty(alloc)),
        Given::From(_) => bare_lines(alloc, text),
    }
}

/// The flags with some set and others removed.
pub fn flags_of(alloc: Global, words: &AdminWords, flags: Flags) -> Result<Flags, StepFault>
    ensures value { Answers (or_bad_flag (changed_flags flags words.now.set words.now.unset)) result }
    ensures checks { RefusesWithin rule_checks result }
    ensures broke { result ≢ Err faults.DiskFault }
{
    match change_flags(alloc, flags, &words.set, &words.unset) {
        Ok(flags) => Ok(flags),
        Err(FlagFault::Bad(letter)) => Err(StepFault::Refused(Refusal::FlagBad(letter))),
        Err(FlagFault::Memory) => Err(StepFault::Memory),
    }
}

// whether a line has a keyword where one is wanted: with -i, where the flag i is set
fn has_wanted_keyword(words: &AdminWords, text: &[u8]) -> bool
    ensures { result ≡ has_wanted_keyword words.now (text_of text.now) }
{
    !(is_given(words.text) && sets_flag(&words.set, b'i')) || has_keywords(text)
}

// whether an option is given
fn is_given(given: Given) -> bool
    ensures { result ≡ is_given given }
{
    !matches!(given, Given::No)
}

// whether the flag of a letter is there
fn has_flag(flags: &[Flag], letter: u8) -> bool
    ensures { result ≡ has_flag flags.now letter }
{
    flags.iter().any(|flag| flag.letter == letter)
}

/// Whether the flag of a letter is there and has a text.
pub fn has_text(flags: &[Flag], letter: u8) -> bool
    ensures { result ≡ has_text flags.now letter }
{
    match flags.iter().find(|flag| flag.letter == letter) {
        Some(flag) => !flag.text.bytes().is_empty(),
        None => false,
    }
}

// Whether MRs are as the flag v asks. MrNeeded comes where it is set and none is given, MrNotAllowed where it isn't
// and some are, Unsupported where it has a text, which would name a program, and some are given. sccsfile(4),
// "Flags".
#[tactic(auto, unfolding(crate::specs::Rules::mrs_fit))]
fn check_mrs(flags: &[Flag], mrs: &Words) -> Result<(), StepFault>
    ensures value { PassesCheck (mrs_fit flags.now mrs.now) result }
    ensures checks { RefusesWithin admin_checks result }
    ensures broke { result ≢ Err faults.DiskFault }
{
    let (wanted, given) = (has_flag(flags, b'v'), mrs.len() > 0);
    if wanted && !given {
        return Err(StepFault::Refused(Refusal::MrNeeded));
    }
    if given && !wanted {
        return Err(StepFault::Refused(Refusal::MrNotAllowed));
    }
    if given && has_text(flags, b'v') {
        return Err(StepFault::Refused(Refusal::Unsupported(b'v')));
    }
    Ok(())
}

// the flags of a new file, where its MRs are as they ask
fn new_flags(alloc: Global, words: &AdminWords) -> Result<Flags, StepFault>
    ensures value { Answers (new_flags words.now) result }
    ensures checks { RefusesWithin admin_checks result }
    ensures broke { result ≢ Err faults.DiskFault }
{
    let flags = flags_of(alloc, words, Flags::empty(alloc))?;
    check_mrs(flags.items(), &words.mrs)?;
    Ok(flags)
}

// the description of a new file, where the text has a keyword if one is wanted
fn new_description(alloc: Global, words: &AdminWords, texts: &NewTexts) -> Result<Text, StepFault>
    requires { AreShort texts.now }
    ensures value { Answers (new_description words.now texts.now) result }
    ensures checks { RefusesWithin admin_checks result }
    ensures broke { result ≢ Err faults.DiskFault }
{
    let description = described(
        alloc,
        words.description,
        Text::empty(alloc),
        texts.description.bytes(),
    )?;
    if !has_wanted_keyword(words, texts.text.bytes()) {
        return Err(StepFault::Refused(Refusal::NoKeywords));
    }
    Ok(description)
}

/// What a new file is made with. These checks are made in their order: no line of the text and of the description
/// begins with SOH, the text has a keyword where the flag i wants one, the flags are such, the MRs are as the flag v
/// asks.
pub fn new_rules(alloc: Global, words: &AdminWords, texts: &NewTexts) -> Result<NewRules, StepFault>
    requires { AreShort texts.now }
    ensures value { Answers (new_rules words.now texts.now) result }
    ensures rules { IfOk result (AreRules words.now) }
    ensures checks { RefusesWithin admin_checks result }
    ensures broke { result ≢ Err faults.DiskFault }
{
    let count = count_text(texts.text.bytes())?;
    let description = new_description(alloc, words, texts)?;
    let flags = new_flags(alloc, words)?;
    Ok(NewRules {
        count,
        description,
        flags,
    })
}
