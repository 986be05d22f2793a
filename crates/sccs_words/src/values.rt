ghost use Rattle.std.specs.Prelude.{◌≡◌, ◌<◌, ◌≤◌, [], ◌∷◌, ◌++◌, drop, option_map, All, IfOk, IfSome, OnOk};
ghost use Rattle.sccs_sid.specs.Sid.{IsComponent, IsSid};
ghost use Rattle.sccs_sid.specs.Spec.{IsSpec};
ghost use Rattle.sccs_sid.specs.SidLists.{IsRange};
ghost use Rattle.sccs_sid.specs.Moment.{IsMoment};
ghost use Rattle.sccs_words.specs.MrWords.{is_gap as is_gap_spec, ended_word, split_from, mr_words as mr_words_spec};
ghost use Rattle.sccs_words.specs.Values.{sid_value as sid_spec, spec_value as spec_spec, moment_value as moment_spec};
ghost use Rattle.sccs_words.specs.Values.{list_value as list_spec, release_value as release_spec};
ghost use Rattle.sccs_words.specs.Values.{soak_number as soak_spec, number_value as number_spec};
ghost use Rattle.sccs_words.specs.Values.{is_user as is_user_spec, value_fits};

use crate::tables::Form;
use sccs_base::{Bytes, Login, Memory, Name, Words};
use sccs_sid::reading::number;
use sccs_sid::{Cutoff, ListFault, Moment, Sid, SidList, Spec};
use std::alloc::Global;

const GREATEST_RELEASE: u32 = 9999;

// the most steps of a soak
const MOST_STEPS: u32 = 2000;

pub fn sid_value(bytes: &[u8]) -> Option<Sid>
    ensures value { result ≡ sid_spec bytes.now }
    ensures valid { IfSome result IsSid }
{
    match Sid::read(bytes) {
        Ok(sid) => Some(sid),
        Err(_) => None,
    }
}

pub fn spec_value(bytes: &[u8]) -> Option<Spec>
    ensures value { result ≡ spec_spec bytes.now }
    ensures valid { IfSome result IsSpec }
{
    match Spec::read(bytes) {
        Ok(spec) => Some(spec),
        Err(_) => None,
    }
}

pub fn moment_value(bytes: &[u8]) -> Option<Moment>
    ensures value { result ≡ moment_spec bytes.now }
    ensures valid { IfSome result IsMoment }
{
    match Cutoff::read(bytes) {
        Ok(moment) => Some(moment),
        Err(_) => None,
    }
}

pub fn list_value(alloc: Global, bytes: &[u8]) -> Result<Option<SidList>, Memory>
    ensures value { IfOk result (λ r. r ≡ list_spec bytes.now) }
    ensures valid { IfOk result (λ r. IfSome r (All IsRange)) }
{
    match SidList::read(alloc, bytes) {
        Ok(list) => Ok(Some(list)),
        Err(ListFault::Malformed(_)) => Ok(None),
        Err(ListFault::Memory) => Err(Memory),
    }
}

// 1 to most, in one to four digits
fn number_value(most: u32, bytes: &[u8]) -> Option<u32>
    ensures value { result ≡ number_spec most bytes.now }
    ensures positive { IfSome result (λ n. 0 < n) }
    ensures most { IfSome result (λ n. n ≤ most) }
{
    let found = number(4, bytes)?;
    if 0 < found && found <= most {
        Some(found)
    } else {
        None
    }
}

pub fn release_value(bytes: &[u8]) -> Option<u16>
    ensures value { result ≡ release_spec bytes.now }
    ensures valid { IfSome result IsComponent }
{
    match number_value(GREATEST_RELEASE, bytes) {
        Some(release) => Some(release as u16),
        None => None,
    }
}

pub fn soak_number(bytes: &[u8]) -> Option<u64>
    ensures value { result ≡ soak_spec bytes.now }
    ensures most { IfSome result (λ n. n ≤ 2000) }
{
    match number_value(MOST_STEPS, bytes) {
        Some(steps) => Some(u64::from(steps)),
        None => None,
    }
}

// a login, or ! and a login
fn is_user(bytes: &[u8]) -> bool
    ensures { result ≡ is_user_spec bytes.now }
{
    match bytes {
        [] => Login::read(bytes).is_some(),
        [first, rest @ ..] => {
            Login::read(bytes).is_some() || *first == b'!' && Login::read(rest).is_some()
        }
    }
}

fn is_gap(byte: u8) -> bool
    ensures { result ≡ is_gap_spec byte }
{
    byte == b' ' || byte == b'\t' || byte == b'\n'
}

/// Puts a copy of bytes after others.
pub fn push_copy(alloc: Global, words: &mut Words, bytes: &[u8]) -> Result<(), Memory>
    ensures { OnOk result (words.new ≡ words.old ++ (bytes.now ∷ [])) }
{
    words.push(Bytes::new(alloc, bytes)?)
}

// puts a word after others, unless it is empty
fn end_word(alloc: Global, words: &mut Words, word: &mut Vec<u8>) -> Result<(), Memory>
    ensures { OnOk result ((words.new ≡ ended_word words.old word.old.items) × (word.new.items ≡ [])) }
{
    if word.is_empty() {
        return Ok(());
    }
    push_copy(alloc, words, word.as_slice())?;
    word.clear();
    Ok(())
}

/// The words between blanks, tabs and LFs.
#[tactic(auto, unfolding(crate::specs::MrWords::split_from))]
pub fn mr_words(alloc: Global, bytes: &[u8]) -> Result<Words, Memory>
    ensures { IfOk result (λ words. words ≡ mr_words_spec bytes.now) }
{
    let mut words = Words::new(alloc);
    let mut word = Vec::new(alloc);
    for byte in bytes {
        if is_gap(*byte) {
            end_word(alloc, &mut words, &mut word)?;
        } else {
            word.push(*byte)?;
        }
    }
    end_word(alloc, &mut words, &mut word)?;
    Ok(words)
}

/// Whether a value is one of its form.
pub fn form_fits(alloc: Global, form: Form, bytes: &[u8]) -> Result<bool, Memory>
    ensures { IfOk result (λ r. r ≡ value_fits form bytes.now) }
{
    match form {
        Form::Any => Ok(true),
        Form::User => Ok(is_user(bytes)),
        Form::Flag => Ok(!bytes.is_empty()),
        Form::File => Ok(Name::read(bytes).is_some()),
        Form::Mrs => {
            let words = mr_words(alloc, bytes)?;
            Ok(!words.items().is_empty())
        }
        Form::Release => Ok(release_value(bytes).is_some()),
        Form::Cutoff => Ok(moment_value(bytes).is_some()),
        Form::List => {
            let list = list_value(alloc, bytes)?;
            Ok(list.is_some())
        }
        Form::Spec => Ok(spec_value(bytes).is_some()),
        Form::Sid => Ok(sid_value(bytes).is_some()),
    }
}
