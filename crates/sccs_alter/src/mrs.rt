ghost use Rattle.std.specs.Prelude.{◌≡◌, not, [], ◌++◌, IfOk, OnOk, option_map};
ghost use Rattle.sccs_history.specs.Numbers.{front_if};
ghost use Rattle.sccs_alter.specs.Changes.{changed_mrs, gone_by, gone_mrs, has_mr, mrs_by, taken_away, without_mr};

use crate::changes::push_line;
use sccs_base::{Line, Memory, Text};
use sccs_records::copy_lines;
use std::alloc::Global;

/// MRs as they are changed word by word, and those that are gone so far.
#[derive(Drop)]
pub struct ChangedMrs {
    pub mrs: Text,
    pub gone: Text,
}

// whether an MR is there
fn has_mr(mrs: &[Line], mr: &[u8]) -> bool
    ensures { result ≡ has_mr mrs.now mr.now }
{
    mrs.iter().any(|one| one.bytes() == mr)
}

// puts a line at the end of a text where it is wanted
fn push_if(alloc: Global, wanted: bool, text: &mut Text, bytes: &[u8]) -> Result<(), Memory>
    ensures { OnOk result (text.new ≡ text.old ++ front_if wanted bytes.now []) }
{
    if wanted {
        push_line(alloc, text, bytes)
    } else {
        Ok(())
    }
}

// the MRs without one
#[tactic(auto, unfolding(crate::specs::Changes::without_mr))]
fn without_mr(alloc: Global, mrs: &[Line], mr: &[u8]) -> Result<Text, Memory>
    ensures { IfOk result (λ left. left ≡ without_mr mrs.now mr.now) }
{
    let mut left = Text::empty(alloc);
    for one in mrs {
        push_if(alloc, one.bytes() != mr, &mut left, one.bytes())?;
    }
    Ok(left)
}

// the MR that a word takes away
fn taken_away(word: &[u8]) -> Option<&[u8]>
    ensures { option_map (λ mr. mr.now) result ≡ taken_away word.now }
{
    match word {
        [] => None,
        [first, mr @ ..] => { if *first == b'!' { Some(mr) } else { None } }
    }
}

// takes an MR away
fn take_away(alloc: Global, changed: ChangedMrs, mr: &[u8]) -> Result<ChangedMrs, Memory>
    ensures mrs { IfOk result (λ c. c.mrs ≡ without_mr changed.mrs mr.now) }
    ensures gone { IfOk result (λ c. c.gone ≡ changed.gone ++ front_if (has_mr changed.mrs mr.now) mr.now []) }
{
    let mut gone = changed.gone;
    push_if(alloc, has_mr(changed.mrs.items(), mr), &mut gone, mr)?;
    let mrs = without_mr(alloc, changed.mrs.items(), mr)?;
    Ok(ChangedMrs { mrs, gone })
}

// adds an MR, unless it is there
fn add_mr(alloc: Global, changed: ChangedMrs, mr: &[u8]) -> Result<ChangedMrs, Memory>
    ensures mrs { IfOk result (λ c. c.mrs ≡ changed.mrs ++ front_if (not (has_mr changed.mrs mr.now)) mr.now []) }
    ensures gone { IfOk result (λ c. c.gone ≡ changed.gone) }
{
    let mut mrs = changed.mrs;
    let wanted = !has_mr(mrs.items(), mr);
    push_if(alloc, wanted, &mut mrs, mr)?;
    Ok(ChangedMrs {
        mrs,
        gone: changed.gone,
    })
}

// changes the MRs by a word
fn change_mr(alloc: Global, changed: ChangedMrs, word: &[u8]) -> Result<ChangedMrs, Memory>
    ensures mrs { IfOk result (λ c. c.mrs ≡ mrs_by (taken_away word.now) changed.mrs word.now) }
    ensures gone { IfOk result (λ c. c.gone ≡ changed.gone ++ gone_by (taken_away word.now) changed.mrs) }
{
    match taken_away(word) {
        Some(mr) => take_away(alloc, changed, mr),
        None => add_mr(alloc, changed, word),
    }
}

/// The MRs of a delta, changed by words, and those that are gone by it.
#[tactic(auto, unfolding(crate::specs::Changes::changed_mrs, crate::specs::Changes::gone_mrs))]
pub fn change_mrs(alloc: Global, words: &[Line], mrs: &[Line]) -> Result<ChangedMrs, Memory>
    ensures mrs { IfOk result (λ c. c.mrs ≡ changed_mrs words.now mrs.now) }
    ensures gone { IfOk result (λ c. c.gone ≡ gone_mrs words.now mrs.now) }
{
    let mut changed = ChangedMrs {
        mrs: copy_lines(alloc, mrs)?,
        gone: Text::empty(alloc),
    };
    for word in words {
        changed = change_mr(alloc, changed, word.bytes())?;
    }
    Ok(changed)
}
