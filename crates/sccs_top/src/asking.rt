ghost use Rattle.std.specs.Prelude.{◌≡◌, ◌∷◌, IfOk};
ghost use Rattle.sccs_words.specs.Meaning.{GivesCommand, meaning};
ghost use Rattle.sccs_words.specs.ValidValues.{HasValidValues};
ghost use Rattle.sccs_top.specs.Asked.{GivesAsked, HasValidCommands, as_typed, asked_by, asked_of, one_asked};
ghost use Rattle.sccs_top.specs.Asked.{two_asked, typed_place};

use sccs_base::{Memory, Words};
use sccs_edit::front;
use sccs_words::{Command, Usage, WordsFault, read_words};
use std::alloc::Global;

/// What the words of a run ask for.
#[derive(Drop)]
pub enum Asked {
    /// A command.
    One(Command),
    /// A command, and what follows it where its status is 0: another one, or a usage fault.
    Two(Command, Result<Command, Usage>),
}

// the place of a fault in the words as they were typed
fn typed_place(words: &Words, first: &Words, usage: Usage) -> Usage
    ensures { result ≡ typed_place words.now first.now usage }
{
    let added = first.items().len().saturating_sub(words.items().len());
    Usage {
        kind: usage.kind,
        word: usage.word.saturating_sub(added as u64),
    }
}

// the first command that the front end makes of words
fn read_first(alloc: Global, words: &Words, first: &Words) -> Result<Command, WordsFault>
    ensures value { GivesCommand result (as_typed words.now first.now (meaning first.now)) }
    ensures valid { IfOk result HasValidValues }
{
    match read_words(alloc, first) {
        Ok(command) => Ok(command),
        Err(WordsFault::Usage(usage)) => {
            Err(WordsFault::Usage(typed_place(words, first, usage)))
        }
        Err(WordsFault::Memory) => Err(WordsFault::Memory),
    }
}

// what follows it
fn read_next(alloc: Global, words: &Words) -> Result<Result<Command, Usage>, Memory>
    ensures value { IfOk result (λ next. next ≡ meaning words.now) }
    ensures valid { IfOk result (λ next. IfOk next HasValidValues) }
{
    match read_words(alloc, words) {
        Ok(command) => Ok(Ok(command)),
        Err(WordsFault::Usage(usage)) => Ok(Err(usage)),
        Err(WordsFault::Memory) => Err(Memory),
    }
}

// one command
fn read_one(alloc: Global, words: &Words) -> Result<Asked, WordsFault>
    ensures value { GivesAsked result (one_asked (meaning words.now)) }
    ensures valid { IfOk result HasValidCommands }
{
    Ok(Asked::One(read_words(alloc, words)?))
}

// the one command that the front end makes of words
fn read_alone(alloc: Global, words: &Words, first: &Words) -> Result<Asked, WordsFault>
    ensures value { GivesAsked result (one_asked (as_typed words.now first.now (meaning first.now))) }
    ensures valid { IfOk result HasValidCommands }
{
    Ok(Asked::One(read_first(alloc, words, first)?))
}

// the two that it makes
fn read_both(alloc: Global, words: &Words, first: &Words, next: &Words) -> Result<Asked, WordsFault>
    ensures value { GivesAsked result (two_asked (as_typed words.now first.now (meaning first.now))
        (meaning next.now)) }
    ensures valid { IfOk result HasValidCommands }
{
    let command = read_first(alloc, words, first)?;
    match read_next(alloc, next) {
        Ok(next) => Ok(Asked::Two(command, next)),
        Err(_) => Err(WordsFault::Memory),
    }
}

// what the commands that the front end makes of words are
fn read_list(alloc: Global, words: &Words, list: &[Words]) -> Result<Asked, WordsFault>
    ensures value { GivesAsked result (asked_by words.now list.now) }
    ensures valid { IfOk result HasValidCommands }
{
    match list {
        [] => read_one(alloc, words),
        [first] => read_alone(alloc, words, first),
        [first, next, ..] => read_both(alloc, words, first, next),
    }
}

/// What words ask for, the utility's word among them, or their first usage fault: a command, as `sccs_words` reads
/// it, or those that a word of the front end stands for. All words are read before anything is done.
pub fn read_asked(alloc: Global, words: &Words) -> Result<Asked, WordsFault>
    ensures value { GivesAsked result (asked_of words.now) }
    ensures valid { IfOk result HasValidCommands }
{
    match front(alloc, words) {
        Ok(list) => read_list(alloc, words, list.items()),
        Err(_) => Err(WordsFault::Memory),
    }
}
