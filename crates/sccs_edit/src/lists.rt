ghost use Rattle.std.specs.Prelude.{◌≡◌, ◌∷◌, ◌++◌, [], IfOk, OnOk, codes};
ghost use Rattle.sccs_words.specs.Meaning.{meaning};
ghost use Rattle.sccs_edit.specs.Front.{delta_and_get, delta_name, front_by, front_of, meant_name, next_get};

use sccs_base::{Bytes, ListOf, Memory, Name, Words};
use sccs_words::{Command, WordsFault, read_words};
use std::alloc::Global;

/// Commands, each as its words.
pub type CommandWords = ListOf<Words>;

// adds a word behind others
fn add_word(alloc: Global, word: &[u8], words: &mut Words) -> Result<(), Memory>
    ensures { OnOk result (words.new ≡ words.old ++ (word.now ∷ [])) }
{
    words.push(Bytes::new(alloc, word)?)
}

// adds words behind others
fn add_words(alloc: Global, more: &[Bytes], words: &mut Words) -> Result<(), Memory>
    ensures { OnOk result (words.new ≡ words.old ++ more.now) }
{
    for word in more {
        add_word(alloc, word.bytes(), words)?;
    }
    Ok(())
}

// the words of a utility
fn words_of(alloc: Global, utility: &[u8], args: &[Bytes]) -> Result<Words, Memory>
    ensures { IfOk result (λ words. words ≡ utility.now ∷ args.now) }
{
    let mut words = Words::new(alloc);
    add_word(alloc, utility, &mut words)?;
    add_words(alloc, args, &mut words)?;
    Ok(words)
}

// the words of get for an edit
fn edit_words(alloc: Global, args: &[Bytes]) -> Result<Words, Memory>
    ensures { IfOk result (λ words. words ≡ codes "get" ∷ codes "-e" ∷ args.now) }
{
    let mut words = Words::new(alloc);
    add_word(alloc, b"get", &mut words)?;
    add_word(alloc, b"-e", &mut words)?;
    add_words(alloc, args, &mut words)?;
    Ok(words)
}

// the get that follows a delta
fn next_get(alloc: Global, edit: bool, name: &Name) -> Result<Words, Memory>
    ensures { IfOk result (λ words. words ≡ next_get edit name.now) }
{
    let mut words = Words::new(alloc);
    add_word(alloc, b"get", &mut words)?;
    if edit {
        add_word(alloc, b"-e", &mut words)?;
    }
    add_word(alloc, name.bytes(), &mut words)?;
    Ok(words)
}

// a list of one command
fn alone(alloc: Global, words: Words) -> Result<CommandWords, Memory>
    ensures { IfOk result (λ list. list ≡ words ∷ []) }
{
    let mut list = CommandWords::empty(alloc);
    list.push(words)?;
    Ok(list)
}

// a list of two
fn both(alloc: Global, first: Words, second: Words) -> Result<CommandWords, Memory>
    ensures { IfOk result (λ list. list ≡ first ∷ second ∷ []) }
{
    let mut list = CommandWords::empty(alloc);
    list.push(first)?;
    list.push(second)?;
    Ok(list)
}

// the s-file of a delta
fn delta_name(command: &Command) -> Option<Name>
    ensures { result ≡ delta_name command.now }
{
    match command {
        Command::Delta(_, name) => Some(*name),
        _ => None,
    }
}

// the s-file of the delta that words mean
fn meant_name(alloc: Global, words: &Words) -> Result<Option<Name>, Memory>
    ensures { IfOk result (λ name. name ≡ meant_name (meaning words.now)) }
{
    match read_words(alloc, words) {
        Ok(command) => Ok(delta_name(&command)),
        Err(WordsFault::Usage(_)) => Ok(None),
        Err(WordsFault::Memory) => Err(Memory),
    }
}

// words of delta, and the get that follows where they are a command
fn delta_and_get(alloc: Global, edit: bool, words: Words) -> Result<CommandWords, Memory>
    ensures { IfOk result (λ list. list ≡ delta_and_get edit words) }
{
    let name = meant_name(alloc, &words)?;
    match name {
        Some(name) => both(alloc, words, next_get(alloc, edit, &name)?),
        None => alone(alloc, words),
    }
}

// the commands of a word and the words behind it
fn front_by(alloc: Global, word: &[u8], args: &[Bytes]) -> Result<CommandWords, Memory>
    ensures { IfOk result (λ list. list ≡ front_by word.now args.now) }
{
    if word == b"edit".as_slice() {
        alone(alloc, edit_words(alloc, args)?)
    } else if word == b"unedit".as_slice() {
        alone(alloc, words_of(alloc, b"unget", args)?)
    } else if word == b"delget".as_slice() {
        delta_and_get(alloc, false, words_of(alloc, b"delta", args)?)
    } else if word == b"deledit".as_slice() {
        delta_and_get(alloc, true, words_of(alloc, b"delta", args)?)
    } else {
        Ok(CommandWords::empty(alloc))
    }
}

/// The commands that words of the front end stand for, each as its words: `edit` is `get -e`, `unedit` is `unget`,
/// `delget` is `delta` and then `get` of its s-file, `deledit` is `delta` and then `get -e`. There are none where the
/// first word is another one, and one alone where the words of the delta are a usage fault.
#[tactic(auto, unfolding(crate::specs::Front::front_of))]
pub fn front(alloc: Global, words: &Words) -> Result<CommandWords, Memory>
    ensures { IfOk result (λ list. list ≡ front_of words.now) }
{
    match words.items() {
        [] => Ok(CommandWords::empty(alloc)),
        [word, args @ ..] => front_by(alloc, word.bytes(), args),
    }
}
