ghost use Rattle.std.specs.Prelude.{◌≡◌, ◌++◌, ◌∷◌, ◌-◌, [], suc, length, true, Bool, Some, None, IfOk, MatchBool};
ghost use Rattle.std.specs.Prelude.{OnOk, codes};
ghost use Rattle.std.specs.Str.{bytes_eq};
ghost use Rattle.sccs_rcs_file.specs.declared.places.Place.TheVariants.{EntryPhrases, HeadPhrases, TextPhrases, Texts};
ghost use Rattle.sccs_rcs_file.specs.declared.faults.RcsFault.TheVariants.{BadRcs};
ghost use Rattle.sccs_rcs_file.specs.Reading.{AnswersRead, Reads, Steps, is_part, read_on, start, description_next};
ghost use Rattle.sccs_rcs_file.specs.Reading.{entry_begun, file_of, in_phrase, opened, step, step_at, with_entry};
ghost use Rattle.sccs_rcs_file.specs.Reading.{with_head, with_text};

use crate::faults::RcsFault;
use crate::forms::{DeltaText, Phrase, RcsEntry, RcsFile};
use crate::kinds::{Token, TokenKind};
use crate::places::Place;
use crate::states::State;
use crate::tokens::{Lexed, next_token};
use sccs_base::Memory;
use std::alloc::Global;
use std::mem::replace;

// a phrase is begun
fn open_phrase<'a>(state: &mut State<'a>, alloc: Global, place: Place, word: &'a [u8])
    ensures { state.new ≡ opened place word.now state.old }
{
    state.place = place;
    state.name = word;
    state.inside = Vec::new(alloc);
}

// a token of a phrase, or the semicolon that ends it
fn in_phrase<'a>(
    state: &mut State<'a>,
    alloc: Global,
    place: Place,
    token: Token<'a>,
) -> Result<(), Memory>
    ensures { OnOk result (in_phrase place state.old token.entry ≡ Some state.new) }
{
    if token.kind == TokenKind::Semicolon {
        let inside = replace(&mut state.inside, Vec::new(alloc));
        let name = state.name;
        state.phrases.push(Phrase { name, inside })?;
        state.place = place;
        return Ok(());
    }
    state.inside.push(token)?;
    Ok(())
}

// the phrases of the head are ended
fn end_head(state: &mut State, alloc: Global)
    ensures { state.new ≡ record state.old { file = with_head state.old; phrases = [] } }
{
    state.file.head = replace(&mut state.phrases, Vec::new(alloc));
}

// the phrases of an entry are ended
fn end_entry(state: &mut State, alloc: Global) -> Result<(), Memory>
    ensures { OnOk result (state.new ≡ record state.old { file = with_entry state.old; phrases = [] }) }
{
    let phrases = replace(&mut state.phrases, Vec::new(alloc));
    let number = state.number;
    state.file.entries.push(RcsEntry { number, phrases })?;
    Ok(())
}

// a text is ended
fn end_text<'a>(state: &mut State<'a>, alloc: Global, text: &'a [u8]) -> Result<(), Memory>
    ensures { OnOk result (state.new ≡ record state.old {
      place = Texts;
      file = with_text text.now state.old;
      phrases =
          [];
    }) }
{
    let phrases = replace(&mut state.phrases, Vec::new(alloc));
    let (number, log) = (state.number, state.log);
    state.file.texts.push(DeltaText {
        number,
        log,
        phrases,
        text,
    })?;
    state.place = Place::Texts;
    Ok(())
}

// a token where a phrase of the head may come; false where it can't
fn at_head<'a>(state: &mut State<'a>, alloc: Global, token: Token<'a>) -> Result<bool, Memory>
    ensures { IfOk result (λ fits. Steps fits (step_at HeadPhrases state.old token.entry) state.new) }
{
    match token.kind {
        TokenKind::Number => {
            end_head(state, alloc);
            state.number = token.bytes;
            state.place = Place::EntryPhrases;
        }
        TokenKind::Word => {
            if token.bytes == b"desc".as_slice() {
                end_head(state, alloc);
                state.place = Place::Description;
            } else {
                open_phrase(state, alloc, Place::HeadPhrase, token.bytes);
            }
        }
        _ => return Ok(false),
    }
    Ok(true)
}

// a token where a phrase of an entry may come
fn at_entry<'a>(state: &mut State<'a>, alloc: Global, token: Token<'a>) -> Result<bool, Memory>
    ensures { IfOk result (λ fits. Steps fits (step_at EntryPhrases state.old token.entry) state.new) }
{
    match token.kind {
        TokenKind::Number => {
            end_entry(state, alloc)?;
            state.number = token.bytes;
            state.place = Place::EntryPhrases;
        }
        TokenKind::Word => {
            if token.bytes == b"desc".as_slice() {
                end_entry(state, alloc)?;
                state.place = Place::Description;
            } else {
                open_phrase(state, alloc, Place::EntryPhrase, token.bytes);
            }
        }
        _ => return Ok(false),
    }
    Ok(true)
}

// a token of a text, before its string
fn at_text<'a>(state: &mut State<'a>, alloc: Global, token: Token<'a>) -> bool
    ensures { Steps result (step_at TextPhrases state.old token.entry) state.new }
{
    if token.kind != TokenKind::Word {
        return false;
    }
    if token.bytes == b"text".as_slice() {
        state.place = Place::Text;
    } else {
        open_phrase(state, alloc, Place::TextPhrase, token.bytes);
    }
    true
}

// a token where one string or word alone can come
fn at_part<'a>(state: &mut State<'a>, alloc: Global, token: Token<'a>) -> Result<bool, Memory>
    requires { is_part state.old.place ≡ true }
    ensures { IfOk result (λ fits. Steps fits (step state.old token.entry) state.new) }
{
    match (state.place, token.kind) {
        (Place::Description, TokenKind::Quoted) => {
            state.file.description = token.bytes;
            state.place = Place::Texts;
        }
        (Place::Texts, TokenKind::Number) => {
            state.number = token.bytes;
            state.place = Place::Log;
        }
        (Place::Log, TokenKind::Word) if token.bytes == b"log".as_slice() => {
            state.place = Place::LogText;
        }
        (Place::LogText, TokenKind::Quoted) => {
            state.log = token.bytes;
            state.phrases = Vec::new(alloc);
            state.place = Place::TextPhrases;
        }
        (Place::Text, TokenKind::Quoted) => end_text(state, alloc, token.bytes)?,
        _ => return Ok(false),
    }
    Ok(true)
}

// a token behind those that were read; false where it can't come
fn take<'a>(state: &mut State<'a>, alloc: Global, token: Token<'a>) -> Result<bool, Memory>
    ensures { IfOk result (λ fits. Steps fits (step state.old token.entry) state.new) }
{
    match state.place {
        Place::HeadPhrases => at_head(state, alloc, token),
        Place::EntryPhrases => at_entry(state, alloc, token),
        Place::TextPhrases => Ok(at_text(state, alloc, token)),
        Place::HeadPhrase => {
            in_phrase(state, alloc, Place::HeadPhrases, token)?;
            Ok(true)
        }
        Place::EntryPhrase => {
            in_phrase(state, alloc, Place::EntryPhrases, token)?;
            Ok(true)
        }
        Place::TextPhrase => {
            in_phrase(state, alloc, Place::TextPhrases, token)?;
            Ok(true)
        }
        Place::Description | Place::Texts | Place::Log | Place::LogText | Place::Text => {
            at_part(state, alloc, token)
        }
    }
}

// where reading begins
fn start<'a>(alloc: Global) -> State<'a>
    ensures { result ≡ start }
{
    State {
        place: Place::HeadPhrases,
        file: RcsFile {
            head: Vec::new(alloc),
            entries: Vec::new(alloc),
            description: b"".as_slice(),
            texts: Vec::new(alloc),
        },
        number: b"".as_slice(),
        log: b"".as_slice(),
        phrases: Vec::new(alloc),
        name: b"".as_slice(),
        inside: Vec::new(alloc),
    }
}

// the fault at a byte with which so many are left
fn bad_file(bytes: &[u8], left: usize) -> RcsFault
    ensures { result ≡ BadRcs (suc (length bytes.now) - left) }
{
    RcsFault::BadRcs((bytes.len() as u64 + 1).saturating_sub(left as u64))
}

// what was read, where a file may end there
fn at_end<'a>(bytes: &[u8], state: State<'a>) -> Result<RcsFile<'a>, RcsFault>
    ensures { AnswersRead bytes.now (read_on state.entry []) result }
{
    if state.place == Place::Texts {
        Ok(state.file)
    } else {
        Err(bad_file(bytes, 0))
    }
}

/// What an RCS file has; BadRcs has the byte, from 1, at which the first token begins that can't come
/// at its place, or the length plus one where the file ends too early.
pub fn read_file(alloc: Global, bytes: &[u8]) -> Result<RcsFile, RcsFault>
    ensures { Reads bytes.now result }
{
    let mut state = start(alloc);
    let mut rest = bytes;
    'tokens: loop {
        match next_token(rest) {
            Err(left) => return Err(bad_file(bytes, left)),
            Ok(None) => return at_end(bytes, state),
            Ok(Some(found)) => {
                let Lexed {
                    token,
                    left,
                    rest: behind,
                } = found;
                let Ok(fits) = take(&mut state, alloc, token) else {
                    return Err(RcsFault::Memory);
                };
                if !fits {
                    return Err(bad_file(bytes, left));
                }
                rest = behind;
            }
        }
    }
}
