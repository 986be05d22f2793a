use crate::tests::draws::Draws;
use crate::tests::runs::{Files, NAMES, Pair};
use crate::tests::texts::Script;
use std::alloc::Global;
use std::test::Fail;

/// A version by its SID, and its text.
#[derive(Drop)]
pub struct Version {
    pub sid: Vec<u8>,
    pub text: Vec<u8>,
}

/// The versions of each name, in the order of the names.
pub type Histories = Vec<Vec<Version>>;

/// A command over the names at some places.
#[derive(Drop)]
pub struct Command {
    pub words: Vec<u8>,
    pub operands: Vec<usize>,
    pub input: Vec<u8>,
    /// The version that it makes where it is accepted.
    pub adds: Option<Version>,
}

// the edit of a line of a p-file: the SID got and the one to be made
#[derive(Clone, Copy)]
struct Edit<'a> {
    got: &'a [u8],
    new: &'a [u8],
}

fn edit_of(line: &[u8]) -> Option<Edit> {
    let mut words = line.split(|byte| *byte == b' ');
    let got = words.next()?;
    let new = words.next()?;
    Some(Edit { got, new })
}

// the first edit that is pending on a name
fn first_edit(pair: &Pair) -> Option<Edit> {
    let entries = pair.p_file.as_ref()?;
    edit_of(entries.split(|byte| *byte == b'\n').next()?)
}

// a command without input over one to four names, of which the first is given
fn over_several(
    alloc: Global,
    draws: &mut Draws,
    words: &[u8],
    first: usize,
) -> Result<Command, Fail> {
    let mut operands = Vec::new(alloc);
    let mut place = first;
    for _ in 0..draws.below(4).saturating_add(1) {
        operands.push(place)?;
        place = place.saturating_add(1) % NAMES.len();
    }
    Ok(Command {
        words: words.to_vec(alloc)?,
        operands,
        input: Vec::new(alloc),
        adds: None,
    })
}

fn operand(alloc: Global, place: usize) -> Result<Vec<usize>, Fail> {
    let mut operands = Vec::new(alloc);
    operands.push(place)?;
    Ok(operands)
}

// a new file of a few lines
fn new_file(alloc: Global, draws: &mut Draws, place: usize, number: u64) -> Result<Command, Fail> {
    let script = Script::draw(alloc, draws, b"", number)?;
    let text = crate::tests::texts::text_of(alloc, &script.result)?;
    Ok(Command {
        words: b"admin -i".to_vec(alloc)?,
        operands: operand(alloc, place)?,
        input: text.to_vec(alloc)?,
        adds: Some(Version {
            sid: b"1.1".to_vec(alloc)?,
            text,
        }),
    })
}

// words, and an option with a SID as its value
fn with_sid(alloc: Global, words: &[u8], sid: &[u8]) -> Result<Vec<u8>, Fail> {
    let mut joined = words.to_vec(alloc)?;
    joined.extend_from_slice(b" -r")?;
    joined.extend_from_slice(sid)?;
    Ok(joined)
}

// an edit of any version
fn old_edit(
    alloc: Global,
    draws: &mut Draws,
    place: usize,
    history: &Vec<Version>,
) -> Result<Command, Fail> {
    let chosen = draws.below(history.len() as u64) as usize;
    let version = history.get(chosen).ok_or("a version")?;
    Ok(Command {
        words: with_sid(alloc, b"get -e -g", &version.sid)?,
        operands: operand(alloc, place)?,
        input: Vec::new(alloc),
        adds: None,
    })
}

// a delta of the edit, by a script on its base
fn delta(
    alloc: Global,
    draws: &mut Draws,
    place: usize,
    history: &Vec<Version>,
    edit: &Edit,
    number: u64,
) -> Result<Command, Fail> {
    let base = history.iter().find(|it| it.sid.as_slice() == edit.got);
    let script = Script::draw(alloc, draws, &base.ok_or("a base")?.text, number)?;
    Ok(Command {
        words: with_sid(alloc, b"delta -ywhy", edit.new)?,
        operands: operand(alloc, place)?,
        input: script.bytes.to_vec(alloc)?,
        adds: Some(Version {
            sid: edit.new.to_vec(alloc)?,
            text: crate::tests::texts::text_of(alloc, &script.result)?,
        }),
    })
}

/// A command on files whose versions are known.
pub fn draw(
    alloc: Global,
    draws: &mut Draws,
    files: &Files,
    known: &Histories,
    number: u64,
) -> Result<Command, Fail> {
    let place = draws.below(NAMES.len() as u64) as usize;
    let pair = files.get(place).ok_or("files")?;
    let history = known.get(place).ok_or("a history")?;
    if pair.s_file.is_none() {
        return new_file(alloc, draws, place, number);
    }
    match draws.below(10) {
        0 => over_several(alloc, draws, b"unget", place),
        1 => over_several(alloc, draws, b"sact", place),
        2 => over_several(alloc, draws, b"get -e -g", place),
        3 | 4 => old_edit(alloc, draws, place, history),
        _ => match first_edit(pair) {
            Some(edit) => delta(alloc, draws, place, history, &edit, number),
            None => over_several(alloc, draws, b"get -e -g", place),
        },
    }
}

impl Command {
    /// The command's line over these names of it.
    pub fn line(&self, alloc: Global, operands: &[usize]) -> Result<Vec<u8>, Fail> {
        let mut line = self.words.to_vec(alloc)?;
        for place in operands {
            line.extend_from_slice(b" s.")?;
            line.extend_from_slice(NAMES.get(*place).ok_or("a name")?)?;
        }
        Ok(line)
    }
}
