ghost use Rattle.std.specs.Prelude.{◌≡◌, ◌<◌, ◌++◌, IfOk, OnOk, codes, decimal};
ghost use Rattle.sccs_soak.specs.Turns.{begins_branch, lines_after, round_line, script_of, turn_of};

use itoa::Buffer;
use sccs_base::{Bytes, Memory};
use std::alloc::Global;

/// What a round does to the trunk's newest text, whose lines are counted from 1.
#[derive(Drop, Clone, Copy, Debug, PartialEq, Eq)]
pub enum Turn {
    /// A line is added after this one, 0 being the text's begin.
    Add(u64),
    /// This line becomes another.
    Change(u64),
    /// This line goes.
    Delete(u64),
    /// A branch is begun, with a line before all others.
    Branch,
}

impl Turn {
    /// The round of two draws on a text of so many lines.
    #[tactic(auto, unfolding(crate::specs::Turns::turn_of))]
    pub fn of(choice: u64, place: u64, lines: u64) -> Turn
        requires { lines < 1048576 }
        ensures { result ≡ turn_of choice place lines }
    {
        let kind = choice % 4;
        if kind == 3 {
            Turn::Branch
        } else if kind == 0 || lines == 0 {
            Turn::Add(place % (lines + 1))
        } else if kind == 1 {
            Turn::Change(1 + place % lines)
        } else {
            Turn::Delete(1 + place % lines)
        }
    }

    /// How many lines the trunk's newest text has after it.
    pub fn lines_after(self, lines: u64) -> u64
        requires { lines < 1048576 }
        ensures { result ≡ lines_after lines self }
    {
        match self {
            Turn::Add(_) => lines + 1,
            Turn::Delete(_) => lines.saturating_sub(1),
            Turn::Change(_) | Turn::Branch => lines,
        }
    }

    /// Whether the round's edit begins a branch.
    pub fn begins_branch(self) -> bool
        ensures { result ≡ begins_branch self }
    {
        matches!(self, Turn::Branch)
    }
}

// puts a number and a word, and behind them the line of a round
fn line_command(text: &mut Vec<u8>, place: u64, word: &[u8], round: u64) -> Result<(), Memory>
    ensures { OnOk result (text.new.items ≡ text.old.items ++ (decimal place ++ (word.now ++ round_line round))) }
{
    text.extend_from_slice(Buffer::new().format(place).as_bytes())?;
    text.extend_from_slice(word)?;
    text.extend_from_slice(b"line ")?;
    text.extend_from_slice(Buffer::new().format(round).as_bytes())?;
    text.extend_from_slice(b"\n.\n")?;
    Ok(())
}

// puts the deletion of a line
fn delete_command(text: &mut Vec<u8>, place: u64) -> Result<(), Memory>
    ensures { OnOk result (text.new.items ≡ text.old.items ++ (decimal place ++ codes "d\n")) }
{
    text.extend_from_slice(Buffer::new().format(place).as_bytes())?;
    text.extend_from_slice(b"d\n")?;
    Ok(())
}

// puts the script of a round
fn put_script(text: &mut Vec<u8>, round: u64, turn: Turn) -> Result<(), Memory>
    ensures { OnOk result (text.new.items ≡ text.old.items ++ script_of round turn) }
{
    match turn {
        Turn::Add(place) => line_command(text, place, b"a\n", round),
        Turn::Change(place) => line_command(text, place, b"c\n", round),
        Turn::Delete(place) => delete_command(text, place),
        Turn::Branch => line_command(text, 0, b"a\n", round),
    }
}

/// The script of a round's delta, in the language of ed.
pub fn write_script(alloc: Global, round: u64, turn: Turn) -> Result<Bytes, Memory>
    ensures { IfOk result (λ script. script ≡ script_of round turn) }
{
    let mut text = Vec::new(alloc);
    put_script(&mut text, round, turn)?;
    Ok(Bytes::from_vec(text))
}
