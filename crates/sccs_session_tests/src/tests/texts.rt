use crate::tests::draws::Draws;
use std::alloc::Global;
use std::test::Fail;

/// The lines of a text, each without its LF.
pub type Lines = Vec<Vec<u8>>;

/// What an order of an ed script does at a line; lines are counted from 1.
#[derive(Clone, Copy, PartialEq)]
enum Deed {
    Append,
    Change,
    Delete,
}

/// A text as bytes.
pub fn text_of(alloc: Global, lines: &Lines) -> Result<Vec<u8>, Fail> {
    let mut text = Vec::new(alloc);
    for line in lines {
        text.extend_from_slice(line)?;
        text.push(b'\n')?;
    }
    Ok(text)
}

/// The lines of bytes of which each line ends with LF.
pub fn lines_of(alloc: Global, text: &[u8]) -> Result<Lines, Fail> {
    let mut lines = Vec::new(alloc);
    let mut line = Vec::new(alloc);
    for byte in text {
        if *byte == b'\n' {
            lines.push(line)?;
            line = Vec::new(alloc);
        } else {
            line.push(*byte)?;
        }
    }
    Ok(lines)
}

/// The lines behind an order at a line. What is appended at 0 stands first.
fn behind(alloc: Global, lines: &Lines, deed: Deed, at: u64, added: &[u8]) -> Result<Lines, Fail> {
    let mut left = Vec::new(alloc);
    if deed == Deed::Append && at == 0 {
        left.push(added.to_vec(alloc)?)?;
    }
    let mut number: u64 = 0;
    for line in lines {
        number = number.saturating_add(1);
        if number != at || deed == Deed::Append {
            left.push(line.to_vec(alloc)?)?;
        }
        if number == at && deed != Deed::Delete {
            left.push(added.to_vec(alloc)?)?;
        }
    }
    Ok(left)
}

/// An ed script of one to three orders, and what it makes of a text.
#[derive(Drop)]
pub struct Script {
    pub bytes: Vec<u8>,
    pub result: Lines,
}

// a deed that the lines have room for, and its line
fn order_on(draws: &mut Draws, count: u64) -> (Deed, u64) {
    match draws.below(3) {
        1 if count > 0 => (Deed::Change, draws.below(count).saturating_add(1)),
        2 if count > 0 => (Deed::Delete, draws.below(count).saturating_add(1)),
        _ => (Deed::Append, draws.below(count.saturating_add(1))),
    }
}

impl Script {
    /// A script on a text; the number tells its lines from those of others.
    pub fn draw(
        alloc: Global,
        draws: &mut Draws,
        text: &[u8],
        number: u64,
    ) -> Result<Script, Fail> {
        let mut script = Script {
            bytes: Vec::new(alloc),
            result: lines_of(alloc, text)?,
        };
        for order in 0..draws.below(3).saturating_add(1) {
            let line = format!(in alloc; "line {number}.{order}")?;
            script.order(alloc, draws, line.as_bytes())?;
        }
        Ok(script)
    }

    // one order more, on the text that the others left
    fn order(&mut self, alloc: Global, draws: &mut Draws, line: &[u8]) -> Result<(), Fail> {
        let (deed, at) = order_on(draws, self.result.len() as u64);
        let letter = match deed {
            Deed::Append => 'a',
            Deed::Change => 'c',
            Deed::Delete => 'd',
        };
        let order = format!(in alloc; "{at}{letter}\n")?;
        self.bytes.extend_from_slice(order.as_bytes())?;
        if deed != Deed::Delete {
            self.bytes.extend_from_slice(line)?;
            self.bytes.extend_from_slice(b"\n.\n")?;
        }
        self.result = behind(alloc, &self.result, deed, at, line)?;
        Ok(())
    }
}
