ghost use Rattle.std.specs.Prelude.{◌≡◌, ◌≢◌, ◌↔◌, IsTrue, IfOk, OnOk, IsErrOf};
ghost use Rattle.sccs_base.specs.Cut.{HasNoLf, text_of, without_lf};

use crate::constants::LF;
use crate::lists::{ListOf, Text};
use crate::streams::{MakeFault, Memory};
use bstr::ByteSlice;
use memchr::memchr;
use std::alloc::Global;
use std::marker::Model;

/// Bytes without LF. Contracts see a line as its bytes.
#[derive(Drop)]
pub struct Line {
    bytes: Vec<u8>,
}

impl Model for Line {
    ghost use Rattle.std.specs.Prelude.{List, ℕ};
    ghost use Rattle.sccs_base.specs.Cut.{HasNoLf};

    ghost Value = { List ℕ };

    ghost view = { λ s. s.bytes.items };

    ghost invariant = { λ s. HasNoLf s.bytes.items };
}

// whether LF is not among bytes
fn is_line(bytes: &[u8]) -> bool
    ensures { IsTrue result ↔ HasNoLf bytes.now }
{
    memchr(LF, bytes).is_none()
}

impl Line {
    /// A line of these very bytes, without a copy.
    pub fn from_vec(bytes: Vec<u8>) -> Line
        requires { HasNoLf bytes.items }
        ensures { result ≡ bytes.items }
    {
        Line { bytes }
    }

    /// A line of these bytes; Unfit exactly where LF is among them.
    pub fn new(alloc: Global, bytes: &[u8]) -> Result<Line, MakeFault>
        ensures ok { IfOk result (λ line. line ≡ bytes.now) }
        ensures fit { OnOk result (HasNoLf bytes.now) }
        ensures unfit { IsErrOf result MakeFault.Unfit → ¬ HasNoLf bytes.now }
    {
        if !is_line(bytes) {
            return Err(MakeFault::Unfit);
        }
        let Ok(bytes) = bytes.to_vec(alloc) else {
            return Err(MakeFault::Memory);
        };
        Ok(Line { bytes })
    }

    pub fn bytes(&self) -> &[u8]
        ensures value { result.now ≡ self.now }
        ensures line { HasNoLf self.now }
    {
        self.bytes.as_slice()
    }
}

// a line without its LF
fn without_lf(line: &[u8]) -> &[u8]
    ensures { result.now ≡ without_lf line.now }
{
    match line {
        [front @ .., last] if *last == LF => front,
        _ => line,
    }
}

impl ListOf<Line> {
    /// The lines of bytes, cut at each LF. Bytes after the last LF are a last line.
    pub fn read(alloc: Global, bytes: &[u8]) -> Result<Text, Memory>
        ensures { IfOk result (λ text. text ≡ text_of bytes.now) }
    {
        let mut lines = Vec::new(alloc);
        'lines: for line in bytes.lines_with_terminator() {
            let line = without_lf(line).to_vec(alloc)?;
            lines.push(Line { bytes: line })?;
        }
        Ok(ListOf::from_vec(lines))
    }
}
