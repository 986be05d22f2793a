ghost use Rattle.std.specs.Prelude.{◌≡◌, ℕ, ◌<◌, ◌≤◌, None, length, IfSome, OnErr};
ghost use Rattle.sccs_base.specs.Stream.{Rose};

use crate::streams::{Failed, Sink, Source, one_more};
use std::io::{ErrorKind, Read, Stderr, Stdin, Stdout, Write};

/// A reader as a source. It tells no bytes, and counts its failures.
#[derive(Drop)]
pub struct ReaderSource<R> {
    reader: R,
    faults: u64,
}

/// A writer as a sink. It tells no bytes, and counts its failures.
#[derive(Drop)]
pub struct WriterSink<W> {
    writer: W,
    faults: u64,
}

/// Standard input.
pub type StdSource = ReaderSource<Stdin>;

/// Standard output.
pub type StdSink = WriterSink<Stdout>;

/// Standard error.
pub type StdErrSink = WriterSink<Stderr>;

// one read, tried again where a signal came between
fn read_some<R: Read>(reader: &mut R, into: &mut [u8]) -> Option<usize>
    ensures { IfSome result (λ n. n ≤ length into.old) }
{
    for _ in 0..u64::MAX {
        match reader.read(into) {
            Ok(n) => return Some(n),
            Err(error) => {
                if error.kind() != ErrorKind::Interrupted {
                    return None;
                }
            }
        }
    }
    None
}

// writes all the bytes; a writer that takes none of them has failed
fn write_whole<W: Write>(writer: &mut W, bytes: &[u8]) -> bool {
    let mut rest = bytes;
    for _ in 0..u64::MAX {
        if rest.is_empty() {
            return true;
        }
        match writer.write(rest) {
            Ok(0) => return false,
            Ok(n) => rest = &rest[n..],
            Err(error) => {
                if error.kind() != ErrorKind::Interrupted {
                    return false;
                }
            }
        }
    }
    false
}

// the answer for bytes that were written or not; a failure is counted
fn answer_of(written: bool, faults: &mut u64) -> Result<(), Failed>
    ensures later { faults.old ≤ faults.new }
    ensures cause { OnErr result (Rose faults.old faults.new) }
{
    if written {
        Ok(())
    } else {
        *faults = one_more(*faults);
        Err(Failed)
    }
}

impl<R> ReaderSource<R> {
    pub fn new(reader: R) -> Self
        ensures { result.faults ≡ 0 }
    {
        ReaderSource { reader, faults: 0 }
    }
}

impl<R: Read> Source for ReaderSource<R> {
    ghost left = { λ _. None };

    ghost faults = { λ s. s.faults };

    fn take(&mut self, into: &mut [u8]) -> Result<usize, Failed> {
        match read_some(&mut self.reader, into) {
            Some(n) => Ok(n),
            None => {
                self.faults = one_more(self.faults);
                Err(Failed)
            }
        }
    }
}

impl<W> WriterSink<W> {
    pub fn new(writer: W) -> Self
        ensures { result.faults ≡ 0 }
    {
        WriterSink { writer, faults: 0 }
    }
}

impl<W: Write> Sink for WriterSink<W> {
    ghost given = { λ _. None };

    ghost faults = { λ s. s.faults };

    fn give(&mut self, bytes: &[u8]) -> Result<(), Failed> {
        let written = write_whole(&mut self.writer, bytes);
        answer_of(written, &mut self.faults)
    }
}
