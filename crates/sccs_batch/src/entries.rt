use crate::texts::Counts;
use sccs_base::{Bytes, Words};
use sccs_sid::Stamp;

/// An entry of a batch: a command with a moment, a login, words and an input of its own.
#[derive(Drop)]
pub struct BatchEntry {
    pub stamp: Stamp,
    pub words: Words,
    pub input: Bytes,
}

/// What the first line of an entry says: its stamp, and how many lines of words and of input follow.
#[derive(Clone, Copy)]
pub struct EntryHead {
    pub stamp: Stamp,
    pub counts: Counts,
}

/// An entry, and how many lines stand behind its first one that are its own.
#[derive(Drop)]
pub struct FoundEntry {
    pub entry: BatchEntry,
    pub lines: u32,
}
