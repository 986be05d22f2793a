use sccs_base::{ListOf, Name};

// how an intent begins, and how it ends
pub const FIRST_LINE: &[u8] = b"sccs group 1";

pub const LAST_LINE: &[u8] = b"end";

/// What becomes of the p-file of a name: a new one takes its place, or it goes.
#[derive(Clone, Copy, Debug, PartialEq, Eq)]
pub enum Fate {
    Replaced,
    Removed,
}

/// An entry of an intent: the name of an s-file, and what becomes of its p-file.
#[derive(Clone, Copy)]
pub struct IntentEntry {
    pub name: Name,
    pub fate: Fate,
}

/// The entries of an intent, in their order.
pub type Entries = ListOf<IntentEntry>;

/// Why an intent wasn't read: this line, from 1, isn't of its form; or want of memory.
#[derive(Clone, Copy, Debug, PartialEq, Eq)]
pub enum IntentFault {
    BadIntent(u64),
    Memory,
}
