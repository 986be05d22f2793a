use sccs_base::{Bytes, ListOf, Name};
use sccs_words::DeltaWords;

/// An entry of a group: a delta command, with its script.
#[derive(Drop)]
pub struct GroupEntry {
    pub words: DeltaWords,
    pub name: Name,
    pub script: Bytes,
}

/// The entries of a group, in their order.
pub type GroupEntries = ListOf<GroupEntry>;

/// Why lines are no group: the number of the first line of the first entry that is none, from 1, or 1 where
/// there is no entry; or there was no memory.
#[derive(Clone, Copy, Debug, PartialEq, Eq)]
pub enum GroupFault {
    BadEntry(u64),
    Memory,
}
