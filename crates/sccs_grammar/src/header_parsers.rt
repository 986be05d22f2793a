ghost use Rattle.std.specs.Prelude.{◌≡◌, [], true, false};
ghost use Rattle.sccs_grammar.specs.Front.{start};

use crate::tables::Table;
use sccs_base::Text;
use sccs_history::Flags;
use sccs_tokens::BoxedRecord;
use std::alloc::Global;

/// Why the lines of a header were not read on.
#[derive(Clone, Copy, Debug, PartialEq, Eq)]
pub enum FrontFault {
    /// The number of the line that is at fault.
    Format(u64),
    Memory,
}

/// An entry of the table, and the number of its delta line.
#[derive(Drop)]
pub struct TableEntry {
    pub line: u64,
    pub row: BoxedRecord,
}

/// ListKind lists of an entry seen already.
#[derive(Clone, Copy, Debug, PartialEq, Eq)]
pub struct ListsSeen {
    pub included: bool,
    pub excluded: bool,
    pub ignored: bool,
}

/// Where in a header the next line stands.
#[derive(Drop)]
pub enum HeaderState {
    /// An entry begins here, or the table ends.
    AtEntry,
    /// Behind the counts of an entry.
    AtDelta(u32, u32, u32),
    /// Among the lists of an entry.
    InLists(TableEntry, ListsSeen),
    /// Behind the first MR or comment of an entry.
    InTexts(TableEntry),
    InUsers,
    InFlags,
    InDescription,
    /// Behind the header.
    AtBody,
}

/// What was read so far of a header.
#[derive(Drop)]
pub struct PartialHeader {
    pub table: Table,
    pub users: Text,
    pub flags: Flags,
    pub description: Text,
}

/// What was read so far, and where the next line stands.
#[derive(Drop)]
pub struct HeaderParser {
    pub state: HeaderState,
    pub parts: PartialHeader,
}

impl HeaderParser {
    /// Nothing was read.
    pub fn new(alloc: Global) -> HeaderParser
        ensures { result ≡ start }
    {
        let parts = PartialHeader {
            table: Table::new(alloc),
            users: Text::empty(alloc),
            flags: Flags::empty(alloc),
            description: Text::empty(alloc),
        };
        HeaderParser {
            state: HeaderState::AtEntry,
            parts,
        }
    }
}
