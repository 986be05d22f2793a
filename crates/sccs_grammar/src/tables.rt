//! The delta table as far as it was read, with what makes its rules quick to judge.
ghost use Rattle.std.specs.Prelude.{◌≡◌, ◌<◌, true, ◌∷◌, length, IsTrue, Ok};
ghost use Rattle.sccs_history.specs.Applied.{serials_of};
ghost use Rattle.sccs_history.specs.Numbers.{has};
ghost use Rattle.sccs_grammar.specs.Entries.{no_entries, with_entry};
ghost use Rattle.sccs_grammar.specs.Front.{Accepts, dangling_predecessor, may_follow};

use crate::header_parsers::{FrontFault, TableEntry};
use crate::live_sids::{LiveSids, with_sid};
use crate::table_tests::least;
use sccs_base::ListOf;
use sccs_history::{Record, Records};
use std::alloc::Global;
use std::marker::Model;

/// The entries that were read so far. Contracts see their records, and the numbers of their delta
/// lines.
#[derive(Drop)]
pub struct Table {
    records: Records,
    lines: ListOf<u64>,
    sids: LiveSids,
}

impl Model for Table {
    ghost use Rattle.sccs_grammar.specs.Entries.{Entries};
    ghost use Rattle.sccs_grammar.specs.HeldTable.{entries, IsKept};

    ghost Value = { Entries };

    ghost view = { entries };

    ghost invariant = { IsKept };
}

// whether the record at a place, where one stands there, has the serial
fn has_at(table: &[Record], at: usize, n: u16) -> bool
    ensures { IsTrue result → has (0 ∷ serials_of table.now) n ≡ true }
{
    match table.get(at) {
        Some(record) => record.serial == n,
        None => false,
    }
}

// whether a search by halves finds the serial, as it does where the serials fall and it is among them
fn is_found(table: &[Record], n: u16) -> bool
    ensures { IsTrue result → has (0 ∷ serials_of table.now) n ≡ true }
{
    match table.binary_search_by(|record| n.cmp(&record.serial)) {
        Ok(at) => has_at(table, at, n),
        Err(_) => false,
    }
}

// whether a number is among the serials, in whatever order they stand
#[inline(never)]
fn is_among(table: &[Record], n: u16) -> bool
    ensures { result ≡ has (serials_of table.now) n }
{
    table.iter().any(|record| record.serial == n)
}

// whether a number is 0 or the serial of a record. The record behind a place is looked at first: its
// serial is mostly the predecessor of the record at that place. All of them are looked at where a table
// whose serials fall hasn't the number, so once at most, for there the reading of it ends.
fn is_there(table: &[Record], at: usize, n: u16) -> bool
    requires { at < length table.now }
    ensures { result ≡ has (0 ∷ serials_of table.now) n }
{
    if has_at(table, at + 1, n) || is_found(table, n) {
        return true;
    }
    n == 0 || is_among(table, n)
}

// the delta line of the first entry whose predecessor is neither 0 nor among the serials
fn dangling_predecessor(table: &[Record], lines: &[u64]) -> Option<u64>
    ensures { result ≡ dangling_predecessor table.now table.now lines.now }
{
    for (at, record) in table.iter().enumerate() {
        let Some(line) = lines.get(at) else {
            return None;
        };
        if !is_there(table, at, record.predecessor) {
            return Some(*line);
        }
    }
    None
}

impl Table {
    /// No entries.
    pub fn new(alloc: Global) -> Table
        ensures { result ≡ no_entries }
    {
        Table {
            records: Records::empty(alloc),
            lines: ListOf::empty(alloc),
            sids: LiveSids::none(),
        }
    }

    /// The records, newest first.
    pub fn records(&self) -> &[Record]
        ensures { result.now ≡ self.now.records }
    {
        self.records.items()
    }

    /// The records alone.
    pub fn into_records(self) -> Records
        ensures { result ≡ self.records }
    {
        let Table { records, .. } = self;
        records
    }

    /// Whether a record may stand behind these: serials fall, a predecessor is smaller, SIDs of live
    /// records differ.
    pub fn may_follow(&self, row: &Record) -> bool
        ensures { result ≡ may_follow row.now self.now.records }
    {
        u32::from(row.serial) < least(self.records.items())
            && row.predecessor < row.serial
            && (row.removed || !self.sids.lives(self.records.items(), &row.sid))
    }

    /// The delta line of the first entry whose predecessor is neither 0 nor in the table.
    pub fn dangling_predecessor(&self) -> Option<u64>
        ensures { result ≡ dangling_predecessor self.now.records self.now.records self.now.lines }
    {
        dangling_predecessor(self.records.items(), self.lines.items())
    }
}

/// A table with an entry more.
pub fn with_entry(alloc: Global, table: Table, entry: TableEntry) -> Result<Table, FrontFault>
    ensures { Accepts result (Ok (with_entry table entry)) }
{
    let Table {
        mut records,
        mut lines,
        sids,
    } = table;
    let TableEntry { line, row } = entry;
    let Ok(sids) = with_sid(alloc, sids, records.items(), row.as_record()) else {
        return Err(FrontFault::Memory);
    };
    let Ok(()) = records.push(row.into_record()) else {
        return Err(FrontFault::Memory);
    };
    let Ok(()) = lines.push(line) else {
        return Err(FrontFault::Memory);
    };
    Ok(Table {
        records,
        lines,
        sids,
    })
}
