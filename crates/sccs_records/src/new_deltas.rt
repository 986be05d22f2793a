ghost use Rattle.std.specs.Prelude.{◌≡◌, ◌<◌, IfOk};
ghost use Rattle.sccs_history.specs.Applied.{newest};
ghost use Rattle.sccs_history.specs.History.{IsSpelled};
ghost use Rattle.sccs_records.specs.NewDeltas.{count_of, HasSpellings, record_of, with_delta};

use sccs_base::{Memory, Text};
use sccs_history::{Header, Record, Records, Serials};
use sccs_sid::{Sid, Stamp};
use std::alloc::Global;

// the greatest count of a table: sccsfile(4)
const COUNT_LIMIT: u64 = 99_999;

/// How many lines a delta inserts, deletes and leaves.
#[derive(Clone, Copy, Debug, PartialEq, Eq)]
pub struct Counts {
    pub inserted: u64,
    pub deleted: u64,
    pub unchanged: u64,
}

/// What a new delta says of itself; its serial follows from the table.
#[derive(Drop)]
pub struct NewDelta {
    pub sid: Sid,
    pub stamp: Stamp,
    pub include: Serials,
    pub exclude: Serials,
    pub mrs: Text,
    pub comments: Text,
    pub counts: Counts,
}

// a count as the table has it
fn count_of(count: u64) -> u32
    ensures { result ≡ count_of count }
{
    count.min(COUNT_LIMIT) as u32
}

/// The serial of the newest record, 0 in an empty table.
pub fn newest(records: &Records) -> u16
    ensures { result ≡ newest records.now }
{
    match records.items() {
        [record, ..] => record.serial,
        [] => 0,
    }
}

/// The record of a delta of that serial, made on another.
pub fn record_of(alloc: Global, serial: u16, on: u16, delta: NewDelta) -> Record
    ensures { result ≡ record_of serial on delta }
{
    Record {
        serial,
        removed: false,
        sid: delta.sid,
        moment: delta.stamp.moment,
        login: delta.stamp.login,
        predecessor: on,
        include: delta.include,
        exclude: delta.exclude,
        ignore: Serials::empty(alloc),
        mrs: delta.mrs,
        comments: delta.comments,
        inserted: count_of(delta.counts.inserted),
        deleted: count_of(delta.counts.deleted),
        unchanged: count_of(delta.counts.unchanged),
    }
}

/// Puts the record of a new delta, made on the delta of a serial, in front of the table. Its serial is
/// the newest one plus 1. Users, flags and description stay.
pub fn add_delta(alloc: Global, header: Header, on: u16, delta: NewDelta) -> Result<Header, Memory>
    requires { newest header.records < 65535 }
    ensures value { IfOk result (λ h. h ≡ with_delta header on delta) }
    ensures spelled { IsSpelled header → HasSpellings delta → IfOk result IsSpelled }
{
    let mut header = header;
    let serial = newest(&header.records) + 1;
    header
        .records
        .insert(0, record_of(alloc, serial, on, delta))?;
    Ok(header)
}
