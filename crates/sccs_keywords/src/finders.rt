ghost use Rattle.std.specs.Prelude.{◌≡◌, Some, length, IfSome};
ghost use Rattle.std.specs.List.Sorted.{IsSearchInRange};
ghost use Rattle.sccs_history.specs.Applied.{serials_of};
ghost use Rattle.sccs_history.specs.Numbers.{Falls};
ghost use Rattle.sccs_keywords.specs.Forms.{sid_of_serial};
ghost use Rattle.sccs_keywords.specs.Places.{sid_in};

use sccs_history::{Record, Sid};
use std::marker::Model;

/// Finds SIDs of serials in a table: mostly it is that of the call before. Contracts see the table.
#[derive(Drop)]
pub struct SidFinder<'a> {
    records: &'a [Record],
    place: usize,
}

impl<'a> Model for SidFinder<'a> {
    ghost use Rattle.std.specs.Prelude.{List};
    ghost use Rattle.sccs_history.specs.Applied.{serials_of};
    ghost use Rattle.sccs_history.specs.Numbers.{Falls};
    ghost use Rattle.sccs_history.specs.declared.headers.Record.{Record};

    ghost Value = { List Record };

    ghost view = { λ f. f.records.now };

    ghost invariant = { λ f. Falls 65536 (serials_of f.records.now) };
}

// the SID of the record at a place, where that has the serial
#[tactic(auto, using(crate::proofs::Finds::sid_here))]
fn sid_at(records: &[Record], place: usize, serial: u16) -> Option<Sid>
    requires { Falls 65536 (serials_of records.now) }
    ensures { IfSome result (λ sid. Some sid ≡ sid_of_serial records.now serial) }
{
    if place < records.len() && records[place].serial == serial {
        Some(records[place].sid)
    } else {
        None
    }
}

// the place of the record with a serial, or the one where it would stand
fn place_of(records: &[Record], serial: u16) -> Result<usize, usize>
    requires { Falls 65536 (serials_of records.now) }
    ensures bound { IsSearchInRange result (length records.now) }
    ensures sid { sid_in records.now result ≡ sid_of_serial records.now serial }
{
    records.binary_search_by(|record| serial.cmp(&record.serial))
}

impl<'a> SidFinder<'a> {
    /// For a table, newest first.
    pub fn new(records: &'a [Record]) -> SidFinder<'a>
        requires { Falls 65536 (serials_of records.now) }
        ensures { result ≡ records.now }
    {
        SidFinder { records, place: 0 }
    }

    /// The SID of the record with a serial.
    #[tactic(auto, using(crate::proofs::Finds::sid_read))]
    pub fn find(&mut self, serial: u16) -> Option<Sid>
        ensures value { result ≡ sid_of_serial self.old serial }
        ensures table { self.new ≡ self.old }
    {
        if let Some(sid) = sid_at(self.records, self.place, serial) {
            return Some(sid);
        }
        let Ok(place) = place_of(self.records, serial) else {
            return None;
        };
        self.place = place;
        Some(self.records[place].sid)
    }
}
