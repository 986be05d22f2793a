//! A header while deltas are put on its table.
ghost use Rattle.std.specs.Prelude.{◌≡◌, ◌<◌, OnOk};
ghost use Rattle.sccs_history.specs.Applied.{newest};
ghost use Rattle.sccs_records.specs.NewDeltas.{with_delta};

use crate::new_deltas::{NewDelta, record_of};
use sccs_base::Memory;
use sccs_history::Header;
use std::alloc::Global;
use std::marker::Model;

/// A header while deltas are put in front of its table. The newest record is held last, so that none is
/// moved for another. Contracts see the header.
#[derive(Drop)]
pub struct GrowingHeader {
    header: Header,
}

impl Model for GrowingHeader {
    ghost use Rattle.std.specs.Prelude.{reverse};
    ghost use Rattle.sccs_history.specs.declared.headers.Header.{Header};

    ghost Value = { Header };

    ghost view = { λ g. record {
      records = reverse g.header.records;
      users = g.header.users;
      flags = g.header.flags;
      description = g.header.description;
    } };
}

impl GrowingHeader {
    pub fn new(header: Header) -> GrowingHeader
        ensures { result ≡ header }
    {
        let mut header = header;
        header.records.reverse();
        GrowingHeader { header }
    }

    /// The serial of the newest record, 0 in an empty table.
    pub fn newest(&self) -> u16
        ensures { result ≡ newest self.now.records }
    {
        match self.header.records.items().split_last() {
            Some((record, _)) => record.serial,
            None => 0,
        }
    }

    /// Puts the record of a new delta, made on the delta of a serial, in front of the table.
    pub fn put(&mut self, alloc: Global, on: u16, delta: NewDelta) -> Result<(), Memory>
        requires { newest self.old.records < 65535 }
        ensures { OnOk result (self.new ≡ with_delta self.old on delta) }
    {
        let serial = self.newest() + 1;
        self.header
            .records
            .push(record_of(alloc, serial, on, delta))
    }

    /// The header with all of them.
    pub fn into_header(self) -> Header
        ensures { result ≡ self }
    {
        let GrowingHeader { header } = self;
        let mut header = header;
        header.records.reverse();
        header
    }
}
