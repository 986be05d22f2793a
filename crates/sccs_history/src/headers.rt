use sccs_base::{Line, ListOf, Login, Text};
use sccs_sid::{Moment, Sid};

/// Numbers of deltas.
pub type Serials = ListOf<u16>;

/// A delta table, newest first.
pub type Records = ListOf<Record>;

/// The flags of a file.
pub type Flags = ListOf<Flag>;

/// One delta of the table: sccsfile(4), "Delta table".
#[derive(Drop)]
pub struct Record {
    pub serial: u16,
    pub removed: bool,
    pub sid: Sid,
    pub moment: Moment,
    pub login: Login,
    pub predecessor: u16,
    pub include: Serials,
    pub exclude: Serials,
    pub ignore: Serials,
    pub mrs: Text,
    pub comments: Text,
    pub inserted: u32,
    pub deleted: u32,
    pub unchanged: u32,
}

/// A flag with its text: sccsfile(4), "Flags".
#[derive(Drop)]
pub struct Flag {
    pub letter: u8,
    pub text: Line,
}

/// All of a file but its body.
#[derive(Drop)]
pub struct Header {
    pub records: Records,
    pub users: Text,
    pub flags: Flags,
    pub description: Text,
}

/// One line of a body: a text line, or a control line with the serial that it names.
#[derive(Drop)]
pub enum Item {
    Text(Line),
    Insert(u16),
    Delete(u16),
    End(u16),
}
