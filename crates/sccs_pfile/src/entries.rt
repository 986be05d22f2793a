use sccs_base::{ListOf, Login};
use sccs_sid::{Moment, Sid, SidList};

/// An entry of a p-file: the SID that was got, the one that is to be made, who got it and when, and
/// the lists of `-i` and `-x`, empty where they weren't given. POSIX, get -e; System V, p-file.
#[derive(Drop)]
pub struct Edit {
    pub got: Sid,
    pub made: Sid,
    pub login: Login,
    pub moment: Moment,
    pub include: SidList,
    pub exclude: SidList,
}

/// The entries of a p-file, in their order.
pub type Edits = ListOf<Edit>;

/// Why a p-file wasn't read: this line, from 1, is no entry; or want of memory.
#[derive(Clone, Copy, Debug, PartialEq, Eq)]
pub enum PfileFault {
    BadPfile(u64),
    Memory,
}
