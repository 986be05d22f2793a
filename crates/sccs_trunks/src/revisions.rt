use sccs_base::{ListOf, Login, Text};
use sccs_sid::{Moment, Sid};

/// A command of a script: rcsfile(5), "deltatext".
#[derive(Clone, Copy, Debug, PartialEq, Eq)]
pub enum ScriptCommand {
    /// `dL N`: N lines go, from line L on.
    Delete { line: u64, count: u64 },
    /// `aL N`: the N lines that follow it come after line L, before all where L is 0.
    Add { line: u64, count: u64 },
}

/// One revision of a trunk: rcsfile(5), "delta" and "deltatext".
#[derive(Drop)]
pub struct Revision {
    pub sid: Sid,
    pub moment: Moment,
    pub login: Login,
    pub log: Text,
    /// The text of the head; of every other revision the script that makes its text of the one
    /// before it.
    pub text: Text,
}

/// Revisions, the head first.
pub type Revisions = ListOf<Revision>;

/// The trunk of an RCS file, and the description of the file.
#[derive(Drop)]
pub struct Rcs {
    pub revisions: Revisions,
    pub description: Text,
}
