//! What a history is: records, flags, headers, items, and the laws of delta sets and bodies.
#![tactic(auto)]

mod headers;
pub mod laws;
pub mod samples;

pub use headers::{Flag, Flags, Header, Item, Record, Records, Serials};

// what the fields of a record are
pub use sccs_sid::{Moment, Sid};
