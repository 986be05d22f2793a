//! A new s-file, written from its first line to its last: the header, a body of any kind, and the sum.
#![tactic(auto)]

mod bodies;
mod writing;

pub use bodies::NewBody;
pub use writing::write_new;
