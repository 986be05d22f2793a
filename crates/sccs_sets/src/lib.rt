//! Which delta is meant, which serials a list names, and which deltas a version is made of.
#![tactic(auto)]

mod delta_sets;
mod faults;
mod flags;
pub mod laws;
mod live_indexes;
mod making;
mod marks;
mod naming;
mod retrieval;
pub mod samples;
mod tables;

pub use delta_sets::{Applied, delta_set};
pub use faults::SetFault;
pub use flags::default_of;
pub use making::{Full, comes_after, to_make};
pub use naming::{in_range, lives, not_after, one_line, range_fault, serials};
pub use retrieval::{NoSid, retrieve};
pub use tables::sid_at;
