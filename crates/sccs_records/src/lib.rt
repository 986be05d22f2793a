//! Records of a delta table as they are made: the texts of a record, the record of a new delta, and null
//! deltas; with the laws on tables that get one.
#![tactic(auto)]

mod growing_headers;
pub mod laws;
mod new_deltas;
mod null_deltas;
mod texts;

pub use new_deltas::{Counts, NewDelta, add_delta, newest};
pub use null_deltas::{BasedHeader, add_null_deltas};
pub use texts::{copy_lines, some_lines};
