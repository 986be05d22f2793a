//! The input of a group: delta commands of different names, each with its script.
//! The step of a group: its deltas are prepared one after the other, and committed together.
//! A group as a list of steps that a call follows: its input, and the step of all its entries.
#![tactic(auto)]

mod entries;
mod groups;
mod joining;
pub mod laws;
mod prepared_entries;
mod preparing;
mod reading;
mod running;

pub use entries::{GroupEntries, GroupEntry, GroupFault};
pub use groups::make_group;
pub use prepared_entries::{NamedFault, PreparedEntries, PreparedEntry};
pub use preparing::{prepare_all, prepare_entry};
pub use reading::read_group;
pub use running::run_group;
