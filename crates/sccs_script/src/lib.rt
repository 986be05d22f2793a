//! Edit scripts: read, checked against a text, applied to it, and turned into a plan for a base.
#![tactic(auto)]

mod applying;
mod checks;
mod commands;
mod copies;
mod drafts;
mod faults;
mod groups;
pub mod laws;
mod pieces;
mod plans;
mod reading;
mod trees;
mod turns;

pub use applying::apply;
pub use checks::check;
pub use faults::ScriptFault;
pub use plans::plan;
pub use reading::{Script, read_script};
pub use sccs_script_laws::{Added, AddedList, Numbers, Order, OrderKind, Plan};
