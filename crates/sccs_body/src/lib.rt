//! Which serials are open at a place of a body, and what may stand there: sccsfile(4), "Body".
//! The body of an s-file: its items, and the check of a whole file.
#![tactic(auto)]

mod bodies;
mod body_readers;
mod body_states;
mod item_readers;
pub mod laws;
mod marks;

pub use bodies::{inspect, inspect_any_sum};
pub use body_states::BodyState;
pub use item_readers::ItemReader;
pub use sccs_history::Item;
