//! Edit scripts and the weave: what the orders of a script do to a text, to the lines of a history
//! and to the items of a body.
#![tactic(auto)]

pub mod laws;
mod scripts;

pub use scripts::{Added, AddedList, Numbers, Order, OrderKind, Plan};
