//! Groups of deltas, made whole or not at all: the intent that names their files, the commit, and the
//! finishing of one that was stopped.
#![tactic(auto)]

mod calls;
mod finishing;
mod grouping;
pub mod laws;
mod members;
mod names;
mod plans;
mod recovering;

pub use calls::clear;
pub use finishing::complete;
pub use grouping::commit_group;
pub use members::{Member, Members};
pub use names::{intent_name, plan_name};
pub use recovering::finish_group;
