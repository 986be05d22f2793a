//! Recovery of a name on which a step was stopped: what the step began is finished or undone.
//! The first portion of recover: a group that was stopped is finished, whatever the operands.
#![tactic(auto)]

mod commands;
mod entries_left;
mod finishing;
mod freed_names;
pub mod laws;
mod pending;
mod plans;
mod readings;
mod recoveries;

pub use commands::Recover;
pub use finishing::finish;
pub use recoveries::{Recovered, recover};
