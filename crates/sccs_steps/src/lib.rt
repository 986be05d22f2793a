//! Steps, and lists of steps: what a step sees and does, what a utility is, and the loop over the
//! operands of a command.
#![tactic(auto)]

mod faults;
mod names;
mod operands;
mod ordinary;
mod statuses;
mod streams;
mod utilities;

pub use faults::Fault;
pub use names::conclude;
pub use operands::{is_several, run_operand, run_operands};
pub use ordinary::Ordinary;
pub use statuses::{StatusRule, with_status};
pub use streams::Streams;
pub use utilities::{Utility, UtilityWithStatus};
