//! What the flags and the users of a file say of its deltas.
#![tactic(auto)]

mod flag_values;
mod logins;

pub use flag_values::{ceiling, floor, has_flag, is_locked, is_within_limits};
pub use logins::is_allowed;
