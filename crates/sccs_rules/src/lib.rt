//! Which users and flags a file has: names added and erased, flags set and removed. POSIX, Shell and
//! Utilities, admin -a, -e, -f, -d.
#![tactic(auto)]

mod flag_changes;
mod forms;
pub mod laws;
mod releases;
mod users;

pub use flag_changes::{FlagFault, change_flags, sets_flag};
pub use users::change_users;
