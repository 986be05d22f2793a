//! sact and unget: pending edits shown, and dropped. POSIX, Shell and Utilities, sact and unget.
//! The front end: pending edits told and checked, and the lists of commands that edit, unedit, delget and deledit
//! stand for.
#![tactic(auto)]

mod lists;
mod sact;
mod sact_reports;
mod steps;
mod unget;
mod utilities;

pub use lists::{CommandWords, front};
pub use sact::{Sact, find_edits};
pub use sact_reports::report_of;
pub use steps::pending;
pub use unget::Unget;
pub use utilities::Entries;
