//! get: a version of an s-file, printed or as its g-file, and an edit of one reserved. POSIX, Shell and
//! Utilities, get.
#![tactic(auto)]

mod checks;
mod edits;
mod found;
mod giving;
mod laws;
mod new_entries;
mod reports;
mod steps;
mod summaries;
mod targets;

pub use edits::Reserve;
pub use laws::linear_files;
pub use steps::Get;
