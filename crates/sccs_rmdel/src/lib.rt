//! The removal of a delta from a history: which delta may go, and by whom; the header without it; and the laws
//! on what it leaves. POSIX, Shell and Utilities, rmdel.
//! rmdel: the newest delta of a branch taken out of a history. POSIX, Shell and Utilities, rmdel.
#![tactic(auto)]

mod checks;
mod droppers;
pub mod laws;
mod leaves;
mod removals;
pub mod rmdel_laws;
mod rmdels;
mod writing;

pub use leaves::{is_edited, is_leaf, is_owner, live_delta};
pub use removals::{Lists, copy_lists, remove_delta};
pub use rmdels::Rmdel;
