//! The p-file: the deltas that are to be made, and by whom.
#![tactic(auto)]

mod agreement;
mod choosing;
mod entries;
mod laws;
mod live_sets;
mod makers;
mod reading;
mod writing;

pub use agreement::{Disagree, agree, is_listed};
pub use choosing::{Choice, choose, release, reserve};
pub use entries::{Edit, Edits, PfileFault};
pub use laws::{
    agreeing_entries_stay, entries_again, made_entries_leave, new_entries_agree, recovered_once,
};
pub use live_sets::{LiveSet, find_live, has_live};
pub use reading::read_edits;
pub use writing::write_edits;
