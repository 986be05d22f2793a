//! delta: a new version of an s-file. POSIX, Shell and Utilities, delta.
#![tactic(auto)]

mod deltas;
mod entries;
mod headers;
pub mod laws;
mod new_sfiles;
mod preparing;
mod reports;
mod scripts;
mod sizes;
mod skipping;

pub use deltas::Delta;
pub use entries::{Base, Chosen, chosen_entry};
pub use preparing::prepare_delta;
pub use skipping::{Sids, skipped};
