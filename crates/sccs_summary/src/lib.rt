//! The summary of a get: which deltas are applied, given to standard output or made the l-file. POSIX, Shell and
//! Utilities, get, -l and -L.
#![tactic(auto)]

mod choices;
mod entries;
mod files;
pub mod laws;
mod printing;

pub use choices::Choices;
pub use files::make_l;
pub use printing::print_summary;
