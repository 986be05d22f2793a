//! The names that an operand stands for: those of the s-files of a folder, in byte order, and the lines of
//! an input.
#![tactic(auto)]

mod input_names;
mod listing;

pub use input_names::read_names;
pub use listing::list_sfiles;
