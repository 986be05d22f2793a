//! What the tests of the whole program share: s-files, disks in memory, and lines of words with what they answer.
#![tactic(auto)]

mod batches;
mod cases;
mod disks;
mod runs;
pub mod samples;
mod sums;

pub use cases::{CASE, Case, ends, first_wrong};
pub use disks::{File, disk_with, has, has_file, name};
pub use runs::{Given, PLAIN, Seen, answer_over, answer_to};
pub use sccs_top::Answer;
pub use sums::{flagged, sum_of, summed};
