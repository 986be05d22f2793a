//! val: whether files are s-files, and what they are said to be. POSIX, Shell and Utilities, val.
#![tactic(auto)]

mod findings;
mod judging;
mod lines;
mod reports;
mod runs;
mod steps;

pub use findings::Findings;
pub use judging::judge_words;
pub use runs::run_val;
pub use steps::{print_input, print_line, print_lines, print_words, val};
