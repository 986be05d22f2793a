//! what: the texts behind the marks `@(#)` of any file. POSIX, Shell and Utilities, what.
#![tactic(auto)]

mod files;
mod marks;
mod searches;
mod steps;
mod utilities;

pub use steps::what;
pub use utilities::What;
