//! Data specifications: their parts, and what data keywords stand for that the header of an s-file alone
//! answers. POSIX, Shell and Utilities, prs, "Data Specifications".
//! prs: the delta table of an s-file, and parts of the file, in a format of the caller's. POSIX, Shell and
//! Utilities, prs.
#![tactic(auto)]

mod bodies;
mod choices;
mod deltas;
mod keywords;
mod listings;
mod lists;
mod printing;
mod specifications;
mod steps;
mod values;

pub use keywords::{DataItem, Part};
pub use specifications::{Parts, read_parts};
pub use steps::Prs;
pub use values::{give_item, identification_facts};
