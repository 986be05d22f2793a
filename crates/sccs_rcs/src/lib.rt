//! import: s-files of the trunks of RCS files. rcsfile(5); sccsfile(4).
#![tactic(auto)]

mod bodies;
mod finding;
mod headers;
mod imports;
pub mod laws;

pub use bodies::RunsBody;
pub use finding::find_rcs;
pub use imports::Import;
