//! Which lines of a body a version shows.
//! The lines of a version, one after another: those lines of a body that a set of deltas shows.
#![tactic(auto)]

mod readers;
mod regions;
mod weavers;

pub use readers::{Next, VersionReader};
pub use regions::Region;
pub use weavers::Weaver;
