//! What is read and written of an s-file: a body that is copied through a filter, and the base of a delta, read once
//and examined.
#![tactic(auto)]

mod base_splicers;
mod copies;
mod examining;
mod filters;
mod laws;
mod result_checks;
mod writing;

pub use base_splicers::BaseSplicer;
pub use copies::{Copying, put_body};
pub use examining::{Found, examine};
pub use filters::{BodyFilter, Identity};
pub use laws::spliced_outputs;
pub use writing::{replace_header, write_sfile};
