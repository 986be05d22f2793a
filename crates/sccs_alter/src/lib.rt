//! admin: s-files that are there, with other users, flags and description. POSIX, Shell and Utilities, admin.
//! cdc: the MRs and the comment of one delta, changed. SCCS has it, and POSIX lacks it.
#![tactic(auto)]

mod alters;
mod cdc_checks;
mod cdc_headers;
pub mod cdc_laws;
mod cdcs;
mod changes;
mod checks;
mod comments;
mod headers;
pub mod laws;
mod mrs;
mod reading;

pub use alters::{Alter, write_header};
pub use cdcs::Cdc;
pub use checks::Check;
