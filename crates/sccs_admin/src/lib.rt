//! admin: new s-files. POSIX, Shell and Utilities, admin.
#![tactic(auto)]

mod admins;
mod bodies;
mod finding;
mod headers;
pub mod laws;
mod rules;
mod texts;

pub use admins::{Admin, prepared};
pub use finding::read_named;
pub use rules::{described, flags_of, has_text};
