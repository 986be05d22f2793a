//! soak: a long valid session that a number makes, round by round, on one file.
#![tactic(auto)]

mod commands;
mod draws;
mod dropping;
mod running;
mod summaries;
mod turns;

pub use draws::Draws;
pub use dropping::Dropping;
pub use running::run_soak;
pub use summaries::Summary;
pub use turns::{Turn, write_script};
