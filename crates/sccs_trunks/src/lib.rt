//! RCS trunks: what the scripts of a trunk's revisions do, and the history that an s-file gets from
//! them, whose versions are the revisions' texts.
//! The scripts of an RCS trunk made one: pieces of the lines of all its texts, in their order, runs
//! of the lines of its history, and how many lines each delta has.
#![tactic(auto)]

mod checking;
mod commands;
mod counts;
mod joining;
pub mod laws;
mod lefts;
mod pieces;
pub mod rcs_piece_laws;
mod reading;
mod revisions;
mod runs;

pub use checking::check_script;
pub use commands::command_of;
pub use counts::{LineCounts, line_counts};
pub use joining::join_scripts;
pub use pieces::Piece;
pub use revisions::{Rcs, Revision, Revisions, ScriptCommand};
pub use runs::{LineRun, trunk_runs};
