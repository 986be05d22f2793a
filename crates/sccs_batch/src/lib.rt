//! Batches: the text of a list of commands, and what a call says that runs it.
//! Entries of a text: lines that count the lines that follow them.
#![tactic(auto)]

mod commands;
mod entries;
mod messages;
mod reading;
mod running;
mod text_reading;
mod texts;

pub use commands::Commands;
pub use entries::{BatchEntry, EntryHead, FoundEntry};
pub use reading::read_entry;
pub use running::{refuse_input, run_batch};
pub use text_reading::{copy_words, join_lines, next_field, own_lines, read_counts};
pub use texts::{Counts, OwnLines};
