//! The intent of a group: which files a group of deltas was about to change, and how.
#![tactic(auto)]

mod intents;
mod laws;
mod reading;
mod writing;

pub use intents::{Entries, Fate, IntentEntry, IntentFault};
pub use laws::{intents_are_read_again, thousand_entries_fit};
pub use reading::read_intent;
pub use writing::intent_text;
