//! RCS files: their tokens, their form, and the trunk that a file tells.
#![tactic(auto)]

mod dates;
mod faults;
mod forms;
mod indexes;
mod kinds;
pub mod laws;
mod lookups;
mod places;
mod reading;
mod spots;
mod states;
mod texts;
mod tokens;
mod trunks;

pub use faults::RcsFault;
pub use forms::{DeltaText, Phrase, RcsEntry, RcsFile};
pub use kinds::{Token, TokenKind};
pub use places::Place;
pub use reading::read_file;
pub use states::State;
pub use tokens::{Lexed, next_token};
pub use trunks::read_rcs;
