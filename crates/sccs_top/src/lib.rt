//! The top call, which does all that the program does.
#![tactic(auto)]

mod answers;
mod asking;
mod commands;
mod context;
pub mod laws;
mod messages;
mod no_input;
mod singles;

pub use answers::Answer;
pub use asking::Asked;
pub use commands::{CommandList, GroupUse, run};
