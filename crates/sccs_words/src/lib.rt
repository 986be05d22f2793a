//! The words of a command line, and what they mean: POSIX, Shell and Utilities, and the Utility Syntax Guidelines.
#![tactic(auto)]

mod command_lines;
mod commands;
mod judging;
mod laws;
mod meanings;
mod records;
mod scanning;
mod tables;
mod values;

pub use commands::{
    AdminWords, CdcWords, Command, DeltaWords, GetWords, Given, Operands, PrsWords, Summary,
    UngetWords, Usage, ValWords, WordsFault,
};
pub use laws::{
    faults_have_a_place, joined_options_are_options_apart, mr_words_are_between_gaps,
    numbers_of_words_do_not_matter,
};
pub use meanings::read_words;
