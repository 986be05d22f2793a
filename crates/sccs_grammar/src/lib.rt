//! The grammar of s-files, sccsfile(4): what may stand where in a header, and the first fault.
#![tactic(auto)]

mod accepting;
mod faults;
mod file_refusals;
mod flag_texts;
mod header_parsers;
mod laws;
mod live_sids;
mod table_tests;
mod tables;

pub use accepting::accept;
pub use faults::FileFault;
pub use file_refusals::files_are_refused;
pub use header_parsers::{
    FrontFault, HeaderParser, HeaderState, ListsSeen, PartialHeader, TableEntry,
};
pub use laws::{
    body_again, delta_again, entry_parts_again, faults_stay, file_again, headers_keep_rules,
    short_parts_again,
};
pub use tables::Table;
