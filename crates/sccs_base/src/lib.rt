//! Bytes, lines, names, lists, and the streams that bytes come from and go to.
//! Sets of names, in which one is looked up without going over all.
#![tactic(auto)]

mod constants;
mod copies;
mod file_names;
mod lists;
mod logins;
mod memory_streams;
mod output_buffers;
mod pieces;
mod sets;
mod short_bytes;
mod standard_streams;
mod streams;
mod texts;

pub use constants::{BLANK, FILE_LIMIT, LF, SOH};
pub use copies::copy_front;
pub use file_names::Name;
pub use lists::{Bytes, ListOf, Names, Text, Words};
pub use logins::Login;
pub use memory_streams::{MemorySink, MemorySource, NullSink, SteadySource};
pub use output_buffers::OutputBuffer;
pub use pieces::{give_parts, take_all};
pub use sets::{NameSet, has_name, insert_name, set_of};
pub use standard_streams::{ReaderSource, StdErrSink, StdSink, StdSource, WriterSink};
pub use streams::{Failed, MakeFault, Memory, Sink, Source, TakeFault, one_more};
pub use texts::Line;
