//! The written spelling of s-files, appended to a file in pieces.
#![tactic(auto)]

mod digits;
mod header_writers;
mod item_lists;
mod item_writers;
mod piece_writers;

pub use digits::five_digits;
pub use header_writers::write_header;
pub use item_writers::ItemWriter;
pub use piece_writers::PieceWriter;
