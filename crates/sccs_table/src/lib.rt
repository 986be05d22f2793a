//! The header of an s-file: its lines read from a disk in pieces, and the sums of its bytes.
#![tactic(auto)]

mod counts;
mod fronts;
mod line_readers;
mod piece_counts;
mod piece_marks;
mod sums;

pub use fronts::{
    Front, check_front, check_sum, is_encoded, open_file, read_header, read_lines, read_sum,
};
pub use line_readers::{LineReader, READ_LIMIT};
pub use piece_marks::LineEnds;
pub use sccs_grammar::FileFault;
pub use sccs_history::{Flag, Flags, Header, Record, Records, Serials};
pub use sums::{PlainSum, Sum};
