//! What a line of an s-file says, sccsfile(4): its token, and the item that a line of a body is.
#![tactic(auto)]

mod body_lines;
mod boxed_records;
mod fields;
mod line_tokens;
mod tokenizing;

pub use body_lines::{read_item, written_item};
pub use boxed_records::BoxedRecord;
pub use line_tokens::{LineToken, ListKind};
pub use tokenizing::tokenize_line;
