//! The text of a version, in any form, given to a sink or written into the y-file of a name.
#![tactic(auto)]

mod givings;
mod keyword_search;
mod printing;
mod shown;
mod targets;
mod y_texts;

pub use keyword_search::has_keywords;
pub use printing::print_text;
pub use shown::Shown;
pub use y_texts::make_y;
