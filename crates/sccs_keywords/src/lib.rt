//! Identification keywords in the lines of a text.
//! What keywords stand for in a version of a file. POSIX, Shell and Utilities, get, "Identification Keywords".
//! The lines of a version as get gives them: module name, SID, and the line with its keywords replaced.
#![tactic(auto)]

mod expansion;
mod facts;
mod finders;
mod flag_texts;
mod forms;
mod held_lines;
mod keywords;
mod laws;
mod text_laws;
mod values;
mod version_facts;

pub use expansion::expand;
pub use facts::Facts;
pub use finders::SidFinder;
pub use flag_texts::{kind, module_name, user};
pub use forms::{LineForm, give_line, give_lines};
pub use held_lines::HeldLine;
pub use keywords::{Keyword, has_keyword};
pub use laws::lines_without_keywords;
pub use text_laws::{lines_as_they_are, texts_put_together, texts_without_keywords};
pub use version_facts::facts_of;
