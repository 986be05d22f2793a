//! A step that changes the files of a name: lock, prepare, then commit or abandon. It is made here once
//! for every utility that writes.
//! An s-file with its pending edits: read and checked as get -e, delta and unget do, and the new p-file
//! prepared.
#![tactic(auto)]

mod changes;
mod choosing;
mod g_files;
mod new_pfiles;
mod pending;
mod pending_reports;
mod pfiles;
mod prepared;
mod reports;
mod transactions;
mod utilities;

pub use changes::Change;
pub use choosing::chosen;
pub use g_files::remove_g;
pub use new_pfiles::prepare_entries;
pub use pending::{Pending, read_pending};
pub use pending_reports::{add_warning, heading, warning};
pub use pfiles::read_pfile;
pub use prepared::Prepared;
pub use reports::report;
pub use transactions::change_file;
pub use utilities::Locking;
