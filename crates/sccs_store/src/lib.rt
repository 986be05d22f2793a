//! The files of a name changed whole: the lock, the working files, and the commit. The z-file is made
//! and honoured; that it keeps other programs out isn't claimed.
//! The g-file of a name, made through its y-file: that is written, loses the mark writable unless it is to
//! keep it, is synced, and takes the g-file's place. POSIX get.
#![tactic(auto)]

mod commits;
mod g_files;
pub mod gfile_laws;
pub mod laws;
mod locks;
mod modes;
mod new_files;
mod pfiles;
mod working_files;
mod y_files;

pub use commits::commit;
pub use g_files::{is_writable_g, place_g, place_l};
pub use locks::{LockFault, lock};
pub use modes::Mode;
pub use new_files::{NewFile, NewG, NewP};
pub use pfiles::prepare_p;
pub use working_files::{abandon, clear_sibling, clear_working, finish_x, renew, seal, start};
pub use y_files::finish_y;
