use sccs_base::{Line, Name};
use sccs_sid::{Moment, Sid};

/// What keywords stand for in a version of a file: POSIX get, "Identification Keywords".
#[derive(Drop)]
pub struct Facts {
    /// The text of the flag m, or the name of the s-file without `s.`.
    pub module: Line,
    pub sid: Sid,
    /// When the version is got.
    pub moment: Moment,
    /// When the newest applied delta was made.
    pub newest: Moment,
    /// The text of the flag t.
    pub kind: Line,
    /// The text of the flag q.
    pub user: Line,
    /// The name of the s-file.
    pub file: Name,
    /// The folder in which the s-file lies.
    pub place: Line,
}
