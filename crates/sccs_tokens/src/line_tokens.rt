use crate::boxed_records::BoxedRecord;
use sccs_base::Line;
use sccs_history::{Flag, Serials};

/// ListKind of the lists of an entry.
#[derive(Clone, Copy, Debug, PartialEq, Eq)]
pub enum ListKind {
    Included,
    Excluded,
    Ignored,
}

/// What one line of an s-file says, by itself.
#[derive(Drop)]
pub enum LineToken {
    /// Lines inserted, deleted and unchanged.
    Counts(u32, u32, u32),
    /// A record without lists, MRs, comments and counts.
    Delta(BoxedRecord),
    Listed(ListKind, Serials),
    Mr(Line),
    Comment(Line),
    EndEntry,
    Users,
    EndUsers,
    FlagIs(Flag),
    Description,
    EndDescription,
    Insert(u16),
    Delete(u16),
    End(u16),
    /// A line that doesn't begin with SOH.
    Plain(Line),
}
