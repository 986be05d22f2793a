use sccs_base::{ListOf, Name};
use sccs_changes::Prepared;
use sccs_sid::StepFault;

/// An entry of a group whose new files are prepared.
#[derive(Drop)]
pub struct PreparedEntry {
    pub name: Name,
    pub prepared: Prepared,
}

/// The entries that are prepared, in their order.
pub type PreparedEntries = ListOf<PreparedEntry>;

/// Why a group isn't made, and the name at which it ended: that of an entry, or `-` for the group itself.
#[derive(Clone, Copy)]
pub struct NamedFault {
    pub name: Name,
    pub fault: StepFault,
}
