use sccs_base::ListOf;
use sccs_intents::IntentEntry;

/// A member of a group: the name of its s-file with what becomes of the p-file, and whether the g-file
/// goes.
#[derive(Clone, Copy)]
pub struct Member {
    pub entry: IntentEntry,
    pub removes_g: bool,
}

/// The members of a group, in their order.
pub type Members = ListOf<Member>;
