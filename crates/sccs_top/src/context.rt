//! Who makes a run, when and where.
ghost use Rattle.sccs_sid.specs.Moment.{IsMoment};

use sccs_base::Line;
use sccs_sid::Stamp;

/// Who makes a run, when and where, and whether what its operands print is dropped.
#[derive(Drop)]
pub struct Context<'a> {
    pub stamp: &'a Stamp,
    /// The folder's path.
    pub place: &'a Line,
    pub quiet: bool,
    ghost valid: { IsMoment stamp.now.moment },
}
