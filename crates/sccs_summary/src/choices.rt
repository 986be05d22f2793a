use sccs_history::Serials;
use sccs_sets::Applied;
use sccs_sid::Moment;

/// What a summary is made of: the set of deltas that is got, the serials that are taken in and left out, and the
/// last moment that counts.
#[derive(Clone, Copy)]
pub struct Choices<'a> {
    pub set: &'a Applied,
    pub include: &'a Serials,
    pub exclude: &'a Serials,
    pub cutoff: Option<Moment>,
}
