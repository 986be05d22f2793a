//! The items of a new delta, put among those of a body: a pass over the body with the plan of a
//! script.
#![tactic(auto)]

mod laws;
mod parts;
mod plan_places;
mod splicers;

pub use laws::spliced_bodies;
pub use plan_places::PlanPlace;
pub use splicers::Splicer;
