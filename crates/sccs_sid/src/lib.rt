//! SIDs, moments and refusals: how they are read and written.
#![tactic(auto)]

mod cutoffs;
mod dates;
mod details;
mod laws;
mod moments;
pub mod reading;
mod refusals;
mod sid_lists;
mod sids;
pub mod words;

pub use cutoffs::Cutoff;
pub use details::DETAIL_ROOM;
pub use laws::{
    cutoff_by_pieces, list_fault_stays, list_fault_within, list_prefix_is_viable, list_round_trip,
    spec_round_trip,
};
pub use moments::{Moment, MomentFault, Stamp, civil_exists, moment_again};
pub use refusals::{Refusal, StepFault, write_refusal};
pub use sid_lists::{ListFault, Range, SidList};
pub use sids::{Sid, SidFault, Spec, sid_again};
