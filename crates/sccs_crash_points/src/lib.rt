//! What recovery makes of a folder, disks on which a stop loses nothing, and the crash points of a call with
//! what a stop may leave of each: definitions and laws.
#![tactic(auto)]

pub mod laws;
