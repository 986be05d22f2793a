//! Lists of steps: the steps of several actions, one after another, and what a call says that follows them.
#![tactic(auto)]

pub mod laws;
