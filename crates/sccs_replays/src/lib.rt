//! Laws on runs that follow one another: each version is what the scripts made of it.
#![tactic(auto)]

pub mod laws;
