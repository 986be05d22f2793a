//! Laws on the grammar of s-files: what the lines of a header are, part by part, and what can follow lines that
//! were read without a fault.
#![tactic(auto)]

pub mod laws;
