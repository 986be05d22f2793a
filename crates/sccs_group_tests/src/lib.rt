//! Tests of groups: stopped anywhere in a commit, and finished.
//! Tests of a group's step, and nothing else.
//! Tests of the intent of a group: what is read of it, and what is written.
#![tactic(auto)]

#[cfg(test)]
mod tests;
