//! Tests of groups in the whole program: what they answer, and where they are stopped.
#![tactic(auto)]

#[cfg(test)]
mod tests;
