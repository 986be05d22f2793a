//! Tests of what reads histories.
#![tactic(auto)]

#[cfg(test)]
mod tests;
