//! Tests of delta.
//! Tests of batches.
#![tactic(auto)]

#[cfg(test)]
mod tests;
