//! Tests of prs.
#![tactic(auto)]

#[cfg(test)]
mod tests;
