//! Tests of words, scripts and texts.
#![tactic(auto)]

#[cfg(test)]
mod tests;
