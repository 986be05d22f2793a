//! Tests of gets, of what only reads, and of soak, by the whole program.
#![tactic(auto)]

#[cfg(test)]
mod tests;
