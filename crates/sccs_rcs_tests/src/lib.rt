//! Tests of RCS files: what is read of them, and what their scripts make.
#![tactic(auto)]

#[cfg(test)]
mod tests;
