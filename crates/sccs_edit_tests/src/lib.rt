//! Tests of edits that are pending: reserved, shown, dropped and recovered, and of the front end's words for them.
#![tactic(auto)]

#[cfg(test)]
mod tests;
