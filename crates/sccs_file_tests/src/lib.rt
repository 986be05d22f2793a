//! Tests of what works on files and disks.
#![tactic(auto)]

#[cfg(test)]
mod tests;
