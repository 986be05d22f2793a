//! A long session of the whole program: many commands, stopped and gone on with, whose versions are their replay; and
//runs over
//! a disk and an input that never fail.
#![tactic(auto)]

#[cfg(test)]
mod tests;
