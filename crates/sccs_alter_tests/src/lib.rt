//! Tests of what changes stored files without a new text: admin on a file that is there, rmdel and cdc.
#![tactic(auto)]

#[cfg(test)]
mod tests;
