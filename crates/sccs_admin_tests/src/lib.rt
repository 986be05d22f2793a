//! Tests of new files and imports, and of each change of a stored file but delta stopped behind each of its calls.
#![tactic(auto)]

#[cfg(test)]
mod tests;
