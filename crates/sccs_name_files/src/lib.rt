//! The s-file, p-file, z-file, g-file and working files of one name, and views that differ in them; and a
//! file read whole.
//! What each call of a disk does to what a stop may leave, and calls that touch some files alone.
#![tactic(auto)]

pub mod laws;
mod whole_files;

pub use whole_files::{WholeFault, read_whole};
