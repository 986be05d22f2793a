//! The current folder as a disk.
#![tactic(auto)]

mod folder_disk;
mod folder_order;
mod folder_places;
mod folder_reading;
mod folder_turns;
mod folder_writing;
mod folders;

pub use folder_disk::FolderDisk;
pub use folder_turns::{Attempt, Turn};
