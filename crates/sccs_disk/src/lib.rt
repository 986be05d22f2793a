//! A folder of files: the trait, and disks in memory.
#![tactic(auto)]

mod changes;
mod directories;
mod disks;
mod fickle_disk;
mod fills;
mod memory_disk;
mod name_table;
mod replays;
mod steady_disk;

pub use disks::{Creation, Disk, DiskRefusal};
pub use fickle_disk::FickleDisk;
pub use fills::Fill;
pub use memory_disk::MemoryDisk;
pub use steady_disk::SteadyDisk;
