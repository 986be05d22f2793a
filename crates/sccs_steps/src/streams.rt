use sccs_base::{Sink, Source};
use sccs_disk::Disk;

/// What steps read and write: the input, two sinks, and the disk with the files. Each is lent for as long
/// as its owner likes.
#[derive(Drop)]
pub struct Streams<'i, 'o, 'e, 'd, I: Source, O: Sink, E: Sink, D: Disk> {
    pub input: &'i mut I,
    pub out: &'o mut O,
    pub err: &'e mut E,
    pub disk: &'d mut D,
}
