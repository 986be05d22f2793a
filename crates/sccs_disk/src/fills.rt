/// What takes the place of the bytes of a file that a stop doesn't leave as it is: no bytes, those
/// that were written, or as many of one kind.
#[derive(Clone, Copy, Debug, PartialEq, Eq)]
pub enum Fill {
    Empty,
    Written,
    Junk(u8),
}
