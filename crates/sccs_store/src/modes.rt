/// Whether a g-file may be written.
#[derive(Clone, Copy, Debug, PartialEq, Eq)]
pub enum Mode {
    /// It may, as with get -k or -e.
    Writable,
    /// It may not.
    Protected,
}
