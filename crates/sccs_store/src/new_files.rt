/// What a commit makes of a file.
#[derive(Clone, Copy, Debug, PartialEq, Eq)]
pub enum NewFile {
    /// It stays as it is.
    Keep,
    /// The prepared file takes its place.
    Replace,
    /// It is removed.
    Remove,
}

/// What becomes of a p-file.
pub type NewP = NewFile;

/// What becomes of a g-file.
pub type NewG = NewFile;
