/// What was found of the lines of a text that was given.
#[derive(Clone, Copy, Debug, PartialEq, Eq)]
pub struct Shown {
    /// How many there are.
    pub lines: u64,
    /// Whether a keyword of one was replaced.
    pub keywords: bool,
}
