use sccs_base::{ListOf, Text};

/// What an order does: lines are put after a line, replaced, or taken away.
#[derive(Clone, Copy, Debug, PartialEq, Eq)]
pub enum OrderKind {
    Append,
    Change,
    Delete,
}

/// One command of an edit script: POSIX ed, "Append", "Change", "Delete". Where one line is named,
/// `first` and `last` are equal.
#[derive(Drop)]
pub struct Order {
    pub kind: OrderKind,
    /// The number of the command's line in the script, from 1.
    pub line: u64,
    pub first: u32,
    pub last: u32,
    /// The text that follows the command.
    pub lines: Text,
}

/// Numbers of lines.
pub type Numbers = ListOf<u64>;

/// New lines that stand directly after a base line, or before all where `after` is 0.
#[derive(Drop)]
pub struct Added {
    pub after: u64,
    pub lines: Text,
}

/// New lines, by the base line that they follow.
pub type AddedList = ListOf<Added>;

/// What a script does to a base, whose lines count from 1: the numbers of the lines that it deletes,
/// rising, and the new lines, at most one list after each base line, by rising numbers.
#[derive(Drop)]
pub struct Plan {
    pub deleted: Numbers,
    pub added: AddedList,
}
