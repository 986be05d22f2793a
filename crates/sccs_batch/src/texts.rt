use sccs_base::Line;

/// How many lines of words, and then of input, follow the first line of an entry.
#[derive(Clone, Copy)]
pub struct Counts {
    pub words: u32,
    pub lines: u32,
}

/// The lines of an entry behind its first one: its words, and its input.
#[derive(Clone, Copy)]
pub struct OwnLines<'a> {
    pub words: &'a [Line],
    pub input: &'a [Line],
}
