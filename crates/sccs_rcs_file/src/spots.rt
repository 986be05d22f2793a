/// Where the first item of a name stands, and whether another one follows.
#[derive(Clone, Copy)]
pub struct Spot {
    pub at: usize,
    pub again: bool,
}
