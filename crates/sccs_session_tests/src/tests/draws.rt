/// Numbers that are the same everywhere: the generator that POSIX shows for rand.
#[derive(Drop)]
pub struct Draws {
    state: u64,
}

impl Draws {
    pub fn new(seed: u64) -> Draws {
        Draws { state: seed }
    }

    /// A number below the bound; 0 where that is 0.
    pub fn below(&mut self, bound: u64) -> u64 {
        let next = self.state.wrapping_mul(1_103_515_245).wrapping_add(12_345);
        self.state = next % 2_147_483_648;
        (self.state / 65_536).checked_rem(bound).unwrap_or(0)
    }
}
