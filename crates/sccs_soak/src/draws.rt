ghost use Rattle.std.specs.Prelude.{◌≡◌, ◌<◌};
ghost use Rattle.sccs_soak.specs.Draws.{draw_of, next_state};

/// The draws of a soak, from its number on.
#[derive(Drop, Clone, Copy, Debug, PartialEq, Eq)]
pub struct Draws {
    pub state: u64,
}

impl Draws {
    /// The next draw.
    pub fn draw(&mut self) -> u64
        requires { self.old.state < 2147483648 }
        ensures state { self.new.state ≡ next_state self.old.state }
        ensures within { self.new.state < 2147483648 }
        ensures value { result ≡ draw_of self.new.state }
    {
        self.state = (self.state * 1_103_515_245 + 12_345) % 2_147_483_648;
        self.state / 65_536
    }
}
