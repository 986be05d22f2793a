ghost use Rattle.std.specs.Prelude.{[], Some};

use sccs_base::{Failed, Source};

/// An input without a byte.
#[derive(Clone, Copy)]
pub struct NoInput;

impl Source for NoInput {
    ghost left = { λ _. Some [] };

    ghost faults = { λ _. 0 };

    fn take(&mut self, _into: &mut [u8]) -> Result<usize, Failed> {
        Ok(0)
    }
}
