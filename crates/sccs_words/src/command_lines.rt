ghost use Rattle.std.specs.Prelude.{◌≡◌, ◌+◌, ◌^◌, ◌<◌, length};

use crate::scanning::Use;
use sccs_base::Bytes;

/// A command line after the utility's word: the uses of options, the number of the first operand's
/// word, and the operands.
#[derive(Clone, Copy)]
pub struct CommandLine<'a> {
    pub uses: &'a [Use],
    pub first: u64,
    pub operands: &'a [Bytes],
    ghost bounded: { first + length operands.now < 2 ^ 64 },
}

impl CommandLine<'_> {
    /// The number of words plus one.
    pub fn end(&self) -> u64
        ensures { result ≡ self.now.first + length self.now.operands.now }
    {
        self.first + self.operands.len() as u64
    }
}
