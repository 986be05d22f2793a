ghost use Rattle.std.specs.Prelude.{◌≡◌, ◌<◌, ◌≤◌, ◌∷◌, length, drop};

use crate::copies::copy_front;
use std::marker::Model;

/// At most `N` bytes, in an array. Contracts see them as a list.
#[derive(Clone, Copy)]
pub struct ShortBytes<const N: usize> {
    bytes: [u8; N],
    len: usize,
}

impl<const N: usize> Model for ShortBytes<N> {
    ghost use Rattle.std.specs.Prelude.{List, ℕ, take};

    ghost Value = { List ℕ };

    ghost use Rattle.sccs_base.specs.Padded.{IsPadded};
    ghost use Rattle.sccs_base.specs.ShortBytes.{in_array, in_array_again};

    ghost view = { λ b. take b.len b.bytes };

    ghost invariant = { λ b. IsPadded N b.bytes b.len };

    ghost inverse = { in_array N };

    ghost inverse_ok = { in_array_again N };
}

impl<const N: usize> ShortBytes<N> {
    /// Keeps a copy of bytes.
    pub fn new(bytes: &[u8]) -> ShortBytes<N>
        requires { length bytes.now ≤ N }
        ensures { result ≡ bytes.now }
    {
        let mut array = [0; N];
        let len = copy_front(bytes, &mut array);
        ShortBytes { bytes: array, len }
    }

    pub fn bytes(&self) -> &[u8]
        ensures value { result.now ≡ self.now }
        ensures bound { length self.now ≤ N }
    {
        &self.bytes[..self.len]
    }

    /// The same with another first byte.
    pub fn with_first(&self, byte: u8) -> ShortBytes<N>
        requires { 0 < length self.now }
        ensures { result ≡ byte ∷ drop 1 self.now }
    {
        let mut array = self.bytes;
        array[0] = byte;
        ShortBytes {
            bytes: array,
            len: self.len,
        }
    }
}
