ghost use Rattle.std.specs.Prelude.{◌≡◌, ℕ, length, ◌+◌, ◌%◌, List, [], ◌++◌, sum, sum_by};
ghost use Rattle.sccs_tokens.specs.Sums.{signed_weight};
ghost use Rattle.sccs_table.specs.SumOf.{IsPlainSumOf, IsSumOf};

use std::marker::Model;

/// The plain and the signed sum of the bytes that were added, modulo 65,536. In the plain sum a byte
/// counts 0 to 255, in the signed one -128 to 127. Contracts see the two numbers.
#[derive(Clone, Copy, Debug, PartialEq, Eq)]
pub struct Sum {
    plain: u16,
    signed: u16,
}

impl Model for Sum {
    ghost use Rattle.std.specs.Prelude.{ℕ};

    ghost Value = { ℕ × ℕ };

    ghost view = { λ s. (s.plain, s.signed) };

    ghost inverse = { λ p. record { plain = p.0; signed = p.1 } };
}

// what a byte counts in the signed sum; without a branch, so that many bytes are added at once
fn signed_weight(byte: u8) -> u16
    ensures { result ≡ signed_weight byte }
{
    u16::from(byte.wrapping_add(128)).wrapping_sub(128)
}

// both sums after more bytes
fn sums_after(plain: u16, signed: u16, bytes: &[u8]) -> (u16, u16)
    ensures plain { result.0 ≡ (plain + sum bytes.now) % 65536 }
    ensures signed { result.1 ≡ (signed + sum_by signed_weight bytes.now) % 65536 }
{
    let mut plain = plain;
    let mut signed = signed;
    for byte in bytes {
        plain = plain.wrapping_add(u16::from(*byte));
        signed = signed.wrapping_add(signed_weight(*byte));
    }
    (plain, signed)
}

impl Sum {
    /// The sums of no bytes.
    pub fn new() -> Sum
        ensures { IsSumOf result [] }
    {
        Sum {
            plain: 0,
            signed: 0,
        }
    }

    /// Adds bytes.
    pub fn add(&mut self, bytes: &[u8])
        ensures { (front : List ℕ) → IsSumOf self.old front → IsSumOf self.new (front ++ bytes.now) }
    {
        let (plain, signed) = sums_after(self.plain, self.signed, bytes);
        self.plain = plain;
        self.signed = signed;
    }

    pub fn plain(&self) -> u16
        ensures { result ≡ self.now.0 }
    {
        self.plain
    }

    pub fn signed(&self) -> u16
        ensures { result ≡ self.now.1 }
    {
        self.signed
    }
}

/// The plain sum alone, which takes half the time of both. Contracts see its number.
#[derive(Clone, Copy, Debug, PartialEq, Eq)]
pub struct PlainSum {
    value: u16,
}

impl Model for PlainSum {
    ghost use Rattle.std.specs.Prelude.{ℕ};

    ghost Value = { ℕ };

    ghost view = { λ s. s.value };

    ghost inverse = { λ n. record { value = n } };
}

// the plain sum of bytes
fn plain_of(bytes: &[u8]) -> u16
    ensures { result ≡ sum bytes.now % 65536 }
{
    let mut plain: u16 = 0;
    for byte in bytes {
        plain = plain.wrapping_add(u16::from(*byte));
    }
    plain
}

impl PlainSum {
    /// The sum of no bytes.
    pub fn new() -> PlainSum
        ensures { IsPlainSumOf result [] }
    {
        PlainSum { value: 0 }
    }

    /// Adds the bytes that stand behind others, from the plain sum of both.
    pub fn add_behind(&mut self, total: u16, front: &[u8])
        ensures { (before bytes : List ℕ) → total ≡ (sum front.now + sum bytes) % 65536 → IsPlainSumOf self.old before
            → IsPlainSumOf self.new (before ++ bytes) }
    {
        let behind = total.wrapping_sub(plain_of(front));
        self.value = self.value.wrapping_add(behind);
    }

    /// The sum.
    pub fn value(&self) -> u16
        ensures { result ≡ self.now }
    {
        self.value
    }
}
