//! Reading from left to right: a field and the bytes after it, or how many bytes were left where
//! nothing goes on.
ghost use Rattle.std.specs.Prelude.{◌≡◌, ◌+◌, ◌*◌, ◌^◌, ◌<◌, ◌≤◌, length, option_map, IfOk, IfErr, IfSome};
ghost use Rattle.sccs_sid.specs.Reading.{GivesRead, digits_after, number_at, byte_at, number, until, behind};
ghost use Rattle.sccs_sid.specs.Reading.{is_no_digit, from_digit};

// up to `most` more digits after those of a number, and the bytes after them
fn digits_after(most: u32, high: u64, bytes: &[u8]) -> (u64, &[u8])
    requires { (high + 1) * 10 ^ most ≤ 10 ^ 19 }
    ensures value { digits_after most high bytes.now ≡ (result.0, result.1.now) }
    ensures small { result.0 + 1 ≤ (high + 1) * 10 ^ most }
    ensures shorter { length result.1.now ≤ length bytes.now }
{
    let (mut number, mut rest, mut left) = (high, bytes, most);
    'digits: while left > 0 {
        let Some(digit) = rest.first() else {
            return (number, rest);
        };
        if !digit.is_ascii_digit() {
            return (number, rest);
        }
        number = number * 10 + u64::from(*digit - b'0');
        rest = &rest[1..];
        left -= 1;
    }
    (number, rest)
}

/// A number of one to `most` digits.
pub fn wide_number_at(most: u32, bytes: &[u8]) -> Result<(u64, &[u8]), usize>
    requires low { 0 < most }
    requires high { most ≤ 19 }
    ensures value { GivesRead (λ x. (x.0, x.1.now)) result (number_at most bytes.now) }
    ensures small { IfOk result (λ x. x.0 < 10 ^ most) }
    ensures shorter { IfOk result (λ x. length x.1.now < length bytes.now) }
    ensures left { IfErr result (λ left. left ≤ length bytes.now) }
{
    let Some(digit) = bytes.first() else {
        return Err(0);
    };
    if !digit.is_ascii_digit() {
        return Err(bytes.len());
    }
    Ok(digits_after(most - 1, u64::from(*digit - b'0'), &bytes[1..]))
}

/// A number of one to `most` digits.
pub fn number_at(most: u32, bytes: &[u8]) -> Result<(u32, &[u8]), usize>
    requires low { 0 < most }
    requires high { most ≤ 9 }
    ensures value { GivesRead (λ x. (x.0, x.1.now)) result (number_at most bytes.now) }
    ensures small { IfOk result (λ x. x.0 < 10 ^ most) }
    ensures shorter { IfOk result (λ x. length x.1.now < length bytes.now) }
    ensures left { IfErr result (λ left. left ≤ length bytes.now) }
{
    match wide_number_at(most, bytes) {
        Ok((number, rest)) => Ok((number as u32, rest)),
        Err(left) => Err(left),
    }
}

/// This one byte.
#[tactic(auto, unfolding(crate::specs::Reading::byte_at))]
pub fn byte_at(wanted: u8, bytes: &[u8]) -> Result<&[u8], usize>
    ensures value { GivesRead (λ x. x.now) result (byte_at wanted bytes.now) }
    ensures shorter { IfOk result (λ x. length x.now < length bytes.now) }
    ensures left { IfErr result (λ left. left ≤ length bytes.now) }
{
    match bytes {
        [first, rest @ ..] if *first == wanted => Ok(rest),
        _ => Err(bytes.len()),
    }
}

/// The number of one to `most` digits that all the bytes spell.
#[tactic(auto, unfolding(crate::specs::Reading::number))]
pub fn number(most: u32, bytes: &[u8]) -> Option<u32>
    requires low { 0 < most }
    requires high { most ≤ 9 }
    ensures value { result ≡ number most bytes.now }
    ensures small { IfSome result (λ n. n < 10 ^ most) }
{
    match number_at(most, bytes) {
        Ok((number, rest)) => { if rest.is_empty() { Some(number) } else { None } }
        Err(_) => None,
    }
}

/// The bytes up to the next separator, or to the end, and those after it, where one stands.
pub fn cut_at(separator: u8, bytes: &[u8]) -> (&[u8], Option<&[u8]>)
    ensures piece { result.0.now ≡ until separator bytes.now }
    ensures rest { option_map (λ x. x.now) result.1 ≡ behind separator bytes.now }
    ensures shorter { IfSome result.1 (λ x. length x.now < length bytes.now) }
{
    for (at, byte) in bytes.iter().enumerate() {
        if *byte == separator {
            return (&bytes[..at], Some(&bytes[at + 1..]));
        }
    }
    (bytes, None)
}

/// The bytes without what stands before the first digit.
pub fn from_digit(bytes: &[u8]) -> &[u8]
    ensures value { result.now ≡ from_digit bytes.now }
    ensures shorter { length result.now ≤ length bytes.now }
{
    for (at, byte) in bytes.iter().enumerate() {
        if byte.is_ascii_digit() {
            return &bytes[at..];
        }
    }
    &bytes[bytes.len()..]
}
