//! The lines of a body.
ghost use Rattle.std.specs.Prelude.{◌≡◌, ◌≢◌, ◌∷◌, ◌++◌, ◌+◌, ◌<◌, ◌≤◌, ◌&&◌, IsTrue, List, ℕ, Ok, Some, drop, length};
ghost use Rattle.std.specs.Prelude.{nat_lt, not, option_map, decimal, IfOk, IfSome};
ghost use Rattle.sccs_base.specs.Cut.{HasNoLf};
ghost use Rattle.sccs_tokens.specs.Items.{IsWrittenItem, IsWrittenSerial, item_behind, item_for, item_read};
ghost use Rattle.sccs_tokens.specs.Written.{IsSerial};
ghost use Rattle.sccs_tokens.specs.Tokens.{serial_field as place_spec};
ghost use Rattle.sccs_sid.specs.Reading.{digits_after, number_at as number_spec};
ghost use Rattle.sccs_sid.specs.SidLists.{begins};

use crate::fields::{digit, serial_field};
use sccs_base::Line;
use sccs_history::Item;
use sccs_sid::reading::number_at;

// the item that one letter begins
#[tactic(auto, unfolding(crate::specs::Tokens::control))]
fn insert_item(bytes: &[u8]) -> Option<Item>
    ensures { result ≡ item_behind 73 bytes.now }
{
    let serial = serial_field(bytes)?;
    Some(Item::Insert(serial))
}

#[tactic(auto, unfolding(crate::specs::Tokens::control))]
fn delete_item(bytes: &[u8]) -> Option<Item>
    ensures { result ≡ item_behind 68 bytes.now }
{
    let serial = serial_field(bytes)?;
    Some(Item::Delete(serial))
}

#[tactic(auto, unfolding(crate::specs::Tokens::control))]
fn end_item(bytes: &[u8]) -> Option<Item>
    ensures { result ≡ item_behind 69 bytes.now }
{
    let serial = serial_field(bytes)?;
    Some(Item::End(serial))
}

// the item that follows SOH and a letter
#[tactic(auto, using(crate::proofs::ItemLines::no_item))]
fn item_behind(letter: u8, bytes: &[u8]) -> Option<Item>
    ensures { result ≡ item_behind letter bytes.now }
{
    match letter {
        b'I' => insert_item(bytes),
        b'D' => delete_item(bytes),
        b'E' => end_item(bytes),
        _ => None,
    }
}

// the item of a line that begins with SOH
#[tactic(auto, unfolding(crate::specs::Tokens::token))]
fn control_item(bytes: &[u8]) -> Option<Item>
    ensures { result ≡ item_read (1 ∷ bytes.now) }
{
    match bytes {
        [letter, rest @ ..] => item_behind(*letter, rest),
        [] => None,
    }
}

/// The item that a line of a body is by itself; None where it is none. A text has the line's own bytes.
#[tactic(auto, unfolding(crate::specs::Tokens::token))]
pub fn read_item(line: Vec<u8>) -> Option<Item>
    requires { HasNoLf line.items }
    ensures { result ≡ item_read line.items }
{
    if let [1, rest @ ..] = line.as_slice() {
        return control_item(rest);
    }
    Some(Item::Text(Line::from_vec(line)))
}

fn begins_with(wanted: u8, bytes: &[u8]) -> bool
    ensures { result ≡ begins wanted bytes.now }
{
    match bytes {
        [first, ..] => *first == wanted,
        [] => false,
    }
}

// whether a number is a serial as it is written, with LF behind its digits
fn is_written(n: u32, bytes: &[u8], rest: &[u8]) -> bool
    ensures { result ≡ (nat_lt 0 n && (nat_lt n 65536 && (begins 10 rest.now && not (begins 48 bytes.now)))) }
{
    0 < n && (n < 65536 && (begins_with(b'\n', rest) && !begins_with(b'0', bytes)))
}

// a serial as it is written, of one to five digits, before LF, and how many bytes it has
fn any_serial(bytes: &[u8]) -> Option<(u16, usize)>
    ensures sound { IfSome result (λ x. IsWrittenSerial bytes.now x.0 x.1) }
    ensures again { (n : ℕ) (rest : List ℕ) → IsSerial n → bytes.now ≡ decimal n ++ 10 ∷ rest
        → result ≡ Some (n, length (decimal n)) }
{
    let Ok((n, rest)) = number_at(5, bytes) else {
        return None;
    };
    if is_written(n, bytes, rest) {
        Some((n as u16, bytes.len() - rest.len()))
    } else {
        None
    }
}

// whether four values are of digits, the first of them not of 0
#[inline(always)]
fn are_digits(a: u32, b: u32, c: u32, d: u32) -> bool
    ensures { IsTrue result → (0 < a) × (a < 10) × (b < 10) × (c < 10) × (d < 10) }
{
    (a > 0) & (a < 10) & (b < 10) & (c < 10) & (d < 10)
}

// what four bytes 0 count as the digits of a number
const FOUR_ZEROS: u32 = 1111 * b'0' as u32;

// the number that four digits begin, the first of them not 0; taken from the bytes as they are, for the
// tests of four digits are made at once, and each value would have to be taken out of them
#[inline(always)]
fn four_digits(a: u8, b: u8, c: u8, d: u8) -> Option<u32>
    ensures read { IfSome result (λ n. (rest : List ℕ) → number_spec 5 (a ∷ b ∷ c ∷ d ∷ rest) ≡ Ok
        (digits_after 1 n rest)) }
    ensures small { IfSome result (λ n. (0 < n) × (n < 10000)) }
    ensures plain { IfSome result (λ n. a ≢ 48) }
{
    if are_digits(digit(a), digit(b), digit(c), digit(d)) {
        let three = (u32::from(a) * 10 + u32::from(b)) * 10 + u32::from(c);
        Some(three * 10 + u32::from(d) - FOUR_ZEROS)
    } else {
        None
    }
}

// the number with the next byte, where that is a digit; the byte behind it, and how many digits were taken
#[inline(always)]
fn with_digit(four: u32, e: u8, f: u8) -> (u32, u8, usize)
    requires { four < 10000 }
    ensures read { (rest : List ℕ) → result.1 ≡ 10 → digits_after 1 four (e ∷ f ∷ rest) ≡ (
      result.0,
      10 ∷ drop result.2
          (f ∷ rest),
    ) }
    ensures count { result.2 ≤ 1 }
    ensures more { four ≤ result.0 }
{
    let last = digit(e);
    if last < 10 {
        (four * 10 + last, f, 1)
    } else {
        (four, e, 0)
    }
}

// a serial of four or five digits before LF; the digits decide no branch, since their number is hard to foresee
#[inline(always)]
fn long_serial(bytes: &[u8]) -> Option<(u16, usize)>
    ensures sound { IfSome result (λ x. IsWrittenSerial bytes.now x.0 x.1) }
    ensures again { IfSome result (λ x. (n : ℕ) (rest : List ℕ) → IsSerial n → bytes.now ≡ decimal n ++ 10 ∷ rest
        → x ≡ (n, length (decimal n))) }
{
    let [a, b, c, d, e, f, ..] = bytes else {
        return None;
    };
    let four = four_digits(*a, *b, *c, *d)?;
    let (n, end, more) = with_digit(four, *e, *f);
    if (end == b'\n') & (n < 65536) {
        Some((n as u16, 4 + more))
    } else {
        None
    }
}

// a serial as it is written, before LF, and how many bytes it has
#[inline(always)]
fn written_serial(bytes: &[u8]) -> Option<(u16, usize)>
    ensures sound { IfSome result (λ x. IsWrittenSerial bytes.now x.0 x.1) }
    ensures again { (n : ℕ) (rest : List ℕ) → IsSerial n → bytes.now ≡ decimal n ++ 10 ∷ rest
        → result ≡ Some (n, length (decimal n)) }
{
    if let Some(found) = long_serial(bytes) {
        return Some(found);
    }
    any_serial(bytes)
}

// the item of a letter with a serial
#[tactic(auto, unfolding(crate::specs::Tokens::control))]
fn item_of_letter(letter: u8, serial: u16) -> Option<Item>
    ensures value { result ≡ item_for letter serial }
    ensures other { IfSome result (λ _. letter ≢ 10) }
    ensures item { IfSome result (λ item. (word : List ℕ) → place_spec word ≡ Some serial → item_behind letter word
        ≡ Some item) }
{
    match letter {
        b'I' => Some(Item::Insert(serial)),
        b'D' => Some(Item::Delete(serial)),
        b'E' => Some(Item::End(serial)),
        _ => None,
    }
}

// the item of SOH, a letter, one blank and such a serial, and the length of its line
#[inline(always)]
fn written_behind(letter: u8, word: &[u8]) -> Option<(Item, usize)>
    ensures sound { IfSome result (λ x. IsWrittenItem (1 ∷ letter ∷ 32 ∷ word.now) x.0 x.1) }
    ensures again { (n : ℕ) (rest : List ℕ) → IsSerial n → word.now ≡ decimal n ++ 10 ∷ rest
        → result ≡ option_map (λ item. (item, length (decimal n) + 3)) (item_for letter n) }
{
    let (serial, count) = written_serial(word)?;
    let item = item_of_letter(letter, serial)?;
    Some((item, count + 3))
}

/// The control item whose line comes first, where that line is whole and spelled as it is written,
/// and the length of the line without its LF.
#[inline(always)]
pub fn written_item(bytes: &[u8]) -> Option<(Item, usize)>
    ensures sound { IfSome result (λ x. IsWrittenItem bytes.now x.0 x.1) }
    ensures again { (kind n : ℕ) (rest : List ℕ) → IsSerial n → bytes.now ≡ 1 ∷ kind ∷ 32 ∷ (decimal n ++ 10 ∷ rest)
        → result ≡ option_map (λ item. (item, length (decimal n) + 3)) (item_for kind n) }
{
    match bytes {
        [1, letter, b' ', word @ ..] => written_behind(*letter, word),
        _ => None,
    }
}
