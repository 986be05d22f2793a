ghost use Rattle.std.specs.Prelude.{◌≡◌, ◌≤◌, length, option_map, IfSome};
ghost use Rattle.sccs_script.specs.Commands.{at_line, at_lines, after_first_number, script_command, HasNumbers};
ghost use Rattle.sccs_script.specs.Commands.{is_append, is_end_of_text, command_letter, line_number_at, to_last};

use sccs_script_laws::OrderKind;
use sccs_sid::reading::wide_number_at;

/// What a command line says.
#[derive(Clone, Copy)]
pub struct Command {
    pub kind: OrderKind,
    pub first: u32,
    pub last: u32,
}

// the most digits of a number
const DIGITS: u32 = 10;

// a number of a line
#[tactic(auto, unfolding(crate::specs::Commands::line_number_at))]
fn line_number_at(bytes: &[u8]) -> Option<(u32, &[u8])>
    ensures { option_map (λ x. (x.0, x.1.now)) result ≡ line_number_at bytes.now }
{
    match wide_number_at(DIGITS, bytes) {
        Ok((number, rest)) => {
            if number <= u64::from(u32::MAX) {
                Some((number as u32, rest))
            } else {
                None
            }
        }
        Err(_) => None,
    }
}

// the letter that all the bytes are
fn letter_of(bytes: &[u8]) -> Option<OrderKind>
    ensures { result ≡ command_letter bytes.now }
{
    match bytes {
        [letter] => {
            if *letter == b'a' {
                Some(OrderKind::Append)
            } else if *letter == b'c' {
                Some(OrderKind::Change)
            } else if *letter == b'd' {
                Some(OrderKind::Delete)
            } else {
                None
            }
        }
        _ => None,
    }
}

// whether new lines alone are put into the text
fn is_append(kind: OrderKind) -> bool
    ensures { result ≡ is_append kind }
{
    match kind {
        OrderKind::Append => true,
        OrderKind::Change => false,
        OrderKind::Delete => false,
    }
}

// a command that names one line
fn at_line(first: u32, kind: OrderKind) -> Option<Command>
    ensures value { result ≡ at_line first kind }
    ensures numbers { IfSome result (λ c. HasNumbers c.kind c.first c.last) }
{
    if is_append(kind) || 0 < first {
        Some(Command {
            kind,
            first,
            last: first,
        })
    } else {
        None
    }
}

// a command that names a first and a last line
fn at_lines(first: u32, last: u32, kind: OrderKind) -> Option<Command>
    ensures value { result ≡ at_lines first last kind }
    ensures numbers { IfSome result (λ c. HasNumbers c.kind c.first c.last) }
{
    if !is_append(kind) && (0 < first && first <= last) {
        Some(Command { kind, first, last })
    } else {
        None
    }
}

// the last line and the letter
#[tactic(auto, unfolding(crate::specs::Commands::to_last))]
fn to_last(first: u32, bytes: &[u8]) -> Option<Command>
    ensures value { result ≡ to_last first bytes.now }
    ensures numbers { IfSome result (λ c. HasNumbers c.kind c.first c.last) }
{
    let (last, rest) = line_number_at(bytes)?;
    let kind = letter_of(rest)?;
    at_lines(first, last, kind)
}

// what stands behind the first number
#[tactic(auto, unfolding(crate::specs::Commands::after_first_number))]
fn behind_first(first: u32, bytes: &[u8]) -> Option<Command>
    ensures value { result ≡ after_first_number first bytes.now }
    ensures numbers { IfSome result (λ c. HasNumbers c.kind c.first c.last) }
{
    if let [b',', rest @ ..] = bytes {
        return to_last(first, rest);
    }
    let kind = letter_of(bytes)?;
    at_line(first, kind)
}

/// What a command line says: `Na`, `Nc`, `N,Mc`, `Nd` or `N,Md`.
#[tactic(auto, unfolding(crate::specs::Commands::script_command))]
pub fn command_of(line: &[u8]) -> Option<Command>
    ensures value { result ≡ script_command line.now }
    ensures numbers { IfSome result (λ c. HasNumbers c.kind c.first c.last) }
{
    let (first, rest) = line_number_at(line)?;
    behind_first(first, rest)
}

/// Whether the line is the single dot that ends a text.
pub fn is_dot(line: &[u8]) -> bool
    ensures { result ≡ is_end_of_text line.now }
{
    match line {
        [byte] => *byte == b'.',
        _ => false,
    }
}
