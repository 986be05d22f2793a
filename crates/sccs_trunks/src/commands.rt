ghost use Rattle.std.specs.Prelude.{◌≡◌, ◌<◌, ◌^◌, IfSome};
ghost use Rattle.sccs_trunks.specs.Changes.{IsShort, command_of, numbers_of};

use crate::revisions::ScriptCommand;
use sccs_base::BLANK;
use sccs_sid::reading::{byte_at, wide_number_at};

// two numbers of one to ten digits with a blank between them
#[tactic(auto, unfolding(crate::specs::Changes::numbers_of))]
fn numbers_of(bytes: &[u8]) -> Option<(u64, u64)>
    ensures value { result ≡ numbers_of bytes.now }
    ensures first { IfSome result (λ n. n.0 < 10 ^ 10) }
    ensures second { IfSome result (λ n. n.1 < 10 ^ 10) }
{
    let Ok((line, rest)) = wide_number_at(10, bytes) else {
        return None;
    };
    let Ok(rest) = byte_at(BLANK, rest) else {
        return None;
    };
    let Ok((count, rest)) = wide_number_at(10, rest) else {
        return None;
    };
    if rest.is_empty() {
        Some((line, count))
    } else {
        None
    }
}

/// The command that a line of a script is.
#[tactic(auto, unfolding(crate::specs::Changes::command_of))]
pub fn command_of(line: &[u8]) -> Option<ScriptCommand>
    ensures value { result ≡ command_of line.now }
    ensures short { IfSome result IsShort }
{
    let (verb, rest) = line.split_first()?;
    let (line, count) = numbers_of(rest)?;
    match *verb {
        b'd' => Some(ScriptCommand::Delete { line, count }),
        b'a' => Some(ScriptCommand::Add { line, count }),
        _ => None,
    }
}
