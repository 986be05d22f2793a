ghost use Rattle.std.specs.Prelude.{◌≡◌};
ghost use Rattle.sccs_base.specs.Causes.{GivesText};
ghost use Rattle.sccs_top.specs.Messages.{usage_text, usage_line};

use itoa::Buffer;
use sccs_base::{Failed, Sink, give_parts};
use sccs_words::Usage;

// what is wrong, by the number of its kind
#[tactic(auto, unfolding(crate::specs::Messages::usage_text))]
fn usage_text(kind: u8) -> &'static [u8]
    ensures { result.now ≡ usage_text kind }
{
    match kind {
        1 => b"unknown utility",
        2 => b"unknown option",
        3 => b"missing argument",
        4 => b"option given twice",
        5 => b"options exclude each other",
        6 => b"malformed value",
        7 => b"no operand",
        8 => b"option needed",
        _ => b"too many operands",
    }
}

// writes the line of a usage fault
pub fn write_usage<S: Sink>(usage: &Usage, out: &mut S) -> Result<(), Failed>
    ensures { GivesText (usage_line usage.now) (S.given out.old) (S.given out.new) (S.faults out.old)
        (S.faults out.new) result }
{
    let mut buffer = Buffer::new();
    let word = buffer.format(usage.word).as_bytes();
    let text = usage_text(usage.kind);
    give_parts(out, &[b"USAGE: ", text, b" (word ", word, b")\n"])
}
