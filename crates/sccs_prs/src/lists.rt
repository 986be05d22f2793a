ghost use Rattle.std.specs.Prelude.{◌≡◌, ◌++◌, ◌∷◌, [], decimal, flat_map};
ghost use Rattle.sccs_base.specs.Causes.{GivesText};
ghost use Rattle.sccs_prs.specs.Values.{printed_flag, lists_text, serials_text};
ghost use Rattle.sccs_tokens.specs.Written.{bytes_of, ended};

use itoa::Buffer;
use sccs_base::{Failed, Sink, Text, give_parts};
use sccs_history::{Flag, Record, Serials};

/// Gives lines, each with LF behind it.
pub fn give_lines<S: Sink>(lines: &Text, out: &mut S) -> Result<(), Failed>
    ensures { GivesText (bytes_of lines.now) (S.given out.old) (S.given out.new) (S.faults out.old)
        (S.faults out.new) result }
{
    for line in lines.items() {
        if let Err(fault) = give_parts(out, &[line.bytes(), b"\n"]) {
            return Err(fault);
        }
    }
    Ok(())
}

// gives a flag: its letter, and behind a blank its text where it has one, and LF
fn give_flag<S: Sink>(flag: &Flag, out: &mut S) -> Result<(), Failed>
    ensures { GivesText (ended (printed_flag flag.now)) (S.given out.old) (S.given out.new) (S.faults out.old)
        (S.faults out.new) result }
{
    let text = flag.text.bytes();
    if text.is_empty() {
        return give_parts(out, &[&[flag.letter], b"\n"]);
    }
    give_parts(out, &[&[flag.letter], b" ", text, b"\n"])
}

/// Gives flags, each on a line.
pub fn give_flags<S: Sink>(flags: &[Flag], out: &mut S) -> Result<(), Failed>
    ensures { GivesText (flat_map (λ f. ended (printed_flag f)) flags.now) (S.given out.old) (S.given out.new)
        (S.faults out.old) (S.faults out.new) result }
{
    for flag in flags {
        if let Err(fault) = give_flag(flag, out) {
            return Err(fault);
        }
    }
    Ok(())
}

// gives a serial behind a blank
fn give_behind_blank<S: Sink>(serial: u16, out: &mut S) -> Result<(), Failed>
    ensures { GivesText (32 ∷ decimal serial) (S.given out.old) (S.given out.new) (S.faults out.old)
        (S.faults out.new) result }
{
    let mut buffer = Buffer::new();
    let digits = buffer.format(serial).as_bytes();
    give_parts(out, &[b" ", digits])
}

// gives serials, each behind a blank
fn give_more<S: Sink>(serials: &[u16], out: &mut S) -> Result<(), Failed>
    ensures { GivesText (flat_map (λ n. 32 ∷ decimal n) serials.now) (S.given out.old) (S.given out.new)
        (S.faults out.old) (S.faults out.new) result }
{
    for serial in serials {
        if let Err(fault) = give_behind_blank(*serial, out) {
            return Err(fault);
        }
    }
    Ok(())
}

// gives serials with a blank between two, the first of which is this one
fn give_joined<S: Sink>(first: u16, rest: &[u16], out: &mut S) -> Result<(), Failed>
    ensures { GivesText (serials_text (first ∷ rest.now)) (S.given out.old) (S.given out.new) (S.faults out.old)
        (S.faults out.new) result }
{
    if let Err(fault) = out.give(Buffer::new().format(first).as_bytes()) {
        return Err(fault);
    }
    give_more(rest, out)
}

/// Gives serials with a blank between two.
pub fn give_serials<S: Sink>(serials: &Serials, out: &mut S) -> Result<(), Failed>
    ensures { GivesText (serials_text serials.now) (S.given out.old) (S.given out.new) (S.faults out.old)
        (S.faults out.new) result }
{
    match serials.items() {
        [first, rest @ ..] => give_joined(*first, rest, out),
        [] => out.give(b""),
    }
}

// gives serials and a slash
fn give_slashed<S: Sink>(serials: &Serials, out: &mut S) -> Result<(), Failed>
    ensures { GivesText (serials_text serials.now ++ 47 ∷ []) (S.given out.old) (S.given out.new) (S.faults out.old)
        (S.faults out.new) result }
{
    if let Err(fault) = give_serials(serials, out) {
        return Err(fault);
    }
    out.give(b"/")
}

/// Gives the lists of a delta, with a slash between two.
pub fn give_lists<S: Sink>(delta: &Record, out: &mut S) -> Result<(), Failed>
    ensures { GivesText (lists_text delta.now) (S.given out.old) (S.given out.new) (S.faults out.old)
        (S.faults out.new) result }
{
    if let Err(fault) = give_slashed(&delta.include, out) {
        return Err(fault);
    }
    if let Err(fault) = give_slashed(&delta.exclude, out) {
        return Err(fault);
    }
    give_serials(&delta.ignore, out)
}
