ghost use Rattle.std.specs.Prelude.{◌≡◌, ◌≤◌, ◌∷◌, ◌++◌, [], decimal, drop, take, IfOk};
ghost use Rattle.sccs_base.specs.Causes.{GivesText};
ghost use Rattle.sccs_base.specs.Name.{IsSFileName};
ghost use Rattle.sccs_keywords.specs.VersionFacts.{flag_text};
ghost use Rattle.sccs_history.specs.History.{HasSpelling};
ghost use Rattle.sccs_keywords.specs.Expansion.{HasMoments};
ghost use Rattle.sccs_sid.specs.Moment.{IsMoment, moment_text};
ghost use Rattle.sccs_tokens.specs.Written.{kind_of};
ghost use Rattle.sccs_prs.specs.Values.{counts_text, delta_text, delta_facts, identified, item_text, yes_or_no};

use crate::keywords::DataItem;
use crate::lists::{give_flags, give_lines, give_lists, give_serials};
use itoa::Buffer;
use sccs_base::{Failed, Line, Memory, Name, Sink, give_parts};
use sccs_flags::has_flag;
use sccs_history::{Flag, Header, Record};
use sccs_keywords::{Facts, expand, kind as kind_flag, module_name, user};
use sccs_sid::{DETAIL_ROOM, Moment};
use sccs_writers::five_digits;
use std::alloc::Global;

// a line of these bytes, which hold no LF
fn line_of(alloc: Global, bytes: &[u8]) -> Result<Line, Memory>
    ensures { IfOk result (λ line. line ≡ bytes.now) }
{
    match Line::new(alloc, bytes) {
        Ok(line) => Ok(line),
        Err(_) => Err(Memory),
    }
}

/// What identification keywords stand for where a delta of the s-file of a name is shown. `place` is the path
/// of its folder.
pub fn identification_facts(
    alloc: Global,
    header: &Header,
    name: &Name,
    place: &Line,
    delta: &Record,
) -> Result<Facts, Memory>
    requires sfile { IsSFileName name.now }
    requires spelled { HasSpelling delta.now }
    ensures value { IfOk result (λ f. f ≡ delta_facts header.now name.now place.now delta.now) }
    ensures valid { IfOk result HasMoments }
{
    let flags = header.flags.items();
    let module = line_of(alloc, module_name(flags, name))?;
    let kind = line_of(alloc, kind_flag(flags))?;
    let user = line_of(alloc, user(flags))?;
    let place = line_of(alloc, place.bytes())?;
    Ok(Facts {
        module,
        sid: delta.sid,
        moment: delta.moment,
        newest: delta.moment,
        kind,
        user,
        file: *name,
        place,
    })
}

// gives what get puts in the place of an identification keyword
fn give_identified<S: Sink>(letter: u8, facts: &Facts, out: &mut S) -> Result<(), Failed>
    requires { HasMoments facts.now }
    ensures { GivesText (identified facts.now letter) (S.given out.old) (S.given out.new) (S.faults out.old)
        (S.faults out.new) result }
{
    expand(&[b'%', letter, b'%'], 0, facts, out)
}

// gives a number in decimal
fn give_number<S: Sink>(number: u16, out: &mut S) -> Result<(), Failed>
    ensures { GivesText (decimal number) (S.given out.old) (S.given out.new) (S.faults out.old)
        (S.faults out.new) result }
{
    out.give(Buffer::new().format(number).as_bytes())
}

// D for a delta that lives, R for a removed one
fn kind(removed: bool) -> &'static [u8]
    ensures { result.now ≡ kind_of removed }
{
    if removed { b"R" } else { b"D" }
}

// gives kind, SID, date and time, and the login, serial and predecessor of a delta
fn give_words<'a, S: Sink>(
    kind: &'a [u8],
    sid: &'a [u8],
    moment: &'a [u8],
    delta: &'a Record,
    out: &mut S,
) -> Result<(), Failed>
    ensures { GivesText (kind.now
        ++ (32 ∷ sid.now ++ (32 ∷ moment.now ++ (32 ∷ delta.now.login ++ (32 ∷ decimal delta.now.serial
        ++ (32 ∷ decimal delta.now.predecessor))))))
        (S.given out.old) (S.given out.new) (S.faults out.old) (S.faults out.new) result }
{
    let (mut serial, mut predecessor) = (Buffer::new(), Buffer::new());
    let serial = serial.format(delta.serial).as_bytes();
    let predecessor = predecessor.format(delta.predecessor).as_bytes();
    give_parts(
        out,
        &[
            kind,
            b" ",
            sid,
            b" ",
            moment,
            b" ",
            delta.login.bytes(),
            b" ",
            serial,
            b" ",
            predecessor,
        ],
    )
}

// gives kind, SID, date, time, login, serial and predecessor
fn give_delta<S: Sink>(delta: &Record, out: &mut S) -> Result<(), Failed>
    requires { HasSpelling delta.now }
    ensures { GivesText (delta_text delta.now) (S.given out.old) (S.given out.new) (S.faults out.old)
        (S.faults out.new) result }
{
    let mut row = [0; DETAIL_ROOM];
    let sid = delta.sid.text(&mut row);
    give_words(kind(delta.removed), sid, &delta.moment.text(), delta, out)
}

// gives the numbers of lines inserted, deleted and unchanged
fn give_counts<S: Sink>(delta: &Record, out: &mut S) -> Result<(), Failed>
    ensures { GivesText (counts_text delta.now) (S.given out.old) (S.given out.new) (S.faults out.old)
        (S.faults out.new) result }
{
    let inserted = five_digits(delta.inserted);
    let deleted = five_digits(delta.deleted);
    let unchanged = five_digits(delta.unchanged);
    give_parts(out, &[&inserted, b"/", &deleted, b"/", &unchanged])
}

// the text of the flag of a letter, nothing without one
fn flag_text(flags: &[Flag], letter: u8) -> &[u8]
    ensures { result.now ≡ flag_text flags.now letter [] }
{
    match flags.iter().find(|flag| flag.letter == letter) {
        Some(flag) => flag.text.bytes(),
        None => b"",
    }
}

fn yes_or_no(yes: bool) -> &'static [u8]
    ensures { result.now ≡ yes_or_no yes }
{
    if yes { b"yes" } else { b"no" }
}

// gives the two digits at a place of the text of a moment
fn give_unit<S: Sink>(moment: &Moment, place: usize, out: &mut S) -> Result<(), Failed>
    requires moment { IsMoment moment.now }
    requires place { place ≤ 15 }
    ensures { GivesText (take 2 (drop place (moment_text moment.now))) (S.given out.old) (S.given out.new)
        (S.faults out.old) (S.faults out.new) result }
{
    let text = moment.text();
    out.give(&text[place..place + 2])
}

/// Gives what a keyword stands for where a delta is shown: POSIX prs, "SCCS Files Data Keywords".
pub fn give_item<S: Sink>(
    item: DataItem,
    header: &Header,
    facts: &Facts,
    delta: &Record,
    out: &mut S,
) -> Result<(), Failed>
    requires spelled { HasSpelling delta.now }
    requires moments { HasMoments facts.now }
    ensures { GivesText (item_text header.now facts.now delta.now item) (S.given out.old) (S.given out.new)
        (S.faults out.old) (S.faults out.new) result }
{
    match item {
        DataItem::Identification(letter) => give_identified(letter, facts, out),
        DataItem::Delta => give_delta(delta, out),
        DataItem::Kind => out.give(kind(delta.removed)),
        DataItem::Counts => give_counts(delta, out),
        DataItem::Inserted => out.give(&five_digits(delta.inserted)),
        DataItem::Deleted => out.give(&five_digits(delta.deleted)),
        DataItem::Unchanged => out.give(&five_digits(delta.unchanged)),
        DataItem::Year => give_unit(&delta.moment, 0, out),
        DataItem::Month => give_unit(&delta.moment, 3, out),
        DataItem::Day => give_unit(&delta.moment, 6, out),
        DataItem::Hour => give_unit(&delta.moment, 9, out),
        DataItem::Minute => give_unit(&delta.moment, 12, out),
        DataItem::Second => give_unit(&delta.moment, 15, out),
        DataItem::Login => out.give(delta.login.bytes()),
        DataItem::Serial => give_number(delta.serial, out),
        DataItem::Predecessor => give_number(delta.predecessor, out),
        DataItem::Lists => give_lists(delta, out),
        DataItem::Included => give_serials(&delta.include, out),
        DataItem::Excluded => give_serials(&delta.exclude, out),
        DataItem::Ignored => give_serials(&delta.ignore, out),
        DataItem::Mrs => give_lines(&delta.mrs, out),
        DataItem::Comments => give_lines(&delta.comments, out),
        DataItem::Users => give_lines(&header.users, out),
        DataItem::Description => give_lines(&header.description, out),
        DataItem::Flags => give_flags(header.flags.items(), out),
        DataItem::FlagText(letter) => out.give(flag_text(header.flags.items(), letter)),
        DataItem::HasFlag(letter) => out.give(yes_or_no(has_flag(header, letter))),
    }
}
