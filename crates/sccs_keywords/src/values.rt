ghost use Rattle.std.specs.Prelude.{◌≡◌, decimal};
ghost use Rattle.sccs_base.specs.Causes.{GivesText};
ghost use Rattle.sccs_sid.specs.Moment.{civil_of, date_text, IsMoment, time_text};
ghost use Rattle.sccs_keywords.specs.Expansion.{component_text, HasMoments, keyword_text, month_first};
ghost use Rattle.sccs_keywords.specs.declared.keywords.Keyword.TheVariants as words;

use crate::facts::Facts;
use crate::keywords::Keyword;
use itoa::Buffer;
use sccs_base::{Failed, Sink, give_parts};
use sccs_sid::Moment;

// what the utility what looks for
const MARK: &[u8] = b"@(#)";

// gives a number in decimal
fn give_number<S: Sink>(number: u64, out: &mut S) -> Result<(), Failed>
    ensures { GivesText (decimal number) (S.given out.old) (S.given out.new) (S.faults out.old)
        (S.faults out.new) result }
{
    out.give(Buffer::new().format(number).as_bytes())
}

// gives a component of a SID, nothing where it is 0
fn give_component<S: Sink>(number: u16, out: &mut S) -> Result<(), Failed>
    ensures { GivesText (component_text number) (S.given out.old) (S.given out.new) (S.faults out.old)
        (S.faults out.new) result }
{
    if number == 0 {
        return out.give(b"");
    }
    give_number(u64::from(number), out)
}

// gives a date as yy/mm/dd
fn give_date<S: Sink>(moment: &Moment, out: &mut S) -> Result<(), Failed>
    requires { IsMoment moment.now }
    ensures { GivesText (date_text moment.now) (S.given out.old) (S.given out.new) (S.faults out.old)
        (S.faults out.new) result }
{
    let text = moment.text();
    out.give(&text[..8])
}

// gives a time as hh:mm:ss
fn give_time<S: Sink>(moment: &Moment, out: &mut S) -> Result<(), Failed>
    requires { IsMoment moment.now }
    ensures { GivesText (time_text moment.now) (S.given out.old) (S.given out.new) (S.faults out.old)
        (S.faults out.new) result }
{
    let text = moment.text();
    out.give(&text[9..])
}

// gives a date as mm/dd/yy
fn give_month_first<S: Sink>(moment: &Moment, out: &mut S) -> Result<(), Failed>
    requires { IsMoment moment.now }
    ensures { GivesText (month_first (civil_of moment.now)) (S.given out.old) (S.given out.new) (S.faults out.old)
        (S.faults out.new) result }
{
    let text = moment.text();
    out.give(&[
        text[3], text[4], text[5], text[6], text[7], b'/', text[0], text[1],
    ])
}

// gives mark, module, tab and SID
fn give_what<S: Sink>(facts: &Facts, out: &mut S) -> Result<(), Failed>
    ensures { GivesText (keyword_text facts.now 0 words.What) (S.given out.old) (S.given out.new) (S.faults out.old)
        (S.faults out.new) result }
{
    if let Err(fault) = give_parts(out, &[MARK, facts.module.bytes(), b"\t"]) {
        return Err(fault);
    }
    facts.sid.write(out)
}

// gives mark, kind, module, SID and mark
fn give_assembly<S: Sink>(facts: &Facts, out: &mut S) -> Result<(), Failed>
    ensures { GivesText (keyword_text facts.now 0 words.Assembly) (S.given out.old) (S.given out.new) (S.faults out.old)
        (S.faults out.new) result }
{
    let parts = [MARK, facts.kind.bytes(), b" ", facts.module.bytes(), b" "];
    if let Err(fault) = give_parts(out, &parts) {
        return Err(fault);
    }
    if let Err(fault) = facts.sid.write(out) {
        return Err(fault);
    }
    out.give(MARK)
}

/// Gives what a keyword stands for in the line with a number.
pub fn give_keyword<S: Sink>(
    keyword: Keyword,
    number: u64,
    facts: &Facts,
    out: &mut S,
) -> Result<(), Failed>
    requires { HasMoments facts.now }
    ensures { GivesText (keyword_text facts.now number keyword) (S.given out.old) (S.given out.new) (S.faults out.old)
        (S.faults out.new) result }
{
    match keyword {
        Keyword::Module => out.give(facts.module.bytes()),
        Keyword::Sid => facts.sid.write(out),
        Keyword::Release => give_number(u64::from(facts.sid.release), out),
        Keyword::Level => give_number(u64::from(facts.sid.level), out),
        Keyword::Branch => give_component(facts.sid.branch, out),
        Keyword::Sequence => give_component(facts.sid.sequence, out),
        Keyword::Date => give_date(&facts.moment, out),
        Keyword::MonthFirstDate => give_month_first(&facts.moment, out),
        Keyword::Time => give_time(&facts.moment, out),
        Keyword::NewestDate => give_date(&facts.newest, out),
        Keyword::NewestMonthFirstDate => give_month_first(&facts.newest, out),
        Keyword::NewestTime => give_time(&facts.newest, out),
        Keyword::Kind => out.give(facts.kind.bytes()),
        Keyword::User => out.give(facts.user.bytes()),
        Keyword::FileName => out.give(facts.file.bytes()),
        Keyword::Path => give_parts(out, &[facts.place.bytes(), b"/", facts.file.bytes()]),
        Keyword::LineNumber => give_number(number, out),
        Keyword::Mark => out.give(MARK),
        Keyword::What => give_what(facts, out),
        Keyword::Assembly => give_assembly(facts, out),
    }
}
