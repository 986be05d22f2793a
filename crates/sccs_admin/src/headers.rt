ghost use Rattle.std.specs.Prelude.{◌≡◌, [], ◌∷◌, IfOk};
ghost use Rattle.sccs_admin.specs.AdminStep.{AreAdminValues};
ghost use Rattle.sccs_admin.specs.NewFiles.{comment_lines, first_header, first_record, maker_text, new_header};
ghost use Rattle.sccs_admin.specs.Parts.{AreRules};
ghost use Rattle.sccs_history.specs.History.{AreLines, HasSpelling, IsSpelled};
ghost use Rattle.sccs_sid.specs.Moment.{IsMoment};

use crate::rules::NewRules;
use sccs_base::{Bytes, Line, Memory, Text};
use sccs_history::{Flags, Header, Record, Records, Serials};
use sccs_records::some_lines;
use sccs_rules::change_users;
use sccs_sid::{Sid, Stamp};
use sccs_words::AdminWords;
use std::alloc::Global;

// the greatest count of the table: sccsfile(4)
const COUNT_LIMIT: u64 = 99_999;

// who made the file, and when
fn made_by(alloc: Global, stamp: &Stamp) -> Result<Line, Memory>
    requires { IsMoment stamp.now.moment }
    ensures { IfOk result (λ line. line ≡ maker_text stamp.now) }
{
    let mut text = Vec::new(alloc);
    text.extend_from_slice(b"date and time created ")?;
    text.extend_from_slice(&stamp.moment.text())?;
    text.extend_from_slice(b" by ")?;
    text.extend_from_slice(stamp.login.bytes())?;
    match Line::new(alloc, text.as_slice()) {
        Ok(line) => Ok(line),
        Err(_) => Err(Memory),
    }
}

// a text of one line
fn one_line(alloc: Global, line: Line) -> Result<Text, Memory>
    ensures value { IfOk result (λ text. text ≡ line ∷ []) }
    ensures lines { IfOk result AreLines }
{
    let mut text = Text::empty(alloc);
    let _bytes = line.bytes();
    text.push(line)?;
    Ok(text)
}

// the comment of -y, else who made the file, and when
fn comment_of(alloc: Global, words: &AdminWords, stamp: &Stamp) -> Result<Text, Memory>
    requires { IsMoment stamp.now.moment }
    ensures value { IfOk result (λ text. text ≡ comment_lines words.now.comment stamp.now) }
    ensures lines { IfOk result AreLines }
{
    match &words.comment {
        Some(lines) => some_lines(alloc, lines.items()),
        None => one_line(alloc, made_by(alloc, stamp)?),
    }
}

// MRs, each a line
fn mr_lines(alloc: Global, mrs: &[Bytes]) -> Result<Text, Memory>
    ensures value { IfOk result (λ text. text ≡ mrs.now) }
    ensures lines { IfOk result AreLines }
{
    let mut text = Text::empty(alloc);
    for mr in mrs {
        let Ok(line) = Line::new(alloc, mr.bytes()) else {
            return Err(Memory);
        };
        text.push(line)?;
    }
    Ok(text)
}

// the record of the first delta
fn first_record(
    alloc: Global,
    words: &AdminWords,
    stamp: &Stamp,
    count: u64,
) -> Result<Record, Memory>
    requires { AreAdminValues words.now stamp.now }
    ensures value { IfOk result (λ first. first ≡ first_record words.now stamp.now count) }
    ensures spelled { IfOk result HasSpelling }
{
    let comments = comment_of(alloc, words, stamp)?;
    let mrs = mr_lines(alloc, words.mrs.items())?;
    let login = stamp.login;
    let _bytes = login.bytes();
    Ok(Record {
        serial: 1,
        removed: false,
        sid: Sid {
            release: words.release.unwrap_or(1),
            level: 1,
            branch: 0,
            sequence: 0,
        },
        moment: stamp.moment,
        login,
        predecessor: 0,
        include: Serials::empty(alloc),
        exclude: Serials::empty(alloc),
        ignore: Serials::empty(alloc),
        mrs,
        comments,
        inserted: count.min(COUNT_LIMIT) as u32,
        deleted: 0,
        unchanged: 0,
    })
}

// the header of one delta, and neither user, flag nor description
fn first_header(
    alloc: Global,
    words: &AdminWords,
    stamp: &Stamp,
    count: u64,
) -> Result<Header, Memory>
    requires { AreAdminValues words.now stamp.now }
    ensures value { IfOk result (λ header. header ≡ first_header words.now stamp.now count) }
    ensures spelled { IfOk result IsSpelled }
{
    let mut records = Records::empty(alloc);
    records.push(first_record(alloc, words, stamp, count)?)?;
    Ok(Header {
        records,
        users: Text::empty(alloc),
        flags: Flags::empty(alloc),
        description: Text::empty(alloc),
    })
}

/// The header of a new s-file: one delta, with users, flags and description.
pub fn new_header(
    alloc: Global,
    words: &AdminWords,
    stamp: &Stamp,
    rules: NewRules,
) -> Result<Header, Memory>
    requires valid { AreAdminValues words.now stamp.now }
    requires rules { AreRules words.now rules }
    ensures value { IfOk result (λ header. header ≡ new_header words.now stamp.now rules) }
    ensures spelled { IfOk result IsSpelled }
{
    let header = first_header(alloc, words, stamp, rules.count)?;
    let users = change_users(alloc, header.users, &words.add, &words.erase)?;
    Ok(Header {
        records: header.records,
        users,
        flags: rules.flags,
        description: rules.description,
    })
}
