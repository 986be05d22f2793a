ghost use Rattle.std.specs.Prelude.{◌≡◌, ◌<◌, ◌++◌};
ghost use Rattle.sccs_base.specs.Causes.{GivesText};
ghost use Rattle.sccs_sid.specs.Detail.{detail_text};
ghost use Rattle.sccs_sid.specs.Refusal.{number_of, reason, line_of, refusal_line};

use crate::dates::{ones, tens};
use crate::details::{DETAIL_ROOM, Detail, put_detail};
use crate::sids::Sid;
use sccs_base::{Failed, Sink, give_parts};

/// Why a step on a file was not made. Each has a number, in whose order the checks are made.
#[derive(Clone, Copy, Debug, PartialEq, Eq)]
pub enum Refusal {
    /// The operand is no name of an s-file; for what, no name.
    BadName,
    /// The z-file was there.
    Locked,
    /// A file isn't there.
    Missing,
    /// A file that is to be made is there.
    Exists,
    /// A file or the input has more bytes than are read.
    TooLong,
    /// The file doesn't begin as an s-file does.
    NotSccs,
    /// The stored sum, and the sum of the bytes.
    BadSum(u32, u16),
    /// The first line of the s-file at which no spelling goes on.
    BadFormat(u64),
    /// The flag e says that the body is encoded.
    Encoded,
    /// The first line of the p-file at which no spelling goes on.
    BadPfile(u64),
    /// The first entry of the p-file, from 1, that doesn't agree with the s-file.
    Disagree(u64),
    /// The login may not make deltas.
    NotAllowed,
    /// No entry of the p-file is the login's and fits.
    NoEdit,
    /// More than one entry of the p-file is the login's and fits.
    ManyEdits,
    /// No delta has the SID.
    NoSid,
    /// The SID at which a list names no deltas.
    BadList(Sid),
    /// The release is below the flag f or above the flag c.
    OutsideRelease,
    /// The flag l locks the release.
    LockedRelease,
    /// An entry of the p-file has the SID.
    BeingEdited,
    /// The first line of the script at which no script goes on.
    BadScript(u64),
    /// The line of the script that names lines past the text, and how many lines the text has.
    ScriptRange(u64, u64),
    /// The first line of a text that begins with SOH.
    BadText(u64),
    /// The flag i wants a keyword in the text, and there is none.
    NoKeywords,
    /// The g-file is there and may be written.
    GExists,
    /// The first line at which the g-file isn't the version.
    GDiffers(u64),
    /// The first byte of the first word that names no flag to set or remove.
    FlagBad(u8),
    /// The flag v wants MR numbers.
    MrNeeded,
    /// MR numbers are given without the flag v.
    MrNotAllowed,
    /// The letter of a flag whose text names a program.
    Unsupported(u8),
    /// The delta isn't the newest of its branch.
    NotTip,
    /// The login made neither this delta nor the first.
    NotOwner,
    /// No serial or SID is left.
    Full,
    /// The size and the sum of a file at a first reading, and at a second.
    Changed(u64, u16, u64, u16),
    /// The byte of an RCS file, from 1, at which no spelling goes on.
    BadRcs(u64),
    /// The first revision of an RCS file's trunk, from 1, that is no delta; 0 for its description.
    BadRevision(u64),
    /// The first revision whose text or script fails, and the line of it.
    RcsScript(u64, u64),
    /// A change of several files was begun and isn't ended.
    GroupPending,
    /// The first line at which no spelling of such a change goes on.
    BadIntent(u64),
}

/// Why a step ended early: it was refused, there was no memory, or an outside object failed.
#[derive(Clone, Copy, Debug, PartialEq, Eq)]
pub enum StepFault {
    Refused(Refusal),
    Memory,
    ReadFault,
    WriteFault,
    DiskFault,
}

impl Refusal {
    /// Its number, from 1 to 99.
    pub fn number(&self) -> u8
        ensures value { result ≡ number_of self.now }
        ensures small { result < 100 }
    {
        match self {
            Refusal::BadName => 1,
            Refusal::Locked => 2,
            Refusal::Missing => 3,
            Refusal::Exists => 4,
            Refusal::TooLong => 5,
            Refusal::NotSccs => 6,
            Refusal::BadSum(_, _) => 7,
            Refusal::BadFormat(_) => 8,
            Refusal::Encoded => 9,
            Refusal::BadPfile(_) => 10,
            Refusal::Disagree(_) => 11,
            Refusal::NotAllowed => 12,
            Refusal::NoEdit => 13,
            Refusal::ManyEdits => 14,
            Refusal::NoSid => 15,
            Refusal::BadList(_) => 16,
            Refusal::OutsideRelease => 17,
            Refusal::LockedRelease => 18,
            Refusal::BeingEdited => 19,
            Refusal::BadScript(_) => 20,
            Refusal::ScriptRange(_, _) => 22,
            Refusal::BadText(_) => 23,
            Refusal::NoKeywords => 24,
            Refusal::GExists => 25,
            Refusal::GDiffers(_) => 26,
            Refusal::FlagBad(_) => 27,
            Refusal::MrNeeded => 28,
            Refusal::MrNotAllowed => 29,
            Refusal::Unsupported(_) => 30,
            Refusal::NotTip => 31,
            Refusal::NotOwner => 32,
            Refusal::Full => 33,
            Refusal::Changed(_, _, _, _) => 34,
            Refusal::BadRcs(_) => 35,
            Refusal::BadRevision(_) => 36,
            Refusal::RcsScript(_, _) => 37,
            Refusal::GroupPending => 38,
            Refusal::BadIntent(_) => 39,
        }
    }
}

// what is wrong: what stands before and after the detail, and the detail
fn wording(refusal: &Refusal) -> (&'static [u8], Detail, &'static [u8])
    ensures { result.0.now ++ (detail_text result.1 ++ result.2.now) ≡ reason refusal.now }
{
    match *refusal {
        Refusal::BadName => (b"not a name of an s-file", Detail::Nothing, b""),
        Refusal::Locked => (b"locked by z-file", Detail::Nothing, b""),
        Refusal::Missing => (b"no such file", Detail::Nothing, b""),
        Refusal::Exists => (b"already exists", Detail::Nothing, b""),
        Refusal::TooLong => (b"longer than 1073741824 bytes", Detail::Nothing, b""),
        Refusal::NotSccs => (b"not an SCCS file", Detail::Nothing, b""),
        Refusal::BadSum(stored, computed) => (
            b"bad sum: stored ",
            Detail::Sums(stored, computed),
            b"",
        ),
        Refusal::BadFormat(line) => (b"format error at line ", Detail::Number(line), b""),
        Refusal::Encoded => (b"encoded body", Detail::Nothing, b""),
        Refusal::BadPfile(line) => (
            b"format error in p-file at line ",
            Detail::Number(line),
            b"",
        ),
        Refusal::Disagree(entry) => (b"p-file entry ", Detail::Number(entry), b" disagrees"),
        Refusal::NotAllowed => (b"not authorized to make deltas", Detail::Nothing, b""),
        Refusal::NoEdit => (b"no edit is pending", Detail::Nothing, b""),
        Refusal::ManyEdits => (b"SID must be specified", Detail::Nothing, b""),
        Refusal::NoSid => (b"no such SID", Detail::Nothing, b""),
        Refusal::BadList(sid) => (b"bad list at ", Detail::Place(sid), b""),
        Refusal::OutsideRelease => (b"release outside floor and ceiling", Detail::Nothing, b""),
        Refusal::LockedRelease => (b"release is locked", Detail::Nothing, b""),
        Refusal::BeingEdited => (b"being edited", Detail::Nothing, b""),
        Refusal::BadScript(line) => (b"bad script at line ", Detail::Number(line), b""),
        Refusal::ScriptRange(line, count) => (
            b"script line ",
            Detail::Range(line, count),
            b" lines",
        ),
        Refusal::BadText(line) => (b"line ", Detail::Number(line), b" begins with SOH"),
        Refusal::NoKeywords => (b"no id keywords", Detail::Nothing, b""),
        Refusal::GExists => (b"writable file exists", Detail::Nothing, b""),
        Refusal::GDiffers(line) => (b"g-file differs at line ", Detail::Number(line), b""),
        Refusal::FlagBad(letter) => (b"bad flag ", Detail::Letter(letter), b""),
        Refusal::MrNeeded => (b"MR numbers needed", Detail::Nothing, b""),
        Refusal::MrNotAllowed => (b"MR numbers not allowed", Detail::Nothing, b""),
        Refusal::Unsupported(letter) => (b"flag ", Detail::Letter(letter), b" not supported"),
        Refusal::NotTip => (b"not the newest delta of its branch", Detail::Nothing, b""),
        Refusal::NotOwner => (b"not the owner", Detail::Nothing, b""),
        Refusal::Full => (b"no number is left", Detail::Nothing, b""),
        Refusal::Changed(_, _, _, _) => (b"file changed while read", Detail::Nothing, b""),
        Refusal::BadRcs(byte) => (b"bad RCS file at byte ", Detail::Number(byte), b""),
        Refusal::BadRevision(revision) => (b"revision ", Detail::Number(revision), b" is unfit"),
        Refusal::RcsScript(revision, line) => (b"revision ", Detail::Fails(revision, line), b""),
        Refusal::GroupPending => (b"a group is pending", Detail::Nothing, b""),
        Refusal::BadIntent(line) => (
            b"format error in intent at line ",
            Detail::Number(line),
            b"",
        ),
    }
}

// the line of a file, a text in three pieces, and the digits of a number
fn give_line<S: Sink>(
    name: &[u8],
    before: &[u8],
    detail: &[u8],
    after: &[u8],
    digits: &[u8],
    out: &mut S,
) -> Result<(), Failed>
    ensures { GivesText (line_of name.now (before.now ++ (detail.now ++ after.now)) digits.now)
        (S.given out.old) (S.given out.new) (S.faults out.old) (S.faults out.new) result }
{
    give_parts(
        out,
        &[
            b"ERROR [", name, b"]: ", before, detail, after, b" (", digits, b")\n",
        ],
    )
}

/// Writes `ERROR [NAME]: text (NN)` and LF, with the text and the number of the refusal.
pub fn write_refusal<S: Sink>(name: &[u8], refusal: &Refusal, out: &mut S) -> Result<(), Failed>
    ensures { GivesText (refusal_line name.now refusal.now)
        (S.given out.old) (S.given out.new) (S.faults out.old) (S.faults out.new) result }
{
    let (before, detail, after) = wording(refusal);
    let mut text = [0; DETAIL_ROOM];
    let end = put_detail(&detail, &mut text);
    let number = refusal.number();
    let digits = [tens(number), ones(number)];
    give_line(name, before, &text[..end], after, &digits, out)
}
