ghost use Rattle.std.specs.Prelude.{◌≡◌, ◌++◌, IfOk, OnOk, codes};
ghost use Rattle.std.specs.Option.{option_copied};
ghost use Rattle.sccs_tokens.specs.Written.{ended};
ghost use Rattle.sccs_sid.specs.Sid.{sid_text};
ghost use Rattle.sccs_get.specs.VersionStep.{report_on};
ghost use Rattle.sccs_get.specs.Reports.{get_report, get_warning, line_count_text, listed_text, new_sid_text, prints};
ghost use Rattle.sccs_get.specs.Reports.{replaces_keywords, said_on_err, said_on_out, sid_lines};

use crate::found::Found;
use itoa::Buffer;
use sccs_base::{Bytes, Memory, Name};
use sccs_changes::{add_warning, heading};
use sccs_printing::Shown;
use sccs_sid::{DETAIL_ROOM, Range, Sid, SidList};
use sccs_words::{GetWords, Summary};
use std::alloc::Global;

// adds a SID on a line of its own
fn add_sid(sid: &Sid, report: &mut Vec<u8>) -> Result<(), Memory>
    ensures { OnOk result (report.new.items ≡ report.old.items ++ ended (sid_text sid.now)) }
{
    let mut row = [0; DETAIL_ROOM];
    report.extend_from_slice(sid.text(&mut row))?;
    report.push(b'\n')?;
    Ok(())
}

// adds the first SIDs of ranges, each on a line of its own
fn add_sids(ranges: &[Range], report: &mut Vec<u8>) -> Result<(), Memory>
    ensures { OnOk result (report.new.items ≡ report.old.items ++ sid_lines ranges.now) }
{
    for range in ranges {
        add_sid(&range.first, report)?;
    }
    Ok(())
}

// adds SIDs behind a title, where a list was given
fn add_list(
    given: Option<&SidList>,
    title: &[u8],
    ranges: &[Range],
    report: &mut Vec<u8>,
) -> Result<(), Memory>
    ensures { OnOk result (report.new.items ≡ report.old.items ++ listed_text (option_copied given.entry) title.now
        ranges.now) }
{
    match given {
        Some(_) => {
            report.extend_from_slice(title)?;
            report.push(b'\n')?;
            add_sids(ranges, report)
        }
        None => Ok(()),
    }
}

// adds the lists that were given
fn add_lists(
    words: &GetWords,
    include: &[Range],
    exclude: &[Range],
    report: &mut Vec<u8>,
) -> Result<(), Memory>
    ensures { OnOk result (report.new.items ≡ report.old.items ++ (listed_text words.now.include (codes "Included:")
        include.now ++ listed_text words.now.exclude (codes "Excluded:") exclude.now)) }
{
    let (included, excluded) = (words.include.as_ref(), words.exclude.as_ref());
    add_list(included, b"Included:", include, report)?;
    add_list(excluded, b"Excluded:", exclude, report)
}

// adds the SID that is to be made, where there is one
fn add_made(made: Option<Sid>, report: &mut Vec<u8>) -> Result<(), Memory>
    ensures { OnOk result (report.new.items ≡ report.old.items ++ new_sid_text made) }
{
    match made {
        Some(made) => {
            report.extend_from_slice(b"new delta ")?;
            add_sid(&made, report)
        }
        None => Ok(()),
    }
}

// adds the number of lines, where there is a text
fn add_lines(no_text: bool, lines: u64, report: &mut Vec<u8>) -> Result<(), Memory>
    ensures { OnOk result (report.new.items ≡ report.old.items ++ line_count_text no_text lines) }
{
    if !no_text {
        let mut digits = Buffer::new();
        report.extend_from_slice(digits.format(lines).as_bytes())?;
        report.extend_from_slice(b" lines\n")?;
    }
    Ok(())
}

/// The report of a get: the SIDs of its lists, the SID that is got, the one that is to be made on it, and how
/// many lines it has; nothing with -s. POSIX, Shell and Utilities, get, STDOUT.
pub fn get_report(
    alloc: Global,
    words: &GetWords,
    has_heading: bool,
    name: &Name,
    include: &[Range],
    exclude: &[Range],
    got: Sid,
    made: Option<Sid>,
    lines: u64,
) -> Result<Bytes, Memory>
    ensures { IfOk result (λ report. report ≡ get_report words.now has_heading name.now include.now exclude.now got made
        lines) }
{
    let mut report = Vec::new(alloc);
    if !words.silent {
        heading(has_heading, name, &mut report)?;
        add_lists(words, include, exclude, &mut report)?;
        add_sid(&got, &mut report)?;
        add_made(made, &mut report)?;
        add_lines(words.no_text, lines, &mut report)?;
    }
    Ok(Bytes::from_vec(report))
}

/// Whether keywords are replaced: without -k, -e and -g.
pub fn replaces(words: &GetWords) -> bool
    ensures { result ≡ replaces_keywords words.now }
{
    !(words.keep || words.edit || words.no_text)
}

// whether a text or a summary goes to standard output
fn prints(words: &GetWords) -> bool
    ensures { result ≡ prints words.now }
{
    words.print || matches!(words.summary, Summary::Out)
}

// what goes to standard error: the report with -p and -L, and the warning that there is no keyword
fn message(
    alloc: Global,
    words: &GetWords,
    name: &Name,
    report: &Bytes,
    keyword: bool,
) -> Result<Bytes, Memory>
    ensures { IfOk result (λ message. message ≡ said_on_err words.now report.now
        (get_warning words.now name.now keyword)) }
{
    let mut message = Vec::new(alloc);
    if prints(words) {
        message.extend_from_slice(report.bytes())?;
    }
    add_warning(name, !replaces(words) || keyword, &mut message)?;
    Ok(Bytes::from_vec(message))
}

// what goes to standard output: the report, but with -p and -L
fn on_out(alloc: Global, words: &GetWords, report: Bytes) -> Bytes
    ensures { result ≡ said_on_out words.now report }
{
    if prints(words) {
        Bytes::empty(alloc)
    } else {
        report
    }
}

/// What is said of a version that is got, on standard output and on standard error.
#[derive(Drop)]
pub struct Report {
    pub out: Bytes,
    pub err: Bytes,
}

/// What a get says of a version, and of the SID that is to be made on it: the report, on standard error with
/// -p and -L, and there the warning that no keyword was replaced.
pub fn said(
    alloc: Global,
    words: &GetWords,
    has_heading: bool,
    name: &Name,
    found: &Found,
    made: Option<Sid>,
    shown: Shown,
) -> Result<Report, Memory>
    ensures out { IfOk result (λ r. r.out ≡ said_on_out words.now (report_on words.now has_heading name.now found.now
        made shown.lines)) }
    ensures err { IfOk result (λ r. r.err ≡ said_on_err words.now (report_on words.now has_heading name.now found.now
        made shown.lines) (get_warning words.now name.now shown.keywords)) }
{
    let report = get_report(
        alloc,
        words,
        has_heading,
        name,
        found.include.items(),
        found.exclude.items(),
        found.sid,
        made,
        shown.lines,
    )?;
    let err = message(alloc, words, name, &report, shown.keywords)?;
    Ok(Report {
        out: on_out(alloc, words, report),
        err,
    })
}
