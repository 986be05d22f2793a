ghost use Rattle.std.specs.Prelude.{◌≡◌, ◌+◌, ◌<◌, ◌^◌, ◌++◌, [], IfSome, length, option_map};
ghost use Rattle.std.specs.List.{list_any};
ghost use Rattle.sccs_base.specs.Causes.{GivesText};
ghost use Rattle.sccs_base.specs.Cut.{cut};
ghost use Rattle.sccs_tokens.specs.Written.{ended};
ghost use Rattle.sccs_keywords.specs.Expansion.{expanded, HasMoments};
ghost use Rattle.sccs_keywords.specs.Keywords.{is_keyword, parts};
ghost use Rattle.sccs_keywords.specs.Forms.{line_form, formed, formed_lines, has_prefix, if_replaced, replaced_line};
ghost use Rattle.sccs_keywords.specs.Forms.{sid_before, tabbed};

use crate::expansion::expand;
use crate::facts::Facts;
use crate::finders::SidFinder;
use crate::keywords::has_keyword;
use memchr::memchr;
use sccs_base::{Failed, Line, Sink, give_parts};
use sccs_sid::DETAIL_ROOM;

/// How the lines of a version are given: POSIX get, -m, -n, and "Identification Keywords".
#[derive(Clone, Copy)]
pub struct LineForm<'a> {
    /// What stands before each line with -n: the module name.
    pub module_name: Option<&'a Line>,
    /// Whether the SID of the delta that inserted a line stands before it, as with -m.
    pub has_sids: bool,
    /// What keywords are replaced by; none with -k, -e and -g.
    pub facts: Option<&'a Facts>,
}

impl<'a> LineForm<'a> {
    // the module name, where it stands before lines
    fn module_text(&self) -> Option<&[u8]>
        ensures { option_map (λ (b : _). b.now) result ≡ (line_form self.now).module_name }
    {
        self.module_name.map(Line::bytes)
    }

    /// Whether something stands before each line.
    pub fn has_prefix(&self) -> bool
        ensures { result ≡ has_prefix (line_form self.now) }
    {
        self.module_name.is_some() || self.has_sids
    }

    /// Whether a keyword of a line, or of whole lines, is replaced.
    pub fn replaces(&self, lines: &[u8]) -> bool
        ensures { result ≡ if_replaced (line_form self.now).facts (list_any is_keyword (parts lines.now)) }
    {
        self.facts.is_some() && has_keyword(lines)
    }
}

// the SID of a line's inserter, where SIDs stand before lines, put at the start of a row of bytes
fn sid_before<'a>(
    has_sids: bool,
    sids: &mut SidFinder,
    inserter: u16,
    row: &'a mut [u8; DETAIL_ROOM],
) -> Option<&'a [u8]>
    ensures text { option_map (λ (b : _). b.now) result ≡ sid_before has_sids sids.old inserter }
    ensures table { sids.new ≡ sids.old }
{
    if !has_sids {
        return None;
    }
    let sid = sids.find(inserter)?;
    Some(sid.text(row))
}

// gives a text and a tab, where there is a text
fn give_tabbed<S: Sink>(text: Option<&[u8]>, out: &mut S) -> Result<(), Failed>
    ensures { GivesText (tabbed (option_map (λ t. t.now) text.entry)) (S.given out.old) (S.given out.new)
        (S.faults out.old) (S.faults out.new) result }
{
    match text {
        Some(text) => give_parts(out, &[text, b"\t"]),
        None => Ok(()),
    }
}

// gives a line with its keywords replaced, and LF
fn give_expanded<S: Sink>(
    facts: &Facts,
    number: u64,
    line: &[u8],
    out: &mut S,
) -> Result<(), Failed>
    requires { HasMoments facts.now }
    ensures { GivesText (ended (expanded facts.now number line.now)) (S.given out.old) (S.given out.new)
        (S.faults out.old) (S.faults out.new) result }
{
    if let Err(fault) = expand(line, number, facts, out) {
        return Err(fault);
    }
    out.give(b"\n")
}

// gives a line and LF
fn give_replaced<S: Sink>(
    facts: Option<&Facts>,
    number: u64,
    line: &[u8],
    out: &mut S,
) -> Result<(), Failed>
    requires { IfSome facts (λ f. HasMoments f.now) }
    ensures { GivesText (ended (replaced_line (option_map (λ f. f.now) facts.entry) number line.now)) (S.given out.old)
        (S.given out.new) (S.faults out.old) (S.faults out.new) result }
{
    match facts {
        Some(facts) => give_expanded(facts, number, line, out),
        None => give_parts(out, &[line, b"\n"]),
    }
}

// gives a line behind the module name and the SID, where these stand before lines
fn give_behind<S: Sink>(
    form: &LineForm,
    sid: Option<&[u8]>,
    number: u64,
    line: &[u8],
    out: &mut S,
) -> Result<(), Failed>
    requires { IfSome (line_form form.now).facts HasMoments }
    ensures { GivesText (tabbed (line_form form.now).module_name ++ (tabbed (option_map (λ t. t.now) sid.entry) ++ ended
        (replaced_line (line_form form.now).facts number line.now)))
        (S.given out.old) (S.given out.new) (S.faults out.old) (S.faults out.new) result }
{
    if let Err(fault) = give_tabbed(form.module_text(), out) {
        return Err(fault);
    }
    if let Err(fault) = give_tabbed(sid, out) {
        return Err(fault);
    }
    give_replaced(form.facts, number, line, out)
}

/// Gives a line of a version: the module name and a tab with -n, the SID of the delta that inserted it
/// and a tab with -m, the line, and LF. `number` is that of the line in its text, from 1.
pub fn give_line<S: Sink>(
    form: &LineForm,
    sids: &mut SidFinder,
    inserter: u16,
    number: u64,
    line: &[u8],
    out: &mut S,
) -> Result<(), Failed>
    requires { IfSome (line_form form.now).facts HasMoments }
    ensures text { GivesText (formed (line_form form.now) sids.old number inserter line.now) (S.given out.old)
        (S.given out.new) (S.faults out.old) (S.faults out.new) result }
    ensures table { sids.new ≡ sids.old }
{
    let mut row = [0; DETAIL_ROOM];
    let sid = sid_before(form.has_sids, sids, inserter, &mut row);
    give_behind(form, sid, number, line, out)
}

/// Gives whole lines that one delta inserted, each as `give_line` does. So many lines stand before them in
/// their text.
pub fn give_lines<S: Sink>(
    form: &LineForm,
    sids: &mut SidFinder,
    inserter: u16,
    before: u64,
    lines: &[u8],
    out: &mut S,
) -> Result<(), Failed>
    requires facts { IfSome (line_form form.now).facts HasMoments }
    requires whole { (cut lines.now).tail ≡ [] }
    requires few { before + length (cut lines.now).lines < 2 ^ 64 }
    ensures text { GivesText (formed_lines (line_form form.now) sids.old (before + 1) inserter (cut lines.now).lines)
        (S.given out.old) (S.given out.new) (S.faults out.old) (S.faults out.new) result }
    ensures table { sids.new ≡ sids.old }
{
    let mut row = [0; DETAIL_ROOM];
    let sid = sid_before(form.has_sids, sids, inserter, &mut row);
    let mut before = before;
    let mut from = 0;
    'lines: while let Some(place) = memchr(b'\n', &lines[from..]) {
        let end = from + place;
        if let Err(fault) = give_behind(form, sid, before + 1, &lines[from..end], out) {
            return Err(fault);
        }
        before += 1;
        from = end + 1;
    }
    Ok(())
}
