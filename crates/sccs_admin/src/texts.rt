ghost use Rattle.std.specs.Prelude.{◌≡◌, ◌≤◌, length};
ghost use Rattle.sccs_base.specs.Constants.{file_limit};
ghost use Rattle.sccs_base.specs.Cut.{text_of, without_lf};
ghost use Rattle.sccs_sid.specs.SidLists.{begins};
ghost use Rattle.std.specs.List.{list_any};
ghost use Rattle.sccs_admin.specs.Rules.{text_has_keyword};
ghost use Rattle.sccs_admin.specs.Texts.{count_lines, lacking};

use bstr::ByteSlice;
use sccs_base::{LF, SOH};
use sccs_keywords::has_keyword;

// whether a line begins as a control line does
fn is_control(line: &[u8]) -> bool
    ensures { result ≡ begins 1 (without_lf line.now) }
{
    if line.is_empty() {
        return false;
    }
    line[0] == SOH
}

/// How many lines a text has; or the number of the first, from 1, that begins with SOH.
pub fn count_lines(text: &[u8]) -> Result<u64, u64>
    requires { length text.now ≤ file_limit }
    ensures { result ≡ count_lines (text_of text.now) }
{
    let mut count: u64 = 0;
    'lines: for line in text.lines_with_terminator() {
        if is_control(line) {
            return Err(count + 1);
        }
        count += 1;
    }
    Ok(count)
}

// a line without its LF
fn without_lf(line: &[u8]) -> &[u8]
    ensures { result.now ≡ without_lf line.now }
{
    match line {
        [front @ .., last] if *last == LF => front,
        _ => line,
    }
}

/// Whether some line of a text has a keyword.
pub fn has_keywords(text: &[u8]) -> bool
    ensures { result ≡ list_any text_has_keyword (text_of text.now) }
{
    'lines: for line in text.lines_with_terminator() {
        if has_keyword(without_lf(line)) {
            return true;
        }
    }
    false
}

/// The LF that a text lacks whose last line has none.
pub fn lacking(text: &[u8]) -> &'static [u8]
    ensures { result.now ≡ lacking text.now }
{
    if text.is_empty() {
        return b"";
    }
    if text[text.len() - 1] == LF {
        return b"";
    }
    b"\n"
}
