ghost use Rattle.std.specs.Prelude.{◌≡◌, ◌+◌, ◌<◌, ◌≤◌, ℕ, None, Some, drop, length, IfSome, MatchOption};
ghost use Rattle.std.specs.List.{list_any};
ghost use Rattle.sccs_keywords.specs.Keywords.{found_keyword, HasNone, is_keyword, keyword_of, parts};

use memchr::memchr;

/// What a keyword stands for: POSIX get, "Identification Keywords".
#[derive(Clone, Copy, Debug, PartialEq, Eq)]
pub enum Keyword {
    /// The module name.
    Module,
    /// The SID.
    Sid,
    /// Its release.
    Release,
    /// Its level.
    Level,
    /// Its branch, nothing on the trunk.
    Branch,
    /// Its sequence, nothing on the trunk.
    Sequence,
    /// The date of the moment as yy/mm/dd.
    Date,
    /// The same as mm/dd/yy.
    MonthFirstDate,
    /// Its time.
    Time,
    /// The date of the newest applied delta as yy/mm/dd.
    NewestDate,
    /// The same as mm/dd/yy.
    NewestMonthFirstDate,
    /// Its time.
    NewestTime,
    /// The text of the flag t.
    Kind,
    /// The text of the flag q.
    User,
    /// The name of the s-file.
    FileName,
    /// Its place and name.
    Path,
    /// The number of the line.
    LineNumber,
    /// The mark that what looks for.
    Mark,
    /// Mark, module, tab, SID.
    What,
    /// Mark, kind, module, SID, mark.
    Assembly,
}

// the keyword of a letter
#[tactic(auto, using(crate::proofs::Letters::other_letter))]
fn keyword_of(letter: u8) -> Option<Keyword>
    ensures { result ≡ keyword_of letter }
{
    match letter {
        b'M' => Some(Keyword::Module),
        b'I' => Some(Keyword::Sid),
        b'R' => Some(Keyword::Release),
        b'L' => Some(Keyword::Level),
        b'B' => Some(Keyword::Branch),
        b'S' => Some(Keyword::Sequence),
        b'D' => Some(Keyword::Date),
        b'H' => Some(Keyword::MonthFirstDate),
        b'T' => Some(Keyword::Time),
        b'E' => Some(Keyword::NewestDate),
        b'G' => Some(Keyword::NewestMonthFirstDate),
        b'U' => Some(Keyword::NewestTime),
        b'Y' => Some(Keyword::Kind),
        b'Q' => Some(Keyword::User),
        b'F' => Some(Keyword::FileName),
        b'P' => Some(Keyword::Path),
        b'C' => Some(Keyword::LineNumber),
        b'Z' => Some(Keyword::Mark),
        b'W' => Some(Keyword::What),
        b'A' => Some(Keyword::Assembly),
        _ => None,
    }
}

// the keyword that bytes begin with
fn keyword_at(bytes: &[u8]) -> Option<Keyword>
    ensures { result ≡ found_keyword bytes.now }
{
    if bytes.len() < 3 {
        return None;
    }
    if bytes[0] != b'%' {
        return None;
    }
    if bytes[2] != b'%' {
        return None;
    }
    keyword_of(bytes[1])
}

/// The place of the first keyword, and which it is.
pub fn find_keyword(line: &[u8]) -> Option<(usize, Keyword)>
    ensures first { MatchOption result (HasNone line.now (length line.now))
        (λ r. HasNone line.now r.0 × (found_keyword (drop r.0 line.now) ≡ Some r.1)) }
    ensures fits { IfSome result (λ r. r.0 + 3 ≤ length line.now) }
{
    let mut from = 0;
    'places: while let Some(at) = memchr(b'%', &line[from..]) {
        let place = from + at;
        if let Some(keyword) = keyword_at(&line[place..]) {
            return Some((place, keyword));
        }
        from = place + 1;
    }
    None
}

/// Whether a line has a keyword, so that its expansion replaces something.
pub fn has_keyword(line: &[u8]) -> bool
    ensures { result ≡ list_any is_keyword (parts line.now) }
{
    find_keyword(line).is_some()
}
