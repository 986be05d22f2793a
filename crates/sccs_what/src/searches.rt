ghost use Rattle.std.specs.Prelude.{◌≡◌, ◌≢◌, ◌<◌, ◌≤◌, ◌+◌, ◌++◌, true, false, [], length, drop, IfOk, OnErr, OnOk};
ghost use Rattle.sccs_base.specs.Stream.{Buffers, GivesSome, Rose};
ghost use Rattle.sccs_what.specs.Owed.{SearchesPiece, search_is_done, search_is_over, last_end, was_found, work_left};
ghost use Rattle.sccs_what.specs.declared.searches.Search.TheVariants as searches;

use crate::marks::{MARK_LENGTH, find_at_sign, is_marked, text_length};
use sccs_base::{Failed, LF, OutputBuffer, Sink};

/// How far a search for marks has come: nothing was found, a text is being given, or it was.
#[derive(Clone, Copy, Debug, PartialEq, Eq)]
pub enum Search {
    Unfound,
    Giving,
    Found,
}

impl Search {
    /// Whether nothing more is wanted of the file.
    pub fn is_done(self, first: bool) -> bool
        ensures { result ≡ search_is_done first self }
    {
        first && matches!(self, Search::Found)
    }

    // whether nothing more is to be found without the bytes that come behind these
    fn is_over(self, first: bool, bytes: &[u8]) -> bool
        ensures { result ≡ search_is_over first self bytes.now }
    {
        match self {
            Search::Unfound => bytes.len() < MARK_LENGTH,
            Search::Giving => bytes.is_empty(),
            Search::Found => first || bytes.len() < MARK_LENGTH,
        }
    }
}

// gives what there is of a text
fn give_text<O: Sink>(
    search: &mut Search,
    first: bool,
    bytes: &[u8],
    held: &mut OutputBuffer,
    out: &mut O,
) -> Result<usize, Failed>
    requires giving { search.old ≡ searches.Giving }
    requires some { 0 < length bytes.now }
    ensures piece { SearchesPiece first bytes.now search.old search.new held.old held.new (O.given out.old)
        (O.given out.new) result }
    ensures less { IfOk result (λ used. work_left search.new (drop used bytes.now) < work_left search.old bytes.now) }
    ensures later { O.faults out.old ≤ O.faults out.new }
    ensures cause { OnErr result (Rose (O.faults out.old) (O.faults out.new)) }
{
    let length = text_length(bytes);
    let text = &bytes[..length];
    if length == bytes.len() {
        held.give(out, text)?;
        return Ok(length);
    }
    held.give_parts(out, &[text, &[LF]])?;
    *search = Search::Found;
    Ok(length)
}

// looks for the next mark
fn find_mark<O: Sink>(
    search: &mut Search,
    first: bool,
    bytes: &[u8],
    held: &mut OutputBuffer,
    out: &mut O,
) -> Result<usize, Failed>
    requires seeking { search_is_over first search.old bytes.now ≡ false }
    requires other { search.old ≢ searches.Giving }
    ensures piece { SearchesPiece first bytes.now search.old search.new held.old held.new (O.given out.old)
        (O.given out.new) result }
    ensures less { IfOk result (λ used. work_left search.new (drop used bytes.now) < work_left search.old bytes.now) }
    ensures later { O.faults out.old ≤ O.faults out.new }
    ensures cause { OnErr result (Rose (O.faults out.old) (O.faults out.new)) }
{
    let at = find_at_sign(bytes);
    if bytes.len() - at < MARK_LENGTH {
        return Ok(at);
    }
    if !is_marked(&bytes[at..]) {
        return Ok(at + 1);
    }
    held.give(out, b"\t")?;
    *search = Search::Giving;
    Ok(at + MARK_LENGTH)
}

// gives what there is of a text, or looks for the next mark
fn step<O: Sink>(
    search: &mut Search,
    first: bool,
    bytes: &[u8],
    held: &mut OutputBuffer,
    out: &mut O,
) -> Result<usize, Failed>
    requires { search_is_over first search.old bytes.now ≡ false }
    ensures piece { SearchesPiece first bytes.now search.old search.new held.old held.new (O.given out.old)
        (O.given out.new) result }
    ensures less { IfOk result (λ used. work_left search.new (drop used bytes.now) < work_left search.old bytes.now) }
    ensures later { O.faults out.old ≤ O.faults out.new }
    ensures cause { OnErr result (Rose (O.faults out.old) (O.faults out.new)) }
{
    match *search {
        Search::Giving => give_text(search, first, bytes, held, out),
        Search::Unfound => find_mark(search, first, bytes, held, out),
        Search::Found => find_mark(search, first, bytes, held, out),
    }
}

/// Ends a text that is being given where the file ends, and answers whether something was found.
pub fn end_search<O: Sink>(
    search: Search,
    held: &mut OutputBuffer,
    out: &mut O,
) -> Result<bool, Failed>
    ensures ok { OnOk result (Buffers held.old (last_end search) held.new (O.given out.old) (O.given out.new)) }
    ensures found { IfOk result (λ found. found ≡ was_found search) }
    ensures err { OnErr result (GivesSome (O.given out.old) (O.given out.new) (held.old ++ last_end search)) }
    ensures empty { OnErr result (held.new ≡ []) }
    ensures later { O.faults out.old ≤ O.faults out.new }
    ensures cause { OnErr result (Rose (O.faults out.old) (O.faults out.new)) }
{
    match search {
        Search::Unfound => Ok(false),
        Search::Giving => {
            held.give(out, &[LF])?;
            Ok(true)
        }
        Search::Found => Ok(true),
    }
}

/// Searches a piece of a file for marks, as far as it can be without the bytes behind it, and gives what it finds.
/// Answers how many bytes it searched.
pub fn search_piece<O: Sink>(
    search: &mut Search,
    first: bool,
    piece: &[u8],
    held: &mut OutputBuffer,
    out: &mut O,
) -> Result<usize, Failed>
    ensures piece { SearchesPiece first piece.now search.old search.new held.old held.new (O.given out.old)
        (O.given out.new) result }
    ensures over { IfOk result (λ used. search_is_over first search.new (drop used piece.now) ≡ true) }
    ensures later { O.faults out.old ≤ O.faults out.new }
    ensures cause { OnErr result (Rose (O.faults out.old) (O.faults out.new)) }
{
    let mut at = 0;
    'steps: while !search.is_over(first, &piece[at..]) {
        at += step(search, first, &piece[at..], held, out)?;
    }
    Ok(at)
}
