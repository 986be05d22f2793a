ghost use Rattle.std.specs.Prelude.{◌≡◌, Some, option_and_then, option_copied, option_map, IfOk, IfSome};
ghost use Rattle.sccs_sid.specs.Sid.{IsSid};
ghost use Rattle.sccs_trunks.specs.TrunkHistories.{is_below, trunk_scripts};
ghost use Rattle.sccs_rcs_file.specs.Trunk.{ReadsRcs, ReadsTrunk, rcs_of, rcs_read, rcs_with, head_of, revision_of};
ghost use Rattle.sccs_rcs_file.specs.Trunk.{revisions_at, trunk_of, at_most_one, facts_of, fields_of, inside_of};
ghost use Rattle.sccs_rcs_file.specs.Trunk.{one_number, one_word, trunk_sid, unquoted, lines_in, or_empty_line};
ghost use Rattle.sccs_rcs_file.specs.Trunk.{revision_by};
ghost use Rattle.sccs_rcs_file.specs.Forms.{DeltaText, RcsEntry};
ghost use Rattle.sccs_rcs_file.specs.Lookups.{one_named};
ghost use Rattle.sccs_rcs_file.specs.FactsSeen.{facts_seen, fields_seen, found_seen};

use crate::dates::date_of;
use crate::faults::RcsFault;
use crate::forms::{DeltaText, Phrase, RcsEntry, RcsFile};
use crate::indexes::Index;
use crate::kinds::{Token, TokenKind};
use crate::lookups::one_named;
use crate::reading::read_file;
use crate::texts::{check_texts, first_with_soh};
use sccs_base::{Line, ListOf, Login, Memory, Text};
use sccs_sid::{Moment, Sid};
use sccs_trunks::{Rcs, Revision, Revisions};
use std::alloc::Global;

/// How many revisions a trunk may have, since that many serials are there: sccsfile(4).
const MOST_REVISIONS: u64 = 65_535;

// what stands in the one phrase of a name
fn inside_of<'p, 'a>(phrases: &'p [Phrase<'a>], name: &[u8]) -> Option<&'p [Token<'a>]>
    ensures { option_map (λ x. x.now) result ≡ inside_of name.now phrases.now }
{
    let phrase = one_named(phrases, name)?;
    Some(phrase.inside.as_slice())
}

// one number
fn one_number<'a>(tokens: &[Token<'a>]) -> Option<&'a [u8]>
    ensures { option_map (λ x. x.now) result ≡ one_number tokens.now }
{
    match tokens {
        [token] if token.kind == TokenKind::Number => Some(token.bytes),
        _ => None,
    }
}

// one word
fn one_word<'a>(tokens: &[Token<'a>]) -> Option<&'a [u8]>
    ensures { option_map (λ x. x.now) result ≡ one_word tokens.now }
{
    match tokens {
        [token] if token.kind == TokenKind::Number || token.kind == TokenKind::Word => {
            Some(token.bytes)
        }
        _ => None,
    }
}

// whether a SID is below another one of the trunk
fn is_below(sid: &Sid, above: &Sid) -> bool
    ensures { result ≡ is_below sid.now above.now }
{
    sid.release < above.release || sid.release == above.release && sid.level < above.level
}

// a SID of the trunk, below the one of the revision before it
fn trunk_sid(above: Option<Sid>, number: &[u8]) -> Option<Sid>
    ensures value { result ≡ trunk_sid above number.now }
    ensures valid { IfSome result IsSid }
    ensures trunk { IfSome result (λ sid. sid.branch ≡ 0) }
{
    let Ok(sid) = Sid::read(number) else {
        return None;
    };
    if sid.branch != 0 {
        return None;
    }
    match above {
        Some(above) if !is_below(&sid, &above) => None,
        _ => Some(sid),
    }
}

// the bytes of a string, each doubled at sign once
fn unquoted(alloc: Global, raw: &[u8]) -> Result<Vec<u8>, Memory>
    ensures { IfOk result (λ bytes. bytes.items ≡ unquoted raw.now) }
{
    let mut bytes = Vec::new(alloc);
    let mut rest = raw;
    'bytes: while let [byte, behind @ ..] = rest {
        bytes.push(*byte)?;
        rest = match behind {
            [_, more @ ..] if *byte == b'@' => more,
            _ => behind,
        };
    }
    Ok(bytes)
}

// the lines of a string
fn lines_in(alloc: Global, raw: &[u8]) -> Result<Text, Memory>
    ensures { IfOk result (λ text. text ≡ lines_in raw.now) }
{
    let bytes = unquoted(alloc, raw)?;
    Text::read(alloc, bytes.as_slice())
}

// the lines of a log, of which there is one at least
fn log_in(alloc: Global, raw: &[u8]) -> Result<Text, Memory>
    ensures { IfOk result (λ text. text ≡ or_empty_line (lines_in raw.now)) }
{
    let mut text = lines_in(alloc, raw)?;
    if text.len() == 0 {
        let Ok(line) = Line::new(alloc, b"") else {
            return Err(Memory);
        };
        text.push(line)?;
    }
    Ok(text)
}

// at most one number
fn at_most_one<'a>(tokens: &[Token<'a>]) -> Option<Option<&'a [u8]>>
    ensures { option_map (option_map (λ x. x.now)) result ≡ at_most_one tokens.now }
{
    match tokens {
        [] => Some(None),
        [token] if token.kind == TokenKind::Number => Some(Some(token.bytes)),
        _ => None,
    }
}

/// What an entry says: its date and author as they are written, and the number of the next
/// revision, if one is named.
#[derive(Clone, Copy)]
struct Fields<'a> {
    date: &'a [u8],
    author: &'a [u8],
    next: Option<&'a [u8]>,
}

/// What a file says of a revision: its SID, what its entry says, and its log and text.
#[derive(Drop)]
struct RevisionFacts<'a> {
    sid: Sid,
    fields: Fields<'a>,
    log: &'a [u8],
    text: &'a [u8],
}

// the one number in the one phrase of a name
fn number_in<'a>(phrases: &[Phrase<'a>], name: &[u8]) -> Option<&'a [u8]>
    ensures { option_map (λ x. x.now) result ≡ option_and_then one_number (inside_of name.now phrases.now) }
{
    one_number(inside_of(phrases, name)?)
}

// the one word in the one phrase of a name
fn word_in<'a>(phrases: &[Phrase<'a>], name: &[u8]) -> Option<&'a [u8]>
    ensures { option_map (λ x. x.now) result ≡ option_and_then one_word (inside_of name.now phrases.now) }
{
    one_word(inside_of(phrases, name)?)
}

// at most one number in the one phrase of a name
fn next_in<'a>(phrases: &[Phrase<'a>], name: &[u8]) -> Option<Option<&'a [u8]>>
    ensures { option_map (option_map (λ x. x.now)) result ≡ option_and_then at_most_one
        (inside_of name.now phrases.now) }
{
    at_most_one(inside_of(phrases, name)?)
}

// what an entry says
fn fields_of<'a>(phrases: &[Phrase<'a>]) -> Option<Fields<'a>>
    ensures { option_map fields_seen result ≡ fields_of phrases.now }
{
    let date = number_in(phrases, b"date")?;
    let author = word_in(phrases, b"author")?;
    let next = next_in(phrases, b"next")?;
    Some(Fields { date, author, next })
}

/// An RCS file, and where its entries and texts stand by their numbers.
#[derive(Drop)]
struct IndexedFile<'f, 'a> {
    file: &'f RcsFile<'a>,
    entries: Index<'f, RcsEntry<'a>>,
    texts: Index<'f, DeltaText<'a>>,
    ghost entries_are: { entries.items.now ≡ file.now.entries },
    ghost texts_are: { texts.items.now ≡ file.now.texts },
}

// a file with its indexes
fn indexed<'f, 'a>(alloc: Global, file: &'f RcsFile<'a>) -> Result<IndexedFile<'f, 'a>, Memory>
    ensures { IfOk result (λ indexed. indexed.file.now ≡ file.now) }
{
    let entries = Index::of(alloc, file.entries.as_slice())?;
    let texts = Index::of(alloc, file.texts.as_slice())?;
    Ok(IndexedFile {
        file,
        entries,
        texts,
    })
}

// the one entry of a number
fn entry_of<'f, 'a>(indexed: &IndexedFile<'f, 'a>, number: &[u8]) -> Option<&'f RcsEntry<'a>>
    ensures { option_copied result ≡ one_named (λ (e : RcsEntry). e.number) number.now indexed.now.file.now.entries }
{
    indexed.entries.one(number)
}

// the one text of a number
fn text_of<'f, 'a>(indexed: &IndexedFile<'f, 'a>, number: &[u8]) -> Option<&'f DeltaText<'a>>
    ensures { option_copied result ≡ one_named (λ (t : DeltaText). t.number) number.now indexed.now.file.now.texts }
{
    indexed.texts.one(number)
}

// what a file says of the revision of a number
fn facts_of<'a>(
    above: Option<Sid>,
    number: &[u8],
    indexed: &IndexedFile<'_, 'a>,
) -> Option<RevisionFacts<'a>>
    ensures value { option_map facts_seen result ≡ facts_of above number.now indexed.now.file.now }
    ensures valid { IfSome result (λ f. IsSid f.sid) }
    ensures trunk { IfSome result (λ f. f.sid.branch ≡ 0) }
{
    let entry = entry_of(indexed, number)?;
    let text = text_of(indexed, number)?;
    let sid = trunk_sid(above, number)?;
    let fields = fields_of(entry.phrases.as_slice())?;
    Some(RevisionFacts {
        sid,
        fields,
        log: text.log,
        text: text.text,
    })
}

// the revision that is told so, where the date is a moment and the author a login
fn revision_by(alloc: Global, facts: &RevisionFacts) -> Result<Option<Revision>, Memory>
    ensures value { IfOk result (λ r. option_map (λ r. (r, (facts_seen facts.now).fields.next)) r ≡ revision_by
        (facts_seen facts.now)) }
{
    let Some(moment) = date_of(alloc, facts.fields.date)? else {
        return Ok(None);
    };
    let Some(login) = Login::read(facts.fields.author) else {
        return Ok(None);
    };
    let log = log_in(alloc, facts.log)?;
    let text = lines_in(alloc, facts.text)?;
    Ok(Some(Revision {
        sid: facts.sid,
        moment,
        login,
        log,
        text,
    }))
}

// the number of the head
fn head_of<'a>(file: &RcsFile<'a>) -> Option<&'a [u8]>
    ensures { option_map (λ x. x.now) result ≡ head_of file.now }
{
    number_in(file.head.as_slice(), b"head")
}

/// A revision, and the number of the next one, if one is named.
#[derive(Drop)]
struct FoundRevision<'a> {
    revision: Revision,
    next: Option<&'a [u8]>,
}

// the revision of a number, and the number of the next one
fn revision_of<'a>(
    alloc: Global,
    above: Option<Sid>,
    number: &[u8],
    indexed: &IndexedFile<'_, 'a>,
) -> Result<Option<FoundRevision<'a>>, Memory>
    ensures { IfOk result (λ found. option_map found_seen found ≡ revision_of above number.now indexed.now.file.now) }
{
    let Some(facts) = facts_of(above, number, indexed) else {
        return Ok(None);
    };
    let Some(revision) = revision_by(alloc, &facts)? else {
        return Ok(None);
    };
    let next = facts.fields.next;
    Ok(Some(FoundRevision { revision, next }))
}

// the revisions of a file's trunk from the one of a number on
fn revisions_from(alloc: Global, head: &[u8], indexed: &IndexedFile) -> Result<Revisions, RcsFault>
    ensures { ReadsTrunk result (revisions_at (Some head.now) indexed.now.file.now) }
{
    let mut revisions = Revisions::empty(alloc);
    let mut above = None;
    let mut next = Some(head);
    let mut count: u64 = 1;
    'revisions: while let Some(number) = next {
        if MOST_REVISIONS < count {
            return Err(RcsFault::BadRevision(count));
        }
        let Ok(found) = revision_of(alloc, above, number, indexed) else {
            return Err(RcsFault::Memory);
        };
        let Some(found) = found else {
            return Err(RcsFault::BadRevision(count));
        };
        above = Some(found.revision.sid);
        next = found.next;
        let Ok(()) = revisions.push(found.revision) else {
            return Err(RcsFault::Memory);
        };
        count += 1;
    }
    Ok(revisions)
}

// the revisions of a file's trunk, the head first
fn revisions_of(alloc: Global, file: &RcsFile) -> Result<Revisions, RcsFault>
    ensures { ReadsTrunk result (trunk_of file.now) }
{
    let Some(head) = head_of(file) else {
        return Err(RcsFault::BadRevision(1));
    };
    let Ok(indexed) = indexed(alloc, file) else {
        return Err(RcsFault::Memory);
    };
    revisions_from(alloc, head, &indexed)
}

// the trunk, where its texts can stand in an s-file
#[tactic(auto, using(crate::proofs::TextFaultLaws::rcs_fits, crate::proofs::TextFaultLaws::rcs_fails))]
fn with_texts(revisions: Revisions, description: Text) -> Result<Rcs, RcsFault>
    ensures { ReadsRcs result (rcs_with description revisions (trunk_scripts revisions)) }
{
    check_texts(revisions.items())?;
    Ok(Rcs {
        revisions,
        description,
    })
}

// the trunk of what was read of a file
fn rcs_of(alloc: Global, file: &RcsFile) -> Result<Rcs, RcsFault>
    ensures { ReadsRcs result (rcs_of file.now) }
{
    let Ok(description) = lines_in(alloc, file.description) else {
        return Err(RcsFault::Memory);
    };
    if first_with_soh(description.items()).is_some() {
        return Err(RcsFault::BadRevision(0));
    }
    let revisions = revisions_of(alloc, file)?;
    with_texts(revisions, description)
}

/// The trunk of an RCS file: rcsfile(5). A byte at fault comes before all else, then a description
/// that can't stand in an s-file, then the first revision that is unfit, then the first line of a
/// text at fault. Branches and other phrases are passed over.
pub fn read_rcs(alloc: Global, bytes: &[u8]) -> Result<Rcs, RcsFault>
    ensures { ReadsRcs result (rcs_read bytes.now) }
{
    let file = read_file(alloc, bytes)?;
    rcs_of(alloc, &file)
}
