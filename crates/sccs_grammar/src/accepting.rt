//! What is read of a header with a line more.
ghost use Rattle.std.specs.Prelude.{◌≡◌, Ok, Err, [], ◌∷◌, ◌++◌, IfOk, IfErr};
ghost use Rattle.sccs_grammar.specs.Entries.{with_entry as with_entry_spec};
ghost use Rattle.sccs_grammar.specs.Front.{Accepts, AcceptsAt, AcceptsIn, after, at_delta, at_entry, ends_table};
ghost use Rattle.sccs_grammar.specs.Front.{in_description, in_flags, in_lists, in_texts, in_users, list_fits};
ghost use Rattle.sccs_grammar.specs.Front.{dangling_predecessor, new_flag, put_list, parser_at, seen_with};
ghost use Rattle.sccs_grammar.specs.Front.{with_comment, with_list, with_mr};

use crate::header_parsers::{
    FrontFault, HeaderParser, HeaderState, ListsSeen, PartialHeader, TableEntry,
};
use crate::table_tests::{all_below, flag_fits, is_new, share};
use crate::tables::{Table, with_entry};
use sccs_base::{Line, Text};
use sccs_history::{Flag, Serials};
use sccs_tokens::{BoxedRecord, LineToken, ListKind};
use std::alloc::Global;
use std::mem::replace;

// the line is at fault: nothing goes on there
fn refuse(number: u64, token: LineToken) -> Result<HeaderState, FrontFault>
    ensures { result ≡ Err (FrontFault.Format number) }
{
    drop(token);
    Err(FrontFault::Format(number))
}

// the same within an entry
fn refuse_entry(number: u64, entry: TableEntry, token: LineToken) -> Result<HeaderState, FrontFault>
    ensures { result ≡ Err (FrontFault.Format number) }
{
    drop(entry);
    refuse(number, token)
}

// the entry with an MR more
fn with_mr(mut entry: TableEntry, line: Line) -> Result<TableEntry, FrontFault>
    ensures { Accepts result (Ok (with_mr entry line)) }
{
    match entry.row.push_mr(line) {
        Ok(()) => Ok(entry),
        Err(_) => Err(FrontFault::Memory),
    }
}

// the entry with a comment more
fn with_comment(alloc: Global, mut entry: TableEntry, line: Line) -> Result<TableEntry, FrontFault>
    ensures { Accepts result (Ok (with_comment entry line)) }
{
    match entry.row.push_comment(alloc, line) {
        Ok(()) => Ok(entry),
        Err(_) => Err(FrontFault::Memory),
    }
}

// the end of an entry
#[inline(never)]
fn end_entry(
    alloc: Global,
    parts: &mut PartialHeader,
    entry: TableEntry,
) -> Result<HeaderState, FrontFault>
    ensures { AcceptsAt parts.new result
        (Ok (parser_at HeaderState.AtEntry (record parts.old { table = with_entry_spec parts.old.table entry }))) }
{
    let table = replace(&mut parts.table, Table::new(alloc));
    parts.table = with_entry(alloc, table, entry)?;
    Ok(HeaderState::AtEntry)
}

// MRs and comments, mixed, and the end of the entry
fn in_texts(
    alloc: Global,
    number: u64,
    parts: &mut PartialHeader,
    entry: TableEntry,
    token: LineToken,
) -> Result<HeaderState, FrontFault>
    ensures { AcceptsAt parts.new result (in_texts number parts.old entry token) }
{
    match token {
        LineToken::Mr(line) => Ok(HeaderState::InTexts(with_mr(entry, line)?)),
        LineToken::Comment(line) => Ok(HeaderState::InTexts(with_comment(alloc, entry, line)?)),
        LineToken::EndEntry => end_entry(alloc, parts, entry),
        token => refuse_entry(number, entry, token),
    }
}

// whether a list of one kind may stand: once, of smaller serials, of which none is both included and
// excluded
fn list_fits(entry: &TableEntry, seen: ListsSeen, which: ListKind, serials: &[u16]) -> bool
    ensures { result ≡ list_fits entry.now seen which serials.now }
{
    let row = entry.row.as_record();
    let below = all_below(row.serial, serials);
    match which {
        ListKind::Included => !seen.included && below && !share(serials, row.exclude.items()),
        ListKind::Excluded => !seen.excluded && below && !share(serials, row.include.items()),
        ListKind::Ignored => !seen.ignored && below,
    }
}

fn put_list(mut entry: TableEntry, which: ListKind, serials: Serials) -> TableEntry
    ensures { result ≡ put_list entry which serials }
{
    match which {
        ListKind::Included => entry.row.include(serials),
        ListKind::Excluded => entry.row.exclude(serials),
        ListKind::Ignored => entry.row.ignore(serials),
    }
    entry
}

fn seen_with(mut seen: ListsSeen, which: ListKind) -> ListsSeen
    ensures { result ≡ seen_with seen which }
{
    match which {
        ListKind::Included => seen.included = true,
        ListKind::Excluded => seen.excluded = true,
        ListKind::Ignored => seen.ignored = true,
    }
    seen
}

#[inline(never)]
fn with_list(
    number: u64,
    entry: TableEntry,
    seen: ListsSeen,
    which: ListKind,
    serials: Serials,
) -> Result<HeaderState, FrontFault>
    ensures { (parts : PartialHeader) → AcceptsAt parts result (with_list number parts entry seen which serials) }
{
    if !list_fits(&entry, seen, which, serials.items()) {
        return Err(FrontFault::Format(number));
    }
    let entry = put_list(entry, which, serials);
    Ok(HeaderState::InLists(entry, seen_with(seen, which)))
}

fn in_lists(
    alloc: Global,
    number: u64,
    parts: &mut PartialHeader,
    entry: TableEntry,
    seen: ListsSeen,
    token: LineToken,
) -> Result<HeaderState, FrontFault>
    ensures { AcceptsAt parts.new result (in_lists number parts.old entry seen token) }
{
    match token {
        LineToken::Listed(which, serials) => with_list(number, entry, seen, which, serials),
        token => in_texts(alloc, number, parts, entry, token),
    }
}

// the table ends: there is an entry, and each predecessor is there
#[inline(never)]
fn end_table(number: u64, parts: &PartialHeader) -> Result<HeaderState, FrontFault>
    ensures { AcceptsAt parts.now result (ends_table number parts.now (dangling_predecessor parts.now.table.records
        parts.now.table.records parts.now.table.lines)) }
{
    if let Some(line) = parts.table.dangling_predecessor() {
        return Err(FrontFault::Format(line));
    }
    if parts.table.records().is_empty() {
        return Err(FrontFault::Format(number));
    }
    Ok(HeaderState::InUsers)
}

// an entry begins, or the table ends
fn at_entry(number: u64, parts: &PartialHeader, token: LineToken) -> Result<HeaderState, FrontFault>
    ensures { AcceptsAt parts.now result (at_entry number parts.now token) }
{
    match token {
        LineToken::Counts(inserted, deleted, unchanged) => {
            Ok(HeaderState::AtDelta(inserted, deleted, unchanged))
        }
        LineToken::Users => end_table(number, parts),
        token => refuse(number, token),
    }
}

// an entry with its delta line
fn begin_entry(
    number: u64,
    parts: &PartialHeader,
    counts: (u32, u32, u32),
    mut row: BoxedRecord,
) -> Result<HeaderState, FrontFault>
    ensures { AcceptsAt parts.now result (at_delta number parts.now counts.0 counts.1 counts.2 (LineToken.Delta row)) }
{
    if !parts.table.may_follow(row.as_record()) {
        return Err(FrontFault::Format(number));
    }
    let (inserted, deleted, unchanged) = counts;
    row.count(inserted, deleted, unchanged);
    let none_seen = ListsSeen {
        included: false,
        excluded: false,
        ignored: false,
    };
    Ok(HeaderState::InLists(TableEntry { line: number, row }, none_seen))
}

// the delta line of an entry
#[inline(never)]
fn at_delta(
    number: u64,
    parts: &PartialHeader,
    counts: (u32, u32, u32),
    token: LineToken,
) -> Result<HeaderState, FrontFault>
    ensures { AcceptsAt parts.now result (at_delta number parts.now counts.0 counts.1 counts.2 token) }
{
    match token {
        LineToken::Delta(row) => begin_entry(number, parts, counts, row),
        token => refuse(number, token),
    }
}

// one line more of the users or the description; the next line stands at that place
fn new_line(text: &mut Text, line: Line, state: HeaderState) -> Result<HeaderState, FrontFault>
    ensures ok { IfOk result (λ p. (p ≡ state) × (text.new ≡ text.old ++ line ∷ [])) }
    ensures err { IfErr result (λ fault. fault ≡ FrontFault.Memory) }
{
    match text.push(line) {
        Ok(()) => Ok(state),
        Err(_) => Err(FrontFault::Memory),
    }
}

#[inline(never)]
fn in_users(
    number: u64,
    parts: &mut PartialHeader,
    token: LineToken,
) -> Result<HeaderState, FrontFault>
    ensures { AcceptsAt parts.new result (in_users number parts.old token) }
{
    match token {
        LineToken::Plain(line) => new_line(&mut parts.users, line, HeaderState::InUsers),
        LineToken::EndUsers => Ok(HeaderState::InFlags),
        token => refuse(number, token),
    }
}

// one flag more
fn new_flag(number: u64, parts: &mut PartialHeader, flag: Flag) -> Result<HeaderState, FrontFault>
    ensures { AcceptsAt parts.new result (new_flag number parts.old flag) }
{
    if !flag_fits(&flag) || !is_new(parts.flags.items(), &flag) {
        return Err(FrontFault::Format(number));
    }
    if parts.flags.push(flag).is_err() {
        return Err(FrontFault::Memory);
    }
    Ok(HeaderState::InFlags)
}

#[inline(never)]
fn in_flags(
    number: u64,
    parts: &mut PartialHeader,
    token: LineToken,
) -> Result<HeaderState, FrontFault>
    ensures { AcceptsAt parts.new result (in_flags number parts.old token) }
{
    match token {
        LineToken::FlagIs(flag) => new_flag(number, parts, flag),
        LineToken::Description => Ok(HeaderState::InDescription),
        token => refuse(number, token),
    }
}

#[inline(never)]
fn in_description(
    number: u64,
    parts: &mut PartialHeader,
    token: LineToken,
) -> Result<HeaderState, FrontFault>
    ensures { AcceptsAt parts.new result (in_description number parts.old token) }
{
    match token {
        LineToken::Plain(line) => new_line(
            &mut parts.description,
            line,
            HeaderState::InDescription,
        ),
        LineToken::EndDescription => Ok(HeaderState::AtBody),
        token => refuse(number, token),
    }
}

// where the next line stands behind a line that says this
fn next_state(
    alloc: Global,
    number: u64,
    state: HeaderState,
    parts: &mut PartialHeader,
    token: LineToken,
) -> Result<HeaderState, FrontFault>
    ensures { AcceptsAt parts.new result (after number parts.old state token) }
{
    match state {
        HeaderState::AtEntry => at_entry(number, parts, token),
        HeaderState::AtDelta(inserted, deleted, unchanged) => {
            at_delta(number, parts, (inserted, deleted, unchanged), token)
        }
        HeaderState::InLists(entry, seen) => in_lists(alloc, number, parts, entry, seen, token),
        HeaderState::InTexts(entry) => in_texts(alloc, number, parts, entry, token),
        HeaderState::InUsers => in_users(number, parts, token),
        HeaderState::InFlags => in_flags(number, parts, token),
        HeaderState::InDescription => in_description(number, parts, token),
        HeaderState::AtBody => refuse(number, token),
    }
}

/// Reads on with a line of that number that says this, or answers the line at fault. A parser that
/// answered so is used up.
pub fn accept(
    alloc: Global,
    number: u64,
    parser: &mut HeaderParser,
    token: LineToken,
) -> Result<(), FrontFault>
    ensures { AcceptsIn parser.new result (after number parser.old.parts parser.old.state token) }
{
    let state = replace(&mut parser.state, HeaderState::AtBody);
    parser.state = next_state(alloc, number, state, &mut parser.parts, token)?;
    Ok(())
}
