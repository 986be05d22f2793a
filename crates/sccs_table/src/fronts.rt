ghost use Rattle.std.specs.Prelude.{◌≡◌, ℕ, List, Ok, Some, ◌||◌, ◌==◌, ◌≤◌, ◌+◌, length, IfOk, IfSome, OnOk, Err};
ghost use Rattle.sccs_base.specs.Cut.{HasNoLf};
ghost use Rattle.sccs_disk.specs.Told.{seen};
ghost use Rattle.sccs_grammar.specs.File.{checked_front, front_of, stored};
ghost use Rattle.sccs_history.specs.History.{IsHeader, IsSpelled, KeepsRules, is_encoded, is_one};
ghost use Rattle.sccs_grammar.specs.Front.{header_of, is_whole, line_after, start};
ghost use Rattle.sccs_table.specs.FrontFile.{AnswersFront, AnswersLine, ChecksSum, IsFirst, IsPlaced, Opens, Reads};
ghost use Rattle.sccs_table.specs.FrontFile.{ReadsDisk, ReadsLine, ReadsOn, SumLine, read_as};
ghost use Rattle.sccs_table.specs.ReaderState.{StandsIn, Stays, behind_sum, bytes_in, file_in};

use crate::line_readers::LineReader;
use crate::piece_marks::LineEnds;
use crate::sums::Sum;
use sccs_base::{FILE_LIMIT, Name};
use sccs_disk::Disk;
use sccs_grammar::{FileFault, HeaderParser, HeaderState, PartialHeader, accept};
use sccs_history::{Flag, Header};
use sccs_sid::reading::number;
use sccs_tokens::tokenize_line;
use std::alloc::Global;

/// All of an s-file but its body.
#[derive(Drop)]
pub struct Front {
    pub header: Header,
    /// The place of the body's first byte, from 0.
    pub body_from: u64,
    /// The number of the body's first line, from 1.
    pub body_line: u64,
    /// The length of the file.
    pub size: u64,
    /// The plain sum of all bytes after the first line.
    pub sum: u16,
}

// the stored sum that a line is: SOH, `h` and five digits
#[tactic(auto, unfolding(sccs_grammar::specs::File::stored))]
fn stored(line: &[u8]) -> Option<u32>
    ensures { result ≡ stored line.now }
{
    let [1, b'h', digits @ ..] = line else {
        return None;
    };
    if digits.len() == 5 {
        number(5, digits)
    } else {
        None
    }
}

// whether a line ended the header
fn is_whole(parser: &HeaderParser) -> bool
    ensures { result ≡ is_whole parser.now.state }
{
    match parser.state {
        HeaderState::AtBody => true,
        _ => false,
    }
}

// reads on with a line of that number
fn with_line(
    alloc: Global,
    number: u64,
    parser: &mut HeaderParser,
    line: &[u8],
) -> Result<(), FileFault>
    requires { HasNoLf line.now }
    ensures { AnswersLine (line_after number parser.old line.now) (read_as parser.new result) }
{
    match tokenize_line(alloc, line) {
        Ok(Some(token)) => {
            accept(alloc, number, parser, token)?;
            Ok(())
        }
        Ok(None) => Err(FileFault::BadFormat(number)),
        Err(_) => Err(FileFault::Memory),
    }
}

// reads on with the next line of that number, which is not held whole
#[inline(never)]
fn across_pieces<D: Disk>(
    alloc: Global,
    disk: &mut D,
    reader: &mut LineReader,
    number: u64,
    parser: &mut HeaderParser,
) -> Result<(), FileFault>
    ensures { ReadsLine D.told D.faults disk.old disk.new reader.old reader.new number parser.old parser.new result }
{
    let mut line = Vec::new(alloc);
    if reader.next_line(disk, &mut line)? {
        with_line(alloc, number, parser, line.as_slice())
    } else {
        Err(FileFault::BadFormat(number))
    }
}

// reads on with the next line of that number
fn next_line_parsed<D: Disk>(
    alloc: Global,
    disk: &mut D,
    reader: &mut LineReader,
    number: u64,
    parser: &mut HeaderParser,
) -> Result<(), FileFault>
    ensures { ReadsLine D.told D.faults disk.old disk.new reader.old reader.new number parser.old parser.new result }
{
    let Some(line) = reader.held_line() else {
        return across_pieces(alloc, disk, reader, number, parser);
    };
    let count = line.len();
    let read = with_line(alloc, number, parser, line);
    reader.pass_line(count);
    read
}

// the header that was read
fn header_of(parser: HeaderParser) -> Header
    ensures { result ≡ header_of parser }
{
    let HeaderParser { state: _, parts } = parser;
    let PartialHeader {
        table,
        users,
        flags,
        description,
    } = parts;
    Header {
        records: table.into_records(),
        users,
        flags,
        description,
    }
}

/// The header that the lines from a reader's place on make, the first of them being line 2, and
/// the number of the line behind it.
pub fn read_lines<D: Disk>(
    alloc: Global,
    disk: &mut D,
    reader: &mut LineReader,
) -> Result<(Header, u64), FileFault>
    requires { reader.old.limit ≤ 1073741825 }
    ensures frame { ReadsOn D.told D.faults disk.old disk.new reader.old reader.new result }
    ensures first { IsFirst result }
    ensures stays { Stays (bytes_in (seen (D.told disk.old)) reader.old.name) reader.old reader.new }
    ensures number { IfOk result (λ found. found.1 ≤ reader.new.place + 2) }
    ensures rules { IfOk result (λ found. KeepsRules found.0) }
    ensures spelled { IfOk result (λ found. IsSpelled found.0) }
    ensures told { Reads (bytes_in (seen (D.told disk.old)) reader.old.name) reader.old reader.new start 2 result }
{
    let mut number = 2;
    let mut parser = HeaderParser::new(alloc);
    'lines: loop {
        next_line_parsed(alloc, disk, reader, number, &mut parser)?;
        number += 1;
        if is_whole(&parser) {
            return Ok((header_of(parser), number));
        }
    }
}

/// The length of a file that is there and within the limit of 1,073,741,824 bytes; else `Missing` or
/// `TooLong`.
pub fn open_file<D: Disk>(disk: &mut D, name: &Name) -> Result<u64, FileFault>
    ensures frame { ReadsDisk D.told D.faults disk.old disk.new result }
    ensures first { IsFirst result }
    ensures limit { IfOk result (λ size. size ≤ 1073741824) }
    ensures told { Opens (seen (D.told disk.old)) name.now result }
{
    match disk.size(name) {
        Ok(Some(size)) => {
            if size > FILE_LIMIT {
                Err(FileFault::TooLong)
            } else {
                Ok(size)
            }
        }
        Ok(None) => Err(FileFault::Missing),
        Err(_) => Err(FileFault::Failed),
    }
}

/// The stored sum of a file at whose front a reader stands, which then stands behind the sum line;
/// `NotSccs` where that isn't the first line.
pub fn read_sum<D: Disk>(
    alloc: Global,
    disk: &mut D,
    reader: &mut LineReader,
) -> Result<u32, FileFault>
    requires { reader.old.place ≡ 0 }
    ensures frame { ReadsOn D.told D.faults disk.old disk.new reader.old reader.new result }
    ensures first { IsFirst result }
    ensures stays { Stays (bytes_in (seen (D.told disk.old)) reader.old.name) reader.old reader.new }
    ensures place { OnOk result (reader.new.place ≡ 8) }
    ensures told { SumLine (bytes_in (seen (D.told disk.old)) reader.old.name) reader.old reader.new result }
{
    let mut line = Vec::new(alloc);
    if !reader.next_line(disk, &mut line)? {
        return Err(FileFault::NotSccs);
    }
    match stored(line.as_slice()) {
        Some(sum) => Ok(sum),
        None => Err(FileFault::NotSccs),
    }
}

// whether a stored sum is the plain or the signed one
fn sum_fits(stored: u32, sum: &Sum) -> bool
    ensures { result ≡ ((stored == sum.now.0) || (stored == sum.now.1)) }
{
    stored == u32::from(sum.plain()) || stored == u32::from(sum.signed())
}

/// Reads on to the end of a file, and answers the plain sum of all bytes behind the sum line;
/// `BadSum` where a stored sum is neither this nor the signed one, for which they are read once more.
pub fn check_sum<D: Disk>(
    disk: &mut D,
    reader: &mut LineReader,
    stored: u32,
) -> Result<u16, FileFault>
    requires { 8 ≤ reader.old.limit }
    ensures frame { ReadsDisk D.told D.faults disk.old disk.new result }
    ensures first { IsFirst result }
    ensures told { (file : List ℕ) → bytes_in (seen (D.told disk.old)) reader.old.name ≡ Some file → 8 ≤ length file
        → StandsIn reader.old file
        → ChecksSum stored (behind_sum file) result }
{
    let end = reader.limit();
    reader.skip_to(disk, end)?;
    let plain = reader.sum();
    if stored == u32::from(plain) {
        return Ok(plain);
    }
    let sums = reader.again().sum_left(disk)?;
    if sum_fits(stored, &sums) {
        Ok(plain)
    } else {
        Err(FileFault::BadSum(stored, plain))
    }
}

/// The front of a file, whatever its flags say of the body.
pub fn check_front<D: Disk>(alloc: Global, disk: &mut D, name: &Name) -> Result<Front, FileFault>
    ensures frame { ReadsDisk D.told D.faults disk.old disk.new result }
    ensures first { IsFirst result }
    ensures placed { IfOk result IsPlaced }
    ensures rules { IfOk result (λ front. KeepsRules front.header) }
    ensures spelled { IfOk result (λ front. IsSpelled front.header) }
    ensures told { IfSome (seen (D.told disk.old)) (λ view. AnswersFront (file_in view name.now) checked_front result) }
{
    let size = open_file(disk, name)?;
    let mut reader = LineReader::new(name, 0, size, LineEnds::Unasked);
    let stored = read_sum(alloc, disk, &mut reader)?;
    let found = read_lines(alloc, disk, &mut reader);
    let body_from = reader.place();
    let sum = check_sum(disk, &mut reader, stored)?;
    let (header, body_line) = found?;
    Ok(Front {
        header,
        body_from,
        body_line,
        size,
        sum,
    })
}

/// Reads sum line, delta table, users, flags and description of an s-file, and checks the sum over
/// the whole file: sccsfile(4). The fault is the first that holds in the order of `FileFault`.
pub fn read_header<D: Disk>(alloc: Global, disk: &mut D, name: &Name) -> Result<Front, FileFault>
    ensures frame { ReadsDisk D.told D.faults disk.old disk.new result }
    ensures first { IsFirst result }
    ensures placed { IfOk result IsPlaced }
    ensures rules { IfOk result (λ front. IsHeader front.header) }
    ensures spelled { IfOk result (λ front. IsSpelled front.header) }
    ensures told { IfSome (seen (D.told disk.old)) (λ view. AnswersFront (file_in view name.now) front_of result) }
{
    let front = check_front(alloc, disk, name)?;
    if is_encoded(front.header.flags.items()) {
        Err(FileFault::Encoded)
    } else {
        Ok(front)
    }
}

/// Whether a flag e has the text `1`, which says that the body is encoded.
pub fn is_encoded(flags: &[Flag]) -> bool
    ensures { result ≡ is_encoded flags.now }
{
    flags
        .iter()
        .any(|f| f.letter == b'e' && is_one(f.text.bytes()))
}

fn is_one(text: &[u8]) -> bool
    ensures { result ≡ is_one text.now }
{
    match text {
        [byte] => *byte == b'1',
        _ => false,
    }
}
