ghost use Rattle.std.specs.Prelude.{◌≡◌, ◌≤◌, ◌||◌, ◌++◌, ℕ, suc, List, Bool, [], ◌∷◌, false, true, None, Some, Option};
ghost use Rattle.std.specs.Prelude.{Result, IfOk, OnOk};
ghost use Rattle.std.specs.Str.{bytes_eq};
ghost use Rattle.sccs_disk.specs.Told.{seen};
ghost use Rattle.sccs_table.specs.FrontFile.{ReadsDisk};
ghost use Rattle.sccs_table.specs.ReaderState.{bytes_in};
ghost use Rattle.sccs_copies.specs.Copies.{IsOuterResult};
ghost use Rattle.sccs_copies.specs.Examining.{KeepsFound, KeepsLines, ComparesOn, difference, GComes, GivesGLine};
ghost use Rattle.sccs_copies.specs.Examining.{IsBefore, LinesLeft, SeesAll, has_keyword};

use sccs_base::{Line, Name};
use sccs_disk::Disk;
use sccs_grammar::FileFault;
use sccs_keywords::has_keyword;
use sccs_table::{LineEnds, LineReader, READ_LIMIT};
use std::alloc::Global;

/// What is known of the lines of a text that went by: whether one has a keyword, and, where they are compared
/// with a g-file, where that stands, whether all its lines went by, how many were equal, and the number of the
/// first that differs.
#[derive(Drop)]
pub struct ResultCheck {
    pub keyword: bool,
    pub compares: bool,
    pub lines: LineReader,
    pub over: bool,
    pub number: u64,
    pub differs: Option<u64>,
}

impl ResultCheck {
    /// Before all lines.
    pub fn new(g_file: &Name, compares: bool) -> ResultCheck
        ensures { IsBefore g_file.now compares result }
    {
        ResultCheck {
            keyword: false,
            compares,
            lines: LineReader::new(g_file, 0, READ_LIMIT, LineEnds::Unasked),
            over: false,
            number: 0,
            differs: None,
        }
    }
}

// appends the next line of the g-file to an empty one; false where none is left
fn next_line<D: Disk>(
    check: &mut ResultCheck,
    line: &mut Vec<u8>,
    disk: &mut D,
) -> Result<bool, FileFault>
    requires { line.old.items ≡ [] }
    ensures frame { ReadsDisk D.told D.faults disk.old disk.new result }
    ensures outer { IsOuterResult result }
    ensures keeps { KeepsFound check.old check.new }
    ensures told { (file : List ℕ) (rest : List (List ℕ)) → bytes_in (seen (D.told disk.old)) check.old.lines.name
        ≡ Some file
        → LinesLeft file check.old rest check.old.over → IfOk result (GivesGLine file check.new rest line.new.items) }
{
    if check.over {
        return Ok(false);
    }
    if check.lines.next_line(disk, line)? {
        return Ok(true);
    }
    check.over = true;
    Ok(!line.is_empty())
}

// whether a line is that of the g-file, where this has one
fn note_line(check: &mut ResultCheck, there: bool, other: &[u8], line: &[u8])
    requires { check.old.differs ≡ None }
    ensures keeps { KeepsLines check.old check.new }
    ensures more { check.old.number ≤ 1073741825 → there ≡ true → bytes_eq line.now other.now ≡ true
        → (check.new.number ≡ suc check.old.number) × (check.new.differs ≡ None) }
    ensures other { check.old.number ≤ 1073741825 → there ≡ true → bytes_eq line.now other.now ≡ false
        → (check.new.number ≡ check.old.number) × (check.new.differs ≡ Some (suc check.old.number)) }
    ensures none { check.old.number ≤ 1073741825 → there ≡ false → (check.new.number ≡ check.old.number)
        × (check.new.differs ≡ Some (suc check.old.number)) }
{
    let number = check.number.saturating_add(1);
    if there && line == other {
        check.number = number;
    } else {
        check.differs = Some(number);
    }
}

// compares the next line with that of the g-file
fn compare<D: Disk>(
    alloc: Global,
    check: &mut ResultCheck,
    line: &[u8],
    disk: &mut D,
) -> Result<(), FileFault>
    ensures frame { ReadsDisk D.told D.faults disk.old disk.new result }
    ensures outer { IsOuterResult result }
    ensures keyword { check.new.keyword ≡ check.old.keyword }
    ensures compares { check.new.compares ≡ check.old.compares }
    ensures name { check.new.lines.name ≡ check.old.lines.name }
    ensures told { (file : List ℕ) (rest : List (List ℕ)) → bytes_in (seen (D.told disk.old)) check.old.lines.name
        ≡ Some file
        → GComes file check.old rest → OnOk result (ComparesOn file (line.now ∷ []) check.old check.new rest) }
{
    if check.differs.is_some() {
        return Ok(());
    }
    let mut other = Vec::new(alloc);
    let there = next_line(check, &mut other, disk)?;
    note_line(check, there, other.as_slice(), line);
    Ok(())
}

// whether a line before has a keyword, or this one
fn sees_keyword(before: bool, line: &[u8]) -> bool
    ensures { result ≡ (before || has_keyword line.now) }
{
    before || has_keyword(line)
}

/// A line of the text goes by.
pub fn see_line<D: Disk>(
    alloc: Global,
    check: &mut ResultCheck,
    line: &[u8],
    disk: &mut D,
) -> Result<(), FileFault>
    ensures frame { ReadsDisk D.told D.faults disk.old disk.new result }
    ensures sees { SeesAll (bytes_in (seen (D.told disk.old)) check.old.lines.name) (line.now ∷ []) check.old check.new
        result }
    ensures name { check.new.lines.name ≡ check.old.lines.name }
{
    check.keyword = sees_keyword(check.keyword, line);
    if check.compares {
        compare(alloc, check, line, disk)
    } else {
        Ok(())
    }
}

/// Lines of the text go by.
pub fn see_lines<D: Disk>(
    alloc: Global,
    check: &mut ResultCheck,
    lines: &[Line],
    disk: &mut D,
) -> Result<(), FileFault>
    ensures frame { ReadsDisk D.told D.faults disk.old disk.new result }
    ensures sees { SeesAll (bytes_in (seen (D.told disk.old)) check.old.lines.name) lines.now check.old check.new
        result }
    ensures name { check.new.lines.name ≡ check.old.lines.name }
{
    for line in lines {
        see_line(alloc, check, line.bytes(), disk)?;
    }
    Ok(())
}

/// The number, from 1, of the first line at which text and g-file differ, or the number of lines of the
/// shorter one plus 1; None where they are equal, or aren't compared.
pub fn first_difference<D: Disk>(
    alloc: Global,
    compares: bool,
    check: &mut ResultCheck,
    disk: &mut D,
) -> Result<Option<u64>, FileFault>
    ensures frame { ReadsDisk D.told D.faults disk.old disk.new result }
    ensures outer { IsOuterResult result }
    ensures keyword { check.new.keyword ≡ check.old.keyword }
    ensures alone { compares ≡ false → IfOk result (λ found. found ≡ None) }
    ensures told { (file : List ℕ) (rest : List (List ℕ)) → bytes_in (seen (D.told disk.old)) check.old.lines.name
        ≡ Some file
        → compares ≡ true → GComes file check.old rest
        → IfOk result (λ found. found ≡ difference check.old.differs check.old.number [] rest) }
{
    if !compares {
        return Ok(None);
    }
    if check.differs.is_some() {
        return Ok(check.differs);
    }
    let mut other = Vec::new(alloc);
    if next_line(check, &mut other, disk)? {
        Ok(Some(check.number.saturating_add(1)))
    } else {
        Ok(None)
    }
}
