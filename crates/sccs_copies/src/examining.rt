ghost use Rattle.std.specs.Prelude.{◌≡◌, ◌≢◌, ◌+◌, ◌<◌, ◌≤◌, ◌^◌, ℕ, suc, List, [], Bool, true, false, None, Some};
ghost use Rattle.std.specs.Prelude.{Option, IfOk, OnOk, drop, length};
ghost use Rattle.sccs_base.specs.Constants.{file_limit};
ghost use Rattle.sccs_base.specs.Name.{IsSFileName};
ghost use Rattle.sccs_disk.specs.Told.{seen};
ghost use Rattle.sccs_script_laws.specs.Plans.{IsInOrder};
ghost use Rattle.sccs_history.specs.Body.{HistoryLine, lines_of};
ghost use Rattle.sccs_history.specs.Numbers.{front_if};
ghost use Rattle.sccs_history.specs.Select.{select};
ghost use Rattle.sccs_history.specs.declared.headers.Item.{Item};
ghost use Rattle.sccs_table.specs.FrontFile.{ReadsDisk};
ghost use Rattle.sccs_table.specs.ReaderState.{bytes_in};
ghost use Rattle.sccs_versions.specs.Coming.{Coming, IsBody, shown};
ghost use Rattle.sccs_versions.specs.Place.{name_of, steps_to_end};
ghost use Rattle.sccs_copies.specs.Examining.{Examines, ExaminesAll, ExaminesNext, IsBefore, SeesAll, line_result};

use crate::result_checks::{ResultCheck, first_difference, see_line, see_lines};
use sccs_base::{FILE_LIMIT, Line, Name};
use sccs_disk::Disk;
use sccs_grammar::FileFault;
use sccs_script_laws::Plan;
use sccs_sets::Applied;
use sccs_splicer::PlanPlace;
use sccs_table::Front;
use sccs_versions::{Next, VersionReader};
use std::alloc::Global;

/// What a reading found: how many lines the base has, whether a line of the result has a keyword, and the
/// number of the first line at which a g-file differs from the result.
#[derive(Clone, Copy)]
pub struct Found {
    pub lines: u64,
    pub keyword: bool,
    pub differs: Option<u64>,
}

// a line of the base goes by, where it is kept
fn see_kept<D: Disk>(
    alloc: Global,
    kept: bool,
    check: &mut ResultCheck,
    line: &[u8],
    disk: &mut D,
) -> Result<(), FileFault>
    ensures frame { ReadsDisk D.told D.faults disk.old disk.new result }
    ensures sees { SeesAll (bytes_in (seen (D.told disk.old)) check.old.lines.name) (front_if kept line.now [])
        check.old check.new result }
    ensures name { check.new.lines.name ≡ check.old.lines.name }
{
    if kept {
        see_line(alloc, check, line, disk)
    } else {
        Ok(())
    }
}

// what the plan makes of the next line of the base goes by
fn see_base<D: Disk>(
    alloc: Global,
    at: &mut PlanPlace,
    check: &mut ResultCheck,
    line: &Line,
    disk: &mut D,
) -> Result<(), FileFault>
    requires { at.old.line + 1 < 2 ^ 64 }
    ensures frame { ReadsDisk D.told D.faults disk.old disk.new result }
    ensures sees { SeesAll (bytes_in (seen (D.told disk.old)) check.old.lines.name)
        (line_result at.old.plan (suc at.old.line) line.now) check.old check.new result }
    ensures name { check.new.lines.name ≡ check.old.lines.name }
    ensures line { OnOk result (at.new.line ≡ suc at.old.line) }
    ensures plan { at.new.plan ≡ at.old.plan }
{
    see_kept(alloc, !at.deletes_next(), check, line.bytes(), disk)?;
    at.advance();
    see_lines(alloc, check, at.new_lines(), disk)
}

// the next line of the base goes by; false at the end of the body. No file has more lines than bytes.
fn see_next<D: Disk>(
    alloc: Global,
    version: &mut VersionReader<'_>,
    at: &mut PlanPlace,
    check: &mut ResultCheck,
    disk: &mut D,
) -> Result<bool, FileFault>
    requires { at.old.line ≤ file_limit }
    ensures frame { ReadsDisk D.told D.faults disk.old disk.new result }
    ensures name { check.new.lines.name ≡ check.old.lines.name }
    ensures read { name_of version.new ≡ name_of version.old }
    ensures plan { at.new.plan ≡ at.old.plan }
    ensures few { OnOk result (at.new.line ≤ file_limit) }
    ensures further { IfOk result (λ more. more ≡ true → steps_to_end version.new < steps_to_end version.old) }
    ensures told { (file : List ℕ) (lines : List HistoryLine) → bytes_in (seen (D.told disk.old)) (name_of version.old)
        ≡ Some file
        → Coming file version.old lines → at.old.line + length lines ≤ file_limit
        → ExaminesNext file version.new (bytes_in (seen (D.told disk.old)) check.old.lines.name) lines at.old at.new
        check.old check.new result }
{
    match version.next(disk)? {
        Next::Line(line) => {
            if at.line() == FILE_LIMIT {
                return Ok(true);
            }
            see_base(alloc, at, check, &line, disk)?;
            Ok(true)
        }
        Next::Hidden => Ok(true),
        Next::End => Ok(false),
    }
}

// all lines of the base go by
fn see_all<D: Disk>(
    alloc: Global,
    version: &mut VersionReader<'_>,
    at: &mut PlanPlace,
    check: &mut ResultCheck,
    disk: &mut D,
) -> Result<(), FileFault>
    requires { at.old.line ≤ file_limit }
    ensures frame { ReadsDisk D.told D.faults disk.old disk.new result }
    ensures name { check.new.lines.name ≡ check.old.lines.name }
    ensures few { OnOk result (at.new.line ≤ file_limit) }
    ensures told { (file : List ℕ) (lines : List HistoryLine) → bytes_in (seen (D.told disk.old)) (name_of version.old)
        ≡ Some file
        → Coming file version.old lines → at.old.line + length lines ≤ file_limit
        → ExaminesAll (bytes_in (seen (D.told disk.old)) check.old.lines.name) lines at.old at.new check.old check.new
        result }
{
    'lines: loop {
        if !see_next(alloc, version, at, check, disk)? {
            return Ok(());
        }
    }
}

// what is found of a base and of a text of which no line went by yet
fn examine_all<D: Disk>(
    alloc: Global,
    version: &mut VersionReader<'_>,
    at: &mut PlanPlace,
    compares: bool,
    check: &mut ResultCheck,
    disk: &mut D,
) -> Result<Found, FileFault>
    requires { at.old.line ≡ 0 }
    ensures frame { ReadsDisk D.told D.faults disk.old disk.new result }
    ensures few { IfOk result (λ found. found.lines ≤ file_limit) }
    ensures alone { compares ≡ false → IfOk result (λ found. found.differs ≡ None) }
    ensures told { (file set g : List ℕ) (lines : List HistoryLine) → bytes_in (seen (D.told disk.old))
        (name_of version.old) ≡ Some file
        → Coming file version.old (shown set lines) → length (shown set lines) ≤ file_limit
        → IsBefore g compares check.old
        → Examines (bytes_in (seen (D.told disk.old)) g) at.old.plan (select set lines) compares result }
{
    see_lines(alloc, check, at.new_lines(), disk)?;
    see_all(alloc, version, at, check, disk)?;
    let differs = first_difference(alloc, compares, check, disk)?;
    Ok(Found {
        lines: at.line(),
        keyword: check.keyword,
        differs,
    })
}

/// Reads the base of a plan once, that is the lines that a set shows of a body: counts them, looks for a
/// keyword in what the plan makes of them, and compares this with a g-file.
pub fn examine<D: Disk>(
    alloc: Global,
    name: &Name,
    front: &Front,
    set: &Applied,
    plan: Plan,
    compares: bool,
    disk: &mut D,
) -> Result<Found, FileFault>
    requires sfile { IsSFileName name.now }
    requires order { IsInOrder plan }
    ensures frame { ReadsDisk D.told D.faults disk.old disk.new result }
    ensures few { IfOk result (λ found. found.lines ≤ file_limit) }
    ensures alone { compares ≡ false → IfOk result (λ found. found.differs ≡ None) }
    ensures told { (file : List ℕ) (items : List Item) → IsBody (bytes_in (seen (D.told disk.old)) name.now) front.now
        set.now file items
        → Examines (bytes_in (seen (D.told disk.old)) (drop 2 name.now)) plan (select set.now (lines_of items)) compares
        result }
{
    let Ok(mut version) = VersionReader::new(alloc, name, front, set) else {
        return Err(FileFault::Memory);
    };
    let mut at = PlanPlace::new(plan);
    let mut check = ResultCheck::new(&name.module(), compares);
    examine_all(alloc, &mut version, &mut at, compares, &mut check, disk)
}
