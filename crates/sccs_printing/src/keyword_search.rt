ghost use Rattle.std.specs.Prelude.{◌≡◌, ◌<◌, ◌≤◌, ℕ, List, Some, IfOk, IfSome};
ghost use Rattle.sccs_disk.specs.Told.{seen};
ghost use Rattle.sccs_history.specs.Body.{HistoryLine, lines_of};
ghost use Rattle.sccs_history.specs.declared.headers.Item.{Item};
ghost use Rattle.sccs_steps.specs.Actions.{RefusesWithin};
ghost use Rattle.sccs_steps.specs.Causes.{PrintCauses};
ghost use Rattle.sccs_table.specs.ReaderState.{bytes_in};
ghost use Rattle.sccs_versions.specs.Coming.{Coming, IsBody, shown};
ghost use Rattle.sccs_versions.specs.Place.{name_of, steps_to_end};
ghost use Rattle.sccs_printing.specs.Printing.{file_checks};
ghost use Rattle.sccs_printing.specs.Searching.{Searched, SearchesKeywords, SearchesNextLine};

use sccs_base::Name;
use sccs_disk::Disk;
use sccs_keywords::has_keyword;
use sccs_sets::Applied;
use sccs_sid::StepFault;
use sccs_table::Front;
use sccs_versions::{Next, VersionReader};
use std::alloc::Global;

// whether the lines that are held whole have a keyword; they are passed over
fn search_run(version: &mut VersionReader<'_>) -> bool
    ensures name { name_of version.new ≡ name_of version.old }
    ensures left { steps_to_end version.new ≤ steps_to_end version.old }
    ensures told { (file : List ℕ) (lines : List HistoryLine) → Coming file version.old lines
        → Searched file version.new lines result }
{
    let texts = version.texts();
    let count = texts.len();
    let some = has_keyword(texts);
    version.pass(count);
    some
}

// whether the next line has a keyword; None at the end of the body
fn search_next<D: Disk>(
    version: &mut VersionReader<'_>,
    disk: &mut D,
) -> Result<Option<bool>, StepFault>
    ensures same { D.told disk.new ≡ D.told disk.old }
    ensures causes { (out : ℕ) → PrintCauses result out out (D.faults disk.old) (D.faults disk.new) }
    ensures checks { RefusesWithin file_checks result }
    ensures name { name_of version.new ≡ name_of version.old }
    ensures further { IfOk result (λ more. IfSome more (λ _. steps_to_end version.new < steps_to_end version.old)) }
    ensures told { (file : List ℕ) (lines : List HistoryLine) → bytes_in (seen (D.told disk.old)) (name_of version.old)
        ≡ Some file → Coming file version.old lines
        → SearchesNextLine file version.new lines result }
{
    match version.next(disk)? {
        Next::Line(line) => Ok(Some(has_keyword(line.bytes()))),
        Next::Hidden => Ok(Some(false)),
        Next::End => Ok(None),
    }
}

// searches all lines that are to come
fn search_all<D: Disk>(version: &mut VersionReader<'_>, disk: &mut D) -> Result<bool, StepFault>
    ensures same { D.told disk.new ≡ D.told disk.old }
    ensures causes { (out : ℕ) → PrintCauses result out out (D.faults disk.old) (D.faults disk.new) }
    ensures checks { RefusesWithin file_checks result }
    ensures told { (file : List ℕ) (lines : List HistoryLine) → bytes_in (seen (D.told disk.old)) (name_of version.old)
        ≡ Some file → Coming file version.old lines
        → SearchesKeywords lines result }
{
    let mut found = false;
    'lines: loop {
        let run = search_run(version);
        match search_next(version, disk)? {
            Some(some) => found = found | run | some,
            None => return Ok(found | run),
        }
    }
}

/// Whether a line of the version that a set shows of a body has a keyword: POSIX get, "Identification
/// Keywords". The body is read to its end, and nothing is given.
pub fn has_keywords<D: Disk>(
    alloc: Global,
    name: &Name,
    front: &Front,
    set: &Applied,
    disk: &mut D,
) -> Result<bool, StepFault>
    ensures same { D.told disk.new ≡ D.told disk.old }
    ensures causes { (out : ℕ) → PrintCauses result out out (D.faults disk.old) (D.faults disk.new) }
    ensures checks { RefusesWithin file_checks result }
    ensures told { (file : List ℕ) (items : List Item)
        → IsBody (bytes_in (seen (D.told disk.old)) name.now) front.now set.now file items
        → SearchesKeywords (shown set.now (lines_of items)) result }
{
    let Ok(mut version) = VersionReader::new(alloc, name, front, set) else {
        return Err(StepFault::Memory);
    };
    search_all(&mut version, disk)
}
