ghost use Rattle.std.specs.Prelude.{◌≡◌, [], not};
ghost use Rattle.sccs_disk.specs.Calls.{IsThere};
ghost use Rattle.sccs_history.specs.Numbers.{front_if};
ghost use Rattle.sccs_history.specs.declared.headers.Item.TheVariants.{Delete, End};
ghost use Rattle.sccs_new_files.specs.Writing.{body_bytes};
ghost use Rattle.sccs_rcs.specs.RunItems.{between_regions, is_same, region_behind, region_of, run_items};
ghost use Rattle.sccs_trunks.specs.Runs.{run_lines};
ghost use Rattle.sccs_trunks.specs.TrunkItems.{closes, items_of, opens};
ghost use Rattle.sccs_trunks.specs.Trunks.{is_zero};
ghost use Rattle.sccs_writers.specs.Puts.{PutsText};

use sccs_disk::{Disk, DiskRefusal};
use sccs_history::Item;
use sccs_new_files::NewBody;
use sccs_trunks::LineRun;
use sccs_writers::ItemWriter;

/// The inserter and the deleter of a line, each 0 where there is none.
#[derive(Clone, Copy)]
pub struct Region {
    pub(crate) inserter: u16,
    pub(crate) deleter: u16,
}

/// The body of a new s-file that has the lines of runs, each longest run with the same inserter and deleter in
/// regions of its own.
#[derive(Clone, Copy)]
pub struct RunsBody<'a> {
    pub runs: &'a [LineRun<'a>],
}

// puts what begins a deletion, where there is one
fn put_delete<D: Disk>(deleter: u16, out: &mut ItemWriter, disk: &mut D) -> Result<(), DiskRefusal>
    requires { IsThere out.old.name (D.told disk.old) }
    ensures { PutsText (body_bytes (front_if (not (is_zero deleter)) (Delete deleter) [])) out.old out.new
        (D.told disk.old) (D.told disk.new) (D.faults disk.old) (D.faults disk.new) result }
{
    if deleter == 0 {
        return Ok(());
    }
    out.put(disk, &Item::Delete(deleter))
}

// puts what ends a deletion, where there is one
fn put_end<D: Disk>(deleter: u16, out: &mut ItemWriter, disk: &mut D) -> Result<(), DiskRefusal>
    requires { IsThere out.old.name (D.told disk.old) }
    ensures { PutsText (body_bytes (front_if (not (is_zero deleter)) (End deleter) [])) out.old out.new
        (D.told disk.old) (D.told disk.new) (D.faults disk.old) (D.faults disk.new) result }
{
    if deleter == 0 {
        return Ok(());
    }
    out.put(disk, &Item::End(deleter))
}

// puts what stands before the lines of a region
fn put_opens<D: Disk>(region: Region, out: &mut ItemWriter, disk: &mut D) -> Result<(), DiskRefusal>
    requires { IsThere out.old.name (D.told disk.old) }
    ensures { PutsText (body_bytes (opens region.inserter region.deleter)) out.old out.new
        (D.told disk.old) (D.told disk.new) (D.faults disk.old) (D.faults disk.new) result }
{
    out.put(disk, &Item::Insert(region.inserter))?;
    put_delete(region.deleter, out, disk)
}

// puts what stands behind the lines of a region
fn put_closes<D: Disk>(
    region: Region,
    out: &mut ItemWriter,
    disk: &mut D,
) -> Result<(), DiskRefusal>
    requires { IsThere out.old.name (D.told disk.old) }
    ensures { PutsText (body_bytes (closes region.inserter region.deleter)) out.old out.new
        (D.told disk.old) (D.told disk.new) (D.faults disk.old) (D.faults disk.new) result }
{
    if region.inserter == 0 {
        return Ok(());
    }
    put_end(region.deleter, out, disk)?;
    out.put(disk, &Item::End(region.inserter))
}

// whether lines of two regions stand in one
fn is_same(last: Region, next: Region) -> bool
    ensures { result ≡ is_same last next }
{
    next.inserter == last.inserter && next.deleter == last.deleter
}

// puts what stands between the lines of two regions
fn put_between<D: Disk>(
    last: Region,
    next: Region,
    out: &mut ItemWriter,
    disk: &mut D,
) -> Result<(), DiskRefusal>
    requires { IsThere out.old.name (D.told disk.old) }
    ensures { PutsText (body_bytes (between_regions last next)) out.old out.new
        (D.told disk.old) (D.told disk.new) (D.faults disk.old) (D.faults disk.new) result }
{
    if is_same(last, next) {
        return Ok(());
    }
    put_closes(last, out, disk)?;
    put_opens(next, out, disk)
}

// the region of the lines of a run
fn region_of(run: &LineRun) -> Region
    ensures { result ≡ region_of run.now }
{
    Region {
        inserter: run.inserter,
        deleter: run.deleter,
    }
}

// puts the lines of a run, and what stands between the last line before it and them
fn put_run<D: Disk>(
    last: Region,
    run: &LineRun,
    out: &mut ItemWriter,
    disk: &mut D,
) -> Result<(), DiskRefusal>
    requires { IsThere out.old.name (D.told disk.old) }
    ensures { PutsText (body_bytes (run_items last run.now)) out.old out.new
        (D.told disk.old) (D.told disk.new) (D.faults disk.old) (D.faults disk.new) result }
{
    if run.lines.is_empty() {
        return Ok(());
    }
    put_between(last, region_of(run), out, disk)?;
    out.put_lines(disk, run.lines)
}

// the region of the last line behind a run
fn region_behind(last: Region, run: &LineRun) -> Region
    ensures { result ≡ region_behind last run.now }
{
    if run.lines.is_empty() {
        return last;
    }
    region_of(run)
}

// puts the lines of runs, in their regions
fn put_runs<D: Disk>(
    runs: &[LineRun],
    out: &mut ItemWriter,
    disk: &mut D,
) -> Result<(), DiskRefusal>
    requires { IsThere out.old.name (D.told disk.old) }
    ensures { PutsText (body_bytes (items_of (run_lines runs.now))) out.old out.new
        (D.told disk.old) (D.told disk.new) (D.faults disk.old) (D.faults disk.new) result }
{
    let mut last = Region {
        inserter: 0,
        deleter: 0,
    };
    for run in runs {
        if let Err(fault) = put_run(last, run, out, disk) {
            return Err(fault);
        }
        last = region_behind(last, run);
    }
    put_closes(last, out, disk)
}

impl<'a> NewBody for RunsBody<'a> {
    ghost items = { λ body. items_of (run_lines body.runs.now) };

    fn put<D: Disk>(&self, out: &mut ItemWriter, disk: &mut D) -> Result<(), DiskRefusal> {
        put_runs(self.runs, out, disk)
    }
}
