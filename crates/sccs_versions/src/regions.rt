ghost use Rattle.std.specs.Prelude.{◌≡◌, ◌≤◌, ◌↔◌, [], ◌∷◌, Some, not, ◌&&◌, length, if◌then◌else◌, IfOk, IsTrue, OnOk};
ghost use Rattle.std.specs.Prelude.{OnErr};
ghost use Rattle.std.specs.List.Sorted.{IsSearchInRange};
ghost use Rattle.sccs_versions.specs.Regions.{AreSorted, regions_after, without_region, first_insert, keeps};
ghost use Rattle.sccs_versions.specs.Regions.{with_region};
ghost use Rattle.sccs_versions.specs.Stacks.{AreAnswered, after_first_region, first_serial, IsLow, IsPlace, stacked};

use sccs_history::Item;
use sccs_sets::Applied;
use std::alloc::AllocError;

/// An open region: its serial, whether it was opened by Insert, and whether its serial is applied.
#[derive(Clone, Copy, Debug, PartialEq, Eq)]
pub struct Region {
    pub serial: u16,
    pub inserts: bool,
    pub applied: bool,
}

// whether lines are kept in a region, where those of smaller serials say `below`
#[inline(always)]
fn keeps_above(region: Region, below: bool) -> bool
    ensures { result ≡ (if region.inserts then region.applied else (not region.applied && below)) }
{
    if region.inserts {
        region.applied
    } else {
        !region.applied & below
    }
}

/// Whether lines are kept: the inserter is applied, and no greater serial that is open by Delete.
/// The greatest serial stands last.
#[inline(always)]
pub fn keeps(regions: &[Region]) -> bool
    ensures { result ≡ keeps (stacked [] regions.now) }
{
    let mut left = regions.len();
    'regions: while left > 0 {
        left -= 1;
        let region = regions[left];
        if region.inserts | region.applied {
            return region.inserts & region.applied;
        }
    }
    false
}

/// The greatest serial that is open by Insert, 0 where there is none. The greatest serial stands last.
pub fn inserter(regions: &[Region]) -> u16
    ensures { result ≡ first_insert (stacked [] regions.now) }
{
    let mut left = regions.len();
    'regions: while left > 0 {
        left -= 1;
        let region = regions[left];
        if region.inserts {
            return region.serial;
        }
    }
    0
}

// the greatest open serial
#[inline(always)]
fn greatest(regions: &[Region]) -> Option<u16>
    ensures { result ≡ first_serial (stacked [] regions.now) }
{
    match regions.last() {
        Some(last) => Some(last.serial),
        None => None,
    }
}

// whether a serial is above all that are open
#[inline(always)]
fn is_above(regions: &[Region], serial: u16) -> bool
    ensures { IsTrue result ↔ IsLow serial (stacked [] regions.now) }
{
    match greatest(regions) {
        Some(last) => last < serial,
        None => true,
    }
}

// whether it is the greatest that is open
#[inline(always)]
fn is_last(regions: &[Region], serial: u16) -> bool
    ensures { IsTrue result ↔ (first_serial (stacked [] regions.now) ≡ Some serial) }
{
    match greatest(regions) {
        Some(last) => last == serial,
        None => false,
    }
}

// the place of a serial's region, or the one where it would stand
fn place_of(regions: &[Region], serial: u16) -> Result<usize, usize>
    requires { AreSorted (stacked [] regions.now) }
    ensures bound { IsSearchInRange result (length regions.now) }
    ensures place { IsPlace serial regions.now result }
{
    regions.binary_search_by(|region| region.serial.cmp(&serial))
}

// opens a region anywhere; rarely called
#[inline(never)]
fn open_within(regions: &mut Vec<Region>, region: Region) -> Result<(), AllocError>
    requires { AreSorted (stacked [] regions.old.items) }
    ensures ok { OnOk result (stacked [] regions.new.items ≡ with_region region (stacked [] regions.old.items)) }
    ensures err { OnErr result (regions.new.items ≡ regions.old.items) }
{
    match place_of(regions, region.serial) {
        Ok(at) => {
            regions[at] = region;
            Ok(())
        }
        Err(at) => {
            regions.insert(at, region)?;
            Ok(())
        }
    }
}

// closes the region of a serial anywhere; rarely called
#[inline(never)]
fn close_within(regions: &mut Vec<Region>, serial: u16)
    requires { AreSorted (stacked [] regions.old.items) }
    ensures { stacked [] regions.new.items ≡ without_region serial (stacked [] regions.old.items) }
{
    match place_of(regions, serial) {
        Ok(at) => {
            regions.remove(at);
        }
        Err(_) => {}
    }
}

// opens a region above all others
#[inline(always)]
fn open_last(regions: &mut Vec<Region>, keep: bool, region: Region) -> Result<bool, AllocError>
    requires { keep ≡ keeps (stacked [] regions.old.items) }
    ensures ok { OnOk result (stacked [] regions.new.items ≡ region ∷ stacked [] regions.old.items) }
    ensures keep { IfOk result (λ k. k ≡ keeps (stacked [] regions.new.items)) }
    ensures err { OnErr result (regions.new.items ≡ regions.old.items) }
{
    regions.push(region)?;
    Ok(keeps_above(region, keep))
}

// closes the greatest region
#[inline(always)]
fn close_last(regions: &mut Vec<Region>)
    ensures { stacked [] regions.new.items ≡ after_first_region (stacked [] regions.old.items) }
{
    match regions.pop() {
        Some(_) => {}
        None => {}
    }
}

// opens a region, in the place of an open one of its serial
#[inline(always)]
fn open(regions: &mut Vec<Region>, keep: bool, region: Region) -> Result<bool, AllocError>
    requires { AreAnswered regions.old.items keep }
    ensures ok { OnOk result (stacked [] regions.new.items ≡ with_region region (stacked [] regions.old.items)) }
    ensures keep { IfOk result (λ k. k ≡ keeps (stacked [] regions.new.items)) }
    ensures err { OnErr result (regions.new.items ≡ regions.old.items) }
{
    if is_above(regions, region.serial) {
        return open_last(regions, keep, region);
    }
    open_within(regions, region)?;
    Ok(keeps(regions))
}

// closes the region of a serial
#[inline(always)]
fn close(regions: &mut Vec<Region>, serial: u16)
    requires { AreSorted (stacked [] regions.old.items) }
    ensures { stacked [] regions.new.items ≡ without_region serial (stacked [] regions.old.items) }
{
    if is_last(regions, serial) {
        close_last(regions);
    } else {
        close_within(regions, serial);
    }
}

/// Opens or closes the region of an item's serial, and answers what `keeps` then says; before, it
/// said `keep`. At want of memory nothing changes.
#[inline(always)]
pub fn take_item(
    regions: &mut Vec<Region>,
    keep: bool,
    item: &Item,
    applied: &Applied,
) -> Result<bool, AllocError>
    requires { AreAnswered regions.old.items keep }
    ensures ok { OnOk result (stacked [] regions.new.items ≡ regions_after applied.now item.now
        (stacked [] regions.old.items)) }
    ensures keep { IfOk result (λ k. k ≡ keeps (stacked [] regions.new.items)) }
    ensures err { OnErr result (regions.new.items ≡ regions.old.items) }
{
    match item {
        Item::Text(_) => Ok(keep),
        Item::Insert(serial) => {
            let region = Region {
                serial: *serial,
                inserts: true,
                applied: applied.has(*serial),
            };
            open(regions, keep, region)
        }
        Item::Delete(serial) => {
            let region = Region {
                serial: *serial,
                inserts: false,
                applied: applied.has(*serial),
            };
            open(regions, keep, region)
        }
        Item::End(serial) => {
            close(regions, *serial);
            Ok(keeps(regions))
        }
    }
}
