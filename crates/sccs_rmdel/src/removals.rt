ghost use Rattle.std.specs.Prelude.{◌≡◌, ◌==◌, IfOk, position};
ghost use Rattle.sccs_history.specs.Applied.{serials_of};
ghost use Rattle.sccs_history.specs.Numbers.{Falls};
ghost use Rattle.sccs_rmdel.specs.Removed.{as_removed, without_delta};

use sccs_base::Memory;
use sccs_history::{Header, Record, Serials};
use sccs_records::copy_lines;
use std::alloc::Global;

// a copy of serials
fn copy_serials(alloc: Global, serials: &[u16]) -> Result<Serials, Memory>
    ensures { IfOk result (λ copy. copy ≡ serials.now) }
{
    let items = serials.to_vec(alloc)?;
    Ok(Serials::from_vec(items))
}

/// The lists of a record.
#[derive(Drop)]
pub struct Lists {
    pub include: Serials,
    pub exclude: Serials,
    pub ignore: Serials,
}

/// A copy of the lists of a record.
pub fn copy_lists(alloc: Global, old: &Record) -> Result<Lists, Memory>
    ensures include { IfOk result (λ lists. lists.include ≡ old.now.include) }
    ensures exclude { IfOk result (λ lists. lists.exclude ≡ old.now.exclude) }
    ensures ignore { IfOk result (λ lists. lists.ignore ≡ old.now.ignore) }
{
    let include = copy_serials(alloc, old.include.items())?;
    let exclude = copy_serials(alloc, old.exclude.items())?;
    let ignore = copy_serials(alloc, old.ignore.items())?;
    Ok(Lists {
        include,
        exclude,
        ignore,
    })
}

// a copy of a record that says that it is removed
fn removed_copy(alloc: Global, old: &Record) -> Result<Record, Memory>
    ensures { IfOk result (λ copy. copy ≡ as_removed old.now) }
{
    let lists = copy_lists(alloc, old)?;
    let mrs = copy_lines(alloc, old.mrs.items())?;
    let comments = copy_lines(alloc, old.comments.items())?;
    Ok(Record {
        serial: old.serial,
        removed: true,
        sid: old.sid,
        moment: old.moment,
        login: old.login,
        predecessor: old.predecessor,
        include: lists.include,
        exclude: lists.exclude,
        ignore: lists.ignore,
        mrs,
        comments,
        inserted: old.inserted,
        deleted: old.deleted,
        unchanged: old.unchanged,
    })
}

// the place of a serial's record
fn place_of(records: &[Record], serial: u16) -> Option<usize>
    ensures { result ≡ position (λ r. r.serial == serial) records.now }
{
    records.iter().position(|record| record.serial == serial)
}

/// Marks the record of a serial as removed. Users, flags, description and the other records stay.
pub fn remove_delta(alloc: Global, header: Header, serial: u16) -> Result<Header, Memory>
    requires { Falls 65536 (serials_of header.records) }
    ensures { IfOk result (λ h. h ≡ without_delta serial header) }
{
    let mut header = header;
    let Some(place) = place_of(header.records.items(), serial) else {
        return Ok(header);
    };
    let removed = removed_copy(alloc, header.records.at(place as u64))?;
    header.records.replace(place as u64, removed);
    Ok(header)
}
