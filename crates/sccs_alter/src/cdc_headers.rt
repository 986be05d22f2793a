ghost use Rattle.std.specs.Prelude.{◌≡◌, ◌==◌, IfOk, position};
ghost use Rattle.sccs_sid.specs.Moment.{IsMoment};
ghost use Rattle.sccs_history.specs.Applied.{serials_of};
ghost use Rattle.sccs_history.specs.Numbers.{Falls};
ghost use Rattle.sccs_alter.specs.Changes.{changed_delta, with_changes};

use crate::changes::TextChanges;
use crate::comments::{before_old, push_deleted};
use crate::mrs::change_mrs;
use sccs_base::Memory;
use sccs_history::{Header, Record};
use sccs_records::copy_lines;
use sccs_rmdel::copy_lists;
use sccs_sid::Stamp;
use std::alloc::Global;

// a copy of a record with other MRs and another comment
fn changed_copy(
    alloc: Global,
    changes: &TextChanges,
    stamp: &Stamp,
    old: &Record,
) -> Result<Record, Memory>
    requires { IsMoment stamp.now.moment }
    ensures { IfOk result (λ copy. copy ≡ changed_delta changes.now stamp.now old.now) }
{
    let lists = copy_lists(alloc, old)?;
    let changed = change_mrs(alloc, changes.mrs.items(), old.mrs.items())?;
    let comment = copy_lines(alloc, changes.comment.items())?;
    let new = push_deleted(alloc, comment, changed.gone.items())?;
    let comments = before_old(alloc, stamp, new, old.comments.items())?;
    Ok(Record {
        serial: old.serial,
        removed: old.removed,
        sid: old.sid,
        moment: old.moment,
        login: old.login,
        predecessor: old.predecessor,
        include: lists.include,
        exclude: lists.exclude,
        ignore: lists.ignore,
        mrs: changed.mrs,
        comments,
        inserted: old.inserted,
        deleted: old.deleted,
        unchanged: old.unchanged,
    })
}

// the place of a serial's record
fn place_of(records: &[Record], serial: u16) -> Option<usize>
    ensures { result ≡ position (λ r. r.serial == serial) records.now }
{
    records.iter().position(|record| record.serial == serial)
}

/// Changes MRs and comment of the delta of a serial. Users, flags, description and the other records stay.
pub fn change_delta(
    alloc: Global,
    header: Header,
    serial: u16,
    changes: &TextChanges,
    stamp: &Stamp,
) -> Result<Header, Memory>
    requires moment { IsMoment stamp.now.moment }
    requires falls { Falls 65536 (serials_of header.records) }
    ensures { IfOk result (λ h. h ≡ with_changes changes.now stamp.now serial header) }
{
    let mut header = header;
    let Some(place) = place_of(header.records.items(), serial) else {
        return Ok(header);
    };
    let changed = changed_copy(alloc, changes, stamp, header.records.at(place as u64))?;
    header.records.replace(place as u64, changed);
    Ok(header)
}
