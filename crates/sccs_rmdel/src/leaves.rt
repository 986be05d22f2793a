ghost use Rattle.std.specs.Prelude.{◌≡◌, ◌==◌, option_map};
ghost use Rattle.std.specs.Str.{bytes_eq};
ghost use Rattle.sccs_history.specs.Numbers.{has};
ghost use Rattle.sccs_rmdel.specs.Leaves.{first_made, has_later, is_base, is_edited, is_leaf, is_owner, live_delta};
ghost use Rattle.sccs_rmdel.specs.Leaves.{rests_on};

use sccs_base::Login;
use sccs_history::Record;
use sccs_pfile::{Edit, is_listed};
use sccs_sets::comes_after;
use sccs_sid::Sid;

/// The live delta of a SID.
pub fn live_delta(records: &[Record], sid: Sid) -> Option<&Record>
    ensures { option_map (λ r. r.now) result ≡ live_delta records.now sid }
{
    records
        .iter()
        .find(|delta| !delta.removed && delta.sid == sid)
}

// whether a live delta comes after a SID on its line
fn has_later(records: &[Record], sid: Sid) -> bool
    ensures { result ≡ has_later records.now sid }
{
    records
        .iter()
        .any(|delta| !delta.removed && comes_after(sid, delta.sid))
}

// whether a serial is in a list
fn has(serials: &[u16], serial: u16) -> bool
    ensures { result ≡ has serials.now serial }
{
    serials.contains(&serial)
}

// whether a live delta is made on that of a serial, or takes it in or leaves it out
fn rests_on(serial: u16, delta: &Record) -> bool
    ensures { result ≡ rests_on serial delta.now }
{
    !delta.removed
        && (delta.predecessor == serial
            || (has(delta.include.items(), serial) || has(delta.exclude.items(), serial)))
}

// whether some live delta does
fn is_base(records: &[Record], serial: u16) -> bool
    ensures { result ≡ is_base records.now serial }
{
    records.iter().any(|delta| rests_on(serial, delta))
}

// whether the first delta of a file has a serial
fn is_first(records: &[Record], serial: u16) -> bool
    ensures { result ≡ first_made (λ a. a.serial == serial) records.now }
{
    match records.last() {
        Some(delta) => delta.serial == serial,
        None => false,
    }
}

// whether a login made the first delta of a file
fn made_first(records: &[Record], login: &Login) -> bool
    ensures { result ≡ first_made (λ a. bytes_eq a.login login.now) records.now }
{
    match records.last() {
        Some(delta) => delta.login.bytes() == login.bytes(),
        None => false,
    }
}

/// Whether a delta may go: it isn't the first one of the file, no live delta comes after it on its line, and
/// none is made on it, takes it in or leaves it out. POSIX, Shell and Utilities, rmdel.
pub fn is_leaf(records: &[Record], delta: &Record) -> bool
    ensures { result ≡ is_leaf records.now delta.now }
{
    !is_first(records, delta.serial)
        && (!has_later(records, delta.sid) && !is_base(records, delta.serial))
}

/// Whether a login may remove a delta: it made it, or the first one of the file.
pub fn is_owner(records: &[Record], delta: &Record, login: &Login) -> bool
    ensures { result ≡ is_owner records.now delta.now login.now }
{
    delta.login.bytes() == login.bytes() || made_first(records, login)
}

/// Whether a pending edit got a SID, or names it in a list.
pub fn is_edited(edits: &[Edit], sid: Sid) -> bool
    ensures { result ≡ is_edited edits.now sid }
{
    edits.iter().any(|edit| {
        edit.got == sid
            || (is_listed(edit.include.items(), sid) || is_listed(edit.exclude.items(), sid))
    })
}
