ghost use Rattle.std.specs.Prelude.{◌≡◌, ◌<◌, ◌≤◌, ◌+◌, ◌-◌, ◌++◌, ◌∷◌, [], length, position, remove, OnErr, OnOk};
ghost use Rattle.std.specs.List.{list_any};
ghost use Rattle.std.specs.Option.{option_copied};
ghost use Rattle.sccs_pfile.specs.Choices.{choice, fits, is_of_sid};

use crate::entries::{Edit, Edits};
use sccs_base::{Login, Memory};
use sccs_sid::Sid;

/// The number, from 1, of the entry that is meant; or none is pending, or more than one.
#[derive(Clone, Copy, Debug, PartialEq, Eq)]
pub enum Choice {
    One(u64),
    NoEdit,
    ManyEdits,
}

// whether an entry is of a SID, where one is given
fn is_of_sid(sid: Option<&Sid>, by_got: bool, edit: &Edit) -> bool
    ensures { result ≡ is_of_sid (option_copied sid.entry) by_got edit.now }
{
    match sid {
        Some(sid) => edit.made == *sid || (by_got && edit.got == *sid),
        None => true,
    }
}

// whether an entry is the login's, and of the SID where one is given
fn fits(login: &Login, sid: Option<&Sid>, by_got: bool, edit: &Edit) -> bool
    ensures { result ≡ fits login.now (option_copied sid.entry) by_got edit.now }
{
    edit.login.bytes() == login.bytes() && is_of_sid(sid, by_got, edit)
}

// the place of the first entry that fits
fn first_fitting(edits: &[Edit], login: &Login, sid: Option<&Sid>, by_got: bool) -> Option<usize>
    ensures { result ≡ position (fits login.now (option_copied sid.entry) by_got) edits.now }
{
    edits.iter().position(|edit| fits(login, sid, by_got, edit))
}

// whether some entry fits
fn some_fits(edits: &[Edit], login: &Login, sid: Option<&Sid>, by_got: bool) -> bool
    ensures { result ≡ list_any (fits login.now (option_copied sid.entry) by_got) edits.now }
{
    edits.iter().any(|edit| fits(login, sid, by_got, edit))
}

/// The entry of a login, by its number from 1. Where a SID is given the entry is to make it, or,
/// with `by_got`, got it. NoEdit where no entry fits, ManyEdits where more than one does. POSIX,
/// delta and unget, -r.
pub fn choose(edits: &Edits, login: &Login, sid: Option<&Sid>, by_got: bool) -> Choice
    ensures { result ≡ choice (fits login.now (option_copied sid.entry) by_got) edits.now }
{
    let edits = edits.items();
    match first_fitting(edits, login, sid, by_got) {
        Some(place) => {
            if some_fits(&edits[place + 1..], login, sid, by_got) {
                Choice::ManyEdits
            } else {
                Choice::One(place as u64 + 1)
            }
        }
        None => Choice::NoEdit,
    }
}

/// Adds an entry, last. At want of memory nothing changes.
pub fn reserve(edits: &mut Edits, edit: Edit) -> Result<(), Memory>
    ensures ok { OnOk result (edits.new ≡ edits.old ++ edit ∷ []) }
    ensures err { OnErr result (edits.new ≡ edits.old) }
{
    edits.push(edit)
}

/// Takes out the entry of a number, from 1, that is there.
pub fn release(edits: &mut Edits, number: u64)
    requires some { 0 < number }
    requires there { number ≤ length edits.old }
    ensures { edits.new ≡ remove edits.old (number - 1) }
{
    edits.remove(number - 1);
}
