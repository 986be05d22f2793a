//! The SIDs that entries are to make, in ordered sets, so that a look-up doesn't go over all entries.
ghost use Rattle.std.specs.Prelude.{◌≡◌, ◌==◌, List, [], ◌∷◌, ◌++◌, IfOk};
ghost use Rattle.sccs_grammar.specs.SidKeys.{sid_key};
ghost use Rattle.sccs_pfile.specs.Agreement.{makers};
ghost use Rattle.sccs_pfile.specs.MadeSids.{HasMakers};
ghost use Rattle.sccs_pfile.specs.declared.entries.Edit.{Edit};

use crate::entries::Edit;
use sccs_base::Memory;
use sccs_sid::Sid;
use std::alloc::Global;
use std::collections::BTreeSet;

/// The SIDs that some entry makes, and those that more than one makes.
#[derive(Drop)]
pub struct Makers {
    some: BTreeSet<(u16, u16, u16, u16), Global>,
    several: BTreeSet<(u16, u16, u16, u16), Global>,
}

/// The four numbers of a SID.
pub fn sid_key(sid: Sid) -> (u16, u16, u16, u16)
    ensures { result ≡ sid_key sid }
{
    (sid.release, sid.level, sid.branch, sid.sequence)
}

// with one entry more
fn with_entry(found: Makers, edit: &Edit) -> Result<Makers, Memory>
    ensures { (before : List Edit) → HasMakers found before
        → IfOk result (λ more. HasMakers more (before ++ edit.now ∷ [])) }
{
    let Makers {
        mut some,
        mut several,
    } = found;
    if some.contains(&sid_key(edit.made)) {
        several.insert(sid_key(edit.made))?;
    } else {
        some.insert(sid_key(edit.made))?;
    }
    Ok(Makers { some, several })
}

/// The SIDs that entries make.
pub fn find_makers(alloc: Global, edits: &[Edit]) -> Result<Makers, Memory>
    ensures { IfOk result (λ found. HasMakers found edits.now) }
{
    let mut found = Makers {
        some: BTreeSet::new(alloc),
        several: BTreeSet::new(alloc),
    };
    for edit in edits {
        found = with_entry(found, edit)?;
    }
    Ok(found)
}

/// Whether exactly one of the entries makes a SID.
pub fn has_one_maker(found: &Makers, sid: Sid) -> bool
    ensures { (edits : List Edit) → HasMakers found.now edits → result ≡ (makers edits sid == 1) }
{
    found.some.contains(&sid_key(sid)) && !found.several.contains(&sid_key(sid))
}
