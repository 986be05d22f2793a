ghost use Rattle.std.specs.Prelude.{◌≡◌, ℕ, List, ◌||◌, not, IfOk, OnOk};
ghost use Rattle.std.specs.List.{list_any};
ghost use Rattle.std.specs.Str.{bytes_eq};
ghost use Rattle.sccs_base.specs.NameSets.{HasNames, names_in};

use crate::lists::Bytes;
use crate::streams::Memory;
use std::alloc::Global;
use std::collections::BTreeSet;

/// Names, each once, in byte order.
pub type NameSet = BTreeSet<Vec<u8>, Global>;

/// Puts a name among others, and says whether it is a new one.
pub fn insert_name(names: &mut NameSet, alloc: Global, name: &[u8]) -> Result<bool, Memory>
    ensures more { OnOk result ((n : List ℕ) → list_any (bytes_eq n) (names_in names.new)
        ≡ (bytes_eq n name.now || list_any (bytes_eq n) (names_in names.old))) }
    ensures fresh { IfOk result (λ fresh. fresh ≡ not (list_any (bytes_eq name.now) (names_in names.old))) }
{
    let bytes = name.to_vec(alloc)?;
    let fresh = names.insert(bytes)?;
    Ok(fresh)
}

/// Whether a name is among others.
pub fn has_name(names: &NameSet, name: &[u8]) -> bool
    ensures { result ≡ list_any (bytes_eq name.now) (names_in names.now) }
{
    names.contains(name)
}

/// The set of names.
pub fn set_of(alloc: Global, names: &[Bytes]) -> Result<NameSet, Memory>
    ensures { IfOk result (λ set. HasNames set names.now) }
{
    let mut set = BTreeSet::new(alloc);
    for name in names {
        insert_name(&mut set, alloc, name.bytes())?;
    }
    Ok(set)
}
