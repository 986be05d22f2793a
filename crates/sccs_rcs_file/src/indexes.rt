ghost use Rattle.std.specs.Prelude.{◌≡◌, ℕ, List, IfOk, option_copied, slice_get};
ghost use Rattle.sccs_rcs_file.specs.Lookups.{one_named};
ghost use Rattle.sccs_rcs_file.specs.Spots.{item_of, spot_at, spot_from};

use crate::lookups::Named;
use crate::spots::Spot;
use sccs_base::Memory;
use std::alloc::Global;
use std::collections::BTreeMap;

// where the items of each name stand
fn spots_of<'i, T: Named>(
    alloc: Global,
    items: &'i [T],
) -> Result<BTreeMap<&'i [u8], Spot, Global>, Memory>
    ensures { IfOk result (λ spots. (name : List ℕ) → spot_at spots name ≡ spot_from T.name_of 0 items.now name) }
{
    let mut spots = BTreeMap::new(alloc);
    let mut at = items.len();
    'items: while 0 < at {
        at -= 1;
        let name = items[at].name();
        let again = spots.contains_key(name);
        spots.insert(name, Spot { at, again })?;
    }
    Ok(spots)
}

// the item at a place
fn item_at<T>(items: &[T], at: usize) -> Option<&T>
    ensures { option_copied result ≡ slice_get items.now at }
{
    items.get(at)
}

// the item of a spot, where no other item has its name
fn one_at<T>(items: &[T], spot: Option<Spot>) -> Option<&T>
    ensures { option_copied result ≡ item_of items.now spot }
{
    match spot {
        Some(spot) if !spot.again => item_at(items, spot.at),
        _ => None,
    }
}

/// Items, and where those of each name stand.
#[derive(Drop)]
pub struct Index<'i, T: Named> {
    items: &'i [T],
    spots: BTreeMap<&'i [u8], Spot, Global>,
    ghost told: { (name : List ℕ) → spot_at spots name ≡ spot_from T.name_of 0 items.now name },
}

impl<'i, T: Named> Index<'i, T> {
    /// The index of items.
    pub fn of(alloc: Global, items: &'i [T]) -> Result<Index<'i, T>, Memory>
        ensures { IfOk result (λ index. index.items.now ≡ items.now) }
    {
        let spots = spots_of(alloc, items)?;
        Ok(Index { items, spots })
    }

    // where the first item of a name stands, if there is one
    fn spot(&self, name: &[u8]) -> Option<Spot>
        ensures { result ≡ spot_from T.name_of 0 self.now.items.now name.now }
    {
        self.spots.get(name).copied()
    }

    /// The one item of a name, where there is one and no other.
    #[tactic(auto, using(crate::proofs::SpotLaws::spot_is_one))]
    pub fn one(&self, name: &[u8]) -> Option<&'i T>
        ensures { option_copied result ≡ one_named T.name_of name.now self.now.items.now }
    {
        one_at(self.items, self.spot(name))
    }
}
