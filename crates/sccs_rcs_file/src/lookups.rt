ghost use Rattle.std.specs.Prelude.{◌≡◌, ℕ, List, not, option_copied};
ghost use Rattle.sccs_history.specs.Numbers.{is_empty};
ghost use Rattle.sccs_rcs_file.specs.Lookups.{named, one_named};

use crate::forms::{DeltaText, Phrase, RcsEntry};

/// What has a name in an RCS file.
pub trait Named {
    /// Its bytes.
    ghost name_of: { Self → List ℕ };

    fn name(&self) -> &[u8]
        ensures { result.now ≡ name_of self.now };
}

impl<'a> Named for Phrase<'a> {
    ghost name_of = { λ p. p.name };

    fn name(&self) -> &[u8]
        ensures { result.now ≡ self.now.name }
    {
        self.name
    }
}

impl<'a> Named for RcsEntry<'a> {
    ghost name_of = { λ e. e.number };

    fn name(&self) -> &[u8]
        ensures { result.now ≡ self.now.number }
    {
        self.number
    }
}

impl<'a> Named for DeltaText<'a> {
    ghost name_of = { λ t. t.number };

    fn name(&self) -> &[u8]
        ensures { result.now ≡ self.now.number }
    {
        self.number
    }
}

// whether some item has a name
fn is_named<T: Named>(items: &[T], name: &[u8]) -> bool
    ensures { result ≡ not (is_empty (named T.name_of name.now items.now)) }
{
    let mut rest = items;
    'items: while let [item, behind @ ..] = rest {
        if item.name() == name {
            return true;
        }
        rest = behind;
    }
    false
}

/// The one item of a name, where there is one and no other.
pub fn one_named<'a, T: Named>(items: &'a [T], name: &[u8]) -> Option<&'a T>
    ensures { option_copied result ≡ one_named T.name_of name.now items.now }
{
    let mut rest = items;
    'items: while let [item, behind @ ..] = rest {
        if item.name() == name {
            return if is_named(behind, name) {
                None
            } else {
                Some(item)
            };
        }
        rest = behind;
    }
    None
}
