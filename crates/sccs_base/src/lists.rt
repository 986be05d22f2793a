ghost use Rattle.std.specs.Fn.{CalledAt};
ghost use Rattle.std.specs.List.Retain.{IsFiltered};
ghost use Rattle.std.specs.Prelude.{◌≡◌, ◌<◌, ◌≤◌, List, [], ◌∷◌, ◌++◌, Some, length, insert, remove, reverse, set};
ghost use Rattle.std.specs.Prelude.{slice_get, IfOk, OnOk, OnErr};

use crate::file_names::Name;
use crate::streams::Memory;
use crate::texts::Line;
use std::alloc::Global;
use std::marker::Model;

/// A list, which contracts see as the list of its items. Places count from 0.
#[derive(Drop)]
pub struct ListOf<T> {
    items: Vec<T>,
}

impl<T> Model for ListOf<T> {
    ghost use Rattle.std.specs.Prelude.{List};

    ghost Value = { List T };

    ghost view = { λ s. s.items.items };
}

/// Bytes of any kind.
pub type Bytes = ListOf<u8>;

/// Words of a command line.
pub type Words = ListOf<Bytes>;

/// Lines.
pub type Text = ListOf<Line>;

/// Names of files.
pub type Names = ListOf<Name>;

impl<T> ListOf<T> {
    /// A list without items. It takes no memory yet.
    pub fn empty(alloc: Global) -> Self
        ensures { result ≡ [] }
    {
        ListOf {
            items: Vec::new(alloc),
        }
    }

    pub fn len(&self) -> u64
        ensures { result ≡ length self.now }
    {
        self.items.len() as u64
    }

    /// The item at a place below the length.
    pub fn at(&self, place: u64) -> &T
        requires { place < length self.now }
        ensures { slice_get self.now place ≡ Some result.now }
    {
        &self.items[place as usize]
    }

    /// Puts an item at a place up to the length. At want of memory nothing changes.
    pub fn insert(&mut self, place: u64, item: T) -> Result<(), Memory>
    where
        T: Drop,
        requires { place ≤ length self.old }
        ensures ok { OnOk result (self.new ≡ insert self.old place item) }
        ensures err { OnErr result (self.new ≡ self.old) }
    {
        self.items.insert(place as usize, item)?;
        Ok(())
    }

    /// Takes the item at a place below the length out.
    pub fn remove(&mut self, place: u64)
    where
        T: Drop,
        requires { place < length self.old }
        ensures { self.new ≡ remove self.old place }
    {
        self.items.remove(place as usize);
    }

    /// Puts an item in the place of another.
    pub fn replace(&mut self, place: u64, item: T)
    where
        T: Drop,
        requires { place < length self.old }
        ensures { self.new ≡ set self.old place item }
    {
        self.items[place as usize] = item;
    }

    /// Puts an item at the end. At want of memory nothing changes.
    pub fn push(&mut self, item: T) -> Result<(), Memory>
    where
        T: Drop,
        ensures ok { OnOk result (self.new ≡ self.old ++ item ∷ []) }
        ensures err { OnErr result (self.new ≡ self.old) }
    {
        self.items.push(item)?;
        Ok(())
    }

    /// Keeps the items for which the test holds, in their order.
    pub fn retain<F: FnMut(&T) -> bool>(&mut self, test: F)
    where
        T: Drop,
        requires { F.IsAlwaysCallable test }
        ensures { IsFiltered (CalledAt F.FnMut) test self.old self.new }
    {
        self.items.retain(test);
    }

    /// Puts the items in the other order.
    pub fn reverse(&mut self)
        ensures { self.new ≡ reverse self.old }
    {
        self.items.reverse();
    }

    /// A list of these items.
    pub fn from_vec(items: Vec<T>) -> Self
        ensures { result ≡ items.items }
    {
        ListOf { items }
    }

    /// The items as a slice.
    pub fn items(&self) -> &[T]
        ensures { result.now ≡ self.now }
    {
        self.items.as_slice()
    }
}

impl ListOf<u8> {
    /// A copy of bytes.
    pub fn new(alloc: Global, bytes: &[u8]) -> Result<Bytes, Memory>
        ensures { IfOk result (λ copy. copy ≡ bytes.now) }
    {
        let items = bytes.to_vec(alloc)?;
        Ok(ListOf { items })
    }

    pub fn bytes(&self) -> &[u8]
        ensures { result.now ≡ self.now }
    {
        self.items.as_slice()
    }
}

impl ListOf<Bytes> {
    /// No words yet.
    pub fn new(alloc: Global) -> Words
        ensures { result ≡ [] }
    {
        ListOf {
            items: Vec::new(alloc),
        }
    }
}
