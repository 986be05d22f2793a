ghost use Rattle.std.specs.Prelude.{◌≡◌, ◌+◌, ◌<◌, ◌≤◌, List, [], None, Some, length, vec_len, vec_capacity, IfOk};
ghost use Rattle.std.specs.Prelude.{IfSome, OnOk, OnErr};
ghost use Rattle.std.specs.List.{remove};
ghost use Rattle.sccs_disk.specs.Files.{put, apply_operation, Rename};
ghost use Rattle.sccs_disk.specs.Places.{AreOnce, once_prop, place_of, names_placed};

use sccs_base::{Memory, Name, Names};
use std::alloc::Global;

/// For each place of a file, from 0 on, the name that leads there, if one does.
#[derive(Drop)]
pub struct NameTable {
    names: Vec<Option<Name>>,
    ghost once: { AreOnce names.items } by { once_prop names.items },
}

impl NameTable {
    pub fn new(alloc: Global) -> NameTable
        ensures { result.names.items ≡ [] }
    {
        NameTable {
            names: Vec::new(alloc),
        }
    }

    /// The same names.
    pub fn copy(&self, alloc: Global) -> Result<NameTable, Memory>
        ensures { IfOk result (λ table. table.names.items ≡ self.now.names.items) }
    {
        let names = self.names.to_vec(alloc)?;
        Ok(NameTable { names })
    }

    /// The place to which a name leads.
    pub fn place(&self, name: &Name) -> Option<usize>
        ensures found { result ≡ place_of self.now.names.items name.now }
        ensures within { IfSome result (λ p. p < length self.now.names.items) }
    {
        for place in 0..self.names.len() {
            if let Some(held) = &self.names[place] {
                if held.is(name) {
                    return Some(place);
                }
            }
        }
        None
    }

    /// Takes a name away, where it is there.
    #[tactic(auto, using(crate::proofs::Places::names_removed, crate::proofs::Places::once_removed, crate::proofs::Places::names_kept))]
    pub fn remove(&mut self, name: &Name)
        ensures names { place_of self.new.names.items ≡ put (place_of self.old.names.items) name.now None }
        ensures count { length self.new.names.items ≡ length self.old.names.items }
        ensures room { vec_capacity self.new.names ≡ vec_capacity self.old.names }
    {
        if let Some(place) = self.place(name) {
            self.names[place] = None;
        }
    }

    /// Takes a place out of the list.
    #[tactic(auto, using(crate::proofs::Places::once_without))]
    pub fn take_out(&mut self, place: usize)
        requires { place < length self.old.names.items }
        ensures { self.new.names.items ≡ remove self.old.names.items place }
    {
        self.names.remove(place);
    }

    /// Gives a place another name, which leads to no other place any more.
    #[tactic(auto, using(crate::proofs::Places::names_renamed, crate::proofs::Places::once_renamed, crate::proofs::Places::rename_self))]
    pub fn rename(&mut self, from: &Name, to: &Name)
        ensures names { place_of self.new.names.items ≡ apply_operation (Rename from.now to.now)
            (place_of self.old.names.items) }
        ensures count { length self.new.names.items ≡ length self.old.names.items }
    {
        if from.is(to) {
            return;
        }
        self.remove(to);
        if let Some(place) = self.place(from) {
            self.names[place] = Some(*to);
        }
    }

    /// Takes room for one place more.
    pub fn reserve(&mut self) -> Result<(), Memory>
        ensures same { self.new.names.items ≡ self.old.names.items }
        ensures room { OnOk result (vec_len self.new.names < vec_capacity self.new.names) }
    {
        self.names.reserve(1)?;
        Ok(())
    }

    /// A place more, to which the name leads.
    pub fn push(&mut self, name: &Name)
        requires { vec_len self.old.names < vec_capacity self.old.names }
        ensures names { place_of self.new.names.items ≡ put (place_of self.old.names.items) name.now
            (Some (length self.old.names.items)) }
        ensures count { length self.new.names.items ≡ length self.old.names.items + 1 }
    {
        self.remove(name);
        match self.names.push(Some(*name)) {
            Ok(()) => (),
            Err(_) => unreachable!(),
        }
    }

    /// The names that lead somewhere.
    pub fn list(&self, alloc: Global) -> Result<Names, Memory>
        ensures { IfOk result (λ names. names ≡ names_placed self.now.names.items) }
    {
        let mut names = Names::empty(alloc);
        for place in 0..self.names.len() {
            if let Some(name) = &self.names[place] {
                names.insert(names.len(), *name)?;
            }
        }
        Ok(names)
    }
}
