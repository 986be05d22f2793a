ghost use Rattle.std.specs.Prelude.{◌≡◌, ℕ, List, ◌&&◌, ◌||◌, IfOk, IfSome, OnOk, IsErrOf};
ghost use Rattle.std.specs.List.{list_any};
ghost use Rattle.std.specs.Str.{bytes_eq};
ghost use Rattle.sccs_base.specs.Name.{is_sfile_name};
ghost use Rattle.sccs_disk.specs.Files.{Folder, View};
ghost use Rattle.sccs_disk.specs.Told.{seen};
ghost use Rattle.sccs_operands.specs.FolderNames.{AreSfiles, HasSfilesOf, AreInOrder, sfiles_in};
ghost use Rattle.sccs_base.specs.NameSets.{names_in};
ghost use Rattle.sccs_disk.specs.Causes.{DiskCauses};

use sccs_base::{Bytes, ListOf, Memory, Name, NameSet, Words, insert_name};
use sccs_disk::{Disk, DiskRefusal};
use std::alloc::Global;
use std::collections::BTreeSet;

// puts a name among others, unless it is that of no s-file
fn keep(kept: &mut NameSet, alloc: Global, name: &Name) -> Result<(), Memory>
    ensures { OnOk result ((n : List ℕ) → list_any (bytes_eq n) (names_in kept.new)
        ≡ (is_sfile_name name.now && bytes_eq n name.now || list_any (bytes_eq n) (names_in kept.old))) }
{
    if !name.is_sfile() {
        return Ok(());
    }
    insert_name(kept, alloc, name.bytes())?;
    Ok(())
}

// the s-files' names among names
fn sfiles_among(alloc: Global, names: &[Name]) -> Result<NameSet, Memory>
    ensures { IfOk result (λ kept. (n : List ℕ) → list_any (bytes_eq n) (names_in kept)
        ≡ (is_sfile_name n && list_any (bytes_eq n) names.now)) }
{
    let mut kept = BTreeSet::new(alloc);
    for name in names {
        keep(&mut kept, alloc, name)?;
    }
    Ok(kept)
}

// names in their order
fn in_order(alloc: Global, kept: NameSet) -> Result<Words, Memory>
    ensures same { IfOk result (λ names. names ≡ names_in kept) }
    ensures order { IfOk result AreInOrder }
{
    let mut names = Words::new(alloc);
    'names: for name in kept {
        names.push(ListOf::from_vec(name))?;
    }
    Ok(names)
}

/// The names of the s-files that are there, each once, in byte order.
pub fn list_sfiles<D: Disk>(alloc: Global, disk: &mut D) -> Result<Words, DiskRefusal>
    ensures told { IfSome (seen (D.told disk.old)) (λ (v : View). (m : Folder) → HasSfilesOf v m
        → IfOk result (λ names. names ≡ sfiles_in m)) }
    ensures names { IfOk result AreSfiles }
    ensures same { D.told disk.new ≡ D.told disk.old }
    ensures causes { DiskCauses (IsErrOf result DiskRefusal.Failed) (D.faults disk.old) (D.faults disk.new) }
{
    let names = match disk.list(alloc) {
        Ok(names) => names,
        Err(refusal) => return Err(refusal),
    };
    let Ok(kept) = sfiles_among(alloc, names.items()) else {
        return Err(DiskRefusal::Memory);
    };
    match in_order(alloc, kept) {
        Ok(names) => Ok(names),
        Err(_) => Err(DiskRefusal::Memory),
    }
}
