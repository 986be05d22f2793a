ghost use Rattle.std.specs.Prelude.{◌≡◌, ℕ, ◌≤◌, length, IfOk, IfSome, OnErr};

use sccs_base::{Failed, Name, Names};
use sccs_disk::{Creation, Disk, DiskRefusal};
use sccs_test_kit::{CASE, Case, ends};
use std::alloc::Global;
use std::test::Fail;

// A disk each of whose files says that it has so many bytes, and gives none. It tells nothing, each
// call that changes something fails, and its count of faults stands at its last number.
#[derive(Drop)]
struct EmptyDisk {
    size: u64,
}

impl Disk for EmptyDisk {
    ghost use Rattle.sccs_base.specs.Stream.{last_count};
    ghost use Rattle.sccs_disk.specs.Told.{Nothing};
    ghost use Rattle.sccs_disk.specs.FolderTold.{never_tells, never_shows};

    ghost told = { λ _. Nothing };

    ghost faults = { λ _. last_count };

    ghost sane = { never_tells };

    ghost finite = { never_shows };

    fn size(&mut self, _name: &Name) -> Result<Option<u64>, Failed> {
        Ok(Some(self.size))
    }

    fn read_at(
        &mut self,
        _name: &Name,
        _from: u64,
        _into: &mut [u8],
    ) -> Result<Option<usize>, Failed> {
        Ok(Some(0))
    }

    fn writable(&mut self, _name: &Name) -> Result<Option<bool>, Failed> {
        Ok(Some(false))
    }

    fn create(&mut self, _name: &Name) -> Result<Creation, DiskRefusal> {
        Ok(Creation::Exists)
    }

    fn append(&mut self, _name: &Name, _bytes: &[u8]) -> Result<(), DiskRefusal> {
        Err(DiskRefusal::Failed)
    }

    fn write_at(&mut self, _name: &Name, _from: u64, _bytes: &[u8]) -> Result<(), DiskRefusal> {
        Err(DiskRefusal::Failed)
    }

    fn protect(&mut self, _name: &Name) -> Result<(), Failed> {
        Err(Failed)
    }

    fn sync(&mut self, _name: &Name) -> Result<(), Failed> {
        Err(Failed)
    }

    fn rename(&mut self, _from: &Name, _to: &Name) -> Result<(), Failed> {
        Err(Failed)
    }

    fn remove(&mut self, _name: &Name) -> Result<(), Failed> {
        Err(Failed)
    }

    fn sync_names(&mut self) -> Result<(), Failed> {
        Err(Failed)
    }

    fn list(&mut self, _alloc: Global) -> Result<Names, DiskRefusal> {
        Err(DiskRefusal::Failed)
    }
}

// whether get refuses a file of that size
fn refuses(alloc: Global, size: u64, err: &[u8]) -> Result<bool, Fail> {
    let mut disk = EmptyDisk { size };
    let case = Case {
        line: b"get -k -p -s s.a",
        status: 1,
        err,
        ..CASE
    };
    ends(alloc, &mut disk, &case)
}

#[test]
fn longest_file(rt: HostRuntime) -> Result<(), Fail> {
    let other = b"ERROR [s.a]: not an SCCS file (06)\n";
    let longer = b"ERROR [s.a]: longer than 1073741824 bytes (05)\n";
    assert!(rt; refuses(rt.alloc(), 1_073_741_824, other)?);
    assert!(rt; refuses(rt.alloc(), 1_073_741_825, longer)?);
    Ok(())
}
