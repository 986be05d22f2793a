ghost use Rattle.std.specs.Prelude.{◌≡◌, IfOk};
ghost use Rattle.sccs_disk.specs.MemoryDisks.{disk_call};

use sccs_base::Name;
use sccs_disk::MemoryDisk;
use std::alloc::Global;
use std::test::Fail;

// more calls than a test makes
const ROOM: u64 = 10_000;

/// A file and its bytes, if it is there.
#[derive(Clone, Copy)]
pub struct File<'a> {
    pub name: &'a [u8],
    pub bytes: Option<&'a [u8]>,
}

/// The name of a file.
pub fn name(text: &[u8]) -> Result<Name, Fail> {
    Ok(Name::read(text).ok_or("a name")?)
}

/// A disk with these files, of which only the s-files aren't writable. These calls of it fail.
pub fn disk_with(alloc: Global, failing: &[u64], files: &[File]) -> Result<MemoryDisk, Fail>
    ensures { IfOk result (λ d. disk_call d ≡ 0) }
{
    let mut disk = MemoryDisk::new(alloc, ROOM, failing)?;
    for file in files {
        if let Some(bytes) = file.bytes {
            disk.put(&name(file.name)?, bytes, !file.name.starts_with(b"s."))?;
        }
    }
    Ok(disk)
}

/// Whether a file on a disk has these bytes, or isn't there.
pub fn has_file(disk: &MemoryDisk, file: &[u8], bytes: Option<&[u8]>) -> Result<bool, Fail> {
    Ok(disk.bytes(&name(file)?) == bytes)
}

/// Whether each of these files is on a disk as it stands here, or isn't there.
pub fn has(disk: &MemoryDisk, files: &[File]) -> Result<bool, Fail> {
    for file in files {
        if !has_file(disk, file.name, file.bytes)? {
            return Ok(false);
        }
    }
    Ok(true)
}
