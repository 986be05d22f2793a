ghost use Rattle.std.specs.Prelude.{◌≡◌, IfOk};
ghost use Rattle.sccs_disk.specs.MemoryDisks.{disk_call};
ghost use Rattle.sccs_sid.specs.Moment.{IsMoment};

use sccs_base::{Login, Name};
use sccs_disk::MemoryDisk;
use sccs_sid::{Moment, Stamp};
use std::alloc::Global;
use std::test::Fail;

// One delta that holds no line.
pub const EMPTY: &[u8] =
    b"\x01h07227\n\x01s 00000/00000/00000\n\x01d D 1.1 21/03/04 05:06:07 ann 1 0\n\
        \x01c date and time created 21/03/04 05:06:07 by ann\n\x01e\n\x01u\n\x01U\n\x01t\n\x01T\n\x01I 1\n\x01E 1\n";

// an edit of 1.1
pub const EDIT: &[u8] = b"1.1 1.2 ann 21/03/04 05:07:00\n";

// two deltas
pub const BOTH: &[u8] = b"@ 3 3\ndelta\n-yx\ns.a\n0a\none\n.\n@ 3 3\ndelta\n-yx\ns.c\n0a\nz\n.\n";

// two deltas, of which the script of the second doesn't fit
pub const UNFIT: &[u8] = b"@ 3 3\ndelta\n-yx\ns.a\n0a\none\n.\n@ 3 3\ndelta\n-yx\ns.c\n9a\nz\n.\n";

// a file and its bytes, if it is there
#[derive(Clone, Copy)]
pub struct File<'a> {
    pub name: &'a [u8],
    pub bytes: Option<&'a [u8]>,
}

// the files before a group
pub const BEFORE: [File<'static>; 8] = [
    File {
        name: b"s.a",
        bytes: Some(EMPTY),
    },
    File {
        name: b"p.a",
        bytes: Some(EDIT),
    },
    File {
        name: b"z.a",
        bytes: None,
    },
    File {
        name: b"s.c",
        bytes: Some(EMPTY),
    },
    File {
        name: b"p.c",
        bytes: Some(EDIT),
    },
    File {
        name: b"z.c",
        bytes: None,
    },
    File {
        name: b"sccs.plan",
        bytes: None,
    },
    File {
        name: b"sccs.intent",
        bytes: None,
    },
];

// those that are gone behind it
pub const GONE: [File<'static>; 6] = [
    File {
        name: b"p.a",
        bytes: None,
    },
    File {
        name: b"z.a",
        bytes: None,
    },
    File {
        name: b"p.c",
        bytes: None,
    },
    File {
        name: b"z.c",
        bytes: None,
    },
    File {
        name: b"sccs.plan",
        bytes: None,
    },
    File {
        name: b"sccs.intent",
        bytes: None,
    },
];

fn name(bytes: &[u8]) -> Result<Name, Fail> {
    Ok(Name::read(bytes).ok_or("a name")?)
}

// a disk with files, of which these calls fail
pub fn disk_with(alloc: Global, failing: &[u64], files: &[File]) -> Result<MemoryDisk, Fail>
    ensures { IfOk result (λ d. disk_call d ≡ 0) }
{
    let mut disk = MemoryDisk::new(alloc, 1_000, failing)?;
    for file in files {
        if let Some(bytes) = file.bytes {
            disk.put(&name(file.name)?, bytes, !file.name.starts_with(b"s."))?;
        }
    }
    Ok(disk)
}

// whether each of these files is on a disk as it stands here, or isn't there
pub fn has(disk: &MemoryDisk, files: &[File]) -> Result<bool, Fail> {
    for file in files {
        if disk.bytes(&name(file.name)?) != file.bytes {
            return Ok(false);
        }
    }
    Ok(true)
}

// a moment, and a login
pub fn stamp() -> Result<Stamp, Fail>
    ensures { IfOk result (λ s. IsMoment s.moment) }
{
    let moment = Moment::read(b"21/03/04", b"05:08:00").ok();
    Ok(Stamp {
        moment: moment.ok_or("a moment")?,
        login: Login::read(b"ann").ok_or("a login")?,
    })
}

// whether a file has the delta 1.2
fn is_added(disk: &MemoryDisk, file: &[u8]) -> Result<bool, Fail> {
    let Some(bytes) = disk.bytes(&name(file)?) else {
        return Ok(false);
    };
    Ok(
        bytes
            .windows(11)
            .any(|part| part == b"\x01d D 1.2 21".as_slice()),
    )
}

// whether both deltas are added
pub fn are_added(disk: &MemoryDisk) -> Result<bool, Fail> {
    Ok(is_added(disk, b"s.a")? && is_added(disk, b"s.c")?)
}
