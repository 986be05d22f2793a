use sccs_disk::MemoryDisk;
use sccs_test_kit::samples::{SECOND, TWO_LINES};
use sccs_test_kit::{CASE, Case, File, disk_with, ends, has, name};
use std::alloc::Global;
use std::test::Fail;

/// An edit of 1.1 by ann.
pub const ENTRY: &[u8] = b"1.1 1.2 ann 21/03/04 05:07:00\n";

/// A script that adds a line between the two of 1.1.
pub const MID: &[u8] = b"1a\nmid\n.\n";

/// The s-file, p-file and g-file of a name.
#[derive(Clone, Copy)]
pub struct Files<'a> {
    pub s_file: &'a [u8],
    pub p_file: Option<&'a [u8]>,
    pub g_file: Option<&'a [u8]>,
}

/// An edit of 1.1 by ann.
pub const EDITED: Files<'static> = Files {
    s_file: TWO_LINES,
    p_file: Some(ENTRY),
    g_file: None,
};

/// The second delta.
pub const ADDED: Files<'static> = Files {
    s_file: SECOND,
    p_file: None,
    g_file: None,
};

/// The delta that adds it.
pub const SECOND_DELTA: Case<'static> = Case {
    line: b"delta -ysecond s.a",
    time: b"05:08:00",
    input: MID,
    out: b"1.2\n1 inserted\n0 deleted\n2 unchanged\n",
    ..CASE
};

// the files of the name a, of which its lock and its working files aren't there
fn all<'a>(files: &Files<'a>) -> [File<'a>; 6] {
    [
        File {
            name: b"s.a",
            bytes: Some(files.s_file),
        },
        File {
            name: b"p.a",
            bytes: files.p_file,
        },
        File {
            name: b"a",
            bytes: files.g_file,
        },
        File {
            name: b"x.a",
            bytes: None,
        },
        File {
            name: b"q.a",
            bytes: None,
        },
        File {
            name: b"z.a",
            bytes: None,
        },
    ]
}

/// A disk with these files.
pub fn disk_of(alloc: Global, files: &Files) -> Result<MemoryDisk, Fail> {
    disk_with(alloc, &[], &all(files))
}

/// Whether these are the files, and no working file or lock is there.
pub fn is_left(disk: &MemoryDisk, files: &Files) -> Result<bool, Fail> {
    has(disk, &all(files))
}

// whether a case ends as it should on a disk, and leaves these files
fn changes_to(
    alloc: Global,
    disk: &mut MemoryDisk,
    case: &Case,
    new: &Files,
) -> Result<bool, Fail> {
    let is_answer = ends(alloc, disk, case)?;
    let is_left = is_left(disk, new)?;
    Ok(is_answer && is_left)
}

/// Whether a delta on these files ends as it should, and leaves those.
pub fn changes<'a>(
    alloc: Global,
    case: &Case,
    old: &Files<'a>,
    new: &Files<'a>,
) -> Result<bool, Fail> {
    let mut disk = disk_of(alloc, old)?;
    changes_to(alloc, &mut disk, case, new)
}

// whether bytes hold a text
fn holds_text(bytes: &[u8], text: &[u8]) -> bool {
    for at in 0..bytes.len() {
        if bytes.get(at..).is_some_and(|rest| rest.starts_with(text)) {
            return true;
        }
    }
    false
}

/// Whether the s-file holds these texts.
pub fn holds(disk: &MemoryDisk, texts: &[&[u8]]) -> Result<bool, Fail> {
    let Some(bytes) = disk.bytes(&name(b"s.a")?) else {
        return Ok(false);
    };
    Ok(texts.iter().all(|text| holds_text(bytes, text)))
}
