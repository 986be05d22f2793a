use crate::tests::draws::Draws;
use sccs_disk::{Fill, MemoryDisk};
use sccs_test_kit::{File, Given, PLAIN, Seen, answer_to, disk_with, name};
use std::alloc::Global;
use std::test::Fail;

/// The module names of a session.
pub const NAMES: [&[u8]; 5] = [b"a", b"b", b"c", b"d", b"e"];

const RECOVER_ALL: &[u8] = b"recover s.a s.b s.c s.d s.e";

/// The s-file and the p-file of a name, where they are there.
#[derive(Drop, PartialEq)]
pub struct Pair {
    pub s_file: Option<Vec<u8>>,
    pub p_file: Option<Vec<u8>>,
}

/// The pairs of all names, in their order.
pub type Files = Vec<Pair>;

/// The files before anything was made.
pub fn no_files(alloc: Global) -> Result<Files, Fail> {
    let mut files = Vec::new(alloc);
    for _ in NAMES {
        files.push(Pair {
            s_file: None,
            p_file: None,
        })?;
    }
    Ok(files)
}

// a copy of what may be there
fn bytes_of(alloc: Global, bytes: &Option<Vec<u8>>) -> Result<Option<Vec<u8>>, Fail> {
    Ok(match bytes {
        Some(bytes) => Some(bytes.to_vec(alloc)?),
        None => None,
    })
}

/// The same files once more.
pub fn copy_of(alloc: Global, files: &Files) -> Result<Files, Fail> {
    let mut copy = Vec::new(alloc);
    for pair in files {
        copy.push(Pair {
            s_file: bytes_of(alloc, &pair.s_file)?,
            p_file: bytes_of(alloc, &pair.p_file)?,
        })?;
    }
    Ok(copy)
}

// the name of a file: a letter, a dot and the module name
fn beside(letter: u8, module: &[u8]) -> Result<sccs_base::Name, Fail> {
    let first = module.first().copied().unwrap_or(b'a');
    name(&[letter, b'.', first])
}

// a file that is there, or isn't
fn file_of<'a>(name: &'a [u8], bytes: &'a Option<Vec<u8>>) -> File<'a> {
    File {
        name,
        bytes: bytes.as_deref(),
    }
}

// a disk with these files, of which one call fails
fn disk_of(alloc: Global, failing: &[u64], files: &Files) -> Result<MemoryDisk, Fail> {
    let [a, b, c, d, e] = files.as_slice() else {
        return Err(Fail::from("as many pairs as names"));
    };
    let named = [
        file_of(b"s.a", &a.s_file),
        file_of(b"p.a", &a.p_file),
        file_of(b"s.b", &b.s_file),
        file_of(b"p.b", &b.p_file),
        file_of(b"s.c", &c.s_file),
        file_of(b"p.c", &c.p_file),
        file_of(b"s.d", &d.s_file),
        file_of(b"p.d", &d.p_file),
        file_of(b"s.e", &e.s_file),
        file_of(b"p.e", &e.p_file),
    ];
    disk_with(alloc, failing, &named)
}

// a copy of a file's bytes
fn bytes_on(
    alloc: Global,
    disk: &MemoryDisk,
    letter: u8,
    module: &[u8],
) -> Result<Option<Vec<u8>>, Fail> {
    Ok(match disk.bytes(&beside(letter, module)?) {
        Some(bytes) => Some(bytes.to_vec(alloc)?),
        None => None,
    })
}

// the files on a disk
fn files_on(alloc: Global, disk: &MemoryDisk) -> Result<Files, Fail> {
    let mut files = Vec::new(alloc);
    for module in NAMES {
        files.push(Pair {
            s_file: bytes_on(alloc, disk, b's', module)?,
            p_file: bytes_on(alloc, disk, b'p', module)?,
        })?;
    }
    Ok(files)
}

// whether no working file and no lock is on a disk
fn is_tidy(disk: &MemoryDisk) -> Result<bool, Fail> {
    for module in NAMES {
        for letter in *b"xqyz" {
            if disk.has(&beside(letter, module)?) {
                return Ok(false);
            }
        }
    }
    Ok(true)
}

/// How a run ends, and the files that it and recovery left.
#[derive(Drop)]
pub struct Ran {
    pub seen: Seen,
    pub files: Files,
    pub is_tidy: bool,
}

/// A line of words with its input and time.
#[derive(Clone, Copy)]
pub struct Line<'a> {
    pub words: &'a [u8],
    pub input: &'a [u8],
    pub time: &'a [u8],
}

fn answer(alloc: Global, line: &Line, disk: &mut MemoryDisk) -> Result<Seen, Fail> {
    let given = Given {
        input: line.input,
        time: line.time,
        ..PLAIN
    };
    answer_to(alloc, line.words, &given, disk)
}

fn left(alloc: Global, seen: Seen, disk: &MemoryDisk) -> Result<Ran, Fail> {
    Ok(Ran {
        seen,
        files: files_on(alloc, disk)?,
        is_tidy: is_tidy(disk)?,
    })
}

/// A run to its end.
pub fn run_whole(alloc: Global, line: &Line, files: &Files) -> Result<Ran, Fail> {
    let mut disk = disk_of(alloc, &[], files)?;
    let seen = answer(alloc, line, &mut disk)?;
    left(alloc, seen, &disk)
}

// what a stop leaves of files that weren't synced
fn draw_fill(draws: &mut Draws) -> Fill {
    match draws.below(3) {
        0 => Fill::Empty,
        1 => Fill::Written,
        _ => Fill::Junk(b'?'),
    }
}

/// A run that is stopped behind so many calls, and the recovery of all names on what the stop left.
pub fn run_stopped(
    alloc: Global,
    draws: &mut Draws,
    line: &Line,
    files: &Files,
    calls: u64,
) -> Result<Ran, Fail> {
    let mut disk = disk_of(alloc, &[], files)?;
    disk.stop_after(calls);
    let seen = answer(alloc, line, &mut disk)?;
    let mut image = disk.crash(alloc, calls, draws.below(5), draw_fill(draws))?;
    answer_to(alloc, RECOVER_ALL, &PLAIN, &mut image)?;
    left(alloc, seen, &image)
}

/// A run of which one call fails, and the recovery of all names at once on what it left.
pub fn run_faulted(alloc: Global, line: &Line, files: &Files, call: u64) -> Result<Ran, Fail> {
    let mut disk = disk_of(alloc, &[call], files)?;
    let seen = answer(alloc, line, &mut disk)?;
    answer_to(alloc, RECOVER_ALL, &PLAIN, &mut disk)?;
    left(alloc, seen, &disk)
}
