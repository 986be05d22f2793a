use sccs_disk::MemoryDisk;
use sccs_test_kit::{CASE, Case, File, disk_with, ends, has};
use std::alloc::Global;
use std::test::Fail;

// two lines with users, flags, a description and two MRs
const WITH_ALL: &[u8] =
    b"\x01h11479\n\x01s 00002/00000/00000\n\x01d D 1.1 21/03/04 05:06:07 ann 1 0\n\x01m 7\n\x01m 8\n\
        \x01c date and time created 21/03/04 05:06:07 by ann\n\x01e\n\x01u\nbob\n!carl\n\x01U\n\x01f v\n\x01f m prog\n\
        \x01f i\n\x01t\nwhat it is\n\x01T\n\x01I 1\none\ntwo %I%\n\x01E 1\n";

// no line, with a user and a flag
const WITH_USER: &[u8] =
    b"\x01h07787\n\x01s 00000/00000/00000\n\x01d D 1.1 21/03/04 05:06:07 ann 1 0\n\
        \x01c date and time created 21/03/04 05:06:07 by ann\n\x01e\n\x01u\nbob\n\x01U\n\x01f b\n\x01t\n\x01T\n\
        \x01I 1\n\x01E 1\n";

// the files of the name a, of which only the s-file may be there
fn only<'a>(s_file: Option<&'a [u8]>) -> [File<'a>; 3] {
    [
        File {
            name: b"s.a",
            bytes: s_file,
        },
        File {
            name: b"x.a",
            bytes: None,
        },
        File {
            name: b"z.a",
            bytes: None,
        },
    ]
}

// a description, texts without a keyword and with a control line, and a file of another name
const FILES: [File<'static>; 4] = [
    File {
        name: b"text",
        bytes: Some(b"what it is"),
    },
    File {
        name: b"plain",
        bytes: Some(b"one\ntwo\n"),
    },
    File {
        name: b"bad",
        bytes: Some(b"fine\n\x01E\n"),
    },
    File {
        name: b"s.b",
        bytes: Some(b"old"),
    },
];

// whether a line of words makes this s-file
fn makes_on<'a>(
    alloc: Global,
    disk: &mut MemoryDisk,
    line: &'a [u8],
    file: &[u8],
) -> Result<bool, Fail> {
    let case = Case {
        line,
        input: b"one\ntwo %I%",
        ..CASE
    };
    let is_answered = ends(alloc, disk, &case)?;
    let is_made = has(disk, &only(Some(file)))?;
    Ok(is_answered && is_made)
}

// whether it does, where these files are there
fn makes(alloc: Global, line: &[u8], file: &[u8]) -> Result<bool, Fail> {
    let mut disk = disk_with(alloc, &[], &FILES)?;
    makes_on(alloc, &mut disk, line, file)
}

#[test]
fn new_files_have_users_flags_description_and_mrs(rt: HostRuntime) -> Result<(), Fail> {
    assert!(rt;
        makes(
            rt.alloc(),
            b"admin -i -abob -a!carl -fv -fmprog -fi -ttext -m7\t8 s.a",
            WITH_ALL
        )?
    );
    assert!(rt; makes(rt.alloc(), b"admin -n -fb -abob s.a", WITH_USER)?);
    Ok(())
}

// words that are refused, with the message
type Refused<'a> = (&'a [u8], &'a [u8]);

// each with what a later check would refuse
const REFUSED: [Refused<'static>; 13] = [
    (
        b"admin -iname -tname s.b",
        b"ERROR [s.b]: no such file (03)\n",
    ),
    (
        b"admin -itext -tname s.b",
        b"ERROR [s.b]: no such file (03)\n",
    ),
    (
        b"admin -ibad -tbad s.b",
        b"ERROR [s.b]: already exists (04)\n",
    ),
    (
        b"admin -ibad -fi s.a",
        b"ERROR [s.a]: line 2 begins with SOH (23)\n",
    ),
    (
        b"admin -iplain -tbad -fi s.a",
        b"ERROR [s.a]: line 2 begins with SOH (23)\n",
    ),
    (
        b"admin -iplain -fi -fx s.a",
        b"ERROR [s.a]: no id keywords (24)\n",
    ),
    (b"admin -n -fi -fx s.a", b"ERROR [s.a]: bad flag x (27)\n"),
    (b"admin -n -fv -fx s.a", b"ERROR [s.a]: bad flag x (27)\n"),
    (b"admin -n -m7 -fbx s.a", b"ERROR [s.a]: bad flag b (27)\n"),
    (
        b"admin -n -fv s.a",
        b"ERROR [s.a]: MR numbers needed (28)\n",
    ),
    (
        b"admin -n -fvcheck s.a",
        b"ERROR [s.a]: MR numbers needed (28)\n",
    ),
    (
        b"admin -n -m7 s.a",
        b"ERROR [s.a]: MR numbers not allowed (29)\n",
    ),
    (
        b"admin -n -m7 -fvcheck s.a",
        b"ERROR [s.a]: flag v not supported (30)\n",
    ),
];

// whether words are refused so, and leave all files
fn refuses_on(alloc: Global, disk: &mut MemoryDisk, refused: &Refused) -> Result<bool, Fail> {
    let case = Case {
        line: refused.0,
        status: 1,
        err: refused.1,
        ..CASE
    };
    let is_answered = ends(alloc, disk, &case)?;
    let is_kept = has(disk, &FILES)?;
    let is_none = has(disk, &only(None))?;
    Ok(is_answered && (is_kept && is_none))
}

// the place of the first that aren't
fn first_made(alloc: Global) -> Result<Option<usize>, Fail> {
    let mut disk = disk_with(alloc, &[], &FILES)?;
    for (at, refused) in REFUSED.iter().enumerate() {
        if !refuses_on(alloc, &mut disk, refused)? {
            return Ok(Some(at));
        }
    }
    Ok(None)
}

#[test]
fn refusals_of_new_files_come_in_order(rt: HostRuntime) -> Result<(), Fail> {
    assert_eq!(rt; first_made(rt.alloc())?, None);
    Ok(())
}
