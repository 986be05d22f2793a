use sccs_disk::MemoryDisk;
use sccs_test_kit::samples::{SECOND, TWO_LINES};
use sccs_test_kit::{CASE, Case, File, disk_with, has};
use std::alloc::Global;
use std::test::Fail;

// an edit of ann's that is given in, and one of bob's that stays
const ENTRY: &[u8] = b"1.1 1.2 ann 21/03/04 05:07:00\n";

const BOTH: &[u8] = b"1.1 1.2 ann 21/03/04 05:07:00\n1.1 1.1.1.1 bob 21/03/04 05:07:00\n";

const LEFT: &[u8] = b"1.1 1.1.1.1 bob 21/03/04 05:07:00\n";

// what the script makes of the two lines
const TEXT: &[u8] = b"one\nmid\ntwo %I%\n";

/// More calls of the disk than the group makes.
pub const CALLS: u64 = 120;

// three names that are edited, of which s.b has its g-file
const EDITED: [File<'static>; 7] = [
    File {
        name: b"s.a",
        bytes: Some(TWO_LINES),
    },
    File {
        name: b"p.a",
        bytes: Some(BOTH),
    },
    File {
        name: b"s.b",
        bytes: Some(TWO_LINES),
    },
    File {
        name: b"p.b",
        bytes: Some(ENTRY),
    },
    File {
        name: b"b",
        bytes: Some(TEXT),
    },
    File {
        name: b"s.c",
        bytes: Some(TWO_LINES),
    },
    File {
        name: b"p.c",
        bytes: Some(ENTRY),
    },
];

// their pairs before the group, and after it
const OLD: [File<'static>; 8] = [
    File {
        name: b"s.a",
        bytes: Some(TWO_LINES),
    },
    File {
        name: b"p.a",
        bytes: Some(BOTH),
    },
    File {
        name: b"s.b",
        bytes: Some(TWO_LINES),
    },
    File {
        name: b"p.b",
        bytes: Some(ENTRY),
    },
    File {
        name: b"s.c",
        bytes: Some(TWO_LINES),
    },
    File {
        name: b"p.c",
        bytes: Some(ENTRY),
    },
    File {
        name: b"sccs.intent",
        bytes: None,
    },
    File {
        name: b"sccs.plan",
        bytes: None,
    },
];

const NEW: [File<'static>; 8] = [
    File {
        name: b"s.a",
        bytes: Some(SECOND),
    },
    File {
        name: b"p.a",
        bytes: Some(LEFT),
    },
    File {
        name: b"s.b",
        bytes: Some(SECOND),
    },
    File {
        name: b"p.b",
        bytes: None,
    },
    File {
        name: b"s.c",
        bytes: Some(SECOND),
    },
    File {
        name: b"p.c",
        bytes: None,
    },
    File {
        name: b"sccs.intent",
        bytes: None,
    },
    File {
        name: b"sccs.plan",
        bytes: None,
    },
];

const FREE: [File<'static>; 9] = [
    File {
        name: b"x.a",
        bytes: None,
    },
    File {
        name: b"q.a",
        bytes: None,
    },
    File {
        name: b"z.a",
        bytes: None,
    },
    File {
        name: b"x.b",
        bytes: None,
    },
    File {
        name: b"q.b",
        bytes: None,
    },
    File {
        name: b"z.b",
        bytes: None,
    },
    File {
        name: b"x.c",
        bytes: None,
    },
    File {
        name: b"q.c",
        bytes: None,
    },
    File {
        name: b"z.c",
        bytes: None,
    },
];

const REPORT: &[u8] =
    b"\ns.a:\n1.2\n1 inserted\n0 deleted\n2 unchanged\n\ns.b:\n1.2\n1 inserted\n0 deleted\n2 unchanged\n\ns.c:\n1.2\n\
        1 inserted\n0 deleted\n2 unchanged\n";

/// The group of their deltas.
pub const GROUP: Case<'static> = Case {
    line: b"group",
    time: b"05:08:00",
    input: b"@ 3 3\ndelta\n-ysecond\ns.a\n1a\nmid\n.\n@ 3 3\ndelta\n-ysecond\ns.b\n1a\nmid\n.\n@ 3 3\ndelta\n-ysecond\n\
        s.c\n1a\nmid\n.\n",
    out: REPORT,
    ..CASE
};

// two names that are edited, of which the g-file of s.l.a is the l-file of s.a
const CROSSED: [File<'static>; 5] = [
    File {
        name: b"s.l.a",
        bytes: Some(TWO_LINES),
    },
    File {
        name: b"p.l.a",
        bytes: Some(ENTRY),
    },
    File {
        name: b"l.a",
        bytes: Some(TEXT),
    },
    File {
        name: b"s.a",
        bytes: Some(TWO_LINES),
    },
    File {
        name: b"p.a",
        bytes: Some(ENTRY),
    },
];

// the same after their group
const UNCROSSED: [File<'static>; 5] = [
    File {
        name: b"s.l.a",
        bytes: Some(SECOND),
    },
    File {
        name: b"p.l.a",
        bytes: None,
    },
    File {
        name: b"l.a",
        bytes: None,
    },
    File {
        name: b"s.a",
        bytes: Some(SECOND),
    },
    File {
        name: b"p.a",
        bytes: None,
    },
];

/// A disk on which the g-file of a name that is edited is the l-file of another.
pub fn crossed(alloc: Global) -> Result<MemoryDisk, Fail> {
    disk_with(alloc, &[], &CROSSED)
}

/// Whether those two names are as after their group.
pub fn are_uncrossed(disk: &MemoryDisk) -> Result<bool, Fail> {
    has(disk, &UNCROSSED)
}

/// A disk on which the three names are edited, of which these calls fail.
pub fn edited(alloc: Global, failing: &[u64]) -> Result<MemoryDisk, Fail> {
    disk_with(alloc, failing, &EDITED)
}

/// Whether all names are as before the group.
pub fn are_old(disk: &MemoryDisk) -> Result<bool, Fail> {
    has(disk, &OLD)
}

/// Whether all names are as after it.
pub fn are_new(disk: &MemoryDisk) -> Result<bool, Fail> {
    has(disk, &NEW)
}

/// Whether no name is locked or has a working file.
pub fn are_free(disk: &MemoryDisk) -> Result<bool, Fail> {
    has(disk, &FREE)
}
