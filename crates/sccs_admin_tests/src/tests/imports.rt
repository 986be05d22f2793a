use sccs_disk::MemoryDisk;
use sccs_test_kit::samples::{IMPORTED, RCS_FILE, TWO_LINES};
use sccs_test_kit::{CASE, Case, File, disk_with, ends, first_wrong, has};
use std::alloc::Global;
use std::test::Fail;

// a trunk whose second script reads past the text
const FAILING: &[u8] = b"head\t1.2;\naccess;\nsymbols;\nlocks; strict;\ncomment\t@# @;\n\n\n1.2\n\
        date\t2021.03.04.05.08.00;\tauthor ann;\tstate Exp;\nbranches;\nnext\t1.1;\n\n1.1\n\
        date\t2021.03.04.05.06.07;\tauthor ann;\tstate Exp;\nbranches;\nnext\t;\n\n\ndesc\n@@\n\n\n1.2\nlog\n@second\n\
        @\ntext\n@one\nmid\ntwo\n@\n\n\n1.1\nlog\n@first\n@\ntext\n@d4 1\n@\n";

// a trunk that goes round
const UNFIT: &[u8] = b"head\t1.2;\naccess;\nsymbols;\nlocks; strict;\ncomment\t@# @;\n\n\n1.2\n\
        date\t2021.03.04.05.08.00;\tauthor ann;\tstate Exp;\nbranches;\nnext\t1.1;\n\n1.1\n\
        date\t2021.03.04.05.06.07;\tauthor ann;\tstate Exp;\nbranches;\nnext\t1.1;\n\n\ndesc\n@@\n\n\n1.2\nlog\n\
        @second\n@\ntext\n@one\nmid\ntwo\n@\n\n\n1.1\nlog\n@first\n@\ntext\n@d2 1\n@\n";

// two RCS files that can be imported, and others that can't: one whose script fails, one whose trunk goes round, an
// empty one, one beside an s-file, and one of a name that is locked
const FILES: [File<'static>; 9] = [
    File {
        name: b"a,v",
        bytes: Some(RCS_FILE),
    },
    File {
        name: b"b,v",
        bytes: Some(RCS_FILE),
    },
    File {
        name: b"c,v",
        bytes: Some(FAILING),
    },
    File {
        name: b"d,v",
        bytes: Some(UNFIT),
    },
    File {
        name: b"e,v",
        bytes: Some(b""),
    },
    File {
        name: b"f,v",
        bytes: Some(RCS_FILE),
    },
    File {
        name: b"s.f",
        bytes: Some(TWO_LINES),
    },
    File {
        name: b"g,v",
        bytes: Some(RCS_FILE),
    },
    File {
        name: b"z.g",
        bytes: Some(b""),
    },
];

// a line of words, its status, and what is given to out and err
type Row<'a> = (&'a [u8], u8, &'a [u8], &'a [u8]);

// an import, what was made by it, and what is refused behind it
const ROWS: [Row<'static>; 17] = [
    (b"import s.a", 0, b"2 revisions\n", b""),
    (b"val s.a", 0, b"", b""),
    (b"get -k -p -s s.a", 0, b"one\nmid\ntwo\n", b""),
    (b"get -k -p -s -r1.1 s.a", 0, b"one\ntwo\n", b""),
    (b"import s.a", 1, b"", b"ERROR [s.a]: already exists (04)\n"),
    (
        b"import s.c",
        1,
        b"",
        b"ERROR [s.c]: revision 2 fails at line 1 (37)\n",
    ),
    (
        b"import s.d",
        1,
        b"",
        b"ERROR [s.d]: revision 3 is unfit (36)\n",
    ),
    (
        b"import s.e",
        1,
        b"",
        b"ERROR [s.e]: bad RCS file at byte 1 (35)\n",
    ),
    (b"import s.f", 1, b"", b"ERROR [s.f]: already exists (04)\n"),
    (
        b"import s.g",
        1,
        b"",
        b"ERROR [s.g]: locked by z-file (02)\n",
    ),
    (b"import s.h", 1, b"", b"ERROR [s.h]: no such file (03)\n"),
    (
        b"import b",
        1,
        b"",
        b"ERROR [b]: not a name of an s-file (01)\n",
    ),
    (b"import .", 2, b"", b"USAGE: malformed value (word 2)\n"),
    (b"import -", 2, b"", b"USAGE: malformed value (word 2)\n"),
    (
        b"import s.b .",
        2,
        b"",
        b"USAGE: malformed value (word 3)\n",
    ),
    (
        b"import s.b -",
        2,
        b"",
        b"USAGE: options exclude each other (word 3)\n",
    ),
    (
        b"import -s s.b",
        2,
        b"",
        b"USAGE: unknown option (word 2)\n",
    ),
];

// the case that a row is
fn case_of<'a>(row: &Row<'a>) -> Case<'a> {
    let (line, status, out, err) = *row;
    Case {
        line,
        status,
        out,
        err,
        ..CASE
    }
}

// the place of the first row that doesn't end as it should, one by one or as the entries of a batch
fn wrong_row(alloc: Global, disk: &mut MemoryDisk) -> Result<Option<usize>, Fail> {
    let mut cases = Vec::new(alloc);
    for row in &ROWS {
        cases.push(case_of(row))?;
    }
    first_wrong(alloc, disk, &cases)
}

// the s-file that was imported, and no other new one
const IMPORTED_ALONE: [File<'static>; 9] = [
    File {
        name: b"s.a",
        bytes: Some(IMPORTED),
    },
    File {
        name: b"s.f",
        bytes: Some(TWO_LINES),
    },
    File {
        name: b"s.b",
        bytes: None,
    },
    File {
        name: b"s.c",
        bytes: None,
    },
    File {
        name: b"s.d",
        bytes: None,
    },
    File {
        name: b"s.e",
        bytes: None,
    },
    File {
        name: b"x.a",
        bytes: None,
    },
    File {
        name: b"x.d",
        bytes: None,
    },
    File {
        name: b"z.a",
        bytes: None,
    },
];

#[test]
fn trunks_are_imported(rt: HostRuntime) -> Result<(), Fail> {
    let mut disk = disk_with(rt.alloc(), &[], &FILES)?;
    assert_eq!(rt; wrong_row(rt.alloc(), &mut disk)?, None);
    assert!(rt; has(&disk, &IMPORTED_ALONE)?);
    Ok(())
}

// two files that are imported, and one between them that isn't
const THREE: Case<'static> = Case {
    line: b"import s.a s.c s.b",
    status: 1,
    out: b"\ns.a:\n2 revisions\n\ns.b:\n2 revisions\n",
    err: b"ERROR [s.c]: revision 2 fails at line 1 (37)\n",
    ..CASE
};

const BOTH: [File<'static>; 6] = [
    File {
        name: b"s.a",
        bytes: Some(IMPORTED),
    },
    File {
        name: b"s.b",
        bytes: Some(IMPORTED),
    },
    File {
        name: b"s.c",
        bytes: None,
    },
    File {
        name: b"z.a",
        bytes: None,
    },
    File {
        name: b"z.b",
        bytes: None,
    },
    File {
        name: b"z.c",
        bytes: None,
    },
];

#[test]
fn several_are_imported(rt: HostRuntime) -> Result<(), Fail> {
    let mut disk = disk_with(rt.alloc(), &[], &FILES)?;
    assert!(rt; ends(rt.alloc(), &mut disk, &THREE)?);
    assert!(rt; has(&disk, &BOTH)?);
    Ok(())
}
