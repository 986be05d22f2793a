use sccs_test_kit::samples::EMPTY;
use sccs_test_kit::{CASE, Case, File, disk_with, ends, first_wrong, has, has_file};
use std::alloc::Global;
use std::test::Fail;

// two empty files that are edited
const BEFORE: [Case<'static>; 2] = [
    Case {
        line: b"admin -n s.a s.c",
        ..CASE
    },
    Case {
        line: b"get -e -g -s s.a s.c",
        time: b"05:07:00",
        ..CASE
    },
];

const LEFT: [File<'static>; 6] = [
    File {
        name: b"p.a",
        bytes: None,
    },
    File {
        name: b"p.c",
        bytes: None,
    },
    File {
        name: b"z.a",
        bytes: None,
    },
    File {
        name: b"z.c",
        bytes: None,
    },
    File {
        name: b"sccs.plan",
        bytes: None,
    },
    File {
        name: b"sccs.intent",
        bytes: None,
    },
];

const REFUSED: Case<'static> = Case {
    line: b"group",
    time: b"05:08:00",
    input: b"@ 3 3\ndelta\n-yx\ns.a\n0a\none\n.\n@ 3 3\ndelta\n-yx\ns.c\n9a\nz\n.\n",
    status: 1,
    err: b"ERROR [s.c]: script line 1: text has 0 lines (22)\n",
    ..CASE
};

const MADE: Case<'static> = Case {
    line: b"group",
    time: b"05:08:00",
    input: b"@ 3 3\ndelta\n-yx\ns.a\n0a\none\n.\n@ 3 3\ndelta\n-yx\ns.c\n0a\nz\n.\n",
    out: b"\ns.a:\n1.2\n1 inserted\n0 deleted\n0 unchanged\n\ns.c:\n1.2\n1 inserted\n0 deleted\n0 unchanged\n",
    err: b"WARNING [s.a]: no id keywords\nWARNING [s.c]: no id keywords\n",
    ..CASE
};

#[test]
fn a_refusal_comes_before_any_commit(rt: HostRuntime) -> Result<(), Fail> {
    let alloc = rt.alloc();
    let mut disk = disk_with(alloc, &[], &[])?;
    assert_eq!(rt;
        first_wrong(alloc, &mut disk, &[BEFORE[0], BEFORE[1], REFUSED])?,
        None
    );
    assert!(rt; has_file(&disk, b"s.a", Some(EMPTY))? && has_file(&disk, b"s.c", Some(EMPTY))?);
    assert!(rt; has(&disk, &LEFT[2..])?);
    Ok(())
}

#[test]
fn reports_and_warnings_are_in_order(rt: HostRuntime) -> Result<(), Fail> {
    let alloc = rt.alloc();
    let mut disk = disk_with(alloc, &[], &[])?;
    assert_eq!(rt;
        first_wrong(alloc, &mut disk, &[BEFORE[0], BEFORE[1], MADE])?,
        None
    );
    assert!(rt; has(&disk, &LEFT)?);
    Ok(())
}

// an intent that isn't of its form
fn is_bad(alloc: Global) -> Result<bool, Fail> {
    let mut disk = disk_with(
        alloc,
        &[],
        &[File {
            name: b"sccs.intent",
            bytes: Some(b"oops\n"),
        }],
    )?;
    let recover = Case {
        line: b"recover s.a",
        status: 1,
        err: b"ERROR [s.a]: format error in intent at line 1 (39)\n",
        ..CASE
    };
    let pending = Case {
        out: b"",
        status: 1,
        err: b"ERROR [-]: a group is pending (38)\n",
        ..MADE
    };
    let is_refused = ends(alloc, &mut disk, &recover)?;
    let is_pending = ends(alloc, &mut disk, &pending)?;
    Ok(is_refused && (is_pending && has_file(&disk, b"sccs.intent", Some(b"oops\n"))?))
}

#[test]
fn bad_intents_are_refused(rt: HostRuntime) -> Result<(), Fail> {
    assert!(rt; is_bad(rt.alloc())?);
    Ok(())
}
