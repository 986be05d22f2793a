use crate::tests::samples::{EDITED, Files, MID, SECOND_DELTA, changes};
use sccs_test_kit::samples::TWO_LINES;
use sccs_test_kit::{Case, flagged};
use std::alloc::Global;
use std::test::Fail;

// a delta of ann on 1.1, and the message that refuses it
#[derive(Clone, Copy)]
struct Refusal<'a> {
    line: &'a [u8],
    input: &'a [u8],
    err: &'a [u8],
}

// whether a delta is refused, and changes nothing
fn is_refused(alloc: Global, refusal: &Refusal, files: &Files) -> Result<bool, Fail> {
    let case = Case {
        line: refusal.line,
        input: refusal.input,
        status: 1,
        out: b"",
        err: refusal.err,
        ..SECOND_DELTA
    };
    changes(alloc, &case, files, files)
}

// a delta of one line
const PLAIN: Refusal<'static> = Refusal {
    line: b"delta s.a",
    input: MID,
    err: b"",
};

const SCRIPTS: [Refusal<'static>; 6] = [
    Refusal {
        input: b"8a\nx\n.\n",
        err: b"ERROR [s.a]: script line 1: text has 2 lines (22)\n",
        ..PLAIN
    },
    Refusal {
        input: b"1d\n2d\n",
        err: b"ERROR [s.a]: script line 2: text has 1 lines (22)\n",
        ..PLAIN
    },
    Refusal {
        input: b"1a\nx\n",
        err: b"ERROR [s.a]: bad script at line 1 (20)\n",
        ..PLAIN
    },
    Refusal {
        input: b"0c\nx\n.\n",
        err: b"ERROR [s.a]: bad script at line 1 (20)\n",
        ..PLAIN
    },
    Refusal {
        input: b"1a\n\x01x\n.\n",
        err: b"ERROR [s.a]: line 2 begins with SOH (23)\n",
        ..PLAIN
    },
    Refusal {
        input: b"99999999999d\n",
        err: b"ERROR [s.a]: bad script at line 1 (20)\n",
        ..PLAIN
    },
];

#[test]
fn scripts_are_refused(rt: HostRuntime) -> Result<(), Fail> {
    for refusal in &SCRIPTS {
        assert!(rt; is_refused(rt.alloc(), refusal, &EDITED)?);
    }
    Ok(())
}

#[test]
fn another_g_file_is_refused(rt: HostRuntime) -> Result<(), Fail> {
    let differs = Files {
        g_file: Some(b"one\ntwo %I%\n"),
        ..EDITED
    };
    let refusal = Refusal {
        err: b"ERROR [s.a]: g-file differs at line 2 (26)\n",
        ..PLAIN
    };
    assert!(rt; is_refused(rt.alloc(), &refusal, &differs)?);
    Ok(())
}

// whether a delta is refused with this p-file
fn is_without_edit(alloc: Global, refusal: &Refusal, p_file: Option<&[u8]>) -> Result<bool, Fail> {
    let files = Files {
        s_file: TWO_LINES,
        p_file,
        g_file: None,
    };
    is_refused(alloc, refusal, &files)
}

const NOT_PENDING: Refusal<'static> = Refusal {
    err: b"ERROR [s.a]: no edit is pending (13)\n",
    ..PLAIN
};

#[test]
fn entries_are_looked_for(rt: HostRuntime) -> Result<(), Fail> {
    let of_bob = b"1.1 1.2 bob 21/03/04 05:07:00\n";
    let both = b"1.1 1.2 ann 21/03/04 05:07:00\n1.1 1.1.1.1 ann 21/03/04 05:07:00\n";
    let unnamed = Refusal {
        err: b"ERROR [s.a]: SID must be specified (14)\n",
        ..PLAIN
    };
    let other = Refusal {
        line: b"delta -r1.3 s.a",
        ..NOT_PENDING
    };
    assert!(rt; is_without_edit(rt.alloc(), &NOT_PENDING, None)?);
    assert!(rt; is_without_edit(rt.alloc(), &NOT_PENDING, Some(of_bob))?);
    assert!(rt; is_without_edit(rt.alloc(), &unnamed, Some(both))?);
    assert!(rt; is_refused(rt.alloc(), &other, &EDITED)?);
    Ok(())
}

// flags of the file, and a delta that they refuse
#[derive(Clone, Copy)]
struct Flagged<'a> {
    flags: &'a [u8],
    refusal: Refusal<'a>,
}

// whether a delta is refused where the file has the flags
fn heeds(alloc: Global, file: &[u8], row: &Flagged) -> Result<bool, Fail> {
    let file = flagged(alloc, file, row.flags)?;
    let files = Files {
        s_file: &file,
        ..EDITED
    };
    is_refused(alloc, &row.refusal, &files)
}

const FLAGS: [Flagged<'static>; 8] = [
    Flagged {
        flags: b"\x01f f 2\n",
        refusal: Refusal {
            err: b"ERROR [s.a]: release outside floor and ceiling (17)\n",
            ..PLAIN
        },
    },
    Flagged {
        flags: b"\x01f l a\n",
        refusal: Refusal {
            err: b"ERROR [s.a]: release is locked (18)\n",
            ..PLAIN
        },
    },
    Flagged {
        flags: b"\x01f i\n",
        refusal: Refusal {
            input: b"2d\n",
            err: b"ERROR [s.a]: no id keywords (24)\n",
            ..PLAIN
        },
    },
    Flagged {
        flags: b"\x01f v\n",
        refusal: Refusal {
            err: b"ERROR [s.a]: MR numbers needed (28)\n",
            ..PLAIN
        },
    },
    Flagged {
        flags: b"",
        refusal: Refusal {
            line: b"delta -m1 s.a",
            err: b"ERROR [s.a]: MR numbers not allowed (29)\n",
            ..PLAIN
        },
    },
    Flagged {
        flags: b"\x01f v check\n",
        refusal: Refusal {
            line: b"delta -m1 s.a",
            err: b"ERROR [s.a]: flag v not supported (30)\n",
            ..PLAIN
        },
    },
    Flagged {
        flags: b"\x01f i word\n",
        refusal: Refusal {
            err: b"ERROR [s.a]: flag i not supported (30)\n",
            ..PLAIN
        },
    },
    Flagged {
        flags: b"\x01f i word\n",
        refusal: Refusal {
            line: b"delta -m1 s.a",
            input: b"9d\n",
            err: b"ERROR [s.a]: script line 1: text has 2 lines (22)\n",
        },
    },
];

#[test]
fn flags_are_heeded(rt: HostRuntime) -> Result<(), Fail> {
    for row in &FLAGS {
        assert!(rt; heeds(rt.alloc(), TWO_LINES, row)?);
    }
    Ok(())
}

// one delta, with the last serial
const LAST: &[u8] =
    b"\x01h00000\n\x01s 00000/00000/00000\n\x01d D 1.1 21/03/04 05:06:07 ann 65535 0\n\x01c\n\x01e\n\x01u\n\x01U\n\
        \x01t\n\x01T\n\x01I 65535\n\x01E 65535\n";

#[test]
fn serials_end(rt: HostRuntime) -> Result<(), Fail> {
    let row = Flagged {
        flags: b"",
        refusal: Refusal {
            input: b"",
            err: b"ERROR [s.a]: no number is left (33)\n",
            ..PLAIN
        },
    };
    assert!(rt; heeds(rt.alloc(), LAST, &row)?);
    Ok(())
}
