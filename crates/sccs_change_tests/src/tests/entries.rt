use sccs_disk::MemoryDisk;
use sccs_test_kit::samples::EMPTY;
use sccs_test_kit::{CASE, Case, disk_with, ends, has_file};
use std::alloc::Global;
use std::test::Fail;

// an edit, a script that is refused, and a line that is no entry
const DAY: &[u8] = b"@ 21/03/04 05:06:07 ann 3 0\nadmin\n-n\ns.a\n\
@ 21/03/04 05:07:00 ann 4 0\nget\n-e\n-g\ns.a\n\
@ 21/03/04 05:08:00 ann 3 3\ndelta\n-yx\ns.a\n9a\nz\n.\n\
@ 21/03/04 05:09:00 ann 2 0\nunget\ns.a\n@ oops\n";

// whether a batch on an empty disk leaves that s-file and no p-file
fn leaves(alloc: Global, case: &Case, s_file: Option<&[u8]>) -> Result<bool, Fail> {
    let mut disk = disk_with(alloc, &[], &[])?;
    let ended = ends(alloc, &mut disk, case)?;
    let kept = has_file(&disk, b"s.a", s_file)?;
    let clean = has_file(&disk, b"p.a", None)? && has_file(&disk, b"z.a", None)?;
    Ok(ended && (kept && clean))
}

#[test]
fn a_refused_delta_and_a_bad_line(rt: HostRuntime) -> Result<(), Fail> {
    let case = Case {
        line: b"batch",
        input: DAY,
        status: 1,
        out: b"= 0\n1.1\nnew delta 1.2\n= 0\n= 1\n1.2\n= 0\n",
        err: b"ERROR [s.a]: script line 1: text has 0 lines (22)\nBATCH: line 20\n",
        ..CASE
    };
    assert!(rt; leaves(rt.alloc(), &case, Some(EMPTY))?);
    Ok(())
}

// what is no entry, and the number of its line
const BAD: [(&[u8], &[u8]); 10] = [
    (b"admin -n s.a\n", b"BATCH: line 1\n"),
    (b"@ 21/03/04 05:06:07 ann 0 0\n", b"BATCH: line 1\n"),
    (b"@ 21/03/04 05:06:07 ann 1001 0\n", b"BATCH: line 1\n"),
    (b"@ 21/13/04 05:06:07 ann 1 0\nsact\n", b"BATCH: line 1\n"),
    (b"@ 21/03/04 05:06:07  ann 1 0\nsact\n", b"BATCH: line 1\n"),
    (b"@ 21/03/04 05:06:07 ann 2 0\nsact\n", b"BATCH: line 1\n"),
    (b"@ 21/03/04 05:06:07 ann 1 1\nsact\n", b"BATCH: line 1\n"),
    (b"@ 21/03/04 05:06:07 ann 1 0\nbatch\n", b"BATCH: line 1\n"),
    (
        b"@ 21/03/04 05:06:07 ann 2 0\nsoak\n1\n",
        b"BATCH: line 1\n",
    ),
    (b"@ 21/03/04 05:06:07 ann 1 0 \nsact\n", b"BATCH: line 1\n"),
];

// the case of lines that are no entry
fn bad<'a>(input: &'a [u8], err: &'a [u8]) -> Case<'a> {
    Case {
        line: b"batch",
        input,
        status: 1,
        err,
        ..CASE
    }
}

// the first of these that doesn't end as it should
fn first_accepted(alloc: Global, disk: &mut MemoryDisk) -> Result<Option<usize>, Fail> {
    for (at, (input, err)) in BAD.iter().enumerate() {
        if !ends(alloc, disk, &bad(input, err))? {
            return Ok(Some(at));
        }
    }
    Ok(None)
}

#[test]
fn lines_that_are_no_entries(rt: HostRuntime) -> Result<(), Fail> {
    let mut disk = disk_with(rt.alloc(), &[], &[])?;
    assert!(rt; first_accepted(rt.alloc(), &mut disk)? == None);
    Ok(())
}

// batches that end well, each over the files that those before it left
const WELL: [Case<'static>; 4] = [
    Case {
        line: b"batch",
        ..CASE
    },
    // a word that is no utility, and one that is empty, are usage faults of their entries
    Case {
        line: b"batch",
        input: b"@ 21/03/04 05:06:07 ann 1 0\nvc\n@ 21/03/04 05:06:07 ann 1 0\n\n",
        out: b"= 2\n= 2\n",
        err: b"USAGE: unknown utility (word 1)\nUSAGE: unknown utility (word 1)\n",
        ..CASE
    },
    // each entry has its input, its moment and its login
    Case {
        line: b"batch",
        input: b"@ 21/03/04 05:06:07 ann 3 2\nadmin\n-i\ns.a\none\ntwo\n\
@ 21/03/05 00:00:00 bob 3 1\nadmin\n-i\ns.b\nthree\n\
@ 21/03/04 05:07:00 ann 3 0\nprs\n-d:I: :P: :D: :Li:\n.",
        out: b"= 0\n= 0\n1.1 ann 21/03/04 00002\n1.1 bob 21/03/05 00001\n= 0\n",
        ..CASE
    },
    // the names of an operand `-` are the lines of its entry
    Case {
        line: b"batch",
        input: b"@ 21/03/04 05:06:07 ann 3 2\nprs\n-d:F:\n-\ns.b\ns.a\n@ 21/03/04 05:06:07 ann 2 0\nval\ns.zz\n",
        out: b"s.b\ns.a\n= 0\ns.zz: cannot open file or file not SCCS\n= 16\n",
        ..CASE
    },
];

// whether each batch ends as it should, over the files that those before it left
fn end_well(alloc: Global) -> Result<bool, Fail> {
    let mut disk = disk_with(alloc, &[], &[])?;
    for case in &WELL {
        if !ends(alloc, &mut disk, case)? {
            return Ok(false);
        }
    }
    Ok(true)
}

#[test]
fn entries_have_what_is_theirs(rt: HostRuntime) -> Result<(), Fail> {
    assert!(rt; end_well(rt.alloc())?);
    Ok(())
}
