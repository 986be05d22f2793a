use crate::tests::names::{GROUP, are_free, are_new, are_old, are_uncrossed, crossed, edited};
use sccs_disk::MemoryDisk;
use sccs_test_kit::{CASE, Case, ends, has_file};
use std::alloc::Global;
use std::test::Fail;

#[test]
fn groups_are_made(rt: HostRuntime) -> Result<(), Fail> {
    let alloc = rt.alloc();
    let mut disk = edited(alloc, &[])?;
    assert!(rt; ends(alloc, &mut disk, &GROUP)?);
    assert!(rt; are_new(&disk)? && are_free(&disk)?);
    assert!(rt; has_file(&disk, b"b", None)?);
    Ok(())
}

#[test]
fn a_g_file_may_be_the_l_file_of_another_name(rt: HostRuntime) -> Result<(), Fail> {
    let alloc = rt.alloc();
    let mut disk = crossed(alloc)?;
    let both = Case {
        input: b"@ 3 3\ndelta\n-ysecond\ns.l.a\n1a\nmid\n.\n@ 3 3\ndelta\n-ysecond\ns.a\n1a\nmid\n.\n",
        out: b"\ns.l.a:\n1.2\n1 inserted\n0 deleted\n2 unchanged\n\ns.a:\n1.2\n1 inserted\n0 deleted\n2 unchanged\n",
        ..GROUP
    };
    assert!(rt; ends(alloc, &mut disk, &both)?);
    assert!(rt; are_uncrossed(&disk)?);
    Ok(())
}

// whether an input is refused so, and nothing changes
fn refuses<'a>(alloc: Global, input: &'a [u8], err: &'a [u8]) -> Result<bool, Fail> {
    let mut disk = edited(alloc, &[])?;
    let refused = Case {
        input,
        out: b"",
        status: 1,
        err,
        ..GROUP
    };
    let said = ends(alloc, &mut disk, &refused)?;
    Ok(said && are_old(&disk)? && are_free(&disk)?)
}

#[test]
fn inputs_that_are_no_groups_are_refused(rt: HostRuntime) -> Result<(), Fail> {
    let alloc = rt.alloc();
    assert!(rt; refuses(alloc, b"", b"GROUP: line 1\n")?);
    assert!(rt; refuses(alloc, b"oops\n", b"GROUP: line 1\n")?);
    assert!(rt;
        refuses(
            alloc,
            b"@ 3 3\ndelta\n-yx\ns.a\n0a\n1\n.\n@ 1 0\nsact\n",
            b"GROUP: line 8\n"
        )?
    );
    assert!(rt;
        refuses(
            alloc,
            b"@ 3 3\ndelta\n-yx\ns.a\n0a\n1\n.\n@ 3 3\ndelta\n-yx\ns.a\n0a\n1\n.\n",
            b"GROUP: line 8\n"
        )?
    );
    Ok(())
}

#[test]
fn refused_entries_change_nothing(rt: HostRuntime) -> Result<(), Fail> {
    let alloc = rt.alloc();
    let two = b"@ 3 3\ndelta\n-yx\ns.a\n0a\none\n.\n@ 3 3\ndelta\n-yx\ns.c\n9a\nz\n.\n";
    assert!(rt;
        refuses(
            alloc,
            two,
            b"ERROR [s.c]: script line 1: text has 2 lines (22)\n"
        )?
    );
    let other = b"@ 3 3\ndelta\n-yx\ns.a\n0a\none\n.\n@ 3 3\ndelta\n-yx\ns.d\n0a\nz\n.\n";
    assert!(rt; refuses(alloc, other, b"ERROR [s.d]: no such file (03)\n")?);
    Ok(())
}

// a batch may hold a group
fn in_batch(alloc: Global, disk: &mut MemoryDisk) -> Result<bool, Fail> {
    let batch = Case {
        line: b"batch",
        input: b"@ 21/03/04 05:08:00 ann 1 21\ngroup\n@ 3 3\ndelta\n-ysecond\ns.a\n1a\nmid\n.\n@ 3 3\ndelta\n-ysecond\n\
            s.b\n1a\nmid\n.\n@ 3 3\ndelta\n-ysecond\ns.c\n1a\nmid\n.\n@ 21/03/04 05:09:00 ann 2 0\nrecover\ns.a\n",
        out: b"\ns.a:\n1.2\n1 inserted\n0 deleted\n2 unchanged\n\ns.b:\n1.2\n1 inserted\n0 deleted\n2 unchanged\n\n\
            s.c:\n1.2\n1 inserted\n0 deleted\n2 unchanged\n= 0\ns.a: clean\n= 0\n",
        ..CASE
    };
    ends(alloc, disk, &batch)
}

#[test]
fn batches_hold_groups(rt: HostRuntime) -> Result<(), Fail> {
    let alloc = rt.alloc();
    let mut disk = edited(alloc, &[])?;
    assert!(rt; in_batch(alloc, &mut disk)?);
    assert!(rt; are_new(&disk)? && are_free(&disk)?);
    Ok(())
}
