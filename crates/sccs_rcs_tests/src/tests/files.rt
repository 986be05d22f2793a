use bstr::ByteSlice;
use sccs_rcs_file::{RcsFault, read_rcs};
use sccs_trunks::Revision;
use std::alloc::Global;
use std::test::Fail;

// two revisions; the script deletes the second of three lines
pub const TWO: &[u8] = b"head\t1.2;\naccess;\nsymbols;\nlocks; strict;\ncomment\t@# @;\n\n\n1.2\n\
        date\t2021.03.04.05.08.00;\tauthor ann;\tstate Exp;\nbranches;\nnext\t1.1;\n\n1.1\n\
        date\t2021.03.04.05.06.07;\tauthor ann;\tstate Exp;\nbranches;\nnext\t;\n\n\ndesc\n@@\n\n\n1.2\nlog\n@second\n\
        @\ntext\n@one\nmid\ntwo\n@\n\n\n1.1\nlog\n@first\n@\ntext\n@d2 1\n@\n";

// the same with other bytes in the place of some
pub fn with(alloc: Global, old: &[u8], new: &[u8]) -> Result<Vec<u8>, Fail> {
    let at = TWO.find(old).ok_or("the old bytes")?;
    let mut bytes = TWO[..at].to_vec(alloc)?;
    bytes.extend_from_slice(new)?;
    bytes.extend_from_slice(TWO[at..].get(old.len()..).ok_or("the rest")?)?;
    Ok(bytes)
}

// whether reading answers a fault
fn fails(alloc: Global, bytes: &[u8], fault: RcsFault) -> bool {
    match read_rcs(alloc, bytes) {
        Ok(_) => false,
        Err(found) => found == fault,
    }
}

// whether reading the changed file answers a fault
fn change_fails(alloc: Global, old: &[u8], new: &[u8], fault: RcsFault) -> Result<bool, Fail> {
    let bytes = with(alloc, old, new)?;
    Ok(fails(alloc, bytes.as_slice(), fault))
}

// whether a revision has a level, a second, a line of log and so many lines
fn is_so(revision: &Revision, level: u16, seconds: i64, log: &[u8], lines: u64) -> bool {
    let first = match revision.log.items().first() {
        Some(line) => line.bytes() == log,
        None => false,
    };
    (revision.sid.release == 1)
        & (revision.sid.level == level)
        & (revision.moment.seconds == seconds)
        & (revision.login.bytes() == b"ann".as_slice())
        & first
        & (revision.text.len() == lines)
}

#[test]
fn trunk_is_read(rt: HostRuntime) -> Result<(), Fail> {
    let rcs = read_rcs(rt.alloc(), TWO).map_err(|_| "a trunk")?;
    match rcs.revisions.items() {
        [head, first] => {
            let both = is_so(head, 2, 1_614_834_480, b"second", 3)
                & is_so(first, 1, 1_614_834_367, b"first", 1);
            assert!(rt; both & (rcs.description.len() == 0));
            Ok(())
        }
        _ => Err("two revisions".into()),
    }
}

#[test]
fn faults_have_their_places(rt: HostRuntime) -> Result<(), Fail> {
    let alloc = rt.alloc();
    let none = fails(alloc, b"", RcsFault::BadRcs(1));
    let script = change_fails(alloc, b"d2 1", b"d4 1", RcsFault::RcsScript(2, 1))?;
    let next = change_fails(alloc, b"next\t;", b"next 1.1;", RcsFault::BadRevision(3))?;
    let token = change_fails(alloc, b"desc\n@@", b"desc\n@", RcsFault::BadRcs(223))?;
    assert!(rt; none & script & next & token);
    Ok(())
}

#[test]
fn unfit_revisions_are_named(rt: HostRuntime) -> Result<(), Fail> {
    let alloc = rt.alloc();
    let head = change_fails(alloc, b"head\t1.2;", b"head;", RcsFault::BadRevision(1))?;
    let date = change_fails(
        alloc,
        b"2021.03.04.05.06.07",
        b"2021.13.04.05.06.07",
        RcsFault::BadRevision(2),
    )?;
    let twice = change_fails(
        alloc,
        b"state Exp;\nbranches;\nnext\t1.1;",
        b"author ann; next\t1.1;",
        RcsFault::BadRevision(1),
    )?;
    let about = change_fails(
        alloc,
        b"desc\n@@",
        b"desc\n@\x01@",
        RcsFault::BadRevision(0),
    )?;
    let soh = change_fails(
        alloc,
        b"one\nmid",
        b"one\n\x01mid",
        RcsFault::RcsScript(1, 2),
    )?;
    assert!(rt; head & date & twice & about & soh);
    Ok(())
}
