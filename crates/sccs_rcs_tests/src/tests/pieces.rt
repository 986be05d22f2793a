use crate::tests::files::{TWO, with};
use sccs_rcs_file::read_rcs;
use sccs_trunks::{LineCounts, LineRun, Piece, Revision, join_scripts, line_counts, trunk_runs};
use std::alloc::Global;
use std::test::Fail;

// whether a piece is one line of the head, with this inserter
fn is_passed(piece: &Piece, by: u16) -> bool {
    match *piece {
        Piece::Base { inserter, count } => (inserter == by) & (count == 1),
        Piece::New { .. } => false,
    }
}

// whether the pieces are a line that is passed, and one that the revision of serial 2 inserted
fn is_passed_then_begun(pieces: &[Piece]) -> bool {
    match pieces {
        [passed, begun] => is_passed(passed, 0) & is_passed(begun, 2),
        _ => false,
    }
}

#[test]
fn script_becomes_pieces(rt: HostRuntime) -> Result<(), Fail> {
    let alloc = rt.alloc();
    let rcs = read_rcs(alloc, TWO).map_err(|_| "a trunk")?;
    let Some((_, others)) = rcs.revisions.items().split_first() else {
        return Err("a head".into());
    };
    if 10 < others.len() {
        return Err("few revisions".into());
    }
    let pieces = join_scripts(alloc, others, 0)?;
    assert!(rt; is_passed_then_begun(pieces.as_slice()));
    Ok(())
}

// a file whose script adds a line, too
fn with_last_line(alloc: Global) -> Result<Vec<u8>, Fail> {
    with(alloc, b"d2 1\n", b"d2 1\na3 1\nlast\n")
}

// whether a run has one line, this one, with these serials
fn is_run(run: &LineRun, inserter: u16, deleter: u16, line: &[u8]) -> bool {
    match run.lines {
        [only] => { (run.inserter == inserter) & (run.deleter == deleter) & (only.bytes() == line) }
        _ => false,
    }
}

// whether the lines of the trunk stand in runs as they must
fn are_runs(runs: &[LineRun]) -> bool {
    match runs {
        [one, mid, two, last] => {
            is_run(one, 1, 0, b"one")
                & is_run(mid, 2, 0, b"mid")
                & is_run(two, 1, 0, b"two")
                & is_run(last, 1, 2, b"last")
        }
        _ => false,
    }
}

#[test]
fn lines_stand_in_runs(rt: HostRuntime) -> Result<(), Fail> {
    let alloc = rt.alloc();
    let file = with_last_line(alloc)?;
    let rcs = read_rcs(alloc, file.as_slice()).map_err(|_| "a trunk")?;
    let revisions = rcs.revisions.items();
    if 10 < revisions.len() {
        return Err("few revisions".into());
    }
    let runs = trunk_runs(alloc, revisions)?;
    assert!(rt; are_runs(runs.as_slice()));
    Ok(())
}

// whether the revisions' lines are counted as they must
fn are_counted(alloc: Global, revisions: &[Revision]) -> Result<bool, Fail> {
    if 10 < revisions.len() {
        return Err("few revisions".into());
    }
    let runs = trunk_runs(alloc, revisions)?;
    let counts = line_counts(alloc, runs.as_slice(), 2)?;
    let first = LineCounts {
        inserted: 3,
        deleted: 0,
        unchanged: 0,
    };
    let second = LineCounts {
        inserted: 1,
        deleted: 1,
        unchanged: 2,
    };
    Ok(counts.as_slice() == [first, second].as_slice())
}

#[test]
fn lines_are_counted(rt: HostRuntime) -> Result<(), Fail> {
    let alloc = rt.alloc();
    let file = with_last_line(alloc)?;
    let rcs = read_rcs(alloc, file.as_slice()).map_err(|_| "a trunk")?;
    assert!(rt; are_counted(alloc, rcs.revisions.items())?);
    Ok(())
}
