use sccs_base::{Login, Name, Text};
use sccs_disk::{Disk, MemoryDisk};
use sccs_history::{Flags, Header, Record, Records, Serials};
use sccs_pfile::*;
use sccs_sid::{Moment, Sid, SidList};
use std::alloc::Global;
use std::test::Fail;

const BOTH: &[u8] = b"1.1 1.2 ann 21/03/04 05:07:00 -i1.1-1.2,1.3.1.1 -x1.4\n";

const SPACED: &[u8] = b"1.1   01.2 ann 21/3/4 5:7:0  -x1.4 -i1.1-1.2,1.3.1.1-1.3.1.1  \n";

const TWO: &[u8] = b"1.1 1.2 ann 21/03/04 05:07:00\n1.1 1.1.1.1 ann 21/03/04 05:08:00\n";

// a header whose only delta is 1.1, or also 1.2
fn header(alloc: Global, levels: u16) -> Result<Header, Fail> {
    let mut records = Records::empty(alloc);
    for serial in 0..levels {
        let record = Record {
            serial: levels - serial,
            removed: false,
            sid: Sid::read(if serial + 1 == levels { b"1.1" } else { b"1.2" }).map_err(
                |_| "a SID",
            )?,
            moment: Moment { seconds: 0 },
            login: Login::nobody(),
            predecessor: levels - serial - 1,
            include: Serials::empty(alloc),
            exclude: Serials::empty(alloc),
            ignore: Serials::empty(alloc),
            mrs: Text::empty(alloc),
            comments: Text::empty(alloc),
            inserted: 0,
            deleted: 0,
            unchanged: 0,
        };
        records.push(record)?;
    }
    Ok(Header {
        records,
        users: Text::empty(alloc),
        flags: Flags::empty(alloc),
        description: Text::empty(alloc),
    })
}

// whether bytes have this fault
fn has_fault(alloc: Global, bytes: &[u8], line: u64) -> bool {
    matches!(read_edits(alloc, bytes), Err(PfileFault::BadPfile(at)) if at == line)
}

// whether the entries of bytes are written as others are
fn is_written(alloc: Global, bytes: &[u8], written: &[u8]) -> Result<bool, Fail> {
    let Ok(edits) = read_edits(alloc, bytes) else {
        return Ok(false);
    };
    let name = Name::read(b"q.a").ok_or("a name")?;
    let mut disk = MemoryDisk::new(alloc, 1000, &[])?;
    disk.put(&name, b"", true)?;
    let mut piece = [0; 100];
    let done = write_edits(&edits, &mut disk, &name);
    let read = disk.read_at(&name, 0, &mut piece);
    Ok(done == Ok(()) && read == Ok(Some(written.len())) && &piece[..written.len()] == written)
}

#[test]
fn entries_are_written_and_read(rt: HostRuntime) -> Result<(), Fail> {
    let alloc = rt.alloc();
    assert!(rt;
        is_written(alloc, BOTH, BOTH)?
            & is_written(alloc, SPACED, BOTH)?
            & is_written(alloc, b"", b"")?
    );
    assert!(rt; is_written(alloc, TWO, TWO)?);
    Ok(())
}

#[test]
fn hostile_lines_are_faults(rt: HostRuntime) -> Result<(), Fail> {
    let alloc = rt.alloc();
    assert!(rt;
        has_fault(alloc, b"1.2 1.3 bob 21/03/04\n", 1)
            & has_fault(
                alloc,
                b"1.1 1.2 ann 21/03/04 05:07:00\n 1.1 1.3 ann 21/03/04 05:07:00\n",
                2
            )
            & has_fault(alloc, b"1.1 1.2 ann 21/03/04 05:07:00 -i1.1 -i1.1\n", 1)
            & has_fault(alloc, b"1.1 1.2 ann 21/03/04 05:07:00 -i\n", 1)
            & has_fault(
                alloc,
                b"1.1 1.2 ann 21/03/04 05:07:00\n1.1 1.3 ann 21/03/04 05:07:00",
                2
            )
    );
    Ok(())
}

// whether the entries of bytes agree with a header, or which doesn't
fn agreement(alloc: Global, levels: u16, bytes: &[u8]) -> Result<Option<u64>, Fail> {
    let Ok(edits) = read_edits(alloc, bytes) else {
        return Ok(Some(0));
    };
    match agree(alloc, &header(alloc, levels)?, &edits) {
        Ok(()) => Ok(None),
        Err(fault) => Ok(Some(fault.entry)),
    }
}

#[test]
fn entries_agree_with_a_table(rt: HostRuntime) -> Result<(), Fail> {
    let alloc = rt.alloc();
    assert_eq!(rt; agreement(alloc, 1, TWO)?, None);
    assert_eq!(rt;
        agreement(alloc, 2, b"1.2 1.1 bob 21/03/04 05:11:00\n")?,
        Some(1)
    );
    assert_eq!(rt;
        agreement(
            alloc,
            2,
            b"1.2 1.3 bob 21/03/04 05:11:00\n1.2 1.3 bob 21/03/04 05:11:00\n"
        )?,
        Some(1)
    );
    assert_eq!(rt;
        agreement(alloc, 2, b"1.2 1.3 bob 21/03/04 05:11:00 -i1.1-1.2\n")?,
        None
    );
    assert_eq!(rt;
        agreement(alloc, 2, b"1.2 1.3 bob 21/03/04 05:11:00 -i1.1-1.2 -x1.1\n")?,
        Some(1)
    );
    assert_eq!(rt;
        agreement(alloc, 2, b"1.2 1.3 bob 21/03/04 05:11:00 -i1.2-1.1\n")?,
        Some(1)
    );
    Ok(())
}

#[test]
fn entries_are_chosen(rt: HostRuntime) -> Result<(), Fail> {
    let alloc = rt.alloc();
    let ann = Login::read(b"ann").ok_or("a login")?;
    let bob = Login::read(b"bob").ok_or("a login")?;
    let got = Sid::read(b"1.1").map_err(|_| "a SID")?;
    let made = Sid::read(b"1.1.1.1").map_err(|_| "a SID")?;
    let mut edits = read_edits(alloc, TWO).map_err(|_| "entries")?;
    assert_eq!(rt; choose(&edits, &ann, None, false), Choice::ManyEdits);
    assert_eq!(rt; choose(&edits, &ann, Some(&made), false), Choice::One(2));
    assert_eq!(rt; choose(&edits, &ann, Some(&got), false), Choice::NoEdit);
    assert_eq!(rt; choose(&edits, &ann, Some(&got), true), Choice::ManyEdits);
    assert_eq!(rt; choose(&edits, &bob, None, false), Choice::NoEdit);
    release(&mut edits, 1);
    assert_eq!(rt; choose(&edits, &ann, Some(&got), true), Choice::One(1));
    let added = Edit {
        got,
        made,
        login: bob,
        moment: Moment { seconds: 0 },
        include: SidList::empty(alloc),
        exclude: SidList::empty(alloc),
    };
    assert_eq!(rt; reserve(&mut edits, added), Ok(()));
    assert_eq!(rt; choose(&edits, &bob, None, false), Choice::One(2));
    Ok(())
}
