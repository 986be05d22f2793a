use sccs_base::{Line, Login, Text};
use sccs_history::{Flags, Header, Records, Serials};
use sccs_records::*;
use sccs_sid::{Moment, Sid, Stamp};
use std::alloc::Global;
use std::test::Fail;

fn stamp() -> Result<Stamp, Fail> {
    Ok(Stamp {
        moment: Moment::from_seconds(0).ok_or("a moment")?,
        login: Login::read(b"ann").ok_or("a login")?,
    })
}

fn trunk(release: u16) -> Sid {
    Sid {
        release,
        level: 1,
        branch: 0,
        sequence: 0,
    }
}

// a delta that inserts so many lines
fn delta(alloc: Global, release: u16, inserted: u64) -> Result<NewDelta, Fail> {
    let line = Line::new(alloc, b"why")?;
    Ok(NewDelta {
        sid: trunk(release),
        stamp: stamp()?,
        include: Serials::empty(alloc),
        exclude: Serials::empty(alloc),
        mrs: Text::empty(alloc),
        comments: some_lines(alloc, &[line])?,
        counts: Counts {
            inserted,
            deleted: 0,
            unchanged: 0,
        },
    })
}

// whether the record at a place has these serials, and inserts so many lines
fn has(header: &Header, place: u64, serial: u16, on: u16, inserted: u32) -> bool {
    match header.records.items().get(place as usize) {
        Some(record) => {
            (record.serial == serial)
                & (record.predecessor == on)
                & (record.inserted == inserted)
                & (record.comments.len() == 1)
        }
        None => false,
    }
}

#[test]
fn deltas_are_put_in_front(rt: HostRuntime) -> Result<(), Fail> {
    let alloc = rt.alloc();
    let header = Header {
        records: Records::empty(alloc),
        users: Text::empty(alloc),
        flags: Flags::empty(alloc),
        description: Text::empty(alloc),
    };
    let header = add_delta(alloc, header, 0, delta(alloc, 1, 7)?)?;
    let based = BasedHeader { header, on: 1 };
    let based = add_null_deltas(alloc, based, &stamp()?, &[trunk(2), trunk(3)])?;
    let header = add_delta(alloc, based.header, based.on, delta(alloc, 4, 100_000)?)?;
    let newest = has(&header, 0, 4, 3, 99_999);
    let nulls = has(&header, 1, 3, 2, 0) & has(&header, 2, 2, 1, 0);
    assert!(rt; newest & nulls & has(&header, 3, 1, 0, 7));
    Ok(())
}

#[test]
fn a_comment_has_a_line(rt: HostRuntime) -> Result<(), Fail> {
    assert!(rt; some_lines(rt.alloc(), &[])?.len() == 1);
    Ok(())
}
