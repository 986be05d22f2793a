use sccs_base::{Line, Login, Text};
use sccs_flags::*;
use sccs_history::{Flag, Flags, Header, Records};
use std::alloc::Global;
use std::test::Fail;

// a header with flags and users alone
fn header(alloc: Global, flags: &[(u8, &[u8])], users: &[u8]) -> Result<Header, Fail> {
    let mut all = Flags::empty(alloc);
    for (letter, text) in flags {
        let text = Line::new(alloc, text)?;
        all.push(Flag {
            letter: *letter,
            text,
        })?;
    }
    Ok(Header {
        records: Records::empty(alloc),
        users: Text::read(alloc, users)?,
        flags: all,
        description: Text::empty(alloc),
    })
}

fn has_no_limits(header: &Header) -> bool {
    (ceiling(header) == 9999) & (floor(header) == 1) & !is_locked(header, 1)
}

fn has_limits(header: &Header) -> bool {
    is_within_limits(header, 2) & is_within_limits(header, 5) & !is_within_limits(header, 6)
}

fn has_locks(header: &Header) -> bool {
    let locked = is_locked(header, 3) & is_locked(header, 7) & !is_locked(header, 5);
    locked & has_flag(header, b'l') & !has_flag(header, b'j')
}

#[test]
fn releases_are_within_limits_and_locked(rt: HostRuntime) -> Result<(), Fail> {
    let plain = header(rt.alloc(), &[], b"")?;
    assert!(rt; has_no_limits(&plain));
    let flags: [(u8, &[u8]); 3] = [(b'c', b"5"), (b'f', b"02"), (b'l', b"3,4  7")];
    let set = header(rt.alloc(), &flags, b"")?;
    assert!(rt; has_limits(&set) & has_locks(&set));
    Ok(())
}

// whether the users of a header let ann and bob in
fn are_allowed(alloc: Global, users: &[u8]) -> Result<[bool; 2], Fail> {
    let ann = Login::read(b"ann").ok_or("a login")?;
    let bob = Login::read(b"bob").ok_or("a login")?;
    let header = header(alloc, &[], users)?;
    Ok([is_allowed(&header, &ann), is_allowed(&header, &bob)])
}

#[test]
fn logins_are_let_in(rt: HostRuntime) -> Result<(), Fail> {
    let alloc = rt.alloc();
    assert_eq!(rt; are_allowed(alloc, b"!bob\n")?, [true, false]);
    assert_eq!(rt;
        are_allowed(alloc, b"bob\n100\n!bob\nann\n")?,
        [true, false]
    );
    assert_eq!(rt; are_allowed(alloc, b"100\n")?, [false, false]);
    Ok(())
}
