use sccs_base::{MemorySource, Name, TakeFault, Text, Words};
use sccs_disk::SteadyDisk;
use sccs_operands::*;
use std::alloc::Global;
use std::test::Fail;

// names with a blank behind each
fn joined(alloc: Global, names: &Words) -> Result<Vec<u8>, Fail> {
    let mut line = Vec::new(alloc);
    for name in names.items() {
        line.extend_from_slice(name.bytes())?;
        line.push(b' ')?;
    }
    Ok(line)
}

fn sfiles_in(alloc: Global, disk: &mut SteadyDisk) -> Result<Vec<u8>, Fail> {
    match list_sfiles(alloc, disk) {
        Ok(found) => joined(alloc, &found),
        Err(_) => Err("a listing".into()),
    }
}

// the names of s-files among files of these names, with a blank behind each
fn sfiles_among(alloc: Global, names: &[&[u8]]) -> Result<Vec<u8>, Fail> {
    let mut disk = SteadyDisk::new(alloc);
    for name in names {
        disk.put(&Name::read(name).ok_or("a name")?, b"", true)?;
    }
    sfiles_in(alloc, &mut disk)
}

#[test]
fn sfiles_come_in_byte_order(rt: HostRuntime) -> Result<(), Fail> {
    let names: [&[u8]; 8] = [
        b"s.b", b"p.a", b"s.a.c", b"s.a", b"s..", b"x", b"s.A", b"s.",
    ];
    let found = sfiles_among(rt.alloc(), &names)?;
    assert_eq!(rt; found.as_slice(), b"s.A s.a s.a.c s.b ".as_slice());
    let none = sfiles_among(rt.alloc(), &[b"a"])?;
    assert!(rt; none.is_empty());
    Ok(())
}

// whether lines are those of the input
fn are_both(lines: &Text) -> bool {
    match lines.items() {
        [first, second] => (first.bytes() == b"s.a".as_slice())
            & (second.bytes() == b"s.b".as_slice()),
        _ => false,
    }
}

// whether both lines of an input are read within a limit; None where they are too long
fn reads_both(alloc: Global, limit: u64) -> Result<Option<bool>, Fail> {
    let mut input = MemorySource::new(alloc, b"s.a\ns.b", &[])?;
    match read_names(alloc, &mut input, limit) {
        Ok(lines) => Ok(Some(are_both(&lines))),
        Err(TakeFault::TooLong) => Ok(None),
        Err(_) => Err("an answer".into()),
    }
}

#[test]
fn an_input_has_a_limit(rt: HostRuntime) -> Result<(), Fail> {
    assert_eq!(rt; reads_both(rt.alloc(), 6)?, None);
    assert_eq!(rt; reads_both(rt.alloc(), 7)?, Some(true));
    Ok(())
}
