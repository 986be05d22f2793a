use crate::tests::files::{BEFORE, BOTH, GONE, UNFIT, are_added, disk_with, has, stamp};
use sccs_base::{MemorySink, SteadySource};
use sccs_disk::MemoryDisk;
use sccs_group::intent_name;
use sccs_group_command::run_group;
use sccs_steps::Fault;
use std::alloc::Global;
use std::test::Fail;

// two deltas, of which the second line of the second has no such word
const STRAY: &[u8] = b"@ 3 3\ndelta\n-yx\ns.a\n0a\none\n.\n@ 3 3\ngamma\n-yx\ns.c\n0a\nz\n.\n";

// two deltas on one file
const TWICE: &[u8] = b"@ 3 3\ndelta\n-yx\ns.a\n0a\none\n.\n@ 3 3\ndelta\n-yx\ns.a\n0a\nz\n.\n";

// what a call answers, and what it gives to out and err
#[derive(Drop)]
struct Ran {
    answer: Result<u8, Fault>,
    out: MemorySink,
    err: MemorySink,
}

impl Ran {
    // whether it ended with this status, and gave these bytes to out and err
    fn is(&self, status: u8, out: &[u8], err: &[u8]) -> bool {
        self.answer == Ok(status) && (self.out.bytes() == out && self.err.bytes() == err)
    }
}

// what a group of this input does over a disk
fn run_over(alloc: Global, input: &[u8], disk: &mut MemoryDisk) -> Result<Ran, Fail> {
    let stamp = stamp()?;
    let mut source = SteadySource::new(alloc, input)?;
    let mut out = MemorySink::new(alloc, 1_000, &[])?;
    let mut err = MemorySink::new(alloc, 1_000, &[])?;
    let answer = run_group(alloc, &stamp, &mut source, &mut out, &mut err, disk);
    Ok(Ran { answer, out, err })
}

#[test]
fn reports_come_in_order(rt: HostRuntime) -> Result<(), Fail> {
    let alloc = rt.alloc();
    let mut disk = disk_with(alloc, &[], &BEFORE)?;
    let ran = run_over(alloc, BOTH, &mut disk)?;
    assert!(rt;
        ran.is(
            0,
            b"\ns.a:\n1.2\n1 inserted\n0 deleted\n0 unchanged\n\ns.c:\n1.2\n1 inserted\n0 deleted\n0 unchanged\n",
            b"WARNING [s.a]: no id keywords\nWARNING [s.c]: no id keywords\n"
        )
    );
    assert!(rt; are_added(&disk)? && has(&disk, &GONE)?);
    Ok(())
}

#[test]
fn first_refusal_is_said(rt: HostRuntime) -> Result<(), Fail> {
    let alloc = rt.alloc();
    let mut disk = disk_with(alloc, &[], &BEFORE)?;
    let ran = run_over(alloc, UNFIT, &mut disk)?;
    assert!(rt;
        ran.is(
            1,
            b"",
            b"ERROR [s.c]: script line 1: text has 0 lines (22)\n"
        )
    );
    assert!(rt; has(&disk, &BEFORE)?);
    Ok(())
}

#[test]
fn pending_group_is_said(rt: HostRuntime) -> Result<(), Fail> {
    let alloc = rt.alloc();
    let mut disk = disk_with(alloc, &[], &BEFORE)?;
    disk.put(&intent_name(), b"oops\n", true)?;
    let ran = run_over(alloc, BOTH, &mut disk)?;
    assert!(rt; ran.is(1, b"", b"ERROR [-]: a group is pending (38)\n"));
    Ok(())
}

// whether nothing is made of an input, of which this is said
fn is_no_group(alloc: Global, input: &[u8], err: &[u8]) -> Result<bool, Fail> {
    let mut disk = disk_with(alloc, &[], &BEFORE)?;
    let ran = run_over(alloc, input, &mut disk)?;
    Ok(ran.is(1, b"", err) && has(&disk, &BEFORE)?)
}

#[test]
fn line_of_a_bad_entry_is_said(rt: HostRuntime) -> Result<(), Fail> {
    let alloc = rt.alloc();
    assert!(rt; is_no_group(alloc, STRAY, b"GROUP: line 8\n")?);
    assert!(rt; is_no_group(alloc, TWICE, b"GROUP: line 8\n")?);
    assert!(rt; is_no_group(alloc, b"", b"GROUP: line 1\n")?);
    Ok(())
}
