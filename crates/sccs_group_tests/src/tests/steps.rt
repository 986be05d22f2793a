use crate::tests::files::{BEFORE, BOTH, GONE, UNFIT, are_added, disk_with, has, stamp};
use sccs_base::{MemorySink, Text};
use sccs_disk::MemoryDisk;
use sccs_group::intent_name;
use sccs_group_command::laws::entries_read_are_grouped;
use sccs_group_command::{NamedFault, make_group, read_group};
use sccs_sid::{Refusal, StepFault};
use std::alloc::Global;
use std::test::Fail;

// what a group answers, and what it gives to out and err
#[derive(Drop)]
struct Seen {
    answer: Result<(), NamedFault>,
    out: MemorySink,
    err: MemorySink,
}

impl Seen {
    // whether it was made, and gave these bytes to out and err
    fn is(&self, out: &[u8], err: &[u8]) -> bool {
        self.answer.is_ok() && (self.out.bytes() == out && self.err.bytes() == err)
    }

    // whether a name was refused so, and nothing was given
    fn is_refused(&self, name: &[u8], refusal: Refusal) -> bool {
        let silent = self.out.bytes().is_empty() && self.err.bytes().is_empty();
        match &self.answer {
            Ok(()) => false,
            Err(stop) => {
                silent && (stop.name.bytes() == name && stop.fault == StepFault::Refused(refusal))
            }
        }
    }
}

// what a group of this input answers over a disk
fn answer_to(alloc: Global, input: &[u8], disk: &mut MemoryDisk) -> Result<Seen, Fail> {
    let lines = Text::read(alloc, input)?;
    entries_read_are_grouped();
    let entries = match read_group(alloc, lines.items()) {
        Ok(entries) => entries,
        Err(_) => return Err("a group".into()),
    };
    let stamp = stamp()?;
    let mut out = MemorySink::new(alloc, 1_000, &[])?;
    let mut err = MemorySink::new(alloc, 1_000, &[])?;
    let answer = make_group(alloc, &stamp, entries.items(), &mut out, &mut err, disk);
    Ok(Seen { answer, out, err })
}

#[test]
fn group_is_made(rt: HostRuntime) -> Result<(), Fail> {
    let alloc = rt.alloc();
    let mut disk = disk_with(alloc, &[], &BEFORE)?;
    let seen = answer_to(alloc, BOTH, &mut disk)?;
    assert!(rt;
        seen.is(
            b"\ns.a:\n1.2\n1 inserted\n0 deleted\n0 unchanged\n\ns.c:\n1.2\n1 inserted\n0 deleted\n0 unchanged\n",
            b"WARNING [s.a]: no id keywords\nWARNING [s.c]: no id keywords\n"
        )
    );
    assert!(rt; are_added(&disk)? && has(&disk, &GONE)?);
    Ok(())
}

#[test]
fn unfit_script_refuses_the_group(rt: HostRuntime) -> Result<(), Fail> {
    let alloc = rt.alloc();
    let mut disk = disk_with(alloc, &[], &BEFORE)?;
    let seen = answer_to(alloc, UNFIT, &mut disk)?;
    assert!(rt; seen.is_refused(b"s.c", Refusal::ScriptRange(1, 0)));
    assert!(rt; has(&disk, &BEFORE)?);
    Ok(())
}

#[test]
fn pending_group_refuses_another(rt: HostRuntime) -> Result<(), Fail> {
    let alloc = rt.alloc();
    let mut disk = disk_with(alloc, &[], &BEFORE)?;
    disk.put(&intent_name(), b"oops\n", true)?;
    let seen = answer_to(alloc, BOTH, &mut disk)?;
    assert!(rt; seen.is_refused(b"-", Refusal::GroupPending));
    Ok(())
}
