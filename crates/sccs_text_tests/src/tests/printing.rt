ghost use Rattle.std.specs.Prelude.{◌≡◌, IfOk, IfSome};
ghost use Rattle.sccs_base.specs.Name.{IsSFileName};
ghost use Rattle.sccs_disk.specs.MemoryDisks.{disk_call};
ghost use Rattle.sccs_history.specs.History.{IsHeader};
ghost use Rattle.sccs_keywords.specs.Expansion.{HasMoments};
ghost use Rattle.sccs_keywords.specs.Forms.{line_form};

use crate::tests::samples::{facts, trunk};
use sccs_base::{Line, MemorySink, Name};
use sccs_body::inspect;
use sccs_disk::{Disk, MemoryDisk};
use sccs_history::Serials;
use sccs_keywords::LineForm;
use sccs_printing::{Shown, has_keywords, make_y, print_text};
use sccs_sets::{Applied, delta_set, retrieve};
use sccs_sid::{Spec, StepFault};
use sccs_store::Mode;
use sccs_table::Front;
use std::alloc::Global;
use std::test::Fail;

// the deltas 1.1 and 1.2, each with a keyword in its second line
const S_FILE: &[u8] =
    b"\x01h10325\n\x01s 00001/00001/00002\n\x01d D 1.2 21/03/04 05:08:00 ann 2 1\n\x01c two\n\x01e\n\
        \x01s 00003/00000/00000\n\x01d D 1.1 21/03/04 05:06:07 ann 1 0\n\x01c one\n\x01e\n\x01u\n\x01U\n\x01t\n\x01T\n\
        \x01I 1\none\n\x01D 2\nold %I%\n\x01E 2\n\x01I 2\nnew %C% of %M%\n\x01E 2\nlast\n\x01E 1\n";

fn name(bytes: &[u8]) -> Result<Name, Fail> {
    Ok(Name::read(bytes).ok_or("a name")?)
}

fn folder(alloc: Global, failing: &[u64]) -> Result<MemoryDisk, Fail>
    ensures { IfOk result (λ disk. disk_call disk ≡ 0) }
{
    let mut disk = MemoryDisk::new(alloc, 200, failing)?;
    disk.put(&name(b"s.a")?, S_FILE, false)?;
    Ok(disk)
}

fn front(alloc: Global, disk: &mut MemoryDisk) -> Result<Front, Fail>
    ensures { IfOk result (λ front. IsHeader front.header) }
{
    match inspect(alloc, disk, &name(b"s.a")?) {
        Ok(front) => Ok(front),
        Err(_) => Err("an s-file".into()),
    }
}

// the set of the delta 1.1 or 1.2
fn set(alloc: Global, front: &Front, level: u16) -> Result<Applied, Fail>
    requires { IsHeader front.now.header }
{
    let spec = Spec::Full(trunk(level));
    let Ok(serial) = retrieve(&front.header, Some(&spec), false) else {
        return Err("a delta".into());
    };
    let (include, exclude) = (Serials::empty(alloc), Serials::empty(alloc));
    match delta_set(alloc, &front.header, serial, &include, &exclude, None) {
        Ok(set) => Ok(set),
        Err(_) => Err("a set".into()),
    }
}

/// A version of the s-file: what is read of the file first, and the set of its deltas.
#[derive(Drop)]
struct Version {
    front: Front,
    set: Applied,
}

// the version of the delta 1.1 or 1.2
fn version_of(alloc: Global, disk: &mut MemoryDisk, level: u16) -> Result<Version, Fail>
    ensures { IfOk result (λ v. IsHeader v.front.header) }
{
    let front = front(alloc, disk)?;
    let set = set(alloc, &front, level)?;
    Ok(Version { front, set })
}

// what is found where a version is printed
fn printed_on(
    alloc: Global,
    disk: &mut MemoryDisk,
    level: u16,
    form: &LineForm,
    out: &mut MemorySink,
) -> Result<Result<Shown, StepFault>, Fail>
    requires { IfSome (line_form form.now).facts HasMoments }
{
    let s_file = name(b"s.a")?;
    let version = version_of(alloc, disk, level)?;
    Ok(print_text(
        alloc,
        &s_file,
        &version.front,
        &version.set,
        form,
        out,
        disk,
    ))
}

// the same of the s-file alone in a folder
fn printed(
    alloc: Global,
    level: u16,
    form: &LineForm,
    out: &mut MemorySink,
) -> Result<Result<Shown, StepFault>, Fail>
    requires { IfSome (line_form form.now).facts HasMoments }
{
    let mut disk = folder(alloc, &[])?;
    printed_on(alloc, &mut disk, level, form, out)
}

// whether a version is printed so in a form, with what was found
fn prints(
    alloc: Global,
    level: u16,
    form: &LineForm,
    wanted: &[u8],
    found: Shown,
) -> Result<bool, Fail>
    requires { IfSome (line_form form.now).facts HasMoments }
{
    let mut out = MemorySink::new(alloc, 200, &[])?;
    let shown = printed(alloc, level, form, &mut out)?;
    Ok((shown == Ok(found)) & (out.bytes() == wanted))
}

#[test]
fn versions_as_they_are(rt: HostRuntime) -> Result<(), Fail> {
    let alloc = rt.alloc();
    let form = LineForm {
        module_name: None,
        has_sids: false,
        facts: None,
    };
    let found = Shown {
        lines: 3,
        keywords: false,
    };
    let old = prints(alloc, 1, &form, b"one\nold %I%\nlast\n", found)?;
    let new = prints(alloc, 2, &form, b"one\nnew %C% of %M%\nlast\n", found)?;
    assert!(rt; old & new);
    Ok(())
}

#[test]
fn prefixes_and_keywords(rt: HostRuntime) -> Result<(), Fail> {
    let alloc = rt.alloc();
    let module_name = Line::new(alloc, b"%M%")?;
    let facts = facts(alloc, 2)?;
    let form = LineForm {
        module_name: Some(&module_name),
        has_sids: true,
        facts: Some(&facts),
    };
    let found = Shown {
        lines: 3,
        keywords: true,
    };
    let new = prints(
        alloc,
        2,
        &form,
        b"%M%\t1.1\tone\n%M%\t1.2\tnew 2 of a\n%M%\t1.1\tlast\n",
        found,
    )?;
    assert!(rt; new);
    Ok(())
}

// what is found where the y-file of the newest version is made
fn made_on(
    alloc: Global,
    disk: &mut MemoryDisk,
    s_file: &Name,
    form: &LineForm,
    mode: Mode,
) -> Result<Result<Shown, StepFault>, Fail>
    requires sfile { IsSFileName s_file.now }
    requires facts { IfSome (line_form form.now).facts HasMoments }
{
    let version = version_of(alloc, disk, 2)?;
    Ok(make_y(
        alloc,
        s_file,
        &version.front,
        &version.set,
        form,
        mode,
        disk,
    ))
}

// whether the y-file is made so over one that a stop left
fn makes_on(
    alloc: Global,
    disk: &mut MemoryDisk,
    form: &LineForm,
    mode: Mode,
    wanted: &[u8],
    writable: bool,
) -> Result<bool, Fail>
    requires facts { IfSome (line_form form.now).facts HasMoments }
    requires first { disk_call disk.old ≡ 0 }
{
    let Some(s_file) = Name::read_sfile(b"s.a") else {
        return Err("a name".into());
    };
    let y_file = s_file.sibling(b'y');
    disk.put(&y_file, b"left by a stop", true)?;
    let made = made_on(alloc, disk, &s_file, form, mode)?;
    let lines = matches!(made, Ok(Shown { lines: 3, .. }));
    let written = disk.bytes(&y_file) == Some(wanted);
    let kept = disk.bytes(&s_file) == Some(S_FILE);
    let marked = disk.writable(&y_file) == Ok(Some(writable));
    Ok(lines & written & kept & marked)
}

// the same of a folder
fn makes(
    alloc: Global,
    form: &LineForm,
    mode: Mode,
    wanted: &[u8],
    writable: bool,
) -> Result<bool, Fail>
    requires { IfSome (line_form form.now).facts HasMoments }
{
    let mut disk = folder(alloc, &[])?;
    makes_on(alloc, &mut disk, form, mode, wanted, writable)
}

#[test]
fn protected_y_files(rt: HostRuntime) -> Result<(), Fail> {
    let alloc = rt.alloc();
    let facts = facts(alloc, 2)?;
    let form = LineForm {
        module_name: None,
        has_sids: false,
        facts: Some(&facts),
    };
    let wanted = b"one\nnew 2 of a\nlast\n";
    let made = makes(alloc, &form, Mode::Protected, wanted, false)?;
    assert!(rt; made);
    Ok(())
}

#[test]
fn writable_y_files(rt: HostRuntime) -> Result<(), Fail> {
    let form = LineForm {
        module_name: None,
        has_sids: false,
        facts: None,
    };
    let wanted = b"one\nnew %C% of %M%\nlast\n";
    let made = makes(rt.alloc(), &form, Mode::Writable, wanted, true)?;
    assert!(rt; made);
    Ok(())
}

// how making the y-file ends; None where the s-file can't be read
fn end_on(alloc: Global, disk: &mut MemoryDisk) -> Result<Option<Result<Shown, StepFault>>, Fail> {
    let Some(s_file) = Name::read_sfile(b"s.a") else {
        return Err("a name".into());
    };
    let form = LineForm {
        module_name: None,
        has_sids: true,
        facts: None,
    };
    let Ok(front) = inspect(alloc, disk, &s_file) else {
        return Ok(None);
    };
    let set = set(alloc, &front, 2)?;
    let mode = Mode::Protected;
    Ok(Some(make_y(alloc, &s_file, &front, &set, &form, mode, disk)))
}

// whether it ends so where a call fails
fn ends(alloc: Global, failing: u64, wanted: Result<Shown, StepFault>) -> Result<bool, Fail> {
    let mut disk = folder(alloc, &[failing])?;
    match end_on(alloc, &mut disk)? {
        Some(end) => Ok(end == wanted),
        None => Ok(true),
    }
}

#[test]
fn calls_that_fail(rt: HostRuntime) -> Result<(), Fail> {
    let alloc = rt.alloc();
    let fault = Err(StepFault::DiskFault);
    let found = Shown {
        lines: 3,
        keywords: false,
    };
    // one of the calls that make, fill, protect and sync the y-file, or read the s-file meanwhile
    for call in 1..17 {
        assert!(rt; ends(alloc, call, fault)?, "call {call}");
    }
    assert!(rt; ends(alloc, 17, Ok(found))?);
    Ok(())
}

// whether a sink with so little room fails, and gets no more than a prefix
fn cuts(alloc: Global, room: u64) -> Result<bool, Fail> {
    let form = LineForm {
        module_name: None,
        has_sids: false,
        facts: None,
    };
    let mut out = MemorySink::new(alloc, room, &[])?;
    let shown = printed(alloc, 2, &form, &mut out)?;
    Ok((shown == Err(StepFault::WriteFault)) & b"one\nnew %C%".starts_with(out.bytes()))
}

#[test]
fn sinks_without_room(rt: HostRuntime) -> Result<(), Fail> {
    let alloc = rt.alloc();
    assert!(rt; cuts(alloc, 0)? & cuts(alloc, 7)?);
    Ok(())
}

// whether the first version has keywords
fn has_some(alloc: Global, disk: &mut MemoryDisk) -> Result<bool, Fail> {
    let s_file = name(b"s.a")?;
    let version = version_of(alloc, disk, 1)?;
    let found = has_keywords(alloc, &s_file, &version.front, &version.set, disk);
    Ok(found == Ok(true))
}

#[test]
fn searched_for_keywords(rt: HostRuntime) -> Result<(), Fail> {
    let mut disk = folder(rt.alloc(), &[])?;
    assert!(rt; has_some(rt.alloc(), &mut disk)?);
    Ok(())
}
