use sccs_base::{FILE_LIMIT, Text};
use sccs_script::*;
use std::alloc::Global;
use std::test::Fail;

#[test]
fn scripts_refused(rt: HostRuntime) -> Result<(), Fail> {
    let rows: [(&[u8], u64, Option<ScriptFault>); 18] = [
        (b"8a\nx\n.\n", 2, Some(ScriptFault::ScriptRange(1, 2))),
        (b"1d\n2d\n", 2, Some(ScriptFault::ScriptRange(2, 1))),
        (b"1a\nx\n", 2, Some(ScriptFault::BadScript(1))),
        (b"0c\nx\n.\n", 2, Some(ScriptFault::BadScript(1))),
        (b"1a\n\x01x\n.\n", 2, Some(ScriptFault::BadText(2))),
        (b"", 2, None),
        (b"0a\nx\n.\n", 0, None),
        (b"2,1d\n", 2, Some(ScriptFault::BadScript(1))),
        (b"1,2a\nx\n.\n", 2, Some(ScriptFault::BadScript(1))),
        (b"1d\n1 d\n", 2, Some(ScriptFault::BadScript(2))),
        (b"0000000001d\n", 2, None),
        (b"00000000001d\n", 2, Some(ScriptFault::BadScript(1))),
        (b"4294967295d\n", 2, Some(ScriptFault::ScriptRange(1, 2))),
        (b"4294967296d\n", 2, Some(ScriptFault::BadScript(1))),
        (b"1a\n.\n.\n", 2, Some(ScriptFault::BadScript(3))),
        (b"1a\n..\n.\n3d", 2, None),
        (b"9a\n\x01\n.\nx\n", 2, Some(ScriptFault::BadScript(4))),
        (
            b"2c\nx\n\x01\n.\n9d\n",
            2,
            Some(ScriptFault::ScriptRange(5, 3)),
        ),
    ];
    for (bytes, lines, wanted) in rows {
        let found = match read_script(rt.alloc(), bytes) {
            Ok(script) => check(&script, lines).err(),
            Err(fault) => Some(fault),
        };
        assert_eq!(rt; found, wanted);
    }
    Ok(())
}

// lines with LF behind each
fn joined(alloc: Global, text: &Text) -> Result<Vec<u8>, Fail> {
    let mut bytes = Vec::new(alloc);
    for line in text.items() {
        bytes.extend_from_slice(line.bytes())?;
        bytes.push(b'\n')?;
    }
    Ok(bytes)
}

// what a script that is accepted makes of a text
fn made_of(alloc: Global, script: &Script, text: &Text) -> Result<Vec<u8>, Fail> {
    if FILE_LIMIT < text.len() {
        return Err(Fail::from("the text is too long"));
    }
    check(script, text.len())?;
    let result = apply(alloc, script, text)?;
    joined(alloc, &result)
}

// the same of their bytes
fn applied(alloc: Global, script: &[u8], text: &[u8]) -> Result<Vec<u8>, Fail> {
    let script = read_script(alloc, script)?;
    let text = Text::read(alloc, text)?;
    made_of(alloc, &script, &text)
}

#[test]
fn scripts_applied(rt: HostRuntime) -> Result<(), Fail> {
    let rows: [(&[u8], &[u8], &[u8]); 7] = [
        (
            b"5,6c\nX\n.\n3d\n0a\nT\n.\n",
            b"1\n2\n3\n4\n5\n6\n7\n",
            b"T\n1\n2\n4\nX\n7\n",
        ),
        (b"1a\nX\n.\n1d\n1d\n", b"1\n2\n3\n", b"2\n3\n"),
        (b"1a\nX\n.\n1d\n2a\nY\n.\n", b"1\n2\n3\n", b"X\n2\nY\n3\n"),
        (b"1d\n0a\nY\n.\n", b"1\n2\n3\n", b"Y\n2\n3\n"),
        (b"3a\nX\nY\n.\n4c\nZ\n.\n1,4d\n", b"1\n2\n3\n", b"Y\n"),
        (b"", b"1\n2", b"1\n2\n"),
        (b"0a\nX\n.\n", b"", b"X\n"),
    ];
    for (script, text, wanted) in rows {
        let found = applied(rt.alloc(), script, text)?;
        assert_eq!(rt; found.as_slice(), wanted);
    }
    Ok(())
}

// puts the numbers of deleted lines, and behind each number new lines
fn put_plan(bytes: &mut Vec<u8>, plan: &Plan) -> Result<(), Fail> {
    for number in plan.deleted.items() {
        bytes.push(b'0' + (*number % 10) as u8)?;
    }
    for added in plan.added.items() {
        bytes.push(b' ')?;
        bytes.push(b'0' + (added.after % 10) as u8)?;
        for line in added.lines.items() {
            bytes.extend_from_slice(line.bytes())?;
        }
    }
    Ok(())
}

// the plan of a script that is accepted, and no bytes for another
fn planned(alloc: Global, script: &[u8], lines: u64) -> Result<Vec<u8>, Fail> {
    let script = read_script(alloc, script)?;
    let mut bytes = Vec::new(alloc);
    if lines <= 9 && check(&script, lines).is_ok() {
        let plan = plan(alloc, &script, lines)?;
        put_plan(&mut bytes, &plan)?;
    }
    Ok(bytes)
}

#[test]
fn scripts_planned(rt: HostRuntime) -> Result<(), Fail> {
    let rows: [(&[u8], u64, &[u8]); 6] = [
        (b"5,6c\nX\n.\n3d\n0a\nT\n.\n", 7, b"356 0T 4X"),
        (b"1a\nX\n.\n1d\n1d\n", 3, b"1"),
        (b"1a\nX\n.\n1d\n2a\nY\n.\n", 3, b"1 1X 2Y"),
        (b"1d\n0a\nY\n.\n", 3, b"1 0Y"),
        (b"2d\n1a\nX\nY\n.\n2c\nZ\n.\n", 3, b"2 1ZY"),
        (b"", 3, b""),
    ];
    for (script, lines, wanted) in rows {
        let found = planned(rt.alloc(), script, lines)?;
        assert_eq!(rt; found.as_slice(), wanted);
    }
    Ok(())
}
