use sccs_intents::{Fate, IntentEntry, IntentFault, intent_text, read_intent};
use std::alloc::Global;
use std::test::Fail;

// two names; the p-file of the second goes
const TWO: &[u8] = b"sccs group 1\nr s.a\nd s.c\nend\n";

// whether an entry has a name and a fate
fn is_so(entry: &IntentEntry, name: &[u8], fate: Fate) -> bool {
    (entry.name.bytes() == name) & (entry.fate == fate)
}

// whether reading finds this line at fault
fn fails(alloc: Global, bytes: &[u8], line: u64) -> bool {
    match read_intent(alloc, bytes) {
        Ok(_) => false,
        Err(fault) => fault == IntentFault::BadIntent(line),
    }
}

#[test]
fn intent_is_read(rt: HostRuntime) -> Result<(), Fail> {
    let entries = read_intent(rt.alloc(), TWO).map_err(|_| "an intent")?;
    match entries.items() {
        [first, second] => {
            assert!(rt;
                is_so(first, b"s.a", Fate::Replaced) & is_so(second, b"s.c", Fate::Removed)
            );
            Ok(())
        }
        _ => Err("two entries".into()),
    }
}

#[test]
fn intent_is_written(rt: HostRuntime) -> Result<(), Fail> {
    let alloc = rt.alloc();
    let entries = read_intent(alloc, TWO).map_err(|_| "an intent")?;
    let text = intent_text(alloc, &entries).map_err(|_| "memory")?;
    assert!(rt; text.bytes() == TWO);
    Ok(())
}

#[test]
fn first_lines_fail(rt: HostRuntime) -> Result<(), Fail> {
    let alloc = rt.alloc();
    let empty = fails(alloc, b"", 1);
    let other = fails(alloc, b"oops\n", 1);
    let later = fails(alloc, b"sccs group 2\nr s.a\nend\n", 1);
    let open = fails(alloc, b"sccs group 1", 1);
    assert!(rt; empty & other & later & open);
    Ok(())
}

#[test]
fn entries_fail(rt: HostRuntime) -> Result<(), Fail> {
    let alloc = rt.alloc();
    let name = fails(alloc, b"sccs group 1\nr s.a\nr a\nend\n", 3);
    let twice = fails(alloc, b"sccs group 1\nr s.a\nr s.c\nd s.a\nend\n", 4);
    let letter = fails(alloc, b"sccs group 1\nx s.a\nend\n", 2);
    let blanks = fails(alloc, b"sccs group 1\nr  s.a\nend\n", 2);
    assert!(rt; name & twice & letter & blanks);
    Ok(())
}

#[test]
fn ends_fail(rt: HostRuntime) -> Result<(), Fail> {
    let alloc = rt.alloc();
    let missing = fails(alloc, b"sccs group 1\nr s.a\n", 3);
    let open = fails(alloc, b"sccs group 1\nr s.a\nend", 3);
    let behind = fails(alloc, b"sccs group 1\nr s.a\nend\n\n", 4);
    let early = fails(alloc, b"sccs group 1\nend\n", 2);
    assert!(rt; missing & open & behind & early);
    Ok(())
}
