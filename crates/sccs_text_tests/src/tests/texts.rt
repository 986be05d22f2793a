ghost use Rattle.std.specs.Prelude.{◌≡◌, IfOk, IfSome};
ghost use Rattle.sccs_history.specs.Applied.{serials_of};
ghost use Rattle.sccs_history.specs.Numbers.{Falls};
ghost use Rattle.sccs_keywords.specs.Expansion.{HasMoments};
ghost use Rattle.sccs_keywords.specs.Forms.{line_form};

use crate::tests::samples::{facts, trunk};
use sccs_base::{Line, Login, Memory, MemorySink, Sink, Text};
use sccs_history::{Record, Serials};
use sccs_keywords::{HeldLine, LineForm, SidFinder, give_line};
use sccs_sid::Moment;
use std::alloc::Global;
use std::test::Fail;

fn record(alloc: Global, serial: u16, level: u16) -> Record
    ensures { result.serial ≡ serial }
{
    Record {
        serial,
        removed: false,
        sid: trunk(level),
        moment: Moment { seconds: 0 },
        login: Login::nobody(),
        predecessor: 0,
        include: Serials::empty(alloc),
        exclude: Serials::empty(alloc),
        ignore: Serials::empty(alloc),
        mrs: Text::empty(alloc),
        comments: Text::empty(alloc),
        inserted: 0,
        deleted: 0,
        unchanged: 0,
    }
}

fn table(alloc: Global) -> Result<Vec<Record>, Memory>
    ensures { IfOk result (λ records. Falls 65536 (serials_of records.items)) }
{
    let records = vec![in alloc;
        record(alloc, 6, 3),
        record(alloc, 3, 2),
        record(alloc, 1, 1),
    ]?;
    Ok(records)
}

// whether four lines are given so
fn gives(alloc: Global, form: &LineForm, wanted: &[u8]) -> Result<bool, Fail>
    requires { IfSome (line_form form.now).facts HasMoments }
{
    let records = table(alloc)?;
    let mut sids = SidFinder::new(&records);
    let mut out = MemorySink::new(alloc, 200, &[])?;
    give_line(form, &mut sids, 1, 1, b"%C% of %M%", &mut out)?;
    give_line(form, &mut sids, 1, 2, b"", &mut out)?;
    give_line(form, &mut sids, 6, 3, b"%C%", &mut out)?;
    give_line(form, &mut sids, 3, 4, b"end", &mut out)?;
    Ok(out.bytes() == wanted)
}

#[test]
fn both_prefixes(rt: HostRuntime) -> Result<(), Fail> {
    let alloc = rt.alloc();
    let name = Line::new(alloc, b"%I%")?;
    let with_both = LineForm {
        module_name: Some(&name),
        has_sids: true,
        facts: None,
    };
    let both = gives(
        alloc,
        &with_both,
        b"%I%\t1.1\t%C% of %M%\n%I%\t1.1\t\n%I%\t1.3\t%C%\n%I%\t1.2\tend\n",
    )?;
    assert!(rt; both);
    Ok(())
}

#[test]
fn keywords_behind_prefixes(rt: HostRuntime) -> Result<(), Fail> {
    let alloc = rt.alloc();
    let name = Line::new(alloc, b"%I%")?;
    let facts = facts(alloc, 3)?;
    let alone = LineForm {
        module_name: None,
        has_sids: false,
        facts: Some(&facts),
    };
    let plain = gives(alloc, &alone, b"1 of a\n\n3\nend\n")?;
    let form = LineForm {
        module_name: Some(&name),
        has_sids: true,
        facts: Some(&facts),
    };
    let behind = gives(
        alloc,
        &form,
        b"%I%\t1.1\t1 of a\n%I%\t1.1\t\n%I%\t1.3\t3\n%I%\t1.2\tend\n",
    )?;
    assert!(rt; plain & behind);
    Ok(())
}

// the SIDs of serials, one after the other
fn found(alloc: Global) -> Result<bool, Fail> {
    let records = table(alloc)?;
    let mut sids = SidFinder::new(&records);
    let first = (sids.find(3) == Some(trunk(2))) & (sids.find(3) == Some(trunk(2)));
    let others = (sids.find(6) == Some(trunk(3))) & (sids.find(1) == Some(trunk(1)));
    Ok(first & others & sids.find(2).is_none())
}

#[test]
fn sids_of_serials(rt: HostRuntime) -> Result<(), Fail> {
    assert!(rt; found(rt.alloc())?);
    Ok(())
}

// whether a sink without room for the line fails
fn fails(alloc: Global, room: u64) -> Result<bool, Fail> {
    let records = table(alloc)?;
    let mut sids = SidFinder::new(&records);
    let mut out = MemorySink::new(alloc, room, &[])?;
    let form = LineForm {
        module_name: None,
        has_sids: true,
        facts: None,
    };
    Ok(give_line(&form, &mut sids, 1, 1, b"a", &mut out).is_err())
}

#[test]
fn sink_without_room(rt: HostRuntime) -> Result<(), Fail> {
    let alloc = rt.alloc();
    assert!(rt; fails(alloc, 0)? & fails(alloc, 3)? & fails(alloc, 5)? & !fails(alloc, 6)?);
    Ok(())
}

// whether two lines are held one after the other, each by itself
fn holds(alloc: Global) -> Result<bool, Fail> {
    let mut held = HeldLine::new(alloc);
    held.give(b"1.1\t")?;
    held.give(b"a\n")?;
    let first = held.bytes() == b"1.1\ta\n".as_slice();
    held.clear();
    held.give(b"b\n")?;
    Ok(first & (held.bytes() == b"b\n".as_slice()))
}

#[test]
fn lines_held(rt: HostRuntime) -> Result<(), Fail> {
    assert!(rt; holds(rt.alloc())?);
    Ok(())
}
