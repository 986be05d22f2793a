ghost use Rattle.std.specs.Prelude.{◌≡◌, ◌∷◌, [], true, IfOk};
ghost use Rattle.std.specs.List.{AllByRecursion};
ghost use Rattle.sccs_history.specs.Applied.{live_serials};
ghost use Rattle.sccs_history.specs.Numbers.{has};
ghost use Rattle.sccs_versions.specs.Samples.{crossing_table, plain_record};

use sccs_base::{Line, ListOf, Login, Memory, Text};
use sccs_history::{Flags, Header, Item, Moment, Record, Records, Serials, Sid};
use sccs_sets::{Applied, delta_set};
use sccs_versions::*;
use std::alloc::Global;
use std::test::Fail;

fn plain(alloc: Global, serial: u16, predecessor: u16) -> Record
    ensures { result ≡ plain_record serial predecessor }
{
    let sid = Sid {
        release: 1,
        level: serial,
        branch: 0,
        sequence: 0,
    };
    Record {
        serial,
        removed: false,
        sid,
        moment: Moment { seconds: 0 },
        login: Login::nobody(),
        predecessor,
        include: Serials::empty(alloc),
        exclude: Serials::empty(alloc),
        ignore: Serials::empty(alloc),
        mrs: Text::empty(alloc),
        comments: Text::empty(alloc),
        inserted: 0,
        deleted: 0,
        unchanged: 0,
    }
}

fn header(alloc: Global) -> Result<Header, Memory>
    ensures { IfOk result (λ h. h.records ≡ crossing_table) }
{
    let records = vec![in alloc; plain(alloc, 5, 1), plain(alloc, 3, 1), plain(alloc, 1, 0)]?;
    Ok(Header {
        records: Records::from_vec(records),
        users: Text::empty(alloc),
        flags: Flags::empty(alloc),
        description: Text::empty(alloc),
    })
}

/// A line of a body, or where a region begins or ends.
#[derive(Clone, Copy)]
enum Row {
    Text(u8),
    Insert(u16),
    Delete(u16),
    End(u16),
}

// regions that cross
const ROWS: [Row; 11] = [
    Row::Insert(1),
    Row::Text(b'p'),
    Row::Delete(3),
    Row::Text(b'q'),
    Row::Insert(5),
    Row::Text(b'r'),
    Row::End(3),
    Row::Text(b's'),
    Row::End(5),
    Row::Text(b't'),
    Row::End(1),
];

fn item_of(alloc: Global, row: Row) -> Result<Item, Fail> {
    match row {
        Row::Text(byte) => Ok(Item::Text(Line::new(alloc, &[byte])?)),
        Row::Insert(serial) => Ok(Item::Insert(serial)),
        Row::Delete(serial) => Ok(Item::Delete(serial)),
        Row::End(serial) => Ok(Item::End(serial)),
    }
}

// takes an item, and keeps its bytes where the set shows them
fn take_item(
    weaver: &mut Weaver,
    set: &Applied,
    item: &Item,
    kept: &mut Vec<u8>,
) -> Result<(), Fail> {
    weaver.push_item(item, set)?;
    if let Item::Text(line) = item {
        if weaver.keep() {
            kept.extend_from_slice(line.bytes())?;
        }
    }
    Ok(())
}

fn take_row(
    alloc: Global,
    weaver: &mut Weaver,
    set: &Applied,
    row: Row,
    kept: &mut Vec<u8>,
) -> Result<(), Fail> {
    let item = item_of(alloc, row)?;
    take_item(weaver, set, &item, kept)
}

// keeps the bytes that a set shows
fn take_rows(alloc: Global, set: &Applied, kept: &mut Vec<u8>) -> Result<(), Fail> {
    let mut weaver = Weaver::new(alloc);
    for row in ROWS {
        take_row(alloc, &mut weaver, set, row, kept)?;
    }
    Ok(())
}

// whether a set shows these bytes
fn shows(alloc: Global, set: &Applied, wanted: &[u8]) -> Result<bool, Fail> {
    let mut kept = Vec::new(alloc);
    take_rows(alloc, set, &mut kept)?;
    Ok(kept.as_slice() == wanted)
}

// whether the version of a serial, with others included, has these bytes
fn is_version(
    alloc: Global,
    header: &Header,
    target: u16,
    include: &Serials,
    wanted: &[u8],
) -> Result<bool, Fail>
    requires table { header.now.records ≡ crossing_table }
    requires target { has (live_serials header.now.records) target ≡ true }
    requires include { AllByRecursion (λ n. has (live_serials header.now.records) n ≡ true) include.now }
{
    let none = Serials::empty(alloc);
    let set = delta_set(alloc, header, target, include, &none, None)?;
    shows(alloc, &set, wanted)
}

// whether each version of the table has its bytes
fn are_versions(alloc: Global, header: &Header, fifth: &Serials) -> Result<bool, Fail>
    requires table { header.now.records ≡ crossing_table }
    requires fifth { fifth.now ≡ 5 ∷ [] }
{
    let none = Serials::empty(alloc);
    let first = is_version(alloc, header, 1, &none, b"pqt")?;
    let third = is_version(alloc, header, 3, &none, b"pt")?;
    let other = is_version(alloc, header, 5, &none, b"pqrst")?;
    let both = is_version(alloc, header, 3, fifth, b"prst")?;
    Ok(first & third & other & both)
}

#[test]
fn crossing_regions(rt: HostRuntime) -> Result<(), Fail> {
    let header = header(rt.alloc())?;
    let fifth: Serials = ListOf::from_vec(vec![in rt.alloc(); 5]?);
    assert!(rt; are_versions(rt.alloc(), &header, &fifth)?);
    Ok(())
}
