ghost use Rattle.std.specs.Prelude.{◌≡◌, IfOk};
ghost use Rattle.sccs_script_laws.specs.Plans.{IsInOrder};

use sccs_base::{Line, Name};
use sccs_disk::{Disk, FickleDisk, MemoryDisk};
use sccs_history::Item;
use sccs_script::{Plan, check, plan, read_script};
use sccs_splicer::Splicer;
use sccs_table::Sum;
use sccs_writers::ItemWriter;
use std::alloc::Global;
use std::test::Fail;

// an item of a body: a control item's serial, or a line of one byte, of the base or hidden
#[derive(Clone, Copy)]
enum Row {
    Insert(u16),
    End(u16),
    Base(u8),
    Hidden(u8),
}

fn item_of(alloc: Global, row: Row) -> Result<Item, Fail> {
    Ok(match row {
        Row::Insert(serial) => Item::Insert(serial),
        Row::End(serial) => Item::End(serial),
        Row::Base(byte) | Row::Hidden(byte) => Item::Text(Line::new(alloc, &[byte])?),
    })
}

// puts a body with what a splicer makes of it
fn put_all(
    alloc: Global,
    rows: &[Row],
    splicer: &mut Splicer,
    out: &mut ItemWriter,
    disk: &mut FickleDisk,
) -> Result<(), Fail> {
    for row in rows {
        let item = item_of(alloc, *row)?;
        let visible = matches!(row, Row::Base(_));
        splicer.push(&item, visible, out, disk)?;
    }
    splicer.finish(out, disk)?;
    out.flush(disk)?;
    Ok(())
}

// what a splicer counts: lines that are inserted, deleted and unchanged
fn counts_of(splicer: &Splicer) -> [u64; 3] {
    [splicer.inserted(), splicer.deleted(), splicer.unchanged()]
}

// whether a file has these bytes
fn has(disk: &mut FickleDisk, name: &Name, wanted: &[u8]) -> Result<bool, Fail> {
    let mut bytes = [0; 128];
    let count = disk.read_at(name, 0, &mut bytes)?;
    Ok((count == Some(wanted.len())) & bytes.starts_with(wanted))
}

// whether a splicer puts these bytes into a file
fn puts(
    alloc: Global,
    rows: &[Row],
    splicer: &mut Splicer,
    wanted: &[u8],
    disk: &mut FickleDisk,
) -> Result<bool, Fail> {
    let name = Name::read(b"x.a").ok_or("a name")?;
    let mut out = ItemWriter::new(alloc, &name, Sum::new())?;
    put_all(alloc, rows, splicer, &mut out, disk)?;
    has(disk, &name, wanted)
}

// a disk with an empty file. It tells nothing, and no byte of this file changes
fn disk_of(alloc: Global) -> Result<FickleDisk, Fail> {
    let mut disk = MemoryDisk::new(alloc, 1000, &[])?;
    disk.put(&Name::read(b"x.a").ok_or("a name")?, b"", true)?;
    Ok(FickleDisk::new(disk, Name::read(b"s.a").ok_or("a name")?, 0))
}

fn puts_on_disk(
    alloc: Global,
    rows: &[Row],
    splicer: &mut Splicer,
    wanted: &[u8],
) -> Result<bool, Fail> {
    let mut disk = disk_of(alloc)?;
    puts(alloc, rows, splicer, wanted, &mut disk)
}

// whether a splicer puts these bytes and counts so many lines: inserted, deleted, unchanged
fn splices(
    alloc: Global,
    rows: &[Row],
    serial: u16,
    script: &[u8],
    wanted: &[u8],
    counts: [u64; 3],
) -> Result<bool, Fail> {
    let plan = plan_of(alloc, script, rows.len() > 5)?;
    let mut splicer = Splicer::new(alloc, serial, plan);
    let is_put = puts_on_disk(alloc, rows, &mut splicer, wanted)?;
    Ok(is_put & (counts_of(&splicer) == counts))
}

// the plan of a script for three or seven lines
fn plan_of(alloc: Global, script: &[u8], seven: bool) -> Result<Plan, Fail>
    ensures { IfOk result IsInOrder }
{
    let lines = if seven { 7 } else { 3 };
    let script = read_script(alloc, script)?;
    check(&script, lines)?;
    Ok(plan(alloc, &script, lines)?)
}

const SEVEN: [Row; 12] = [
    Row::Insert(1),
    Row::Base(b'1'),
    Row::Base(b'2'),
    Row::Base(b'3'),
    Row::Base(b'4'),
    Row::Base(b'5'),
    Row::Insert(2),
    Row::Hidden(b'h'),
    Row::End(2),
    Row::Base(b'6'),
    Row::Base(b'7'),
    Row::End(1),
];

const THREE: [Row; 5] = [
    Row::Insert(1),
    Row::Base(b'1'),
    Row::Base(b'2'),
    Row::Base(b'3'),
    Row::End(1),
];

#[test]
fn marks_and_new_lines_placed(rt: HostRuntime) -> Result<(), Fail> {
    let wanted =
        b"\x01I 3\nT\n\x01E 3\n\x01I 1\n1\n2\n\x01D 3\n3\n\x01E 3\n4\n\x01I 3\nX\n\x01E 3\n\x01D 3\n5\n\x01E 3\n\
            \x01I 2\nh\n\x01E 2\n\x01D 3\n6\n\x01E 3\n7\n\x01E 1\n";
    let script = b"5,6c\nX\n.\n3d\n0a\nT\n.\n";
    assert!(rt; splices(rt.alloc(), &SEVEN, 3, script, wanted, [2, 3, 4])?);
    Ok(())
}

#[test]
fn marks_placed_in_three_lines(rt: HostRuntime) -> Result<(), Fail> {
    let rows: [(&[u8], &[u8], [u64; 3]); 3] = [
        (
            b"1a\nX\n.\n1d\n1d\n",
            b"\x01I 1\n\x01D 2\n1\n\x01E 2\n2\n3\n\x01E 1\n",
            [0, 1, 2],
        ),
        (
            b"1a\nX\n.\n1d\n2a\nY\n.\n",
            b"\x01I 1\n\x01D 2\n1\n\x01E 2\n\x01I 2\nX\n\x01E 2\n2\n\x01I 2\nY\n\x01E 2\n3\n\x01E 1\n",
            [2, 1, 2],
        ),
        (
            b"2,3d\n",
            b"\x01I 1\n1\n\x01D 2\n2\n3\n\x01E 2\n\x01E 1\n",
            [0, 2, 1],
        ),
    ];
    for (script, wanted, counts) in rows {
        assert!(rt; splices(rt.alloc(), &THREE, 2, script, wanted, counts)?);
    }
    Ok(())
}
