ghost use Rattle.std.specs.Prelude.{◌≡◌, ◌∷◌, ◌++◌, ℕ, List, decimal};
ghost use Rattle.sccs_base.specs.Causes.{GivesText};
ghost use Rattle.sccs_disk.specs.Told.{seen};
ghost use Rattle.sccs_history.specs.declared.headers.Item.{Item};
ghost use Rattle.sccs_printing.specs.Printing.{file_checks};
ghost use Rattle.sccs_steps.specs.Actions.{RefusesWithin};
ghost use Rattle.sccs_steps.specs.Causes.{PrintCauses};
ghost use Rattle.sccs_table.specs.ReaderState.{bytes_in};
ghost use Rattle.sccs_tokens.specs.Written.{ended, item_line};
ghost use Rattle.sccs_body.specs.Reader.{name_read};
ghost use Rattle.sccs_prs.specs.Bodies.{IsToCome};
ghost use Rattle.sccs_prs.specs.Gives.{GivesHeld, IsListedFile};
ghost use Rattle.sccs_prs.specs.PrsText.{body_text};

use crate::listings::{Listing, put};
use itoa::Buffer;
use sccs_base::{Failed, Name, Sink, give_parts};
use sccs_body::{Item, ItemReader};
use sccs_disk::Disk;
use sccs_sid::StepFault;
use sccs_table::Front;
use std::alloc::Global;

// gives a control line: SOH and a letter, a blank, and a serial
fn give_control<S: Sink>(letter: u8, serial: u16, out: &mut S) -> Result<(), Failed>
    ensures { GivesText (ended (1 ∷ letter ∷ 32 ∷ decimal serial)) (S.given out.old) (S.given out.new)
        (S.faults out.old) (S.faults out.new) result }
{
    let mut buffer = Buffer::new();
    let digits = buffer.format(serial).as_bytes();
    give_parts(out, &[&[1, letter, b' '], digits, b"\n"])
}

// gives the line of an item as it is written
fn give_line<S: Sink>(item: &Item, out: &mut S) -> Result<(), Failed>
    ensures { GivesText (ended (item_line item.now)) (S.given out.old) (S.given out.new) (S.faults out.old)
        (S.faults out.new) result }
{
    match item {
        Item::Text(text) => give_parts(out, &[text.bytes(), b"\n"]),
        Item::Insert(serial) => give_control(b'I', *serial, out),
        Item::Delete(serial) => give_control(b'D', *serial, out),
        Item::End(serial) => give_control(b'E', *serial, out),
    }
}

// prints the line of an item
fn put_line<O: Sink>(item: &Item, listing: &mut Listing, out: &mut O) -> Result<(), StepFault>
    ensures gives { GivesHeld (ended (item_line item.now)) result listing.old.buffer listing.new.buffer
        (O.given out.old) (O.given out.new) }
    ensures causes { (disk : ℕ) → PrintCauses result (O.faults out.old) (O.faults out.new) disk disk }
    ensures checks { RefusesWithin file_checks result }
{
    listing.formed.clear();
    let Ok(()) = give_line(item, &mut listing.formed) else {
        return Err(StepFault::Memory);
    };
    put(&mut listing.buffer, listing.formed.bytes(), out)
}

// prints the lines of all items that are to come
fn put_items<O: Sink, D: Disk>(
    items: &mut ItemReader,
    listing: &mut Listing,
    out: &mut O,
    disk: &mut D,
) -> Result<(), StepFault>
    ensures same { D.told disk.new ≡ D.told disk.old }
    ensures causes { PrintCauses result (O.faults out.old) (O.faults out.new) (D.faults disk.old) (D.faults disk.new) }
    ensures checks { RefusesWithin file_checks result }
    ensures gives { (file : List ℕ) (rest : List Item)
        → IsToCome (bytes_in (seen (D.told disk.old)) (name_read items.old)) file rest items.old
        → GivesHeld (body_text rest) result listing.old.buffer listing.new.buffer (O.given out.old) (O.given out.new) }
{
    'items: loop {
        match items.next(disk) {
            Ok(Some(item)) => {
                if let Err(fault) = put_line(&item, listing, out) {
                    return Err(fault);
                }
            }
            Ok(None) => return Ok(()),
            Err(fault) => return Err(StepFault::from(fault)),
        }
    }
}

/// Prints the body of an s-file as it is written. It is read again; Changed comes where the file is another
/// than at the first reading.
pub fn put_body<O: Sink, D: Disk>(
    alloc: Global,
    name: &Name,
    front: &Front,
    listing: &mut Listing,
    out: &mut O,
    disk: &mut D,
) -> Result<(), StepFault>
    ensures same { D.told disk.new ≡ D.told disk.old }
    ensures causes { PrintCauses result (O.faults out.old) (O.faults out.new) (D.faults disk.old) (D.faults disk.new) }
    ensures checks { RefusesWithin file_checks result }
    ensures gives { (file : List ℕ) (items : List Item) → IsListedFile (bytes_in (seen (D.told disk.old)) name.now)
        front.now file items
        → GivesHeld (body_text items) result listing.old.buffer listing.new.buffer (O.given out.old) (O.given out.new) }
{
    let Ok(mut items) = ItemReader::new(alloc, name, front) else {
        return Err(StepFault::Memory);
    };
    put_items(&mut items, listing, out, disk)
}
