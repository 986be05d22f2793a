ghost use Rattle.std.specs.Prelude.{◌≡◌, ℕ, List, false, true};
ghost use Rattle.sccs_base.specs.Name.{IsSFileName};
ghost use Rattle.sccs_disk.specs.Told.{seen};
ghost use Rattle.sccs_history.specs.Applied.{live_serials};
ghost use Rattle.sccs_history.specs.History.{HasSpelling, IsTable};
ghost use Rattle.sccs_history.specs.Numbers.{has};
ghost use Rattle.sccs_history.specs.declared.headers.Item.{Item};
ghost use Rattle.sccs_keywords.specs.Expansion.{HasMoments};
ghost use Rattle.sccs_printing.specs.Printing.{file_checks};
ghost use Rattle.sccs_steps.specs.Actions.{RefusesWithin};
ghost use Rattle.sccs_steps.specs.Causes.{PrintCauses};
ghost use Rattle.sccs_table.specs.ReaderState.{bytes_in};
ghost use Rattle.sccs_prs.specs.Values.{delta_facts};
ghost use Rattle.sccs_tokens.specs.Written.{ended};
ghost use Rattle.sccs_prs.specs.Gives.{GivesHeld, IsListedFile, PrintsAll};
ghost use Rattle.sccs_prs.specs.Shown.{IsShown, shown_file};
ghost use Rattle.sccs_prs.specs.PrsText.{delta_lines, data_text, parts_text};

use crate::bodies::put_body;
use crate::keywords::Part;
use crate::listings::{Listing, put, put_item};
use crate::values::identification_facts;
use sccs_base::{Line, Name, Sink};
use sccs_disk::Disk;
use sccs_history::{Record, Serials};
use sccs_keywords::{Facts, LineForm};
use sccs_printing::print_text;
use sccs_sets::delta_set;
use sccs_sid::StepFault;
use sccs_table::Front;
use std::alloc::Global;

/// An s-file that was read and is shown: its name, the path of its folder, and its front.
#[derive(Clone, Copy)]
pub struct Shown<'a> {
    pub name: &'a Name,
    pub place: &'a Line,
    pub front: &'a Front,
}

// prints the text of a delta, in which no keyword is replaced
fn print_lines<O: Sink, D: Disk>(
    alloc: Global,
    file: Shown<'_>,
    delta: &Record,
    out: &mut O,
    disk: &mut D,
) -> Result<(), StepFault>
    requires table { IsTable file.front.now.header.records }
    requires shown { IsShown file.front.now.header.records delta.now }
    ensures same { D.told disk.new ≡ D.told disk.old }
    ensures causes { PrintCauses result (O.faults out.old) (O.faults out.new) (D.faults disk.old) (D.faults disk.new) }
    ensures checks { RefusesWithin file_checks result }
    ensures prints { (bytes : List ℕ) (items : List Item)
        → IsListedFile (bytes_in (seen (D.told disk.old)) file.entry.name.now) file.entry.front.now bytes items
        → PrintsAll (delta_lines (shown_file file.entry items) delta.now) result (O.given out.old) (O.given out.new) }
{
    if delta.removed {
        return Ok(());
    }
    let none = Serials::empty(alloc);
    let Ok(set) = delta_set(alloc, &file.front.header, delta.serial, &none, &none, None) else {
        return Err(StepFault::Memory);
    };
    let form = LineForm {
        module_name: None,
        has_sids: false,
        facts: None,
    };
    print_text(alloc, file.name, file.front, &set, &form, out, disk)?;
    Ok(())
}

// prints the text of a delta behind what is held back
fn put_lines<O: Sink, D: Disk>(
    alloc: Global,
    file: Shown<'_>,
    delta: &Record,
    listing: &mut Listing,
    out: &mut O,
    disk: &mut D,
) -> Result<(), StepFault>
    requires table { IsTable file.front.now.header.records }
    requires shown { IsShown file.front.now.header.records delta.now }
    ensures same { D.told disk.new ≡ D.told disk.old }
    ensures causes { PrintCauses result (O.faults out.old) (O.faults out.new) (D.faults disk.old) (D.faults disk.new) }
    ensures checks { RefusesWithin file_checks result }
    ensures gives { (bytes : List ℕ) (items : List Item)
        → IsListedFile (bytes_in (seen (D.told disk.old)) file.entry.name.now) file.entry.front.now bytes items
        → GivesHeld (delta_lines (shown_file file.entry items) delta.now) result listing.old.buffer listing.new.buffer
        (O.given out.old) (O.given out.new) }
{
    if let Err(_) = listing.buffer.flush(out) {
        return Err(StepFault::WriteFault);
    }
    print_lines(alloc, file, delta, out, disk)
}

// prints what a part of a specification stands for
fn put_part<O: Sink, D: Disk>(
    alloc: Global,
    part: Part,
    file: Shown<'_>,
    facts: &Facts,
    delta: &Record,
    listing: &mut Listing,
    out: &mut O,
    disk: &mut D,
) -> Result<(), StepFault>
    requires table { IsTable file.front.now.header.records }
    requires shown { IsShown file.front.now.header.records delta.now }
    requires facts { facts.now ≡ delta_facts file.front.now.header file.name.now file.place.now delta.now }
    requires moments { HasMoments facts.now }
    ensures same { D.told disk.new ≡ D.told disk.old }
    ensures causes { PrintCauses result (O.faults out.old) (O.faults out.new) (D.faults disk.old) (D.faults disk.new) }
    ensures checks { RefusesWithin file_checks result }
    ensures gives { (bytes : List ℕ) (items : List Item)
        → IsListedFile (bytes_in (seen (D.told disk.old)) file.entry.name.now) file.entry.front.now bytes items
        → GivesHeld (data_text (shown_file file.entry items) delta.now part) result listing.old.buffer
        listing.new.buffer (O.given out.old) (O.given out.new) }
{
    match part {
        Part::Plain(byte) => put(&mut listing.buffer, &[byte], out),
        Part::Item(item) => put_item(item, &file.front.header, facts, delta, listing, out),
        Part::Body => put_body(alloc, file.name, file.front, listing, out, disk),
        Part::Text => put_lines(alloc, file, delta, listing, out, disk),
    }
}

// prints what the parts of a specification stand for
fn put_parts<O: Sink, D: Disk>(
    alloc: Global,
    parts: &[Part],
    file: Shown<'_>,
    facts: &Facts,
    delta: &Record,
    listing: &mut Listing,
    out: &mut O,
    disk: &mut D,
) -> Result<(), StepFault>
    requires table { IsTable file.front.now.header.records }
    requires shown { IsShown file.front.now.header.records delta.now }
    requires facts { facts.now ≡ delta_facts file.front.now.header file.name.now file.place.now delta.now }
    requires moments { HasMoments facts.now }
    ensures same { D.told disk.new ≡ D.told disk.old }
    ensures causes { PrintCauses result (O.faults out.old) (O.faults out.new) (D.faults disk.old) (D.faults disk.new) }
    ensures checks { RefusesWithin file_checks result }
    ensures gives { (bytes : List ℕ) (items : List Item)
        → IsListedFile (bytes_in (seen (D.told disk.old)) file.entry.name.now) file.entry.front.now bytes items
        → GivesHeld (parts_text parts.now (shown_file file.entry items) delta.now) result listing.old.buffer
        listing.new.buffer (O.given out.old) (O.given out.new) }
{
    for part in parts {
        if let Err(fault) = put_part(alloc, *part, file, facts, delta, listing, out, disk) {
            return Err(fault);
        }
    }
    Ok(())
}

/// Prints the text of a specification for a delta, and an LF behind it.
pub fn put_delta<O: Sink, D: Disk>(
    alloc: Global,
    parts: &[Part],
    file: Shown<'_>,
    delta: &Record,
    listing: &mut Listing,
    out: &mut O,
    disk: &mut D,
) -> Result<(), StepFault>
    requires sfile { IsSFileName file.name.now }
    requires table { IsTable file.front.now.header.records }
    requires shown { IsShown file.front.now.header.records delta.now }
    ensures same { D.told disk.new ≡ D.told disk.old }
    ensures causes { PrintCauses result (O.faults out.old) (O.faults out.new) (D.faults disk.old) (D.faults disk.new) }
    ensures checks { RefusesWithin file_checks result }
    ensures gives { (bytes : List ℕ) (items : List Item)
        → IsListedFile (bytes_in (seen (D.told disk.old)) file.entry.name.now) file.entry.front.now bytes items
        → GivesHeld (ended (parts_text parts.now (shown_file file.entry items) delta.now)) result listing.old.buffer
        listing.new.buffer (O.given out.old) (O.given out.new) }
{
    let header = &file.front.header;
    let Ok(facts) = identification_facts(alloc, header, file.name, file.place, delta) else {
        return Err(StepFault::Memory);
    };
    if let Err(fault) = put_parts(alloc, parts, file, &facts, delta, listing, out, disk) {
        return Err(fault);
    }
    put(&mut listing.buffer, b"\n", out)
}
