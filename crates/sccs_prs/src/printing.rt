ghost use Rattle.std.specs.Prelude.{◌≡◌, ◌++◌, ℕ, List, []};
ghost use Rattle.std.specs.List.{AllByRecursion};
ghost use Rattle.sccs_base.specs.Name.{IsSFileName};
ghost use Rattle.sccs_disk.specs.Told.{seen};
ghost use Rattle.sccs_history.specs.History.{IsSpelled, IsTable};
ghost use Rattle.sccs_history.specs.declared.headers.Item.{Item};
ghost use Rattle.sccs_printing.specs.Printing.{file_checks};
ghost use Rattle.sccs_steps.specs.Actions.{RefusesWithin};
ghost use Rattle.sccs_steps.specs.Causes.{PrintCauses};
ghost use Rattle.sccs_table.specs.ReaderState.{bytes_in};
ghost use Rattle.sccs_prs.specs.DataKeywords.{data_parts};
ghost use Rattle.sccs_prs.specs.Gives.{GivesHeld, IsListedFile, PrintsAll};
ghost use Rattle.sccs_prs.specs.PrsText.{deltas_text, name_text, report_text, shown_text, data_spec};
ghost use Rattle.sccs_prs.specs.Shown.{IsShown, shown_file};

use crate::choices::{Chosen, comes};
use crate::deltas::{Shown, put_delta};
use crate::keywords::Part;
use crate::listings::{Listing, put};
use crate::specifications::read_parts;
use sccs_base::{Name, Sink};
use sccs_disk::Disk;
use sccs_history::Record;
use sccs_sid::StepFault;
use sccs_words::PrsWords;
use std::alloc::Global;

// the specification without -d: POSIX prs, "Data Specifications"
const DEFAULT_SPEC: &[u8] = b":Dt:\\t:DL:\\nMRs:\\n:MR:COMMENTS:\\n:C:";

// the specification
fn spec_of(words: &PrsWords) -> &[u8]
    ensures { result.now ≡ data_spec words.now.spec }
{
    match &words.spec {
        Some(spec) => spec.bytes(),
        None => DEFAULT_SPEC,
    }
}

// prints a delta where it comes
fn put_shown<O: Sink, D: Disk>(
    alloc: Global,
    all: bool,
    chosen: Chosen,
    parts: &[Part],
    file: Shown<'_>,
    delta: &Record,
    listing: &mut Listing,
    out: &mut O,
    disk: &mut D,
) -> Result<(), StepFault>
    requires sfile { IsSFileName file.name.now }
    requires table { IsTable file.front.now.header.records }
    requires shown { IsShown file.front.now.header.records delta.now }
    ensures same { D.told disk.new ≡ D.told disk.old }
    ensures causes { PrintCauses result (O.faults out.old) (O.faults out.new) (D.faults disk.old) (D.faults disk.new) }
    ensures checks { RefusesWithin file_checks result }
    ensures gives { (bytes : List ℕ) (items : List Item)
        → IsListedFile (bytes_in (seen (D.told disk.old)) file.entry.name.now) file.entry.front.now bytes items
        → GivesHeld (shown_text all chosen parts.now (shown_file file.entry items) delta.now) result listing.old.buffer
        listing.new.buffer (O.given out.old) (O.given out.new) }
{
    if comes(all, chosen, delta) {
        put_delta(alloc, parts, file, delta, listing, out, disk)
    } else {
        Ok(())
    }
}

// prints the deltas of the table that come
fn put_deltas<O: Sink, D: Disk>(
    alloc: Global,
    all: bool,
    chosen: Chosen,
    parts: &[Part],
    file: Shown<'_>,
    listing: &mut Listing,
    out: &mut O,
    disk: &mut D,
) -> Result<(), StepFault>
    requires sfile { IsSFileName file.name.now }
    requires table { IsTable file.front.now.header.records }
    requires spelled { IsSpelled file.front.now.header }
    ensures same { D.told disk.new ≡ D.told disk.old }
    ensures causes { PrintCauses result (O.faults out.old) (O.faults out.new) (D.faults disk.old) (D.faults disk.new) }
    ensures checks { RefusesWithin file_checks result }
    ensures gives { (bytes : List ℕ) (items : List Item)
        → IsListedFile (bytes_in (seen (D.told disk.old)) file.entry.name.now) file.entry.front.now bytes items
        → GivesHeld (deltas_text all chosen parts.now (shown_file file.entry items) file.entry.front.now.header.records)
        result listing.old.buffer listing.new.buffer (O.given out.old) (O.given out.new) }
{
    for delta in file.front.header.records.items() {
        if let Err(fault) = put_shown(alloc, all, chosen, parts, file, delta, listing, out, disk) {
            return Err(fault);
        }
    }
    Ok(())
}

// prints the name and an empty line, without -d
fn put_name<O: Sink>(
    words: &PrsWords,
    name: &Name,
    listing: &mut Listing,
    out: &mut O,
) -> Result<(), StepFault>
    ensures gives { GivesHeld (name_text words.now name.now) result listing.old.buffer listing.new.buffer
        (O.given out.old) (O.given out.new) }
    ensures causes { (disk : ℕ) → PrintCauses result (O.faults out.old) (O.faults out.new) disk disk }
    ensures checks { RefusesWithin file_checks result }
{
    if words.spec.is_some() {
        return Ok(());
    }
    if let Err(fault) = put(&mut listing.buffer, name.bytes(), out) {
        return Err(fault);
    }
    put(&mut listing.buffer, b":\n\n", out)
}

// prints name and deltas behind what is held back
fn put_report<O: Sink, D: Disk>(
    alloc: Global,
    words: &PrsWords,
    chosen: Chosen,
    file: Shown<'_>,
    listing: &mut Listing,
    out: &mut O,
    disk: &mut D,
) -> Result<(), StepFault>
    requires sfile { IsSFileName file.name.now }
    requires table { IsTable file.front.now.header.records }
    requires spelled { IsSpelled file.front.now.header }
    ensures same { D.told disk.new ≡ D.told disk.old }
    ensures causes { PrintCauses result (O.faults out.old) (O.faults out.new) (D.faults disk.old) (D.faults disk.new) }
    ensures checks { RefusesWithin file_checks result }
    ensures gives { (bytes : List ℕ) (items : List Item)
        → IsListedFile (bytes_in (seen (D.told disk.old)) file.entry.name.now) file.entry.front.now bytes items
        → GivesHeld (report_text words.now chosen (shown_file file.entry items)) result listing.old.buffer
        listing.new.buffer (O.given out.old) (O.given out.new) }
{
    let Ok(parts) = read_parts(alloc, spec_of(words)) else {
        return Err(StepFault::Memory);
    };
    if let Err(fault) = put_name(words, file.name, listing, out) {
        return Err(fault);
    }
    put_deltas(
        alloc,
        words.all,
        chosen,
        parts.items(),
        file,
        listing,
        out,
        disk,
    )
}

/// Prints what prs says of an s-file that was read: the deltas that are chosen, each by the specification. What
/// is of the body is read again; Changed comes where the file is another than at the first reading. POSIX prs,
/// STDOUT.
pub fn print_report<O: Sink, D: Disk>(
    alloc: Global,
    words: &PrsWords,
    chosen: Chosen,
    file: Shown<'_>,
    out: &mut O,
    disk: &mut D,
) -> Result<(), StepFault>
    requires sfile { IsSFileName file.name.now }
    requires table { IsTable file.front.now.header.records }
    requires spelled { IsSpelled file.front.now.header }
    ensures same { D.told disk.new ≡ D.told disk.old }
    ensures causes { PrintCauses result (O.faults out.old) (O.faults out.new) (D.faults disk.old) (D.faults disk.new) }
    ensures checks { RefusesWithin file_checks result }
    ensures prints { (bytes : List ℕ) (items : List Item)
        → IsListedFile (bytes_in (seen (D.told disk.old)) file.entry.name.now) file.entry.front.now bytes items
        → PrintsAll (report_text words.now chosen (shown_file file.entry items)) result
        (O.given out.old) (O.given out.new) }
{
    let Ok(mut listing) = Listing::new(alloc) else {
        return Err(StepFault::Memory);
    };
    if let Err(fault) = put_report(alloc, words, chosen, file, &mut listing, out, disk) {
        return Err(fault);
    }
    match listing.buffer.flush(out) {
        Ok(()) => Ok(()),
        Err(_) => Err(StepFault::WriteFault),
    }
}
