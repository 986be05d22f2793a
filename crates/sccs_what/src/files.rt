ghost use Rattle.std.specs.Prelude.{◌≡◌, ◌≢◌, ◌<◌, ◌≤◌, ℕ, Bool, List, [], Option, Some, Err, IfOk, IfSome, length};
ghost use Rattle.std.specs.Prelude.{drop};
ghost use Rattle.sccs_base.specs.Constants.{file_limit};
ghost use Rattle.sccs_base.specs.Stream.{Buffers, Rose};
ghost use Rattle.sccs_disk.specs.Told.{seen};
ghost use Rattle.sccs_name_files.specs.WholeFiles.{file_bytes};
ghost use Rattle.sccs_sid.specs.declared.refusals.Refusal.{Refusal};
ghost use Rattle.sccs_sid.specs.declared.refusals.StepFault.TheVariants as faults;
ghost use Rattle.sccs_steps.specs.Causes.{PrintCauses};
ghost use Rattle.sccs_what.specs.SearchedFiles.{FinishesSearch, PrintsTexts, SearchesFile, SearchesPiece, heading};

use crate::searches::{Search, end_search, search_piece};
use sccs_base::{Name, OutputBuffer, Sink};
use sccs_disk::Disk;
use sccs_sid::StepFault;
use std::alloc::Global;

// how many bytes are asked for at once
const PIECE: usize = 4096;

// reads a piece of a file and searches it; answers where the next one begins
fn search_next<O: Sink, D: Disk>(
    search: &mut Search,
    first: bool,
    name: &Name,
    from: u64,
    piece: &mut [u8],
    held: &mut OutputBuffer,
    out: &mut O,
    disk: &mut D,
) -> Result<Option<u64>, StepFault>
    requires short { from < file_limit }
    requires room { 4 ≤ length piece.old }
    requires small { length piece.old ≤ 4096 }
    ensures told { (bytes : List ℕ) → file_bytes (seen (D.told disk.old)) name.now ≡ Some bytes
        → SearchesPiece first (drop from bytes) from search.old search.new held.old held.new (O.given out.old)
        (O.given out.new) result }
    ensures further { IfOk result (λ o. IfSome o (λ next. from < next)) }
    ensures checks { (refusal : Refusal) → result ≢ Err (faults.Refused refusal) }
    ensures same { D.told disk.new ≡ D.told disk.old }
    ensures causes { PrintCauses result (O.faults out.old) (O.faults out.new) (D.faults disk.old) (D.faults disk.new) }
{
    let Ok(got) = disk.read_at(name, from, piece) else {
        return Err(StepFault::DiskFault);
    };
    let count = got.unwrap_or(0);
    let Ok(used) = search_piece(search, first, &piece[..count], held, out) else {
        return Err(StepFault::WriteFault);
    };
    if count < piece.len() || search.is_done(first) {
        return Ok(None);
    }
    Ok(Some(from + used as u64))
}

// the search of a file has come to its end
fn finish<O: Sink>(search: Search, held: &mut OutputBuffer, out: &mut O) -> Result<bool, StepFault>
    ensures checks { (refusal : Refusal) → result ≢ Err (faults.Refused refusal) }
    ensures ends { FinishesSearch search held.old held.new (O.given out.old) (O.given out.new) result }
    ensures causes { (disk : ℕ) → PrintCauses result (O.faults out.old) (O.faults out.new) disk disk }
{
    match end_search(search, held, out) {
        Ok(found) => Ok(found),
        Err(_) => Err(StepFault::WriteFault),
    }
}

// searches a file of that many bytes
fn search_file<O: Sink, D: Disk>(
    first: bool,
    name: &Name,
    size: u64,
    held: &mut OutputBuffer,
    out: &mut O,
    disk: &mut D,
) -> Result<bool, StepFault>
    requires { size ≤ file_limit }
    ensures told { (bytes : List ℕ) → file_bytes (seen (D.told disk.old)) name.now ≡ Some bytes → size ≡ length bytes
        → SearchesFile first bytes held.old held.new (O.given out.old) (O.given out.new) result }
    ensures checks { (refusal : Refusal) → result ≢ Err (faults.Refused refusal) }
    ensures same { D.told disk.new ≡ D.told disk.old }
    ensures causes { PrintCauses result (O.faults out.old) (O.faults out.new) (D.faults disk.old) (D.faults disk.new) }
{
    let mut piece = [0; PIECE];
    let mut search = Search::Unfound;
    let mut from = 0;
    'pieces: while from < size {
        match search_next(&mut search, first, name, from, &mut piece, held, out, disk) {
            Ok(Some(next)) => from = next,
            Ok(None) => return finish(search, held, out),
            Err(fault) => return Err(fault),
        }
    }
    finish(search, held, out)
}

// what is answered when what was held back is given too, or couldn't be
fn flush_after<O: Sink>(
    searched: Result<bool, StepFault>,
    held: &mut OutputBuffer,
    out: &mut O,
) -> Result<bool, StepFault>
    ensures prints { (first : Bool) (bytes name front : List ℕ) (a b : Option (List ℕ))
        → Buffers [] (heading name) front a b
        → SearchesFile first bytes front held.old b (O.given out.old) searched → PrintsTexts first name bytes a
        (O.given out.new) result }
    ensures checks { (refusal : Refusal) → searched ≢ Err (faults.Refused refusal)
        → result ≢ Err (faults.Refused refusal) }
    ensures causes { (o d d2 : ℕ) → PrintCauses searched o (O.faults out.old) d d2
        → PrintCauses result o (O.faults out.new) d d2 }
{
    match held.flush(out) {
        Ok(()) => searched,
        Err(_) => Err(StepFault::WriteFault),
    }
}

/// Prints the texts behind the marks of a file of that many bytes, with its name before them, and answers whether
/// there are some.
pub fn print_texts<O: Sink, D: Disk>(
    alloc: Global,
    first: bool,
    name: &Name,
    size: u64,
    out: &mut O,
    disk: &mut D,
) -> Result<bool, StepFault>
    requires { size ≤ file_limit }
    ensures told { (bytes : List ℕ) → file_bytes (seen (D.told disk.old)) name.now ≡ Some bytes → size ≡ length bytes
        → PrintsTexts first name.now bytes (O.given out.old) (O.given out.new) result }
    ensures same { D.told disk.new ≡ D.told disk.old }
    ensures causes { PrintCauses result (O.faults out.old) (O.faults out.new) (D.faults disk.old) (D.faults disk.new) }
    ensures checks { (refusal : Refusal) → result ≢ Err (faults.Refused refusal) }
{
    let Ok(mut held) = OutputBuffer::new(alloc) else {
        return Err(StepFault::Memory);
    };
    let Ok(()) = held.give_parts(out, &[name.bytes(), b":\n"]) else {
        return Err(StepFault::WriteFault);
    };
    let searched = search_file(first, name, size, &mut held, out, disk);
    flush_after(searched, &mut held, out)
}
