ghost use Rattle.sccs_base.specs.Causes.{GivesText};
ghost use Rattle.sccs_batch.specs.BatchLines.{bad_entry_line, status_line};

use itoa::Buffer;
use sccs_base::{Failed, Sink, give_parts};

// writes the status of an entry
pub fn write_status<S: Sink>(status: u8, out: &mut S) -> Result<(), Failed>
    ensures { GivesText (status_line status) (S.given out.old) (S.given out.new) (S.faults out.old)
        (S.faults out.new) result }
{
    let mut buffer = Buffer::new();
    let digits = buffer.format(status).as_bytes();
    give_parts(out, &[b"= ", digits, b"\n"])
}

// writes the number of the line that is no entry
pub fn write_bad<S: Sink>(number: u64, out: &mut S) -> Result<(), Failed>
    ensures { GivesText (bad_entry_line number) (S.given out.old) (S.given out.new) (S.faults out.old)
        (S.faults out.new) result }
{
    let mut buffer = Buffer::new();
    let digits = buffer.format(number).as_bytes();
    give_parts(out, &[b"BATCH: line ", digits, b"\n"])
}
