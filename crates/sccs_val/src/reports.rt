ghost use Rattle.std.specs.Prelude.{◌≡◌, ◌++◌, OnOk};
ghost use Rattle.sccs_val.specs.Reports.{fault_lines, has_bit, bit_line, bit_lines};

use crate::findings::Findings;
use sccs_base::Memory;

// adds a line for an operand
fn add_line(operand: &[u8], said: bool, text: &[u8], report: &mut Vec<u8>) -> Result<(), Memory>
    ensures { OnOk result (report.new.items ≡ report.old.items ++ bit_line operand.now said text.now) }
{
    if said {
        report.extend_from_slice(operand)?;
        report.extend_from_slice(b": ")?;
        report.extend_from_slice(text)?;
        report.push(b'\n')?;
    }
    Ok(())
}

/// Adds a line for each finding of an operand, from the greatest bit.
pub fn add_lines(operand: &[u8], found: &Findings, report: &mut Vec<u8>) -> Result<(), Memory>
    ensures { OnOk result (report.new.items ≡ report.old.items ++ bit_lines operand.now found.now) }
{
    let f = found;
    add_line(operand, f.corrupted, b"corrupted SCCS file", report)?;
    add_line(
        operand,
        f.unopened,
        b"cannot open file or file not SCCS",
        report,
    )?;
    add_line(
        operand,
        f.invalid_sid,
        b"SID is invalid or ambiguous",
        report,
    )?;
    add_line(operand, f.missing_sid, b"SID does not exist", report)?;
    add_line(operand, f.other_kind, b"%Y%, -y mismatch", report)?;
    add_line(operand, f.other_module, b"%M%, -m mismatch", report)
}

// whether a status has a bit
fn has_bit(status: u8, value: u8) -> bool
    ensures { result ≡ has_bit status value }
{
    status & value != 0
}

/// Adds a line for each fault of the words of val.
pub fn add_faults(fault: u8, report: &mut Vec<u8>) -> Result<(), Memory>
    ensures { OnOk result (report.new.items ≡ report.old.items ++ fault_lines fault) }
{
    add_line(
        b"val",
        has_bit(fault, 0x80),
        b"missing file argument",
        report,
    )?;
    add_line(
        b"val",
        has_bit(fault, 0x40),
        b"unknown or duplicate option",
        report,
    )
}
