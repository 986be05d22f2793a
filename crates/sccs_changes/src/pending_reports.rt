ghost use Rattle.std.specs.Prelude.{◌≡◌, ◌++◌, IfOk, OnOk};
ghost use Rattle.sccs_changes.specs.Reports.{heading_text, warning};

use sccs_base::{Bytes, Memory, Name};
use std::alloc::Global;

/// Adds the heading of a name to a report, where the command has several operands: LF, the name, a colon and
/// LF. POSIX get, STDOUT.
pub fn heading(heading: bool, name: &Name, report: &mut Vec<u8>) -> Result<(), Memory>
    ensures ok { OnOk result (report.new.items ≡ report.old.items ++ heading_text heading name.now) }
{
    if heading {
        report.push(b'\n')?;
        report.extend_from_slice(name.bytes())?;
        report.extend_from_slice(b":\n")?;
    }
    Ok(())
}

/// Adds to a message that a text has no keyword, where it has none.
pub fn add_warning(name: &Name, keyword: bool, message: &mut Vec<u8>) -> Result<(), Memory>
    ensures ok { OnOk result (message.new.items ≡ message.old.items ++ warning name.now keyword) }
{
    if !keyword {
        message.extend_from_slice(b"WARNING [")?;
        message.extend_from_slice(name.bytes())?;
        message.extend_from_slice(b"]: no id keywords\n")?;
    }
    Ok(())
}

/// That a text has no keyword, where it has none.
pub fn warning(alloc: Global, name: &Name, keyword: bool) -> Result<Bytes, Memory>
    ensures { IfOk result (λ message. message ≡ warning name.now keyword) }
{
    let mut message = Vec::new(alloc);
    add_warning(name, keyword, &mut message)?;
    Ok(Bytes::from_vec(message))
}
