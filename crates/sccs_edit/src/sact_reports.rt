ghost use Rattle.std.specs.Prelude.{◌≡◌, ◌∷◌, ◌++◌, [], All, IfOk, OnOk};
ghost use Rattle.sccs_tokens.specs.Written.{ended};
ghost use Rattle.sccs_pfile.specs.Entries.{IsEdit};
ghost use Rattle.sccs_edit.specs.SactStep.{edit_line, edit_lines, none_text};
ghost use Rattle.sccs_changes.specs.Reports.{heading_text};

use sccs_base::{Bytes, Memory, Name};
use sccs_changes::heading;
use sccs_pfile::{Edit, Edits};
use sccs_sid::DETAIL_ROOM;
use std::alloc::Global;

// adds a part of a line, and the byte behind it
fn add_part(part: &[u8], behind: u8, report: &mut Vec<u8>) -> Result<(), Memory>
    ensures { OnOk result (report.new.items ≡ report.old.items ++ (part.now ++ behind ∷ [])) }
{
    report.extend_from_slice(part)?;
    report.push(behind)?;
    Ok(())
}

// adds the line of an entry
fn add_entry(edit: &Edit, report: &mut Vec<u8>) -> Result<(), Memory>
    requires { IsEdit edit.now }
    ensures { OnOk result (report.new.items ≡ report.old.items ++ ended (edit_line edit.now)) }
{
    let (mut got, mut made) = ([0; DETAIL_ROOM], [0; DETAIL_ROOM]);
    add_part(edit.got.text(&mut got), b' ', report)?;
    add_part(edit.made.text(&mut made), b' ', report)?;
    add_part(edit.login.bytes(), b' ', report)?;
    add_part(&edit.moment.text(), b'\n', report)
}

// adds the lines of entries
fn add_entries(edits: &[Edit], report: &mut Vec<u8>) -> Result<(), Memory>
    requires { All IsEdit edits.now }
    ensures { OnOk result (report.new.items ≡ report.old.items ++ edit_lines edits.now) }
{
    for edit in edits {
        add_entry(edit, report)?;
    }
    Ok(())
}

/// What sact prints: the heading of a name, and the lines of its entries.
pub fn report_of(
    alloc: Global,
    with_heading: bool,
    name: &Name,
    edits: &Edits,
) -> Result<Bytes, Memory>
    requires { All IsEdit edits.now }
    ensures { IfOk result (λ report. report ≡ heading_text with_heading name.now ++ edit_lines edits.now) }
{
    let mut report = Vec::new(alloc);
    heading(with_heading, name, &mut report)?;
    add_entries(edits.items(), &mut report)?;
    Ok(Bytes::from_vec(report))
}

/// What it says where there are no entries.
pub fn message_of(alloc: Global, name: &Name, edits: &Edits) -> Result<Bytes, Memory>
    ensures { IfOk result (λ message. message ≡ none_text name.now edits.now) }
{
    let mut message = Vec::new(alloc);
    if edits.len() == 0 {
        message.extend_from_slice(b"No outstanding deltas for: ")?;
        message.extend_from_slice(name.bytes())?;
        message.push(b'\n')?;
    }
    Ok(Bytes::from_vec(message))
}
