ghost use Rattle.std.specs.Prelude.{◌≡◌, ◌++◌, map, IfOk, OnOk};
ghost use Rattle.sccs_group_command.specs.GroupStep.{headed};
ghost use Rattle.sccs_group_command.specs.Making.{IsJoint, fate_of, member_of, messages_in, removes, reports_in};
ghost use Rattle.sccs_group_command.specs.Making.{several};

use crate::prepared_entries::PreparedEntry;
use sccs_base::{Bytes, Memory};
use sccs_changes::{Prepared, heading};
use sccs_group::{Member, Members};
use sccs_intents::{Fate, IntentEntry};
use sccs_store::NewFile;
use std::alloc::Global;

// what becomes of the p-file of an entry
fn fate_of(new_p: NewFile) -> Fate
    ensures { result ≡ fate_of new_p }
{
    match new_p {
        NewFile::Remove => Fate::Removed,
        NewFile::Keep | NewFile::Replace => Fate::Replaced,
    }
}

// whether the g-file goes
fn removes(new_g: NewFile) -> bool
    ensures { result ≡ removes new_g }
{
    match new_g {
        NewFile::Remove => true,
        NewFile::Keep | NewFile::Replace => false,
    }
}

// the member of a group that an entry is
fn member_of(entry: &PreparedEntry) -> Member
    ensures { result ≡ member_of entry.now }
{
    Member {
        entry: IntentEntry {
            name: entry.name,
            fate: fate_of(entry.prepared.new_p),
        },
        removes_g: removes(entry.prepared.new_g),
    }
}

// adds the report of an entry, under its heading
fn add_report(several: bool, entry: &PreparedEntry, report: &mut Vec<u8>) -> Result<(), Memory>
    ensures { OnOk result (report.new.items ≡ report.old.items ++ headed several entry.now.name
        entry.now.prepared.report) }
{
    let own = entry.prepared.report.bytes();
    if own.is_empty() {
        return Ok(());
    }
    heading(several, &entry.name, report)?;
    report.extend_from_slice(own)?;
    Ok(())
}

// the members of a group that entries are
fn members_of(alloc: Global, made: &[PreparedEntry]) -> Result<Members, Memory>
    ensures { IfOk result (λ members. members ≡ map member_of made.now) }
{
    let mut members = Members::empty(alloc);
    for entry in made {
        members.push(member_of(entry))?;
    }
    Ok(members)
}

// the reports of entries, each under its heading where there are several
fn report_of(alloc: Global, made: &[PreparedEntry]) -> Result<Bytes, Memory>
    ensures { IfOk result (λ report. report ≡ reports_in (several made.now) made.now) }
{
    let several = made.len() > 1;
    let mut report = Vec::new(alloc);
    for entry in made {
        add_report(several, entry, &mut report)?;
    }
    Ok(Bytes::from_vec(report))
}

// the warnings of entries
fn message_of(alloc: Global, made: &[PreparedEntry]) -> Result<Bytes, Memory>
    ensures { IfOk result (λ message. message ≡ messages_in made.now) }
{
    let mut message = Vec::new(alloc);
    for entry in made {
        message.extend_from_slice(entry.prepared.message.bytes())?;
    }
    Ok(Bytes::from_vec(message))
}

/// What is made of prepared entries before their commit, so that nothing takes memory behind it.
#[derive(Drop)]
pub struct Joint {
    pub members: Members,
    /// Reports and warnings alone.
    pub said: Prepared,
}

// the reports and warnings of entries, as those of one change
fn said_of(alloc: Global, made: &[PreparedEntry]) -> Result<Prepared, Memory>
    ensures report { IfOk result (λ said. said.report ≡ reports_in (several made.now) made.now) }
    ensures message { IfOk result (λ said. said.message ≡ messages_in made.now) }
{
    let report = report_of(alloc, made)?;
    let message = message_of(alloc, made)?;
    Ok(Prepared {
        new_s: false,
        new_p: NewFile::Keep,
        new_g: NewFile::Keep,
        report,
        message,
    })
}

/// Members, reports and warnings of entries.
pub fn joint_of(alloc: Global, made: &[PreparedEntry]) -> Result<Joint, Memory>
    ensures { IfOk result (λ joint. IsJoint made.now joint) }
{
    let members = members_of(alloc, made)?;
    let said = said_of(alloc, made)?;
    Ok(Joint { members, said })
}
