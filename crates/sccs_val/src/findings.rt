ghost use Rattle.std.specs.Prelude.{◌≡◌, ℕ, ◌≤◌, [], not, IfOk, IfSome};
ghost use Rattle.std.specs.Str.{bytes_eq};
ghost use Rattle.sccs_base.specs.Name.{IsSFileName};
ghost use Rattle.sccs_disk.specs.Told.{seen};
ghost use Rattle.sccs_sid.specs.Sid.{sid_of};
ghost use Rattle.sccs_steps.specs.Actions.{RefusesWithin};
ghost use Rattle.sccs_steps.specs.Causes.{PrintCauses};
ghost use Rattle.sccs_table.specs.ReaderState.{file_in};
ghost use Rattle.sccs_val.specs.Findings.{finding_bit, bits, findings, found_in, if_asked, is_invalid, is_missing};
ghost use Rattle.sccs_val.specs.Findings.{is_unopened};
ghost use Rattle.sccs_val.specs.ValStep.{Unreads};

use sccs_base::{Bytes, Name};
use sccs_body::inspect;
use sccs_disk::Disk;
use sccs_grammar::FileFault;
use sccs_history::{Header, Record};
use sccs_keywords::{kind, module_name};
use sccs_sets::lives;
use sccs_sid::{Sid, SidFault, StepFault};
use sccs_words::ValWords;
use std::alloc::Global;

/// What is found of an operand: a field for each bit of POSIX, Shell and Utilities, val, from 0x20 on.
#[derive(Clone, Copy, Debug, PartialEq, Eq)]
pub struct Findings {
    pub corrupted: bool,
    pub unopened: bool,
    pub invalid_sid: bool,
    pub missing_sid: bool,
    pub other_kind: bool,
    pub other_module: bool,
}

// nothing is found
const FINE: Findings = Findings {
    corrupted: false,
    unopened: false,
    invalid_sid: false,
    missing_sid: false,
    other_kind: false,
    other_module: false,
};

const CORRUPTED: Findings = Findings {
    corrupted: true,
    ..FINE
};

const UNOPENED: Findings = Findings {
    unopened: true,
    ..FINE
};

fn bit(said: bool, value: u8) -> u8
    ensures value { result ≡ finding_bit said value }
    ensures most { result ≤ value }
{
    if said { value } else { 0 }
}

impl Findings {
    /// The bits of POSIX, Shell and Utilities, val.
    pub fn bits(&self) -> u8
        ensures { result ≡ bits self.now }
    {
        bit(self.corrupted, 0x20)
            + (bit(self.unopened, 0x10)
                + (bit(self.invalid_sid, 0x08)
                    + (bit(self.missing_sid, 0x04)
                        + (bit(self.other_kind, 0x02) + bit(self.other_module, 0x01)))))
    }
}

// what is found where a file isn't read
fn unread(fault: FileFault) -> Result<Findings, StepFault>
    ensures { Unreads fault result }
{
    match fault {
        FileFault::BadSum(_, _) => Ok(CORRUPTED),
        FileFault::BadFormat(_) => Ok(CORRUPTED),
        FileFault::Changed(_, _, _, _) => Ok(CORRUPTED),
        FileFault::Missing => Ok(UNOPENED),
        FileFault::TooLong => Ok(UNOPENED),
        FileFault::NotSccs => Ok(UNOPENED),
        FileFault::Encoded => Ok(UNOPENED),
        FileFault::Failed => Err(StepFault::DiskFault),
        FileFault::Memory => Err(StepFault::Memory),
    }
}

// whether a value that was asked for isn't a full SID
fn is_invalid(asked: &[u8]) -> bool
    ensures { result ≡ is_invalid (sid_of asked.now) }
{
    Sid::read(asked).is_err()
}

// whether it is one that isn't live
fn is_missing(records: &[Record], asked: &[u8]) -> bool
    ensures { result ≡ is_missing records.now (sid_of asked.now) }
{
    match Sid::read(asked) {
        Ok(sid) => !lives(records, sid),
        Err(_) => false,
    }
}

// whether a text that was asked for is another
fn differs(asked: &Option<Bytes>, text: &[u8]) -> bool
    ensures { result ≡ if_asked asked.now (λ a. not (bytes_eq a text.now)) }
{
    match asked {
        Some(asked) => asked.bytes() != text,
        None => false,
    }
}

// what is found of a whole file
fn find_in(words: &ValWords, name: &Name, header: &Header) -> Findings
    requires { IsSFileName name.now }
    ensures { result ≡ found_in words.now name.now header.now }
{
    let (invalid_sid, missing_sid) = match &words.sid {
        Some(asked) => (
            is_invalid(asked.bytes()),
            is_missing(header.records.items(), asked.bytes()),
        ),
        None => (false, false),
    };
    let flags = header.flags.items();
    Findings {
        corrupted: false,
        unopened: false,
        invalid_sid,
        missing_sid,
        other_kind: differs(&words.kind, kind(flags)),
        other_module: differs(&words.module, module_name(flags, name)),
    }
}

/// What is found of an operand. Its file is read whole.
pub fn find<D: Disk>(
    alloc: Global,
    words: &ValWords,
    operand: &[u8],
    disk: &mut D,
) -> Result<Findings, StepFault>
    ensures told { IfSome (seen (D.told disk.old)) (λ v. IfOk result (λ f. f ≡ findings words.now operand.now
        (file_in v operand.now))) }
    ensures same { D.told disk.new ≡ D.told disk.old }
    ensures checks { RefusesWithin [] result }
    ensures causes { (out : ℕ) → PrintCauses result out out (D.faults disk.old) (D.faults disk.new) }
{
    let Some(name) = Name::read_sfile(operand) else {
        return Ok(UNOPENED);
    };
    match inspect(alloc, disk, &name) {
        Ok(front) => Ok(find_in(words, &name, &front.header)),
        Err(fault) => unread(fault),
    }
}
