ghost use Rattle.std.specs.Prelude.{◌≡◌, ◌≢◌, ◌≤◌, Err, IfOk};
ghost use Rattle.sccs_base.specs.Name.{IsSFileName, x_file};
ghost use Rattle.std.specs.Str.{bytes_eq};
ghost use Rattle.sccs_base.specs.Stream.{Rose};
ghost use Rattle.sccs_disk.specs.Told.{seen};
ghost use Rattle.sccs_sid.specs.declared.refusals.StepFault.TheVariants as fault;
ghost use Rattle.sccs_admin.specs.AdminStep.{AreAdminValues, admin_change, admin_checks};
ghost use Rattle.sccs_admin.specs.Parts.{AreShort, IsNewSfile, WritesTexts};
ghost use Rattle.sccs_steps.specs.Actions.{RefusesWithin};
ghost use Rattle.sccs_name_files.specs.Touches.{TouchesOnly};
ghost use Rattle.sccs_changes.specs.Stops.{IsFirmPrepared};
ghost use Rattle.sccs_admin.specs.Locks.{admin_locked};

use crate::bodies::TextBody;
use crate::finding::{NewTexts, find_texts};
use crate::headers::new_header;
use crate::rules::new_rules;
use sccs_base::{Bytes, Name, Sink, Source};
use sccs_changes::{Change, Prepared};
use sccs_disk::{Disk, DiskRefusal};
use sccs_new_files::write_new;
use sccs_sid::{Stamp, StepFault};
use sccs_store::NewFile;
use sccs_words::{AdminWords, Given};
use std::alloc::Global;

/// admin on a name that is to become an s-file: POSIX, Shell and Utilities, admin, -n and -i, with -a, -f, -m, -r, -t
/// and -y. It refuses a name that is locked, a named file that isn't there, an s-file that is, a text of more than
/// 1,073,741,824 bytes, one of which a line begins with SOH, a text without keywords where the flag i wants one,
/// flags that are none, and MRs that aren't as the flag v asks, in this order.
#[derive(Drop)]
pub struct Admin<'a> {
    pub words: &'a AdminWords,
    pub stamp: &'a Stamp,
    ghost valid: { AreAdminValues words.now stamp.now },
}

/// What is prepared where the x-file is a new s-file: all else stays, and nothing is said.
pub fn prepared(alloc: Global) -> Prepared
    ensures { IsNewSfile result }
{
    Prepared {
        new_s: true,
        new_p: NewFile::Keep,
        new_g: NewFile::Keep,
        report: Bytes::empty(alloc),
        message: Bytes::empty(alloc),
    }
}

// writes the x-file of these texts
fn write_texts<D: Disk>(
    alloc: Global,
    words: &AdminWords,
    stamp: &Stamp,
    texts: &NewTexts,
    name: &Name,
    disk: &mut D,
) -> Result<Prepared, StepFault>
    requires sfile { IsSFileName name.now }
    requires valid { AreAdminValues words.now stamp.now }
    requires bound { AreShort texts.now }
    ensures writes { WritesTexts result words.now stamp.now texts.now name.now (seen (D.told disk.old))
        (seen (D.told disk.new)) }
    ensures touches { TouchesOnly (bytes_eq (x_file name.now)) (D.told disk.old) (D.told disk.new) }
    ensures firm { IfOk result (λ p. IsFirmPrepared name.now p (D.told disk.old) (D.told disk.new)) }
    ensures checks { RefusesWithin admin_checks result }
    ensures later { D.faults disk.old ≤ D.faults disk.new }
    ensures read { result ≢ Err fault.ReadFault }
    ensures write { result ≢ Err fault.WriteFault }
    ensures broke { result ≡ Err fault.DiskFault → Rose (D.faults disk.old) (D.faults disk.new) }
{
    let rules = new_rules(alloc, words, texts)?;
    let Ok(header) = new_header(alloc, words, stamp, rules) else {
        return Err(StepFault::Memory);
    };
    let body = TextBody {
        text: texts.text.bytes(),
    };
    match write_new(alloc, &header, &body, name, disk) {
        Ok(()) => Ok(prepared(alloc)),
        Err(DiskRefusal::Failed) => Err(StepFault::DiskFault),
        Err(DiskRefusal::Memory) => Err(StepFault::Memory),
    }
}

impl Change for Admin<'_> {
    ghost change = { λ a. admin_change a.words.now a.stamp.now };

    ghost locked = { λ a. admin_locked a.words.now a.stamp.now };

    fn takes_input(&self) -> bool {
        matches!(&self.words.text, Given::Bare)
    }

    fn prepare<I: Source, O: Sink, D: Disk>(
        &self,
        alloc: Global,
        name: &Name,
        input: &mut I,
        _out: &mut O,
        disk: &mut D,
    ) -> Result<Prepared, StepFault> {
        let texts = find_texts(alloc, self.words, name, input, disk)?;
        write_texts(alloc, self.words, self.stamp, &texts, name, disk)
    }
}
