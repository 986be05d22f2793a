ghost use Rattle.std.specs.Prelude.{◌≡◌, ℕ, List, Option, IfSome};
ghost use Rattle.sccs_base.specs.Name.{IsSFileName};
ghost use Rattle.sccs_disk.specs.Files.{View};
ghost use Rattle.sccs_disk.specs.Told.{seen};
ghost use Rattle.sccs_name_files.specs.StepFiles.{look};
ghost use Rattle.sccs_steps.specs.Actions.{RefusesWithin};
ghost use Rattle.sccs_steps.specs.Causes.{PrintCauses};
ghost use Rattle.sccs_prs.specs.Keeps.{prs_keeps};
ghost use Rattle.sccs_prs.specs.PrsStep.{ShowsOutcome, prs_action, prs_checks, prs_outcome};

use crate::choices::chosen_of;
use crate::deltas::Shown;
use crate::printing::print_report;
use sccs_base::{Line, Name, Sink, Source};
use sccs_body::inspect;
use sccs_disk::Disk;
use sccs_sid::{Refusal, StepFault};
use sccs_steps::Utility;
use sccs_words::PrsWords;
use std::alloc::Global;

/// prs on a name: the deltas of its table that the words choose, each by a data specification. It refuses an
/// s-file that can't be read, and a SID that names no delta. POSIX, Shell and Utilities, prs.
#[derive(Clone, Copy)]
pub struct Prs<'a> {
    pub words: &'a PrsWords,
    /// The folder's path.
    pub place: &'a Line,
}

// reads an s-file, and prints what the words ask for
fn show<O: Sink, D: Disk>(
    alloc: Global,
    words: &PrsWords,
    place: &Line,
    name: &Name,
    out: &mut O,
    disk: &mut D,
) -> Result<(), StepFault>
    requires { IsSFileName name.now }
    ensures shows { IfSome (seen (D.told disk.old)) (λ (v : View). ShowsOutcome name.now
        (prs_outcome words.now place.now name.now (look v name.now)) result (O.given out.old) (O.given out.new)) }
    ensures same { D.told disk.new ≡ D.told disk.old }
    ensures causes { PrintCauses result (O.faults out.old) (O.faults out.new) (D.faults disk.old) (D.faults disk.new) }
    ensures checks { RefusesWithin prs_checks result }
{
    let front = match inspect(alloc, disk, name) {
        Ok(front) => front,
        Err(fault) => return Err(StepFault::from(fault)),
    };
    let chosen = match chosen_of(words, front.header.records.items()) {
        Ok(chosen) => chosen,
        Err(_) => return Err(StepFault::Refused(Refusal::NoSid)),
    };
    let file = Shown {
        name,
        place,
        front: &front,
    };
    print_report(alloc, words, chosen, file, out, disk)
}

impl Utility for Prs<'_> {
    ghost action = { λ prs. prs_action prs.words.now prs.place.now };

    ghost keeps = { λ prs. prs_keeps prs.words.now prs.place.now };

    fn step<I: Source, O: Sink, E: Sink, D: Disk>(
        &self,
        alloc: Global,
        name: &Name,
        _input: &mut I,
        out: &mut O,
        _err: &mut E,
        disk: &mut D,
    ) -> Result<(), StepFault> {
        show(alloc, self.words, self.place, name, out, disk)
    }

    fn name(&self, operand: &[u8]) -> Option<Name> {
        Name::read_sfile(operand)
    }

    fn takes_input(&self) -> bool {
        false
    }
}
