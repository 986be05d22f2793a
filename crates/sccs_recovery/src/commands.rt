ghost use Rattle.std.specs.Prelude.{◌≡◌, ◌≤◌, ◌||◌, Err};
ghost use Rattle.sccs_base.specs.Causes.{GivesText};
ghost use Rattle.sccs_base.specs.Stream.{Rose};
ghost use Rattle.sccs_sid.specs.declared.refusals.StepFault.TheVariants as step;
ghost use Rattle.sccs_base.specs.NameSets.{names_in};
ghost use Rattle.sccs_steps.specs.Causes.{WriteCauses};
ghost use Rattle.sccs_recovery.specs.Commands.{Says, is_locked, recover_keeps};
ghost use Rattle.sccs_recovery.specs.RecoverStep.{found_text, freed_by, recover_action};

use crate::pending::recover_free;
use crate::recoveries::Recovered;
use sccs_base::{Name, NameSet, Sink, Source, give_parts, has_name};
use sccs_disk::Disk;
use sccs_sid::StepFault;
use sccs_steps::Utility;
use std::alloc::Global;

/// recover on a name: what a step that was stopped had begun is finished or undone, and the answer says which
/// names were locked, or freed just before by the end of a group. It refuses a locked name whose files are too
/// long or can't be read, and each name while the intent of a group is there: that is to be finished first, or
/// isn't of its form.
#[derive(Clone, Copy)]
pub struct Recover<'a> {
    /// The names that were freed just before.
    pub freed: &'a NameSet,
}

// whether the z-file of a name was there, now or before the end of a group
fn was_locked(found: Recovered, freed: &NameSet, name: &Name) -> bool
    ensures { result ≡ (is_locked found || freed_by (names_in freed.now) name.now) }
{
    match found {
        Recovered::Clean => has_name(freed, name.bytes()),
        Recovered::Recovered => true,
    }
}

// says how a name was found
fn say<O: Sink>(name: &Name, locked: bool, out: &mut O) -> Result<(), StepFault>
    ensures says { Says result (found_text name.now locked) (O.given out.old) (O.given out.new) }
    ensures causes { WriteCauses result (O.faults out.old) (O.faults out.new) }
{
    let word: &[u8] = if locked {
        b": recovered\n"
    } else {
        b": clean\n"
    };
    match give_parts(out, &[name.bytes(), word]) {
        Ok(()) => Ok(()),
        Err(_) => Err(StepFault::WriteFault),
    }
}

impl Utility for Recover<'_> {
    ghost action = { λ recover. recover_action (freed_by (names_in recover.freed.now)) };

    ghost keeps = { λ recover. recover_keeps (freed_by (names_in recover.freed.now)) };

    fn name(&self, operand: &[u8]) -> Option<Name> {
        Name::read_sfile(operand)
    }

    fn takes_input(&self) -> bool {
        false
    }

    fn step<I: Source, O: Sink, E: Sink, D: Disk>(
        &self,
        alloc: Global,
        name: &Name,
        _input: &mut I,
        out: &mut O,
        _err: &mut E,
        disk: &mut D,
    ) -> Result<(), StepFault> {
        let found = recover_free(alloc, disk, name)?;
        say(name, was_locked(found, self.freed, name), out)
    }
}
