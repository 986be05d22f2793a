ghost use Rattle.std.specs.Prelude.{◌≡◌, true, IfOk};
ghost use Rattle.sccs_history.specs.Applied.{live_serials};
ghost use Rattle.sccs_history.specs.Numbers.{has};
ghost use Rattle.sccs_steps.specs.Actions.{RefusesWithin};
ghost use Rattle.sccs_rmdel.specs.RmdelStep.{rmdel_checks};
ghost use Rattle.sccs_rmdel.specs.Writing.{FindsRemovable};

use crate::leaves::{is_edited, is_leaf, is_owner, live_delta};
use sccs_flags::is_allowed;
use sccs_history::Header;
use sccs_pfile::Edits;
use sccs_sid::{Refusal, Sid, Stamp, StepFault};

#[tactic(auto, unfolding(crate::specs::RmdelStep::removable))]
/// The serial of the live delta of a SID, where a login may remove it. The checks in their order: the login may
/// make deltas; a live delta has the SID; no pending edit got it or names it in a list; it is the newest of its
/// branch, no other delta rests on it, and it isn't the first one of the file; and the login made it, or the
/// first one. POSIX, Shell and Utilities, rmdel.
pub fn removable(header: &Header, edits: &Edits, sid: Sid, stamp: &Stamp) -> Result<u16, StepFault>
    ensures finds { FindsRemovable sid stamp.now header.now edits.now result }
    ensures live { IfOk result (λ serial. has (live_serials header.now.records) serial ≡ true) }
    ensures checks { RefusesWithin rmdel_checks result }
{
    let records = header.records.items();
    if !is_allowed(header, &stamp.login) {
        return Err(StepFault::Refused(Refusal::NotAllowed));
    }
    let Some(delta) = live_delta(records, sid) else {
        return Err(StepFault::Refused(Refusal::NoSid));
    };
    if is_edited(edits.items(), sid) {
        return Err(StepFault::Refused(Refusal::BeingEdited));
    }
    if !is_leaf(records, delta) {
        return Err(StepFault::Refused(Refusal::NotTip));
    }
    if !is_owner(records, delta, &stamp.login) {
        return Err(StepFault::Refused(Refusal::NotOwner));
    }
    Ok(delta.serial)
}
