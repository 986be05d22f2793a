ghost use Rattle.sccs_steps.specs.Actions.{RefusesWithin};
ghost use Rattle.sccs_alter.specs.CdcStep.{cdc_checks};
ghost use Rattle.sccs_alter.specs.CdcParts.{FindsChangeable};

use sccs_admin::has_text;
use sccs_flags::{has_flag, is_allowed};
use sccs_history::Header;
use sccs_rmdel::{is_owner, live_delta};
use sccs_sid::{Refusal, Stamp, StepFault};
use sccs_words::CdcWords;

/// The serial of the live delta of a SID, where a login may change what is said of it. The checks in their order: the
/// login may make deltas; a live delta has the SID; MRs are given only where the flag v is set, and has no text, which
/// would name a program; and the login made the delta, or the first one.
#[tactic(auto, unfolding(crate::specs::CdcStep::changeable))]
pub fn changeable(header: &Header, words: &CdcWords, stamp: &Stamp) -> Result<u16, StepFault>
    ensures finds { FindsChangeable words.now stamp.now header.now result }
    ensures checks { RefusesWithin cdc_checks result }
{
    let records = header.records.items();
    let given = words.mrs.len() > 0;
    if !is_allowed(header, &stamp.login) {
        return Err(StepFault::Refused(Refusal::NotAllowed));
    }
    let Some(delta) = live_delta(records, words.sid) else {
        return Err(StepFault::Refused(Refusal::NoSid));
    };
    if given && !has_flag(header, b'v') {
        return Err(StepFault::Refused(Refusal::MrNotAllowed));
    }
    if given && has_text(header.flags.items(), b'v') {
        return Err(StepFault::Refused(Refusal::Unsupported(b'v')));
    }
    if !is_owner(records, delta, &stamp.login) {
        return Err(StepFault::Refused(Refusal::NotOwner));
    }
    Ok(delta.serial)
}
