ghost use Rattle.std.specs.Prelude.{◌≡◌, ◌≢◌, ◌==◌, false, true, Err, None, Some, IfOk, MatchResult, find};
ghost use Rattle.std.specs.List.{AllByRecursion};
ghost use Rattle.std.specs.Option.{option_copied};
ghost use Rattle.sccs_history.specs.Applied.{live_serials};
ghost use Rattle.sccs_history.specs.History.{IsTable};
ghost use Rattle.sccs_history.specs.Numbers.{has};
ghost use Rattle.sccs_sets.specs.Naming.{AnswersSerials as AnswersList};
ghost use Rattle.sccs_sets.specs.Retrieved.{retrieved};
ghost use Rattle.sccs_sid.specs.declared.refusals.StepFault.TheVariants as faults;
ghost use Rattle.sccs_steps.specs.Actions.{RefusesWithin};
ghost use Rattle.sccs_get.specs.AskedVersion.{asked, asked_checks, listed_serials, spec_asked};
ghost use Rattle.sccs_changes.specs.PFiles.{Answers};

use sccs_history::{Header, Serials};
use sccs_sets::{Applied, NoSid, SetFault, default_of, delta_set, retrieve, serials};
use sccs_sid::{Refusal, SidList, StepFault};
use sccs_words::GetWords;
use std::alloc::Global;

// the serial that is asked for
fn target(header: &Header, words: &GetWords) -> Result<u16, NoSid>
    ensures value { MatchResult result
        (λ n. retrieved header.now.records (spec_asked words.now header.now) words.now.top ≡ Some n)
        (λ _. retrieved header.now.records (spec_asked words.now header.now) words.now.top ≡ None) }
    ensures live { IfOk result (λ n. has (live_serials header.now.records) n ≡ true) }
{
    match &words.spec {
        Some(spec) => retrieve(header, Some(spec), words.top),
        None => retrieve(header, default_of(header.flags.items()).as_ref(), words.top),
    }
}

// the serials of a list that may not be given
fn listed(alloc: Global, header: &Header, list: Option<&SidList>) -> Result<Serials, SetFault>
    ensures value { AnswersList (listed_serials header.now.records (option_copied list.entry)) result }
    ensures live { IfOk result
        (AllByRecursion (λ n. has (live_serials header.now.records) n ≡ true)) }
{
    match list {
        Some(list) => serials(alloc, header, list),
        None => Ok(Serials::empty(alloc)),
    }
}

/// What a get asks for: a live delta, the serials of its lists, and the set of deltas of its version.
#[derive(Drop)]
pub struct Asked {
    pub target: u16,
    pub include: Serials,
    pub exclude: Serials,
    pub set: Applied,
}

/// What a get asks for. NoSid comes where its SID names no live delta, BadList with the first SID of a list
/// that names none, or that is in both lists. POSIX, get -r, -i, -x and -c.
pub fn asked_of(alloc: Global, header: &Header, words: &GetWords) -> Result<Asked, StepFault>
    requires { IsTable header.now.records }
    ensures value { Answers (asked words.now header.now) result }
    ensures no_zero { IfOk result (λ a. has a.set 0 ≡ false) }
    ensures live { IfOk result (λ a. has (live_serials header.now.records) a.target ≡ true) }
    ensures include { IfOk result (λ a. AllByRecursion (λ n. has (live_serials header.now.records) n ≡ true)
        a.include) }
    ensures exclude { IfOk result (λ a. AllByRecursion (λ n. has (live_serials header.now.records) n ≡ true)
        a.exclude) }
    ensures checks { RefusesWithin asked_checks result }
    ensures broke { result ≢ Err faults.DiskFault }
{
    let target = match target(header, words) {
        Ok(target) => target,
        Err(NoSid) => return Err(StepFault::Refused(Refusal::NoSid)),
    };
    let include = listed(alloc, header, words.include.as_ref())?;
    let exclude = listed(alloc, header, words.exclude.as_ref())?;
    let set = delta_set(alloc, header, target, &include, &exclude, words.cutoff)?;
    Ok(Asked {
        target,
        include,
        exclude,
        set,
    })
}
