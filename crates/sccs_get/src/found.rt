ghost use Rattle.std.specs.Prelude.{◌≡◌, ◌≢◌, IfOk, IfSome, false, is_some};
ghost use Rattle.std.specs.List.{AllByRecursion};
ghost use Rattle.sccs_base.specs.Name.{IsSFileName};
ghost use Rattle.sccs_history.specs.Applied.{live_serials};
ghost use Rattle.sccs_history.specs.History.{IsSpelled, IsTable};
ghost use Rattle.sccs_history.specs.Numbers.{has};
ghost use Rattle.sccs_keywords.specs.Expansion.{HasMoments};
ghost use Rattle.sccs_changes.specs.PFiles.{Answers};
ghost use Rattle.sccs_sid.specs.Moment.{IsMoment};
ghost use Rattle.sccs_sid.specs.declared.refusals.StepFault.TheVariants as faults;
ghost use Rattle.sccs_steps.specs.Actions.{RefusesWithin};
ghost use Rattle.sccs_get.specs.AskedVersion.{asked_checks};
ghost use Rattle.sccs_get.specs.Reports.{replaces_keywords};
ghost use Rattle.sccs_get.specs.VersionStep.{version_facts, form_got, found_version, module_in};
ghost use Rattle.sccs_keywords.specs.Forms.{line_form};

use crate::new_entries::singles;
use crate::reports::replaces;
use crate::targets::asked_of;
use sccs_base::{Line, Memory, Name};
use sccs_history::{Header, Serials};
use sccs_keywords::{Facts, LineForm, facts_of, module_name};
use sccs_sets::{Applied, sid_at};
use sccs_sid::{Sid, SidList, Stamp, StepFault};
use sccs_words::GetWords;
use std::alloc::Global;

/// A version as it is found in an s-file: the set of its deltas, the lists that were given and their SIDs, its
/// SID, and what its lines are given with.
#[derive(Drop)]
pub struct Found {
    pub set: Applied,
    /// The serials that a list took in.
    pub taken_in: Serials,
    /// The serials that a list left out.
    pub left_out: Serials,
    pub include: SidList,
    pub exclude: SidList,
    pub sid: Sid,
    /// What stands before each line with -n.
    pub module: Option<Line>,
    /// What keywords are replaced by, where they are.
    pub facts: Option<Facts>,
}

impl Found {
    /// How the lines are given.
    pub fn form(&self, words: &GetWords) -> LineForm<'_>
        ensures { line_form result ≡ form_got words.now self.now }
    {
        LineForm {
            module_name: self.module.as_ref(),
            has_sids: words.sids,
            facts: self.facts.as_ref(),
        }
    }
}

// the module's name, where it stands before lines
fn module_in(
    alloc: Global,
    words: &GetWords,
    header: &Header,
    name: &Name,
) -> Result<Option<Line>, Memory>
    requires { IsSFileName name.now }
    ensures { IfOk result (λ module_name. module_name ≡ module_in words.now header.now name.now) }
{
    if !words.module {
        return Ok(None);
    }
    match Line::new(alloc, module_name(header.flags.items(), name)) {
        Ok(line) => Ok(Some(line)),
        Err(_) => Err(Memory),
    }
}

// what keywords are replaced by, where they are
fn facts_in(
    alloc: Global,
    words: &GetWords,
    stamp: &Stamp,
    place: &Line,
    name: &Name,
    header: &Header,
    set: &Applied,
    target: u16,
    sid: Sid,
) -> Result<Option<Facts>, Memory>
    requires sfile { IsSFileName name.now }
    requires spelled { IsSpelled header.now }
    requires moment { IsMoment stamp.now.moment }
    ensures value { IfOk result (λ facts. facts ≡ version_facts words.now stamp.now place.now name.now header.now
        set.now target sid) }
    ensures valid { IfOk result (λ facts. IfSome facts HasMoments) }
    ensures replaced { IfOk result (λ facts. is_some facts ≡ replaces_keywords words.now) }
{
    if !replaces(words) {
        return Ok(None);
    }
    let facts = facts_of(alloc, header, set, target, sid, name, place, stamp)?;
    Ok(Some(facts))
}

/// Finds the version that get's words ask for in a header. NoSid comes where its SID names no live delta,
/// BadList with the first SID of a list that names none, or that is in both lists. POSIX get.
pub fn find_version(
    alloc: Global,
    words: &GetWords,
    stamp: &Stamp,
    place: &Line,
    name: &Name,
    header: &Header,
) -> Result<Found, StepFault>
    requires sfile { IsSFileName name.now }
    requires table { IsTable header.now.records }
    requires spelled { IsSpelled header.now }
    requires moment { IsMoment stamp.now.moment }
    ensures value { Answers (found_version words.now stamp.now place.now name.now header.now) result }
    ensures no_zero { IfOk result (λ f. has f.set 0 ≡ false) }
    ensures facts { IfOk result (λ f. IfSome f.facts HasMoments) }
    ensures replaced { IfOk result (λ f. is_some f.facts ≡ replaces_keywords words.now) }
    ensures checks { RefusesWithin asked_checks result }
    ensures broke { result ≢ Err faults.DiskFault }
{
    let asked = asked_of(alloc, header, words)?;
    let records = header.records.items();
    let sid = sid_at(records, asked.target);
    let Ok(include) = singles(alloc, records, asked.include.items()) else {
        return Err(StepFault::Memory);
    };
    let Ok(exclude) = singles(alloc, records, asked.exclude.items()) else {
        return Err(StepFault::Memory);
    };
    let Ok(module) = module_in(alloc, words, header, name) else {
        return Err(StepFault::Memory);
    };
    let Ok(facts) = facts_in(
        alloc,
        words,
        stamp,
        place,
        name,
        header,
        &asked.set,
        asked.target,
        sid,
    ) else {
        return Err(StepFault::Memory);
    };
    Ok(Found {
        set: asked.set,
        taken_in: asked.include,
        left_out: asked.exclude,
        include,
        exclude,
        sid,
        module,
        facts,
    })
}
