ghost use Rattle.std.specs.Prelude.{◌≡◌, ◌+◌, ◌<◌, ◌^◌, suc, IfSome};
ghost use Rattle.std.specs.List.{slice_get};
ghost use Rattle.sccs_history.specs.Numbers.{has};
ghost use Rattle.sccs_script_laws.specs.Plans.{added_after, IsInOrder, places_of};
ghost use Rattle.sccs_splicer.specs.PlanPlaces.{is_next, next_place, Stands};

use sccs_base::Line;
use sccs_script_laws::{AddedList, Numbers, Plan};
use std::marker::Model;

/// A plan while the lines of its base go by. What is looked up is what comes next in it, so a look-up
/// doesn't search. Contracts see the plan, and how many lines of the base were passed.
#[derive(Drop)]
pub struct PlanPlace {
    plan: Plan,
    line: u64,
    // how many of the deleted lines were passed
    deleted_at: u64,
    // how many lists of new lines follow earlier lines than the last one
    added_at: u64,
}

impl Model for PlanPlace {
    ghost use Rattle.sccs_splicer.specs.PlanPlaces.{Passed, StandsInPlan};

    ghost Value = { Passed };

    ghost view = { λ p. record { plan = p.plan; line = p.line } };

    ghost invariant = { λ p. StandsInPlan p.plan p.line p.deleted_at p.added_at };
}

// the number at a place, where there is one
fn number_at(numbers: &Numbers, place: u64) -> Option<u64>
    ensures value { result ≡ slice_get numbers.now place }
    ensures few { IfSome result (λ _. place + 1 < 2 ^ 64) }
{
    if place < numbers.len() {
        Some(*numbers.at(place))
    } else {
        None
    }
}

// the base line that the list of new lines at a place follows, where there is one
fn after_at(added: &AddedList, place: u64) -> Option<u64>
    ensures value { result ≡ slice_get (places_of added.now) place }
    ensures few { IfSome result (λ _. place + 1 < 2 ^ 64) }
{
    if place < added.len() {
        Some(added.at(place).after)
    } else {
        None
    }
}

// whether the number that comes next is the one behind a line
fn is_next(next: Option<u64>, line: u64) -> bool
    ensures { result ≡ is_next next (line + 1) }
{
    match next {
        Some(next) => 0 < next && next - 1 == line,
        None => false,
    }
}

// the place behind a number, where that comes next
fn next_place(next: Option<u64>, place: u64, number: u64) -> u64
    requires { IfSome next (λ _. place + 1 < 2 ^ 64) }
    ensures { result ≡ next_place next place number }
{
    match next {
        Some(next) => { if next == number { place + 1 } else { place } }
        None => place,
    }
}

impl PlanPlace {
    /// Before all lines.
    pub fn new(plan: Plan) -> PlanPlace
        requires { IsInOrder plan }
        ensures { result ≡ record { plan = plan; line = 0 } }
    {
        PlanPlace {
            plan,
            line: 0,
            deleted_at: 0,
            added_at: 0,
        }
    }

    /// How many lines of the base were passed.
    pub fn line(&self) -> u64
        ensures { result ≡ self.now.line }
    {
        self.line
    }

    pub fn plan(&self) -> &Plan
        ensures { result.now ≡ self.now.plan }
    {
        &self.plan
    }

    /// Whether the next line is deleted.
    pub fn deletes_next(&self) -> bool
        ensures { result ≡ has self.now.plan.deleted (suc self.now.line) }
    {
        let next = number_at(&self.plan.deleted, self.deleted_at);
        is_next(next, self.line)
    }

    /// The new lines behind the last line, or before all.
    pub fn new_lines(&self) -> &[Line]
        ensures { result.now ≡ added_after self.now.line self.now.plan.added }
    {
        if self.added_at < self.plan.added.len() {
            let added = self.plan.added.at(self.added_at);
            if added.after == self.line {
                return added.lines.items();
            }
        }
        &[]
    }

    /// The next line goes by.
    pub fn advance(&mut self)
        requires { self.old.line + 1 < 2 ^ 64 }
        ensures { self.new ≡ record { plan = self.old.plan; line = suc self.old.line } }
    {
        let line = self.line;
        let deleted = number_at(&self.plan.deleted, self.deleted_at);
        let deleted_at = next_place(deleted, self.deleted_at, line + 1);
        let after = after_at(&self.plan.added, self.added_at);
        let added_at = next_place(after, self.added_at, line);
        self.line = line + 1;
        self.deleted_at = deleted_at;
        self.added_at = added_at;
    }
}
