ghost use Rattle.std.specs.Prelude.{◌≡◌, ℕ, None, false, true, length, slice_index_or, option_map, IfOk, OnOk, IfErr};
ghost use Rattle.std.specs.List.{AllByRecursion};
ghost use Rattle.sccs_history.specs.Applied.{applied, live_serials, serials_of};
ghost use Rattle.sccs_history.specs.History.{IsTable};
ghost use Rattle.sccs_history.specs.Numbers.{Falls, has};
ghost use Rattle.sccs_sets.specs.Marks.{marked_places};
ghost use Rattle.sccs_sets.specs.Sets.{Explains, both_listed};

use crate::faults::SetFault;
use crate::marks::{SERIALS, apply_delta, is_applied, is_set, mark_list, next_wanted};
use crate::tables::{first_shared, sid_at};
use sccs_base::Memory;
use sccs_history::{Header, Record, Serials};
use sccs_sid::Moment;
use std::alloc::Global;
use std::marker::Model;

/// The serials that a version is made of. Contracts see their list, greatest first.
#[derive(Drop)]
pub struct Applied {
    marks: Vec<bool>,
}

impl Model for Applied {
    ghost use Rattle.std.specs.Prelude.{List, ℕ};
    ghost use Rattle.sccs_sets.specs.Marks.{marked_places};

    ghost Value = { List ℕ };

    ghost view = { λ a. marked_places a.marks.items };
}

impl Applied {
    /// Whether a serial is applied.
    pub fn has(&self, serial: u16) -> bool
        ensures { result ≡ has self.now serial }
    {
        is_set(&self.marks, serial)
    }
}

// goes through the records once, newest first, with a mark for each serial that a list has named
fn pass(
    records: &[Record],
    target: u16,
    include: &[u16],
    exclude: &[u16],
    cutoff: Option<Moment>,
    marks: &mut [Option<bool>],
    set: &mut [bool],
)
    requires falls { Falls (length set.old) (serials_of records.now) }
    requires marks { length marks.old ≡ length set.old }
    requires unmarked { (n : ℕ) → slice_index_or marks.old n None ≡ None }
    requires unset { (n : ℕ) → slice_index_or set.old n false ≡ false }
    ensures { marked_places set.new ≡ applied (record {
      target = target;
      include = include.now;
      exclude = exclude.now;
      cutoff = option_map (λ m. m.seconds) cutoff;
    }) records.now }
{
    mark_list(marks, include, true);
    mark_list(marks, exclude, false);
    let mut wanted = target;
    for record in records {
        if is_applied(record, marks, wanted, cutoff) {
            apply_delta(record, marks, set);
        }
        wanted = next_wanted(record, wanted);
    }
}

// one more than the newest serial of a table
fn places(records: &[Record]) -> usize
    requires { Falls SERIALS (serials_of records.now) }
    ensures { Falls result (serials_of records.now) }
{
    match records.first() {
        Some(record) => usize::from(record.serial) + 1,
        None => 0,
    }
}

// the applied set of a table
fn set_of(
    alloc: Global,
    records: &[Record],
    target: u16,
    include: &[u16],
    exclude: &[u16],
    cutoff: Option<Moment>,
) -> Result<Applied, Memory>
    requires { Falls SERIALS (serials_of records.now) }
    ensures { IfOk result (λ set. set ≡ applied (record {
      target = target;
      include = include.now;
      exclude = exclude.now;
      cutoff = option_map (λ m. m.seconds) cutoff;
    }) records.now) }
{
    let count = places(records);
    let Ok(mut marks) = vec![in alloc; None; count] else {
        return Err(Memory);
    };
    let Ok(mut set) = vec![in alloc; false; count] else {
        return Err(Memory);
    };
    pass(
        records, target, include, exclude, cutoff, &mut marks, &mut set,
    );
    Ok(Applied { marks: set })
}

/// The set of a delta's version with the lists of a call and a cutoff. BadList names the first SID
/// that is both taken in and left out, exactly where there is one.
pub fn delta_set(
    alloc: Global,
    header: &Header,
    target: u16,
    include: &Serials,
    exclude: &Serials,
    cutoff: Option<Moment>,
) -> Result<Applied, SetFault>
    requires falls { Falls SERIALS (serials_of header.now.records) }
    requires target { has (live_serials header.now.records) target ≡ true }
    requires include { AllByRecursion (λ n. has (live_serials header.now.records) n ≡ true) include.now }
    requires exclude { AllByRecursion (λ n. has (live_serials header.now.records) n ≡ true) exclude.now }
    ensures set { IfOk result (λ set. set ≡ applied (record {
      target = target;
      include = include.now;
      exclude = exclude.now;
      cutoff = option_map (λ m. m.seconds) cutoff;
    }) header.now.records) }
    ensures no_zero { IsTable header.now.records → IfOk result (λ set. has set 0 ≡ false) }
    ensures apart { OnOk result (both_listed header.now.records include.now exclude.now ≡ None) }
    ensures err { IfErr result (Explains (both_listed header.now.records include.now exclude.now)) }
{
    let records = header.records.items();
    let (include, exclude) = (include.items(), exclude.items());
    if let Some(serial) = first_shared(include, exclude) {
        return Err(SetFault::BadList(sid_at(records, serial)));
    }
    match set_of(alloc, records, target, include, exclude, cutoff) {
        Ok(set) => Ok(set),
        Err(_) => Err(SetFault::Memory),
    }
}
