ghost use Rattle.std.specs.Prelude.{◌≡◌, IfOk, IfSome};
ghost use Rattle.std.specs.List.{AllByRecursion};
ghost use Rattle.std.specs.Option.{option_copied};
ghost use Rattle.sccs_base.specs.Name.{IsSFileName};
ghost use Rattle.sccs_history.specs.History.{HasSpelling, IsSpelled};
ghost use Rattle.sccs_sid.specs.Moment.{IsMoment};
ghost use Rattle.sccs_keywords.specs.Expansion.{HasMoments};
ghost use Rattle.sccs_sets.specs.Sets.{record_at};
ghost use Rattle.sccs_keywords.specs.VersionFacts.{facts_of, newest_applied, newest_moment};

use crate::facts::Facts;
use crate::flag_texts::{kind, module_name, user};
use sccs_base::{Line, MakeFault, Memory, Name};
use sccs_history::{Header, Record};
use sccs_sets::Applied;
use sccs_sid::{Moment, Sid, Stamp};
use std::alloc::Global;

// the newest delta of a set
fn newest_applied<'a>(records: &'a [Record], set: &Applied) -> Option<&'a Record>
    requires { AllByRecursion HasSpelling records.now }
    ensures value { option_copied result ≡ newest_applied records.now set.now }
    ensures valid { IfSome result (λ r. IsMoment r.now.moment) }
{
    records.iter().find(|record| set.has(record.serial))
}

// the delta of a serial
fn target_of(records: &[Record], target: u16) -> Option<&Record>
    requires { AllByRecursion HasSpelling records.now }
    ensures value { option_copied result ≡ record_at records.now target }
    ensures valid { IfSome result (λ r. IsMoment r.now.moment) }
{
    records.iter().find(|record| record.serial == target)
}

// when the newest delta of a set was made; where none is applied, when the one that is got was
fn newest_moment(records: &[Record], set: &Applied, target: u16, otherwise: Moment) -> Moment
    requires spelled { AllByRecursion HasSpelling records.now }
    requires moment { IsMoment otherwise }
    ensures value { result ≡ newest_moment records.now set.now target otherwise }
    ensures valid { IsMoment result }
{
    if let Some(newest) = newest_applied(records, set) {
        return newest.moment;
    }
    match target_of(records, target) {
        Some(record) => record.moment,
        None => otherwise,
    }
}

// a line of these bytes, which hold no LF
fn line_of(alloc: Global, bytes: &[u8]) -> Result<Line, Memory>
    ensures { IfOk result (λ line. line ≡ bytes.now) }
{
    match Line::new(alloc, bytes) {
        Ok(line) => Ok(line),
        Err(_) => Err(Memory),
    }
}

/// What keywords stand for where the version of a delta is got: `set` are the deltas that it is made of,
/// `target` its serial and `sid` its SID, `name` that of the s-file, and `place` the path of its folder.
pub fn facts_of(
    alloc: Global,
    header: &Header,
    set: &Applied,
    target: u16,
    sid: Sid,
    name: &Name,
    place: &Line,
    stamp: &Stamp,
) -> Result<Facts, Memory>
    requires sfile { IsSFileName name.now }
    requires spelled { IsSpelled header.now }
    requires moment { IsMoment stamp.now.moment }
    ensures value { IfOk result (λ f. f ≡ facts_of header.now set.now target sid name.now place.now stamp.now) }
    ensures valid { IfOk result HasMoments }
{
    let flags = header.flags.items();
    let newest = newest_moment(header.records.items(), set, target, stamp.moment);
    let module = line_of(alloc, module_name(flags, name))?;
    let kind = line_of(alloc, kind(flags))?;
    let user = line_of(alloc, user(flags))?;
    let place = line_of(alloc, place.bytes())?;
    Ok(Facts {
        module,
        sid,
        moment: stamp.moment,
        newest,
        kind,
        user,
        file: *name,
        place,
    })
}
