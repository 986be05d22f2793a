ghost use Rattle.std.specs.Prelude.{◌≡◌, ◌||◌, ◌&&◌, MatchResult, None, Some, Ok, Err};
ghost use Rattle.std.specs.Option.{option_copied};
ghost use Rattle.sccs_history.specs.History.{same_sid};
ghost use Rattle.sccs_sid.specs.declared.refusals.Refusal.TheVariants as refusals;
ghost use Rattle.sccs_prs.specs.Chosen.{beside, by_cutoff, chosen_of, comes, by_serial, any_serial, is_chosen};
ghost use Rattle.sccs_prs.specs.Chosen.{live_serial, means_one, chosen_serial, named_serial, newest_live};

use sccs_history::Record;
use sccs_sets::NoSid;
use sccs_sid::{Moment, Sid};
use sccs_words::PrsWords;

/// Which deltas of a table are shown: POSIX prs, -c, -e, -l and -r.
#[derive(Clone, Copy)]
pub enum Chosen {
    All,
    /// That of a serial.
    One(u16),
    /// That of a serial and those of smaller ones.
    UpTo(u16),
    /// That of a serial and those of greater ones.
    From(u16),
    /// Those that were made no later.
    NotLater(Moment),
    /// Those that were made no earlier.
    NotEarlier(Moment),
}

// the serial of the newest delta that lives
fn newest_live(records: &[Record]) -> Option<u16>
    ensures { result ≡ newest_live records.now }
{
    let found = records.iter().find(|record| !record.removed)?;
    Some(found.serial)
}

// the serial of the delta that lives and has the SID
fn live_serial(records: &[Record], sid: Sid) -> Option<u16>
    ensures { result ≡ live_serial records.now sid }
{
    let found = records
        .iter()
        .find(|record| !record.removed && record.sid == sid)?;
    Some(found.serial)
}

// the serial of the newest delta that has the SID
fn any_serial(records: &[Record], sid: Sid) -> Option<u16>
    ensures { result ≡ any_serial records.now sid }
{
    let found = records.iter().find(|record| record.sid == sid)?;
    Some(found.serial)
}

// the serial of the delta that a SID names: the one that lives; with -a, where none lives, the newest
fn named_serial(all: bool, records: &[Record], sid: Sid) -> Option<u16>
    ensures { result ≡ named_serial all records.now sid }
{
    if let Some(serial) = live_serial(records, sid) {
        return Some(serial);
    }
    if all { any_serial(records, sid) } else { None }
}

// the serial of the delta that -r names, or of the newest one that lives
fn meant(words: &PrsWords, records: &[Record]) -> Option<u16>
    ensures { result ≡ chosen_serial words.now records.now }
{
    match words.sid {
        Some(sid) => named_serial(words.all, records, sid),
        None => newest_live(records),
    }
}

// whether one delta is meant: with -r, -e, -l and -d
fn means_one(words: &PrsWords) -> bool
    ensures { result ≡ means_one words.now }
{
    words.chosen || (words.earlier || (words.later || words.spec.is_some()))
}

// with -e the earlier ones too, with -l the later ones
fn beside(words: &PrsWords, serial: u16) -> Chosen
    ensures { result ≡ beside words.now serial }
{
    if words.earlier {
        Chosen::UpTo(serial)
    } else if words.later {
        Chosen::From(serial)
    } else {
        Chosen::One(serial)
    }
}

// with a cutoff and -e those that were made no later, with -l no earlier
fn by_cutoff(words: &PrsWords, moment: Moment) -> Chosen
    ensures { result ≡ by_cutoff words.now moment }
{
    if words.earlier {
        Chosen::NotLater(moment)
    } else {
        Chosen::NotEarlier(moment)
    }
}

// the deltas by the one that is meant
fn by_serial(words: &PrsWords, records: &[Record]) -> Result<Chosen, NoSid>
    ensures { MatchResult result
        (λ chosen. by_serial words.now records.now ≡ Ok chosen) (λ _. by_serial words.now records.now
        ≡ Err refusals.NoSid) }
{
    match meant(words, records) {
        Some(serial) => Ok(beside(words, serial)),
        None => Err(NoSid),
    }
}

/// Which deltas are shown. NoSid comes where -r names no delta, and where the newest delta that lives is meant
/// and none does.
pub fn chosen_of(words: &PrsWords, records: &[Record]) -> Result<Chosen, NoSid>
    ensures { MatchResult result
        (λ chosen. chosen_of words.now records.now ≡ Ok chosen) (λ _. chosen_of words.now records.now
        ≡ Err refusals.NoSid) }
{
    if let Some(moment) = words.cutoff {
        return Ok(by_cutoff(words, moment));
    }
    if means_one(words) {
        by_serial(words, records)
    } else {
        Ok(Chosen::All)
    }
}

// whether a delta is one of those that are shown
fn is_chosen(chosen: Chosen, delta: &Record) -> bool
    ensures { result ≡ is_chosen chosen delta.now }
{
    match chosen {
        Chosen::All => true,
        Chosen::One(serial) => delta.serial == serial,
        Chosen::UpTo(serial) => delta.serial <= serial,
        Chosen::From(serial) => serial <= delta.serial,
        Chosen::NotLater(moment) => delta.moment.seconds <= moment.seconds,
        Chosen::NotEarlier(moment) => moment.seconds <= delta.moment.seconds,
    }
}

/// Whether a delta is shown: a removed one with -a alone.
pub fn comes(all: bool, chosen: Chosen, delta: &Record) -> bool
    ensures { result ≡ comes all chosen delta.now }
{
    (all || !delta.removed) && is_chosen(chosen, delta)
}
