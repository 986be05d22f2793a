ghost use Rattle.std.specs.Prelude.{◌≡◌, ◌≤◌, ◌<◌, ◌↔◌, List, ◌++◌, ◌∷◌, IfOk, IfSome, IsSome, OnOk, OnErr, ◌*ℤ◌, pos};
ghost use Rattle.sccs_base.specs.Causes.{GivesText};
ghost use Rattle.sccs_sid.specs.declared.moments.Moment.{Moment};
ghost use Rattle.sccs_sid.specs.Moment.{civil_of, IsMomentSecond, IsMoment, Exists, second_at, moment_of, moment_text};
ghost use Rattle.sccs_sid.specs.Moment.{date_text, time_text};

use crate::dates::{ones, read_date, read_time, second_of, shown_at, tens};
use sccs_base::{Failed, Login, Sink};

/// A second of 1969-01-01 to 2068-12-31, UTC, counted from the start of 1970.
#[derive(Clone, Copy, Debug, PartialEq, Eq)]
pub struct Moment {
    pub seconds: i64,
}

/// The number of the first piece at fault, from 1.
#[derive(Clone, Copy, Debug, PartialEq, Eq)]
pub struct MomentFault {
    pub place: u64,
}

/// Who does something, and when.
#[derive(Clone, Copy)]
pub struct Stamp {
    pub moment: Moment,
    pub login: Login,
}

impl Moment {
    /// The moment of that second; None exactly outside the hundred years.
    pub fn from_seconds(seconds: i64) -> Option<Moment>
        ensures value { IfSome result (λ moment. moment.seconds ≡ seconds) }
        ensures valid { IfSome result IsMoment }
        ensures exact { IsSome result ↔ IsMomentSecond seconds }
    {
        if (-31_536_000..=3_124_223_999).contains(&seconds) {
            Some(Moment { seconds })
        } else {
            None
        }
    }

    /// The moment of a date `yy/mm/dd` and a time `hh:mm:ss`, each piece one or two digits. The
    /// years 69 to 99 are 1969 to 1999, 00 to 68 are 2000 to 2068. A fault has the place, from 1
    /// to 6, of the first piece that isn't so, that names no date or time with the pieces before
    /// it, or that isn't there.
    #[tactic(auto, unfolding(crate::specs::Moment::moment_of))]
    pub fn read(date: &[u8], time: &[u8]) -> Result<Moment, MomentFault>
        ensures value { result ≡ moment_of date.now time.now }
        ensures valid { IfOk result IsMoment }
    {
        let (year, month, day) = read_date(date)?;
        let (hour, minute, second) = read_time(time)?;
        Ok(Moment {
            seconds: second_of(year, month, day, hour, minute, second),
        })
    }

    /// The written spelling `yy/mm/dd hh:mm:ss`, each with two digits.
    pub fn text(&self) -> [u8; 17]
        requires { IsMoment self.now }
        ensures { result ≡ moment_text self.now }
    {
        let shown = shown_at(self);
        let year = (shown.year().unsigned_abs() % 100) as u8;
        let month = shown.month().unsigned_abs();
        let day = shown.day().unsigned_abs();
        let hour = shown.hour().unsigned_abs();
        let minute = shown.minute().unsigned_abs();
        let second = shown.second().unsigned_abs();
        [
            tens(year),
            ones(year),
            b'/',
            tens(month),
            ones(month),
            b'/',
            tens(day),
            ones(day),
            b' ',
            tens(hour),
            ones(hour),
            b':',
            tens(minute),
            ones(minute),
            b':',
            tens(second),
            ones(second),
        ]
    }

    /// Writes `yy/mm/dd hh:mm:ss`, each with two digits.
    pub fn write<S: Sink>(&self, out: &mut S) -> Result<(), Failed>
        requires { IsMoment self.now }
        ensures { GivesText (moment_text self.now)
            (S.given out.old) (S.given out.new) (S.faults out.old) (S.faults out.new) result }
    {
        out.give(&self.text())
    }
}

/// A written moment is read back as the same.
pub fn moment_again()
    ensures { (moment : Moment) → IsMoment moment
        → moment_of (date_text moment) (time_text moment) ≡ Ok moment }
{}

/// The date and time of a moment exist, and their second is the moment's.
pub fn civil_exists()
    ensures { (moment : Moment) → IsMoment moment
        → Exists (civil_of moment) × (second_at (civil_of moment) ≡ moment.seconds) }
{}
