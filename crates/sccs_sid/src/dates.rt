ghost use Rattle.std.specs.Prelude.{◌≡◌, ◌+◌, ◌/◌, ◌%◌, ◌≤◌, ◌<◌, Ok, IfOk, pos};
ghost use Rattle.sccs_sid.specs.Moment.{Exists, IsMoment, IsMomentSecond, date_of, time_of, within, second_at};
ghost use Rattle.sccs_sid.specs.Moment.{civil_of, civil_date, civil_time, full_year};
ghost use Rattle.jiff_core.specs.Calendar.{days_in_month};

use crate::moments::{Moment, MomentFault};
use crate::reading::{cut_at, number};
use jiff::Timestamp;
use jiff::civil::{DateTime, date, datetime};
use jiff::tz::Offset;

// a number from low to high, else a fault at the place
pub fn within(place: u64, low: u32, high: u32, found: Option<u32>) -> Result<u32, MomentFault>
    ensures value { result ≡ within place low high found }
    ensures low { IfOk result (λ n. low ≤ n) }
    ensures high { IfOk result (λ n. n ≤ high) }
{
    match found {
        Some(number) if low <= number && number <= high => Ok(number),
        _ => Err(MomentFault { place }),
    }
}

// the year that two digits name
pub fn full_year(year: u32) -> u32
    requires { year < 100 }
    ensures value { result ≡ full_year year }
    ensures low { 1969 ≤ result }
    ensures high { result ≤ 2068 }
{
    if year < 69 { 2000 + year } else { 1900 + year }
}

// the last day of a month
pub fn last_day(year: u32, month: u32) -> u32
    requires year_low { 1969 ≤ year }
    requires year_high { year ≤ 2068 }
    requires month_low { 1 ≤ month }
    requires month_high { month ≤ 12 }
    ensures { result ≡ days_in_month (pos year) month }
{
    let first = date(year as i16, month as i8, 1);
    u32::from(first.days_in_month().unsigned_abs())
}

// year, month and day of yy/mm/dd
#[tactic(auto, unfolding(crate::specs::Moment::date_of))]
pub fn read_date(date: &[u8]) -> Result<(u32, u32, u32), MomentFault>
    ensures value { result ≡ date_of date.now }
    ensures year { IfOk result (λ d. (1969 ≤ d.0) × (d.0 ≤ 2068)) }
    ensures month { IfOk result (λ d. (1 ≤ d.1) × (d.1 ≤ 12)) }
    ensures day { IfOk result (λ d. (1 ≤ d.2) × (d.2 ≤ days_in_month (pos d.0) d.1)) }
{
    let (piece, rest) = cut_at(b'/', date);
    let year = within(1, 0, 99, number(2, piece))?;
    let year = full_year(year);
    let Some(rest) = rest else {
        return Err(MomentFault { place: 2 });
    };
    let (piece, rest) = cut_at(b'/', rest);
    let month = within(2, 1, 12, number(2, piece))?;
    let Some(piece) = rest else {
        return Err(MomentFault { place: 3 });
    };
    let last = last_day(year, month);
    let day = within(3, 1, last, number(2, piece))?;
    Ok((year, month, day))
}

// hour, minute and second of hh:mm:ss
#[tactic(auto, unfolding(crate::specs::Moment::time_of))]
pub fn read_time(time: &[u8]) -> Result<(u32, u32, u32), MomentFault>
    ensures value { result ≡ time_of time.now }
    ensures hour { IfOk result (λ t. t.0 < 24) }
    ensures minute { IfOk result (λ t. t.1 < 60) }
    ensures second { IfOk result (λ t. t.2 < 60) }
{
    let (piece, rest) = cut_at(b':', time);
    let hour = within(4, 0, 23, number(2, piece))?;
    let Some(rest) = rest else {
        return Err(MomentFault { place: 5 });
    };
    let (piece, rest) = cut_at(b':', rest);
    let minute = within(5, 0, 59, number(2, piece))?;
    let Some(piece) = rest else {
        return Err(MomentFault { place: 6 });
    };
    let second = within(6, 0, 59, number(2, piece))?;
    Ok((hour, minute, second))
}

// the second of a date and a time, counted from the start of 1970
pub fn second_of(year: u32, month: u32, day: u32, hour: u32, minute: u32, second: u32) -> i64
    requires { Exists (record {
      year = year;
      month = month;
      day = day;
      hour = hour;
      minute = minute;
      second = second;
    }) }
    ensures value { result ≡ second_at (record {
      year = year;
      month = month;
      day = day;
      hour = hour;
      minute = minute;
      second = second;
    }) }
    ensures valid { IsMomentSecond result }
{
    let shown = datetime(
        year as i16,
        month as i8,
        day as i8,
        hour as i8,
        minute as i8,
        second as i8,
        0,
    );
    match Offset::UTC.to_timestamp(shown) {
        Ok(timestamp) => timestamp.as_second(),
        Err(_) => unreachable!(),
    }
}

// the date and time of a moment
pub fn shown_at(moment: &Moment) -> DateTime
    requires { IsMoment moment.now }
    ensures year { result.date.year ≡ pos (civil_of moment.now).year }
    ensures month { result.date.month ≡ (civil_of moment.now).month }
    ensures day { result.date.day ≡ (civil_of moment.now).day }
    ensures hour { result.time.hour ≡ (civil_of moment.now).hour }
    ensures minute { result.time.minute ≡ (civil_of moment.now).minute }
    ensures second { result.time.second ≡ (civil_of moment.now).second }
{
    Offset::UTC.to_datetime(Timestamp::constant(moment.seconds, 0))
}

// the first of two digits
pub fn tens(number: u8) -> u8
    requires { number < 100 }
    ensures { result ≡ 48 + number / 10 }
{
    b'0' + number / 10
}

// the second
pub fn ones(number: u8) -> u8
    ensures { result ≡ 48 + number % 10 }
{
    b'0' + number % 10
}
