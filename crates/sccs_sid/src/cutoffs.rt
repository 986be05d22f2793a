ghost use Rattle.std.specs.Prelude.{◌≡◌, ◌<◌, ◌≤◌, IfOk, IfSome, pos};
ghost use Rattle.jiff_core.specs.Calendar.{days_in_month};
ghost use Rattle.sccs_sid.specs.Cutoff.{piece_at, year_by, unit_by, cutoff_of};
ghost use Rattle.sccs_sid.specs.Moment.{IsMoment};
ghost use Rattle.sccs_sid.specs.Reading.{GivesRead};

use crate::dates::{full_year, last_day, second_of, within};
use crate::moments::{Moment, MomentFault};
use crate::reading::{from_digit, number_at};

/// A moment at which a get cuts off, as it is spelled in a command.
pub struct Cutoff;

// the next one or two digits, and the bytes after them
fn piece_at(bytes: &[u8]) -> Result<(u32, &[u8]), usize>
    ensures value { GivesRead (λ x. (x.0, x.1.now)) result (piece_at bytes.now) }
    ensures small { IfOk result (λ x. x.0 < 100) }
{
    number_at(2, from_digit(bytes))
}

// the year, and the bytes after it
fn year_at(bytes: &[u8]) -> Result<(u32, &[u8]), MomentFault>
    ensures value { GivesRead (λ x. (x.0, x.1.now)) result (year_by (piece_at bytes.now)) }
    ensures small { IfOk result (λ x. x.0 < 100) }
{
    let Ok((number, rest)) = piece_at(bytes) else {
        return Err(MomentFault { place: 1 });
    };
    Ok((within(1, 0, 99, Some(number))?, rest))
}

// another unit, and the bytes after it: where no piece is left it has its greatest value
fn unit_at(place: u64, low: u32, high: u32, bytes: &[u8]) -> Result<(u32, &[u8]), MomentFault>
    requires { low ≤ high }
    ensures value { GivesRead (λ x. (x.0, x.1.now)) result (unit_by place low high (piece_at bytes.now)) }
    ensures low { IfOk result (λ x. low ≤ x.0) }
    ensures high { IfOk result (λ x. x.0 ≤ high) }
{
    let Ok((number, rest)) = piece_at(bytes) else {
        return Ok((high, &bytes[bytes.len()..]));
    };
    Ok((within(place, low, high, Some(number))?, rest))
}

impl Cutoff {
    /// The moment of `YY[MM[DD[HH[MM[SS]]]]]`: bytes that aren't digits are passed over, and a
    /// piece is the next one or two digits. An omitted unit has its greatest value, the day by
    /// its month. A fault has the place, from 1, of the first piece that names no date or time
    /// with the pieces before it; 1 where no digit is there, 7 where a seventh piece is.
    #[tactic(auto, unfolding(crate::specs::Cutoff::cutoff_of))]
    pub fn read(bytes: &[u8]) -> Result<Moment, MomentFault>
        ensures value { result ≡ cutoff_of bytes.now }
        ensures valid { IfOk result IsMoment }
    {
        let (year, rest) = year_at(bytes)?;
        let year = full_year(year);
        let (month, rest) = unit_at(2, 1, 12, rest)?;
        let last = last_day(year, month);
        let (day, rest) = unit_at(3, 1, last, rest)?;
        let (hour, rest) = unit_at(4, 0, 23, rest)?;
        let (minute, rest) = unit_at(5, 0, 59, rest)?;
        let (second, rest) = unit_at(6, 0, 59, rest)?;
        match piece_at(rest) {
            Ok(_) => Err(MomentFault { place: 7 }),
            Err(_) => Ok(Moment {
                seconds: second_of(year, month, day, hour, minute, second),
            }),
        }
    }
}
