ghost use Rattle.std.specs.Prelude.{◌≡◌, ◌<◌, ◌++◌, ◌∷◌, option_map, IfOk, IfSome};
ghost use Rattle.sccs_sid.specs.Moment.{IsMoment, two};
ghost use Rattle.sccs_rcs_file.specs.Trunk.{date_of, moment_in, pieces_of, year_of};
ghost use Rattle.sccs_rcs_file.specs.Pieces.{pieces_seen};

use sccs_base::Memory;
use sccs_sid::Moment;
use sccs_sid::reading::{cut_at, number};
use std::alloc::Global;

// the year of a piece of a date
fn year_of(piece: &[u8]) -> Option<u32>
    ensures { result ≡ year_of piece.now }
{
    match piece.len() {
        2 => Some(1900 + number(2, piece)?),
        4 => number(4, piece),
        _ => None,
    }
}

// three pieces with a separator between two
fn joined(
    alloc: Global,
    separator: u8,
    first: &[u8],
    second: &[u8],
    third: &[u8],
) -> Result<Vec<u8>, Memory>
    ensures { IfOk result (λ bytes. bytes.items ≡ first.now ++ (separator ∷ second.now ++ (separator ∷ third.now))) }
{
    let mut bytes = Vec::new(alloc);
    bytes.extend_from_slice(first)?;
    bytes.push(separator)?;
    bytes.extend_from_slice(second)?;
    bytes.push(separator)?;
    bytes.extend_from_slice(third)?;
    Ok(bytes)
}

// a number below 100 as two digits
fn two(number: u32) -> [u8; 2]
    requires { number < 100 }
    ensures { result ≡ two number }
{
    [b'0' + (number / 10) as u8, b'0' + (number % 10) as u8]
}

/// The pieces of a date behind its year.
#[derive(Clone, Copy)]
struct Pieces<'a> {
    month: &'a [u8],
    day: &'a [u8],
    hour: &'a [u8],
    minute: &'a [u8],
    second: &'a [u8],
}

// the moment of a year and the pieces behind it
fn moment_in(alloc: Global, year: u32, pieces: &Pieces) -> Result<Option<Moment>, Memory>
    ensures value { IfOk result (λ m. m ≡ moment_in year (pieces_seen pieces.now)) }
    ensures valid { IfOk result (λ m. IfSome m IsMoment) }
{
    if !(1969..=2068).contains(&year) {
        return Ok(None);
    }
    let short = two(year % 100);
    let date = joined(alloc, b'/', short.as_slice(), pieces.month, pieces.day)?;
    let time = joined(alloc, b':', pieces.hour, pieces.minute, pieces.second)?;
    Ok(Moment::read(date.as_slice(), time.as_slice()).ok())
}

// the pieces of a date behind its year
fn pieces_of(bytes: &[u8]) -> Option<Pieces>
    ensures { option_map pieces_seen result ≡ pieces_of bytes.now }
{
    let (month, rest) = cut_at(b'.', bytes);
    let (day, rest) = cut_at(b'.', rest?);
    let (hour, rest) = cut_at(b'.', rest?);
    let (minute, rest) = cut_at(b'.', rest?);
    let second = rest?;
    Some(Pieces {
        month,
        day,
        hour,
        minute,
        second,
    })
}

/// The moment of a date: rcsfile(5), "date".
pub fn date_of(alloc: Global, date: &[u8]) -> Result<Option<Moment>, Memory>
    ensures value { IfOk result (λ m. m ≡ date_of date.now) }
    ensures valid { IfOk result (λ m. IfSome m IsMoment) }
{
    let (year, rest) = cut_at(b'.', date);
    let Some(year) = year_of(year) else {
        return Ok(None);
    };
    let Some(rest) = rest else {
        return Ok(None);
    };
    let Some(pieces) = pieces_of(rest) else {
        return Ok(None);
    };
    moment_in(alloc, year, &pieces)
}
