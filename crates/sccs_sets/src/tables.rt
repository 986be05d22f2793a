ghost use Rattle.std.specs.Prelude.{◌≡◌, true, Some};
ghost use Rattle.std.specs.Option.{option_copied};
ghost use Rattle.sccs_history.specs.Applied.{serials_of};
ghost use Rattle.sccs_history.specs.Numbers.{has};
ghost use Rattle.sccs_sets.specs.Sets.{first_shared, record_at, sid_at};

use sccs_history::Record;
use sccs_sid::Sid;

/// Whether a number is in a list.
pub fn has(numbers: &[u16], number: u16) -> bool
    ensures { result ≡ has numbers.now number }
{
    numbers.contains(&number)
}

/// The first number of one list that is in the other.
pub fn first_shared(include: &[u16], exclude: &[u16]) -> Option<u16>
    ensures { result ≡ first_shared include.now exclude.now }
{
    include.iter().copied().find(|number| has(exclude, *number))
}

/// The record of a serial.
pub fn record_at(records: &[Record], serial: u16) -> Option<&Record>
    ensures { option_copied result ≡ record_at records.now serial }
{
    records.iter().find(|record| record.serial == serial)
}

/// The SID of a serial of the table.
pub fn sid_at(records: &[Record], serial: u16) -> Sid
    requires { has (serials_of records.now) serial ≡ true }
    ensures { sid_at records.now serial ≡ Some result }
{
    match record_at(records, serial) {
        Some(record) => record.sid,
        None => unreachable!(),
    }
}
