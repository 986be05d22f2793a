//! The rules that a line of a header may break.
ghost use Rattle.std.specs.Prelude.{◌≡◌};
ghost use Rattle.sccs_history.specs.History.{is_new};
ghost use Rattle.sccs_history.specs.Numbers.{has, share};
ghost use Rattle.sccs_grammar.specs.Front.{all_below, flag_fits, least};

use crate::flag_texts::fits_letter;
use sccs_history::{Flag, Record};

pub fn has(numbers: &[u16], n: u16) -> bool
    ensures { result ≡ has numbers.now n }
{
    numbers.iter().any(|m| *m == n)
}

/// Whether some number of the first list is in the second.
pub fn share(numbers: &[u16], others: &[u16]) -> bool
    ensures { result ≡ share numbers.now others.now }
{
    numbers.iter().any(|m| has(others, *m))
}

pub fn all_below(n: u16, numbers: &[u16]) -> bool
    ensures { result ≡ all_below n numbers.now }
{
    numbers.iter().all(|m| *m < n)
}

/// The serial of the last record, or 65,536 where there is none.
pub fn least(records: &[Record]) -> u32
    ensures { result ≡ least 65536 records.now }
{
    match records.last() {
        Some(record) => u32::from(record.serial),
        None => 65536,
    }
}

/// Whether no flag has the letter yet.
pub fn is_new(flags: &[Flag], flag: &Flag) -> bool
    ensures { result ≡ is_new flags.now flag.now }
{
    !flags.iter().any(|g| g.letter == flag.letter)
}

/// Whether a flag has a lower-case letter and a text that it may have.
pub fn flag_fits(flag: &Flag) -> bool
    ensures { result ≡ flag_fits flag.now }
{
    97 <= flag.letter && flag.letter <= 122 && fits_letter(flag.letter, flag.text.bytes())
}
