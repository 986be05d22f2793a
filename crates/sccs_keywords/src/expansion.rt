ghost use Rattle.sccs_base.specs.Causes.{GivesText};
ghost use Rattle.sccs_keywords.specs.Expansion.{expanded, HasMoments};

use crate::facts::Facts;
use crate::keywords::find_keyword;
use crate::values::give_keyword;
use sccs_base::{Failed, Sink};

/// Gives a line with its keywords replaced: POSIX get, "Identification Keywords". `number` is that of
/// the line in its text, from 1. What stands between two keywords is given at once.
pub fn expand<S: Sink>(line: &[u8], number: u64, facts: &Facts, out: &mut S) -> Result<(), Failed>
    requires { HasMoments facts.now }
    ensures { GivesText (expanded facts.now number line.now) (S.given out.old) (S.given out.new) (S.faults out.old)
        (S.faults out.new) result }
{
    let mut from = 0;
    'keywords: while let Some((place, keyword)) = find_keyword(&line[from..]) {
        let Ok(()) = out.give(&line[from..from + place]) else {
            return Err(Failed);
        };
        let Ok(()) = give_keyword(keyword, number, facts, out) else {
            return Err(Failed);
        };
        from += place + 3;
    }
    out.give(&line[from..])
}
