ghost use Rattle.std.specs.Prelude.{IfOk};
ghost use Rattle.sccs_keywords.specs.Expansion.{HasMoments};
ghost use Rattle.sccs_sid.specs.Moment.{IsMoment};

use sccs_base::{Line, Name};
use sccs_keywords::Facts;
use sccs_sid::{Moment, Sid};
use std::alloc::Global;
use std::test::Fail;

/// The SID of a delta of the first release.
pub fn trunk(level: u16) -> Sid {
    Sid {
        release: 1,
        level,
        branch: 0,
        sequence: 0,
    }
}

fn moment(seconds: i64) -> Result<Moment, Fail>
    ensures { IfOk result IsMoment }
{
    match Moment::from_seconds(seconds) {
        Some(moment) => Ok(moment),
        None => Err("a moment".into()),
    }
}

/// What the keywords stand for in the version of that level of the file `s.a`.
pub fn facts(alloc: Global, level: u16) -> Result<Facts, Fail>
    ensures { IfOk result HasMoments }
{
    Ok(Facts {
        module: Line::new(alloc, b"a")?,
        sid: trunk(level),
        moment: moment(0)?,
        newest: moment(90_061)?,
        kind: Line::new(alloc, b"c")?,
        user: Line::new(alloc, b"u")?,
        file: Name::read(b"s.a").ok_or("a name")?,
        place: Line::new(alloc, b"/d")?,
    })
}
