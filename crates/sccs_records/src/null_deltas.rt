ghost use Rattle.std.specs.Prelude.{◌≡◌, ◌+◌, ◌<◌, ◌≤◌, [], ◌∷◌, IfOk, length, map};
ghost use Rattle.std.specs.List.{AllByRecursion};
ghost use Rattle.sccs_base.specs.Login.{IsLogin};
ghost use Rattle.sccs_sid.specs.Moment.{IsMoment};
ghost use Rattle.sccs_sid.specs.Sid.{IsSid};
ghost use Rattle.sccs_history.specs.Applied.{newest};
ghost use Rattle.sccs_history.specs.History.{AreLines, IsSpelled};
ghost use Rattle.sccs_records.specs.NewDeltas.{HasSpellings, last_of, null_delta, with_deltas};

use crate::growing_headers::GrowingHeader;
use crate::new_deltas::{Counts, NewDelta};
use sccs_base::{Line, Memory, Text};
use sccs_history::{Header, Serials};
use sccs_sid::{Sid, Stamp};
use std::alloc::Global;

/// A header, and the serial of the delta on which the next one is made.
#[derive(Drop)]
pub struct BasedHeader {
    pub header: Header,
    pub on: u16,
}

// a text of one line
fn one_line(alloc: Global, bytes: &[u8]) -> Result<Text, Memory>
    ensures value { IfOk result (λ text. text ≡ bytes.now ∷ []) }
    ensures lines { IfOk result AreLines }
{
    let Ok(line) = Line::new(alloc, bytes) else {
        return Err(Memory);
    };
    let mut text = Text::empty(alloc);
    let _bytes = line.bytes();
    text.push(line)?;
    Ok(text)
}

// a delta of a release that was passed over
fn null_delta(alloc: Global, stamp: &Stamp, sid: Sid) -> Result<NewDelta, Memory>
    ensures value { IfOk result (λ d. d ≡ null_delta stamp.now sid) }
    ensures spelled { IsMoment stamp.now.moment → IsSid sid → IfOk result HasSpellings }
{
    let comments = one_line(alloc, b"AUTO NULL DELTA")?;
    let stamp = *stamp;
    let _login = stamp.login.bytes();
    Ok(NewDelta {
        sid,
        stamp,
        include: Serials::empty(alloc),
        exclude: Serials::empty(alloc),
        mrs: Text::empty(alloc),
        comments,
        counts: Counts {
            inserted: 0,
            deleted: 0,
            unchanged: 0,
        },
    })
}

/// Puts null deltas of these SIDs in front of the table, one after the other: the first is made on the
/// delta of a serial, each other on the one before. They have no lists, no MRs and no lines.
pub fn add_null_deltas(
    alloc: Global,
    based: BasedHeader,
    stamp: &Stamp,
    sids: &[Sid],
) -> Result<BasedHeader, Memory>
    requires room { newest based.header.records + length sids.now ≤ 65535 }
    ensures value { IfOk result (λ b. b.header ≡ with_deltas based.header based.on
        (map (null_delta stamp.now) sids.now)) }
    ensures last { IfOk result (λ b. b.on ≡ last_of based.on (newest based.header.records)
        (map (null_delta stamp.now) sids.now)) }
    ensures newest { IfOk result (λ b. newest b.header.records ≡ newest based.header.records + length sids.now) }
    ensures spelled { IsSpelled based.header → IsMoment stamp.now.moment → AllByRecursion IsSid sids.now
        → IfOk result (λ b. IsSpelled b.header) }
{
    let BasedHeader { header, on } = based;
    let mut header = GrowingHeader::new(header);
    let mut on = on;
    for sid in sids {
        let next = header.newest() + 1;
        let delta = null_delta(alloc, stamp, *sid)?;
        header.put(alloc, on, delta)?;
        on = next;
    }
    Ok(BasedHeader {
        header: header.into_header(),
        on,
    })
}
