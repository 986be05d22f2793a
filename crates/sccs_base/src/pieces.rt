ghost use Rattle.std.specs.Prelude.{◌≡◌, ◌+◌, ◌<◌, ◌≤◌, length, flat_map, IfOk, OnOk, OnErr, IsErrOf, IfSome};
ghost use Rattle.sccs_base.specs.Causes.{Caused, GivesText};
ghost use Rattle.sccs_base.specs.Stream.{Rose, TakesAll, TakesUpTo, GivesOk, GivesSome};

use crate::lists::{Bytes, ListOf};
use crate::streams::{Failed, Sink, Source, TakeFault};
use std::alloc::Global;

// how many bytes a source is asked for at once
const PIECE: usize = 4096;

// how many bytes a source is asked for: one more than there is room for, up to a piece
fn asked(room: u64) -> usize
    ensures some { 0 < result }
    ensures piece { result ≤ 4096 }
    ensures room { result ≤ room + 1 }
{
    if room < PIECE as u64 {
        room as usize + 1
    } else {
        PIECE
    }
}

/// All that a source has left; TooLong exactly where that is more than `limit` bytes. Each turn
/// gets at least one byte, and no more than `limit` plus one bytes are taken.
pub fn take_all<S: Source>(alloc: Global, source: &mut S, limit: u64) -> Result<Bytes, TakeFault>
    ensures bound { IfOk result (λ b. length b ≤ limit) }
    ensures ok { IfOk result (TakesAll (S.left source.old) (S.left source.new)) }
    ensures err { OnErr result (TakesUpTo (limit + 1) (S.left source.old) (S.left source.new)) }
    ensures too_long { IsErrOf result TakeFault.TooLong
        → IfSome (S.left source.old) (λ left. limit < length left) }
    ensures causes { Caused TakeFault.Failed (S.faults source.old) (S.faults source.new) result }
{
    let mut all = Vec::new(alloc);
    let mut room = limit;
    let mut piece = [0; PIECE];
    loop {
        let Ok(n) = source.take(&mut piece[..asked(room)]) else {
            return Err(TakeFault::Failed);
        };
        if n == 0 {
            return Ok(ListOf::from_vec(all));
        }
        if n as u64 > room {
            return Err(TakeFault::TooLong);
        }
        let Ok(()) = all.extend_from_slice(&piece[..n]) else {
            return Err(TakeFault::Memory);
        };
        room -= n as u64;
    }
}

/// Gives the parts in their order, as one text. Where it fails a prefix of that text was given.
pub fn give_parts<S: Sink>(sink: &mut S, parts: &[&[u8]]) -> Result<(), Failed>
    ensures { GivesText (flat_map (λ p. p.now) parts.now) (S.given sink.old) (S.given sink.new) (S.faults sink.old)
        (S.faults sink.new) result }
{
    for part in parts {
        let Ok(()) = sink.give(part) else {
            return Err(Failed);
        };
    }
    Ok(())
}
