ghost use Rattle.std.specs.Prelude.{◌≡◌, ℕ, ◌+◌, ◌<◌, ◌≤◌, ◌⊎◌, ◌↔◌, List, [], ◌++◌, Option, None, Some, length, take};
ghost use Rattle.std.specs.Prelude.{drop, vec_len, vec_capacity, IsTrue, IsErr, IfOk, OnOk, OnErr, Contains};
ghost use Rattle.sccs_base.specs.Causes.{GivesText};
ghost use Rattle.sccs_base.specs.Stream.{Rose, one_more, TakesOk, TakesNone, GivesOk, GivesSome};

use crate::copies::copy_front;
use crate::streams::{Failed, Memory, Sink, Source, one_more};
use std::alloc::Global;

// whether a call of a sink fails, by plan or for want of room
fn must_fail(failing: &[u64], call: u64, room: usize, wanted: usize) -> bool
    ensures { IsTrue result ↔ (Contains failing.now call ⊎ (room < wanted)) }
{
    failing.contains(&call) || room < wanted
}

/// A source over bytes in memory that never fails.
#[derive(Drop)]
pub struct SteadySource {
    bytes: Vec<u8>,
    at: usize,
    ghost within: { at ≤ length bytes.items },
}

impl SteadySource {
    ghost use Rattle.sccs_base.specs.Planned.{steady_left};

    pub fn new(alloc: Global, bytes: &[u8]) -> Result<SteadySource, Memory>
        ensures { IfOk result (λ s. steady_left s ≡ bytes.now) }
    {
        let bytes = bytes.to_vec(alloc)?;
        Ok(SteadySource { bytes, at: 0 })
    }

    // moves the next bytes to the start of a slice that isn't empty
    fn move_next(&mut self, into: &mut [u8]) -> usize
        requires { 0 < length into.old }
        ensures bound { result ≤ length into.old }
        ensures moved { TakesOk (Some (steady_left self.old)) (Some (steady_left self.new)) into.old into.new result }
    {
        let n = copy_front(&self.bytes[self.at..], into);
        self.at += n;
        n
    }
}

impl Source for SteadySource {
    ghost use Rattle.sccs_base.specs.Planned.{steady_left};

    ghost left = { λ s. Some (steady_left s) };

    ghost faults = { λ _. 0 };

    fn take(&mut self, into: &mut [u8]) -> Result<usize, Failed> {
        Ok(self.move_next(into))
    }
}

/// A source over bytes in memory, which fails exactly at its planned calls, counted from 1.
#[derive(Drop)]
pub struct MemorySource {
    source: SteadySource,
    failing: Vec<u64>,
    calls: u64,
    faults: u64,
}

impl MemorySource {
    ghost use Rattle.sccs_base.specs.Planned.{source_left, source_call, source_failing};

    pub fn new(alloc: Global, bytes: &[u8], failing: &[u64]) -> Result<MemorySource, Memory>
        ensures left { IfOk result (λ s. source_left s ≡ bytes.now) }
        ensures plan { IfOk result (λ s. source_failing s ≡ failing.now) }
        ensures call { IfOk result (λ s. source_call s ≡ 0) }
        ensures faults { IfOk result (λ s. s.faults ≡ 0) }
    {
        let source = SteadySource::new(alloc, bytes)?;
        let failing = failing.to_vec(alloc)?;
        Ok(MemorySource {
            source,
            failing,
            calls: 0,
            faults: 0,
        })
    }
}

impl Source for MemorySource {
    ghost use Rattle.sccs_base.specs.Planned.{source_left, source_call, source_failing};

    ghost left = { λ s. Some (source_left s) };

    ghost faults = { λ s. s.faults };

    fn take(&mut self, into: &mut [u8]) -> Result<usize, Failed>
        requires { 0 < length into.old }
        ensures bound { IfOk result (λ n. n ≤ length into.old) }
        ensures ok { IfOk result
            (TakesOk (Some (source_left self.old)) (Some (source_left self.new)) into.old into.new) }
        ensures err { OnErr result
            (TakesNone (Some (source_left self.old)) (Some (source_left self.new)) into.old into.new) }
        ensures later { self.old.faults ≤ self.new.faults }
        ensures cause { OnErr result (Rose self.old.faults self.new.faults) }
        ensures planned { IsErr result ↔ Contains (source_failing self.old) (source_call self.new) }
        ensures plan { source_failing self.new ≡ source_failing self.old }
        ensures call { source_call self.new ≡ one_more (source_call self.old) }
        ensures counted { OnErr result (self.new.faults ≡ one_more self.old.faults) }
        ensures uncounted { OnOk result (self.new.faults ≡ self.old.faults) }
    {
        self.calls = one_more(self.calls);
        if self.failing.contains(&self.calls) {
            self.faults = one_more(self.faults);
            return Err(Failed);
        }
        Ok(self.source.move_next(into))
    }
}

/// A sink in memory, which fails exactly at its planned calls, counted from 1, and where the
/// bytes would pass its room.
#[derive(Drop)]
pub struct MemorySink {
    bytes: Vec<u8>,
    room: usize,
    failing: Vec<u64>,
    calls: u64,
    faults: u64,
    ghost fits: { vec_len bytes ≤ room },
    ghost within: { room ≤ vec_capacity bytes },
}

impl MemorySink {
    ghost use Rattle.sccs_base.specs.Planned.{sink_given, sink_call, sink_failing, sink_room};

    /// Takes the room at once.
    pub fn new(alloc: Global, room: u64, failing: &[u64]) -> Result<MemorySink, Memory>
        ensures given { IfOk result (λ s. sink_given s ≡ []) }
        ensures room { IfOk result (λ s. sink_room s ≡ room) }
        ensures plan { IfOk result (λ s. sink_failing s ≡ failing.now) }
        ensures call { IfOk result (λ s. sink_call s ≡ 0) }
        ensures faults { IfOk result (λ s. s.faults ≡ 0) }
    {
        let failing = failing.to_vec(alloc)?;
        let bytes = Vec::with_capacity(alloc, room as usize)?;
        Ok(MemorySink {
            bytes,
            room: room as usize,
            failing,
            calls: 0,
            faults: 0,
        })
    }

    /// The bytes given so far.
    pub fn bytes(&self) -> &[u8]
        ensures { result.now ≡ sink_given self.now }
    {
        self.bytes.as_slice()
    }
}

impl Sink for MemorySink {
    ghost use Rattle.sccs_base.specs.Planned.{sink_given, sink_call, sink_failing, sink_room};

    ghost given = { λ s. Some (sink_given s) };

    ghost faults = { λ s. s.faults };

    fn give(&mut self, bytes: &[u8]) -> Result<(), Failed>
        ensures gives { GivesText bytes.now (Some (sink_given self.old)) (Some (sink_given self.new))
            self.old.faults self.new.faults result }
        ensures planned { IsErr result
            ↔ (Contains (sink_failing self.old) (sink_call self.new)
            ⊎ (sink_room self.old < length (sink_given self.old) + length bytes.now)) }
        ensures none { OnErr result (sink_given self.new ≡ sink_given self.old) }
        ensures plan { sink_failing self.new ≡ sink_failing self.old }
        ensures call { sink_call self.new ≡ one_more (sink_call self.old) }
        ensures counted { OnErr result (self.new.faults ≡ one_more self.old.faults) }
        ensures uncounted { OnOk result (self.new.faults ≡ self.old.faults) }
        ensures room { sink_room self.new ≡ sink_room self.old }
    {
        let call = one_more(self.calls);
        self.calls = call;
        let wanted = self.bytes.len().saturating_add(bytes.len());
        if must_fail(&self.failing, call, self.room, wanted) {
            self.faults = one_more(self.faults);
            return Err(Failed);
        }
        match self.bytes.extend_from_slice(bytes) {
            Ok(()) => Ok(()),
            Err(_) => unreachable!(),
        }
    }
}

/// A sink that drops what it is given, tells nothing and never fails.
#[derive(Clone, Copy, Debug, PartialEq, Eq)]
pub struct NullSink;

impl Sink for NullSink {
    ghost given = { λ _. None };

    ghost faults = { λ _. 0 };

    fn give(&mut self, _bytes: &[u8]) -> Result<(), Failed> {
        Ok(())
    }
}
