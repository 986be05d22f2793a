ghost use Rattle.std.specs.Prelude.{◌≡◌, ℕ, ◌+◌, ◌<◌, ◌≤◌, ◌⊎◌, ◌↔◌, Bool, true, false, min, List, [], ◌++◌, ◌∷◌};
ghost use Rattle.std.specs.Prelude.{Option, None, Some, Ok, length, take, drop, option_map, is_some, vec_capacity};
ghost use Rattle.std.specs.Prelude.{IsTrue, IsOk, IsErr, IsErrOf, IfOk, IfSome, OnOk, OnErr, Contains, All};
ghost use Rattle.sccs_base.specs.Stream.{Rose, one_more};
ghost use Rattle.sccs_disk.specs.DirectoryStates.{state_of};
ghost use Rattle.sccs_disk.specs.Files.{Content, View, File, IsSane, put};
ghost use Rattle.sccs_disk.specs.MemoryFiles.{model_of, model_after, noted, IsFirmFile};
ghost use Rattle.sccs_disk.specs.Effects.{firm, appending, overwriting};
ghost use Rattle.sccs_disk.specs.Calls.{Done};
ghost use Rattle.sccs_disk.specs.States.{state, stored, change_effect};
ghost use Rattle.sccs_disk.specs.Told.{Told};

use crate::changes::{Change, FileChange, StoredFile};
use crate::directories::Directory;
use crate::disks::{Creation, Disk, DiskRefusal};
use crate::fills::Fill;
use crate::replays::{count_kept, replay};
use sccs_base::{Failed, Memory, Name, Names, one_more};
use std::alloc::Global;

/// A disk in memory. It fails exactly at its planned calls, counted from 1, past its room for
/// calls, and past a stop; then nothing changes. It keeps each change, and so tells its story.
#[derive(Drop)]
pub struct MemoryDisk {
    start: Directory,
    directory: Directory,
    log: Vec<Option<Change>>,
    failing: Vec<u64>,
    room: u64,
    stop: u64,
    calls: u64,
    faults: u64,
    alloc: Global,
    ghost current: { state_of directory ≡ state (model_after (model_of (state_of start)) log.items) },
    ghost sane: { IsSane (model_after (model_of (state_of start)) log.items) },
    ghost firm: { All IsFirmFile (state_of start).files },
    ghost recorded: { length log.items ≡ min calls room },
    ghost fits: { room ≤ vec_capacity log },
}

// whether a call is among the planned ones, past the room or past the stop
fn must_fail(failing: &[u64], call: u64, room: u64, stop: u64) -> bool
    ensures { IsTrue result ↔ (Contains failing.now call ⊎ ((room < call) ⊎ (stop < call))) }
{
    failing.contains(&call) || room < call || stop < call
}

// the answer of a call that fails or goes on; a failure is counted
fn answer_of(fails: bool, faults: &mut u64) -> Result<(), Failed>
    ensures fails { IsErr result ↔ (fails ≡ true) }
    ensures later { faults.old ≤ faults.new }
    ensures cause { OnErr result (Rose faults.old faults.new) }
{
    if fails {
        *faults = one_more(*faults);
        return Err(Failed);
    }
    Ok(())
}

// one call more in the record, within the room
fn note_call(log: &mut Vec<Option<Change>>, call: u64, room: u64)
    requires recorded { (calls : ℕ) × (call ≡ one_more calls) × (length log.old.items ≡ min calls room) }
    requires fits { room ≤ vec_capacity log.old }
    ensures items { log.new.items ≡ noted call room log.old.items }
    ensures recorded { length log.new.items ≡ min call room }
    ensures fits { room ≤ vec_capacity log.new }
{
    if call <= room {
        match log.push(None) {
            Ok(()) => (),
            Err(_) => unreachable!(),
        }
    }
}

// the change that adds bytes at the end of a file
fn append_of(alloc: Global, name: &Name, bytes: &[u8]) -> Result<Change, Memory>
    ensures { IfOk result (λ c. (old new : Told) → Done (change_effect c) old new
        → Done (appending name.now bytes.now) old new) }
{
    let bytes = bytes.to_vec(alloc)?;
    Ok(Change::File(*name, FileChange::Append(bytes)))
}

// the change that writes bytes over as many
fn write_of(alloc: Global, name: &Name, from: u64, bytes: &[u8]) -> Result<Change, Memory>
    ensures { IfOk result (λ c. (old new : Told) → Done (change_effect c) old new
        → Done (overwriting name.now from bytes.now) old new) }
{
    let bytes = bytes.to_vec(alloc)?;
    Ok(Change::File(*name, FileChange::WriteAt(from, bytes)))
}

impl MemoryDisk {
    ghost use Rattle.sccs_disk.specs.Calls.{Changes, HasBytes};
    ghost use Rattle.sccs_disk.specs.Images.{Image};
    ghost use Rattle.sccs_disk.specs.MemoryDisks.{GoesByPlan, KeepsPlan, disk_told, disk_model, disk_view, disk_after};
    ghost use Rattle.sccs_disk.specs.MemoryDisks.{disk_call, disk_room, disk_stop, disk_failing};
    ghost use Rattle.sccs_disk.specs.MemoryFiles.{left_by_stop, with_placed, IsSettled};
    ghost use Rattle.sccs_disk.specs.States.{shown, empty_state, takes_memory};
    ghost use Rattle.sccs_disk.specs.Told.{Tells};

    /// A disk without files, with room for so many calls, which it takes at once.
    pub fn new(alloc: Global, room: u64, failing: &[u64]) -> Result<MemoryDisk, Memory>
        ensures told { IfOk result (λ d. disk_told d ≡ Tells (model_of empty_state) []) }
        ensures room { IfOk result (λ d. disk_room d ≡ room) }
        ensures plan { IfOk result (λ d. disk_failing d ≡ failing.now) }
        ensures stop { IfOk result (λ d. disk_stop d ≡ 18446744073709551615) }
        ensures call { IfOk result (λ d. disk_call d ≡ 0) }
        ensures faults { IfOk result (λ d. d.faults ≡ 0) }
    {
        let failing = failing.to_vec(alloc)?;
        let log = Vec::with_capacity(alloc, room as usize)?;
        Ok(MemoryDisk {
            start: Directory::new(alloc),
            directory: Directory::new(alloc),
            log,
            failing,
            room,
            stop: u64::MAX,
            calls: 0,
            faults: 0,
            alloc,
        })
    }

    // counts a call, and says whether it goes on
    fn begin(&mut self) -> Result<(), Failed>
        ensures plan { GoesByPlan (IsErr result) self.old self.new }
        ensures same { disk_told self.new ≡ disk_told self.old }
        ensures begun { OnOk result (self.new.log.items ≡ self.old.log.items ++ None ∷ []) }
        ensures start { state_of self.new.start ≡ state_of self.old.start }
        ensures view { shown (state_of self.new.directory) ≡ disk_view self.old }
        ensures later { self.old.faults ≤ self.new.faults }
        ensures cause { OnErr result (Rose self.old.faults self.new.faults) }
    {
        let call = one_more(self.calls);
        note_call(&mut self.log, call, self.room);
        self.calls = call;
        let fails = must_fail(&self.failing, call, self.room, self.stop);
        answer_of(fails, &mut self.faults)
    }

    // makes a change, for a call that was counted
    fn make(&mut self, change: Change) -> Result<(), Memory>
        requires { (log : List (Option Change)) × (self.old.log.items ≡ log ++ None ∷ []) }
        ensures done { OnOk result (Done (change_effect change) (disk_told self.old) (disk_told self.new)) }
        ensures err { OnErr result (disk_told self.new ≡ disk_told self.old) }
        ensures sure { takes_memory change ≡ false → IsOk result }
        ensures before { (calls : ℕ) → calls < length self.old.log.items → disk_after self.new calls
            ≡ disk_after self.old calls }
        ensures plan { KeepsPlan self.old self.new }
        ensures faults { self.new.faults ≡ self.old.faults }
    {
        self.directory.make(&change)?;
        let last = self.log.len() - 1;
        self.log[last] = Some(change);
        Ok(())
    }

    // a call that changes files, unless there is no memory for it
    fn call(&mut self, change: Result<Change, Memory>) -> Result<(), DiskRefusal>
        ensures plan { GoesByPlan (IsErrOf result DiskRefusal.Failed) self.old self.new }
        ensures done { OnOk result (IfOk change (λ c. Done (change_effect c) (disk_told self.old)
            (disk_told self.new))) }
        ensures err { OnErr result (disk_told self.new ≡ disk_told self.old) }
        ensures made { OnOk result (IsOk change) }
        ensures sure { IfOk change (λ c. takes_memory c ≡ false → IsErrOf result DiskRefusal.Memory → ⊥) }
        ensures later { self.old.faults ≤ self.new.faults }
        ensures cause { IsErrOf result DiskRefusal.Failed → Rose self.old.faults self.new.faults }
    {
        if self.begin().is_err() {
            return Err(DiskRefusal::Failed);
        }
        let Ok(change) = change else {
            return Err(DiskRefusal::Memory);
        };
        if self.make(change).is_err() {
            return Err(DiskRefusal::Memory);
        }
        Ok(())
    }

    // a call that changes files and takes no memory
    fn call_surely(&mut self, change: Change) -> Result<(), Failed>
        requires { takes_memory change ≡ false }
        ensures plan { GoesByPlan (IsErr result) self.old self.new }
        ensures changes { Changes (change_effect change) (disk_told self.old) (disk_told self.new) self.old.faults
            self.new.faults result }
    {
        match self.call(Ok(change)) {
            Ok(()) => Ok(()),
            Err(DiskRefusal::Failed) => Err(Failed),
            Err(DiskRefusal::Memory) => unreachable!(),
        }
    }

    /// Places a firm file. No call may have been made before.
    pub fn put(&mut self, name: &Name, bytes: &[u8], writable: bool) -> Result<(), Memory>
        requires { disk_call self.old ≡ 0 }
        ensures ok { OnOk result (disk_view self.new ≡ put (disk_view self.old) name.now
            (Some (record { bytes = bytes.now; writable = writable }))) }
        ensures told { OnOk result (disk_told self.new ≡ Tells (with_placed name.now
            (record { bytes = bytes.now; writable = writable }) (disk_model self.old)) []) }
        ensures err { OnErr result (disk_told self.new ≡ disk_told self.old) }
        ensures plan { KeepsPlan self.old self.new }
        ensures faults { self.new.faults ≡ self.old.faults }
    {
        let first = StoredFile::firm(self.alloc, bytes, writable)?;
        let second = StoredFile::firm(self.alloc, bytes, writable)?;
        self.start.reserve()?;
        self.directory.reserve()?;
        self.start.put(name, first);
        self.directory.put(name, second);
        Ok(())
    }

    /// Makes every call behind so many fail.
    pub fn stop_after(&mut self, calls: u64)
        ensures stop { disk_stop self.new ≡ min (disk_stop self.old) calls }
        ensures told { disk_told self.new ≡ disk_told self.old }
        ensures plan { disk_failing self.new ≡ disk_failing self.old }
        ensures room { disk_room self.new ≡ disk_room self.old }
        ensures call { disk_call self.new ≡ disk_call self.old }
        ensures faults { self.new.faults ≡ self.old.faults }
    {
        self.stop = self.stop.min(calls);
    }

    /// The bytes of a file.
    pub fn bytes(&self, name: &Name) -> Option<&[u8]>
        ensures { option_map (λ (b : _). b.now) result
            ≡ option_map (λ (c : Content). c.bytes) (disk_view self.now name.now) }
    {
        self.directory.bytes(name)
    }

    /// Whether a name is there.
    pub fn has(&self, name: &Name) -> bool
        ensures { result ≡ is_some (disk_view self.now name.now) }
    {
        self.directory.has(name)
    }

    /// Whether the file of a name has so many bytes from a place on.
    pub fn has_range(&self, name: &Name, from: u64, count: usize) -> bool
        ensures { IsTrue result ↔ HasBytes (disk_view self.now name.now) from count }
    {
        self.directory.has_range(name, from, count)
    }

    /// The disk as a stop leaves it after so many calls, or after all where fewer were made: with
    /// so many of the pending name operations, or all of them, and filled files. Every file of it
    /// is firm, nothing is pending, and no call is planned to fail.
    pub fn crash(
        &self,
        alloc: Global,
        calls: u64,
        names: u64,
        fill: Fill,
    ) -> Result<MemoryDisk, Memory>
        ensures left { IfOk result (λ d. disk_view d ≡ left_by_stop (disk_after self.now calls) names fill) }
        ensures image { IfOk result (λ d. Image (disk_after self.now calls) (disk_view d)) }
        ensures settled { IfOk result (λ d. IsSettled (disk_model d)) }
        ensures told { IfOk result (λ d. disk_told d ≡ Tells (disk_model d) []) }
        ensures room { IfOk result (λ d. disk_room d ≡ disk_room self.now) }
        ensures plan { IfOk result (λ d. disk_failing d ≡ []) }
        ensures stop { IfOk result (λ d. disk_stop d ≡ 18446744073709551615) }
        ensures call { IfOk result (λ d. disk_call d ≡ 0) }
        ensures faults { IfOk result (λ d. d.faults ≡ 0) }
    {
        let count = self.log.len().min(calls as usize);
        let log = &self.log[..count];
        let files = replay(alloc, &self.start, log)?;
        let named = replay(alloc, &self.start, &log[..count_kept(log, names)])?;
        let start = files.left(alloc, &named, fill)?;
        let directory = start.copy(alloc)?;
        let log = Vec::with_capacity(alloc, self.room as usize)?;
        Ok(MemoryDisk {
            start,
            directory,
            log,
            failing: Vec::new(alloc),
            room: self.room,
            stop: u64::MAX,
            calls: 0,
            faults: 0,
            alloc,
        })
    }
}

impl Disk for MemoryDisk {
    ghost use Rattle.sccs_disk.specs.Calls.{Half, Creates, FindsName, Changes, Writes, IsThere, HasRange};
    ghost use Rattle.sccs_disk.specs.Effects.{creating, appending, overwriting, protecting, syncing, renaming};
    ghost use Rattle.sccs_disk.specs.Effects.{removing, syncing_names};
    ghost use Rattle.sccs_disk.specs.MemoryDisks.{GoesByPlan, disk_told, disk_view};
    ghost use Rattle.sccs_disk.specs.MemoryTold.{disk_sane, disk_finite};
    ghost use Rattle.sccs_disk.specs.Reads.{Measures, Marks, Reads, Lists};
    ghost use Rattle.sccs_disk.specs.Told.{seen};

    ghost told = { disk_told };

    ghost faults = { λ d. d.faults };

    ghost sane = { disk_sane };

    ghost finite = { disk_finite };

    fn size(&mut self, name: &Name) -> Result<Option<u64>, Failed>
        ensures ok { IfOk result (Measures (Some (disk_view self.old)) name.now) }
        ensures same { disk_told self.new ≡ disk_told self.old }
        ensures later { self.old.faults ≤ self.new.faults }
        ensures cause { OnErr result (Rose self.old.faults self.new.faults) }
        ensures planned { GoesByPlan (IsErr result) self.old self.new }
    {
        self.begin()?;
        Ok(self.directory.size(name))
    }

    fn read_at(&mut self, name: &Name, from: u64, into: &mut [u8]) -> Result<Option<usize>, Failed>
        ensures bound { IfOk result (λ r. IfSome r (λ n. n ≤ length into.old)) }
        ensures ok { IfOk result
            (Reads (Some (disk_view self.old)) name.now from into.old into.new) }
        ensures same { disk_told self.new ≡ disk_told self.old }
        ensures later { self.old.faults ≤ self.new.faults }
        ensures cause { OnErr result (Rose self.old.faults self.new.faults) }
        ensures planned { GoesByPlan (IsErr result) self.old self.new }
    {
        self.begin()?;
        Ok(self.directory.read_at(name, from, into))
    }

    fn writable(&mut self, name: &Name) -> Result<Option<bool>, Failed>
        ensures ok { IfOk result (Marks (Some (disk_view self.old)) name.now) }
        ensures same { disk_told self.new ≡ disk_told self.old }
        ensures later { self.old.faults ≤ self.new.faults }
        ensures cause { OnErr result (Rose self.old.faults self.new.faults) }
        ensures planned { GoesByPlan (IsErr result) self.old self.new }
    {
        self.begin()?;
        Ok(self.directory.writable(name))
    }

    fn create(&mut self, name: &Name) -> Result<Creation, DiskRefusal>
        ensures ok { IfOk result (Creates name.now (disk_told self.old) (disk_told self.new)) }
        ensures exact { IfOk result (FindsName (Some (disk_view self.old)) name.now) }
        ensures half { IsErrOf result DiskRefusal.Failed
            → Half (creating name.now) (disk_told self.old) (disk_told self.new) }
        ensures memory { IsErrOf result DiskRefusal.Memory → disk_told self.new ≡ disk_told self.old }
        ensures later { self.old.faults ≤ self.new.faults }
        ensures cause { IsErrOf result DiskRefusal.Failed → Rose self.old.faults self.new.faults }
        ensures planned { GoesByPlan (IsErrOf result DiskRefusal.Failed) self.old self.new }
    {
        if self.has(name) {
            if self.begin().is_err() {
                return Err(DiskRefusal::Failed);
            }
            return Ok(Creation::Exists);
        }
        if let Err(fault) = self.call(Ok(Change::Create(*name))) {
            return Err(fault);
        }
        Ok(Creation::Created)
    }

    fn append(&mut self, name: &Name, bytes: &[u8]) -> Result<(), DiskRefusal>
        requires { IsThere name.now (disk_told self.old) }
        ensures writes { Writes (appending name.now bytes.now) (disk_told self.old) (disk_told self.new)
            self.old.faults self.new.faults result }
        ensures planned { GoesByPlan (IsErrOf result DiskRefusal.Failed) self.old self.new }
    {
        let change = append_of(self.alloc, name, bytes);
        self.call(change)
    }

    fn write_at(&mut self, name: &Name, from: u64, bytes: &[u8]) -> Result<(), DiskRefusal>
        requires { HasRange name.now from (length bytes.now) (disk_told self.old) }
        ensures writes { Writes (overwriting name.now from bytes.now) (disk_told self.old) (disk_told self.new)
            self.old.faults self.new.faults result }
        ensures planned { GoesByPlan (IsErrOf result DiskRefusal.Failed) self.old self.new }
    {
        let change = write_of(self.alloc, name, from, bytes);
        self.call(change)
    }

    fn protect(&mut self, name: &Name) -> Result<(), Failed>
        requires { IsThere name.now (disk_told self.old) }
        ensures changes { Changes (protecting name.now) (disk_told self.old) (disk_told self.new)
            self.old.faults self.new.faults result }
        ensures planned { GoesByPlan (IsErr result) self.old self.new }
    {
        self.call_surely(Change::File(*name, FileChange::Protect))
    }

    fn sync(&mut self, name: &Name) -> Result<(), Failed>
        requires { IsThere name.now (disk_told self.old) }
        ensures changes { Changes (syncing name.now) (disk_told self.old) (disk_told self.new)
            self.old.faults self.new.faults result }
        ensures planned { GoesByPlan (IsErr result) self.old self.new }
    {
        self.call_surely(Change::File(*name, FileChange::Sync))
    }

    fn rename(&mut self, from: &Name, to: &Name) -> Result<(), Failed>
        requires { IsThere from.now (disk_told self.old) }
        ensures changes { Changes (renaming from.now to.now) (disk_told self.old) (disk_told self.new)
            self.old.faults self.new.faults result }
        ensures planned { GoesByPlan (IsErr result) self.old self.new }
    {
        self.call_surely(Change::Rename(*from, *to))
    }

    fn remove(&mut self, name: &Name) -> Result<(), Failed>
        requires { IsThere name.now (disk_told self.old) }
        ensures changes { Changes (removing name.now) (disk_told self.old) (disk_told self.new)
            self.old.faults self.new.faults result }
        ensures planned { GoesByPlan (IsErr result) self.old self.new }
    {
        self.call_surely(Change::Remove(*name))
    }

    fn sync_names(&mut self) -> Result<(), Failed>
        ensures changes { Changes syncing_names (disk_told self.old) (disk_told self.new)
            self.old.faults self.new.faults result }
        ensures planned { GoesByPlan (IsErr result) self.old self.new }
    {
        self.call_surely(Change::SyncNames)
    }

    fn list(&mut self, alloc: Global) -> Result<Names, DiskRefusal>
        ensures ok { IfOk result (Lists (Some (disk_view self.old))) }
        ensures same { disk_told self.new ≡ disk_told self.old }
        ensures later { self.old.faults ≤ self.new.faults }
        ensures cause { IsErrOf result DiskRefusal.Failed → Rose self.old.faults self.new.faults }
        ensures planned { GoesByPlan (IsErrOf result DiskRefusal.Failed) self.old self.new }
    {
        if self.begin().is_err() {
            return Err(DiskRefusal::Failed);
        }
        let Ok(names) = self.directory.list(alloc) else {
            return Err(DiskRefusal::Memory);
        };
        Ok(names)
    }
}
