ghost use Rattle.std.specs.Prelude.{◌≡◌, ℕ, ◌+◌, ◌<◌, ◌≤◌, length, take, IfOk, OnOk};
ghost use Rattle.sccs_disk.specs.DirectoryStates.{state_of};
ghost use Rattle.sccs_disk.specs.Files.{names, names_at};
ghost use Rattle.sccs_disk.specs.MemoryFiles.{model_of, model_after, entry_state, pending_after};
ghost use Rattle.sccs_disk.specs.States.{State, state};

use crate::changes::Change;
use crate::directories::Directory;
use sccs_base::Memory;
use std::alloc::Global;

// makes what a call changed
fn make_again(directory: &mut Directory, entry: &Option<Change>) -> Result<(), Memory>
    ensures { OnOk result (state_of directory.new ≡ entry_state entry.now (state_of directory.old)) }
{
    match entry {
        Some(change) => directory.make(change),
        None => Ok(()),
    }
}

/// A directory with these changes made, the first of them first.
pub fn replay(alloc: Global, start: &Directory, log: &[Option<Change>]) -> Result<Directory, Memory>
    ensures { IfOk result (λ d. state_of d ≡ state (model_after (model_of (state_of start.now)) log.now)) }
{
    let mut directory = start.copy(alloc)?;
    for entry in log {
        make_again(&mut directory, entry)?;
    }
    Ok(directory)
}

// how many name operations are pending after a call
fn count_pending(entry: &Option<Change>, pending: u64) -> u64
    requires { pending < 18446744073709551615 }
    ensures count { result ≡ pending_after entry.now pending }
    ensures most { result ≤ pending + 1 }
{
    match entry {
        None => pending,
        Some(Change::Create(_)) => pending + 1,
        Some(Change::File(_, _)) => pending,
        Some(Change::Rename(_, _)) => pending + 1,
        Some(Change::Remove(_)) => pending + 1,
        Some(Change::SyncNames) => 0,
    }
}

/// How many of these calls give the names that a stop leaves after all of them, where it makes so
/// many pending name operations.
pub fn count_kept(log: &[Option<Change>], made: u64) -> usize
    ensures within { result ≤ length log.now }
    ensures names { (s : State) → names (model_after (model_of s) (take result log.now))
        ≡ names_at (model_after (model_of s) log.now) made }
{
    let mut kept = 0;
    let mut pending = 0;
    for place in 0..log.len() {
        pending = count_pending(&log[place], pending);
        if pending <= made {
            kept = place + 1;
        }
    }
    kept
}
