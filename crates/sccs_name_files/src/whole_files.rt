ghost use Rattle.std.specs.Prelude.{◌≡◌, ◌≢◌, ◌<◌, ◌≤◌, ◌+◌, ℕ, List, Some, Ok, Err, true, length, IfOk, IfSome};
ghost use Rattle.std.specs.Prelude.{IsErrOf};
ghost use Rattle.sccs_base.specs.Constants.{file_limit};
ghost use Rattle.sccs_base.specs.Stream.{Rose};
ghost use Rattle.sccs_disk.specs.Files.{View};
ghost use Rattle.sccs_disk.specs.Told.{seen};
ghost use Rattle.sccs_name_files.specs.WholeFiles.{AnswersWhole, ReadsToEnd, file_bytes};
ghost use Rattle.sccs_disk.specs.Causes.{DiskCauses};

use sccs_base::{Bytes, FILE_LIMIT, Name};
use sccs_disk::Disk;
use std::alloc::Global;

// how many bytes are asked for at once
const PIECE: usize = 4096;

/// Why a file wasn't read.
#[derive(Clone, Copy, Debug, PartialEq, Eq)]
pub enum WholeFault {
    Missing,
    /// It is longer than 1,073,741,824 bytes.
    TooLong,
    Failed,
    Memory,
}

// reads a piece of a file behind what was read of it; false where there is no more
fn read_more<D: Disk>(
    all: &mut Vec<u8>,
    piece: &mut [u8],
    disk: &mut D,
    name: &Name,
) -> Result<bool, WholeFault>
    requires short { length all.old.items ≤ file_limit }
    requires room { 0 < length piece.old }
    ensures bound { length all.new.items ≤ file_limit }
    ensures told { (bytes : List ℕ) → file_bytes (seen (D.told disk.old)) name.now ≡ Some bytes
        → ReadsToEnd bytes all.old.items all.new.items result }
    ensures further { result ≡ Ok true → length all.old.items + 1 ≤ length all.new.items }
    ensures same { D.told disk.new ≡ D.told disk.old }
    ensures later { D.faults disk.old ≤ D.faults disk.new }
    ensures missing { result ≢ Err WholeFault.Missing }
    ensures cause { IsErrOf result WholeFault.Failed → Rose (D.faults disk.old) (D.faults disk.new) }
{
    let Ok(got) = disk.read_at(name, all.len() as u64, piece) else {
        return Err(WholeFault::Failed);
    };
    let count = got.unwrap_or(0);
    if count == 0 {
        return Ok(false);
    }
    if all.len() as u64 + count as u64 > FILE_LIMIT {
        return Err(WholeFault::TooLong);
    }
    match all.extend_from_slice(&piece[..count]) {
        Ok(()) => Ok(true),
        Err(_) => Err(WholeFault::Memory),
    }
}

/// The bytes of a file. Missing comes exactly where it isn't there, TooLong exactly where it is longer than
/// 1,073,741,824 bytes.
pub fn read_whole<D: Disk>(alloc: Global, disk: &mut D, name: &Name) -> Result<Bytes, WholeFault>
    ensures told { IfSome (seen (D.told disk.old)) (λ (v : View). AnswersWhole (v name.now) result) }
    ensures bound { IfOk result (λ bytes. length bytes ≤ file_limit) }
    ensures same { D.told disk.new ≡ D.told disk.old }
    ensures causes { DiskCauses (IsErrOf result WholeFault.Failed) (D.faults disk.old) (D.faults disk.new) }
{
    match disk.size(name) {
        Ok(Some(size)) => {
            if size > FILE_LIMIT {
                return Err(WholeFault::TooLong);
            }
        }
        Ok(None) => return Err(WholeFault::Missing),
        Err(_) => return Err(WholeFault::Failed),
    }
    let mut all = Vec::new(alloc);
    let mut piece = [0; PIECE];
    'pieces: loop {
        match read_more(&mut all, &mut piece, disk, name) {
            Ok(true) => {}
            Ok(false) => return Ok(Bytes::from_vec(all)),
            Err(fault) => return Err(fault),
        }
    }
}
