ghost use Rattle.std.specs.Prelude.{◌≡◌, ◌<◌, length, IfOk, IfSome, IsErrOf};
ghost use Rattle.sccs_base.specs.Causes.{Caused};
ghost use Rattle.sccs_operands.specs.InputNames.{GivesLines};

use sccs_base::{Source, TakeFault, Text, take_all};
use std::alloc::Global;

/// The lines of an input, each of which may be a name. TooLong comes exactly where it has more than `limit` bytes.
pub fn read_names<I: Source>(alloc: Global, input: &mut I, limit: u64) -> Result<Text, TakeFault>
    ensures told { IfSome (I.left input.old) (λ left. GivesLines limit left result) }
    ensures causes { Caused TakeFault.Failed (I.faults input.old) (I.faults input.new) result }
{
    let bytes = match take_all(alloc, input, limit) {
        Ok(bytes) => bytes,
        Err(fault) => return Err(fault),
    };
    match Text::read(alloc, bytes.bytes()) {
        Ok(lines) => Ok(lines),
        Err(_) => Err(TakeFault::Memory),
    }
}
