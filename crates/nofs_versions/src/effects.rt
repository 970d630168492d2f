//! What a call leaves in a disk in memory: the call itself, the cell, and the fault.
ghost use Rattle.std.specs.Prelude.{◌≡◌, ◌<◌, ◌≤◌, [], ◌∷◌, ◌++◌, length, vec_capacity};
ghost use Rattle.nofs_versions.specs.Faults.{next};
ghost use Rattle.nofs_versions.specs.Memory.{put_if};

use crate::call::Call;
use nofs_disk::Cell;

/// Adds a call to those that were made, where there is room.
pub fn keep(calls: &mut Vec<Call>, call: Call)
    requires { length calls.old.items < vec_capacity calls.old }
    ensures calls { calls.new.items ≡ calls.old.items ++ call ∷ [] }
    ensures capacity { vec_capacity calls.old ≤ vec_capacity calls.new }
{
    calls.push(call).unwrap();
}

/// Counts a fault, up to the greatest u64.
pub fn count_fault(faults: &mut u64)
    ensures { faults.new ≡ next faults.old }
{
    *faults = faults.saturating_add(1);
}

/// Puts a cell at a block, where it is taken.
pub fn put(cells: &mut Vec<Cell>, block: u64, cell: &Cell, taken: bool)
    requires { block < length cells.old.items }
    ensures { cells.new.items ≡ put_if taken cells.old.items block cell.now }
{
    if taken {
        cells[block as usize] = *cell;
    }
}
