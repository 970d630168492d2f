//! Cells of pointers: a leaf, a top and a child hold 64 pointers of 16 bytes each (docs/FORMAT.md,
//! "Leaf and directory cells").
//!
//! Promise: a pointer that is written is read, and every other byte of the cell stays.
ghost use Rattle.std.specs.Prelude.{◌≡◌, ◌≢◌, ℕ, ◌<◌, ◌*◌};
ghost use Rattle.nofs_disk.specs.Pointer.{put_pointer};
ghost use Rattle.nofs_ptrs.specs.Cells.{pointer_at};

use nofs_disk::{Pointer, read_pointer_at, write_pointer_at};

/// The pointer with this number of a cell of pointers. Every 16 bytes are one.
#[tactic(auto, unfolding(crate::specs::Cells::pointer_at))]
pub fn read_pointer(payload: &[u8; 1024], at: u32) -> Pointer
    requires { at < 64 }
    ensures { result ≡ pointer_at payload.now at }
{
    read_pointer_at(payload, 16 * at as usize)
}

/// Writes the pointer with this number of a cell of pointers. Other bytes stay.
pub fn write_pointer(payload: &mut [u8; 1024], at: u32, it: Pointer)
    requires { at < 64 }
    ensures put { payload.new ≡ put_pointer (16 * at) it payload.old }
    ensures written { pointer_at payload.new at ≡ it }
    ensures others { (j : ℕ) → j ≢ at → j < 64 → pointer_at payload.new j ≡ pointer_at payload.old j }
{
    write_pointer_at(payload, 16 * at as usize, it);
}
