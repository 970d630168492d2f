//! Pointers as bytes: two numbers, `block` and then `stamp`, of eight bytes each.
//!
//! Promise: every 16 bytes are a pointer, what was written is read, and other bytes stay.
ghost use Rattle.std.specs.Prelude.{◌≡◌, ◌+◌, ◌≤◌, length};
ghost use Rattle.nofs_disk.specs.Pointer.{pointer_in, put_pointer};

use crate::number::{read_u64_at, write_u64_at};
use crate::tag::Pointer;

/// The pointer in the 16 bytes from a place on.
#[tactic(auto, unfolding(crate::specs::Pointer::pointer_in))]
pub fn read_pointer_at(bytes: &[u8], at: usize) -> Pointer
    requires { at + 16 ≤ length bytes.now }
    ensures { result ≡ pointer_in at bytes.now }
{
    Pointer {
        block: read_u64_at(bytes, at),
        stamp: read_u64_at(bytes, at + 8),
    }
}

/// Puts a pointer into the 16 bytes from a place on. The other bytes stay.
#[tactic(auto, unfolding(crate::specs::Pointer::put_pointer))]
pub fn write_pointer_at(bytes: &mut [u8], at: usize, it: Pointer)
    requires { at + 16 ≤ length bytes.old }
    ensures put { bytes.new ≡ put_pointer at it bytes.old }
    ensures value { pointer_in at bytes.new ≡ it }
{
    write_u64_at(bytes, at, it.block);
    write_u64_at(bytes, at + 8, it.stamp);
}
