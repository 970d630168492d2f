//! Cells with their tags, pointers, and the interface of a disk of cells.
//!
//! Promise: a tag and a pointer are read as they were written, a tag has one spelling, and every
//! disk says what a read gives, what a crash may leave, and that a call fails only where its count
//! of faults rose, which a call that succeeds leaves.
#![tactic(auto)]

mod disk;
mod number;
mod pointer;
mod tag;

pub use disk::Disk;
pub use number::{clear, read_u32_at, read_u64_at, write_bytes_at, write_u32_at, write_u64_at};
pub use pointer::{read_pointer_at, write_pointer_at};
pub use tag::{Cell, Kind, Pointer, Tag, read_tag, stamp_of, write_tag};

/// A call of a device failed. It comes only where the device's count of faults rose.
#[derive(Clone, Copy, Debug, PartialEq, Eq)]
pub struct Failed;

/// Why a block was not written out by a layer above the device.
#[derive(Clone, Copy, Debug, PartialEq, Eq)]
pub enum OutFault {
    /// The device failed.
    Failed,
    /// There is no memory.
    OutOfMemory,
}
