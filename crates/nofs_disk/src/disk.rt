//! The interface of a disk of cells.
//!
//! Promise: each call says what it does to what a read gives and to what a crash may leave, at
//! every moment, and answers `Failed` only where the disk's count of faults rose. A call that
//! succeeds leaves that count.
ghost use Rattle.std.specs.Prelude.{◌≡◌, ◌<◌, ◌≤◌};
ghost use Rattle.nofs_disk.specs.Disk.{DiskState, Flushes, IsDisk, MakesReady, Reads, Writes, WritesOut};

use crate::{Cell, Failed};
use std::alloc::AllocError;

/// A device of numbered blocks, each of which holds a cell. Writes may reach it in any order, and
/// a crash may lose any of those since the last flush.
pub trait Disk {
    /// What contracts see of it.
    ghost state: { Self → DiskState };

    /// How many blocks there are. No call changes it.
    fn blocks(&self) -> u64
        ensures { result ≡ (state self.now).blocks };

    /// The moment of the disk's own time, which each write and each flush raises by 2. The odd
    /// number between is the time during the call.
    fn moment(&self) -> u64
        ensures { result ≡ (state self.now).moment };

    /// Makes room for at least this many calls of `write`, `flush` and `write_out`, and changes
    /// nothing else. No other call is refused for want of memory.
    fn ready(&mut self, calls: u64) -> Result<(), AllocError>
        ensures { MakesReady (state self.old) (state self.new) calls result };

    /// Reads the cell of a block. Where it fails, `into` may hold anything.
    fn read(&mut self, block: u64, into: &mut Cell) -> Result<(), Failed>
        requires { block < (state self.old).blocks }
        ensures { Reads (state self.old) (state self.new) block into.new result };

    /// Writes the cell of a block. A crash may lose it until a flush has succeeded. Where it
    /// fails, the cell may be written or not.
    fn write(&mut self, block: u64, cell: &Cell) -> Result<(), Failed>
        requires block { block < (state self.old).blocks }
        requires spare { 1 ≤ (state self.old).spare }
        ensures { Writes (state self.old) (state self.new) block cell.now result };

    /// Makes all that was written last: a crash then leaves what a read gives. Where it fails, a
    /// crash may leave what it could before.
    fn flush(&mut self) -> Result<(), Failed>
        requires { 1 ≤ (state self.old).spare }
        ensures { Flushes (state self.old) (state self.new) result };

    /// Writes out one block that was kept back, and names it; `None` exactly where there is none.
    /// Where it fails, the block is still kept back.
    fn write_out(&mut self) -> Result<Option<u64>, Failed>
        requires { 1 ≤ (state self.old).spare }
        ensures { WritesOut (state self.old) (state self.new) result };

    ghost is_disk: { (disk : Self) → IsDisk (state disk) };
}
