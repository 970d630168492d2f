//! A file of bytes that are read and written at places.
ghost use Rattle.std.specs.Prelude.{◌+◌, ◌^◌, ◌<◌, length};
ghost use Rattle.nofs_filedisk.specs.Bytes.{HostFileState, IsHostFile, ReadsAhead, ReadsSome, Syncs, WritesSome};

use nofs_disk::Failed;

/// A file of bytes. A call answers `Failed` only where the count of faults rose in it, and
/// one that succeeds leaves the count.
pub trait Positioned {
    /// What contracts see of it.
    ghost state: { Self → HostFileState };

    /// Reads some bytes from a place on, and answers how many; 0 only at the end of the file.
    fn read_at(&mut self, at: u64, into: &mut [u8]) -> Result<usize, Failed>
        requires { at + length into.old < 2 ^ 63 }
        ensures { ReadsSome (state self.old) (state self.new) at into.old into.new result };

    /// Reads bytes that nobody asked for, as `read_at` does. It answers `None`, and counts no fault, where some of
    /// those that fit can't be told.
    fn read_ahead(&mut self, at: u64, into: &mut [u8]) -> Result<Option<usize>, Failed>
        requires { at + length into.old < 2 ^ 63 }
        ensures { ReadsAhead (state self.old) (state self.new) at into.old into.new result };

    /// Writes some of the bytes to a place, at least one, and answers how many.
    fn write_at(&mut self, at: u64, from: &[u8]) -> Result<usize, Failed>
        requires { at + length from.now < 2 ^ 63 }
        ensures { WritesSome (state self.old) (state self.new) at from.now result };

    /// Makes the bytes and the length durable.
    fn sync(&mut self) -> Result<(), Failed>
        ensures { Syncs (state self.old) (state self.new) result };

    ghost is_file: { (file : Self) → IsHostFile (state file) };
}
