//! The numbers of a mounted disk.
ghost use Rattle.std.specs.Prelude.{◌≡◌, ◌^◌, ◌<◌};

use crate::mount::mount::Mount;
use nofs_disk::Disk;
use nofs_super::SuperBlock;

impl<D: Disk + Drop> Mount<D> {
    /// The superblock of the mount.
    pub fn numbers(&self) -> SuperBlock
        ensures is { result ≡ self.now.core.books.at }
        ensures small { result.inodes < 2 ^ 32 }
    {
        self.core.books.at
    }
}
