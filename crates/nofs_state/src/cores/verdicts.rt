//! Elements are verified: by the maps where a verdict stands, and else by the disk.
ghost use Rattle.std.specs.Prelude.{◌≡◌, ◌<◌, ◌≤◌, None};
ghost use Rattle.nofs_state.specs.Books.Maps.{IsSafe};
ghost use Rattle.nofs_state.specs.Books.Verdicts.{VerifiesBlock, VerifiesInode, verdict_of_block, verdict_of_inode};

use crate::cores::checks::{check_block, check_inode};
use crate::cores::mounted_disk::Core;
use nofs_disk::{Disk, Failed};

impl<D: Disk + Drop> Core<D> {
    /// Whether a block is used: by the maps, where it was examined, and else by the disk. It is
    /// examined from then on.
    ///
    /// # Errors
    ///
    /// `Failed` where a read failed.
    pub fn verify_block(&mut self, block: u64) -> Result<bool, Failed>
        requires safe { IsSafe (D.state self.old.disk) self.old.books }
        requires block { block < self.old.books.at.blocks }
        ensures { VerifiesBlock (D.state self.old.disk) self.old.books
            (D.state self.new.disk) self.new.books block result }
    {
        match self.books.verdict_of_block(block) {
            Some(used) => Ok(used),
            None => self.examine_block(block),
        }
    }

    /// Whether an inode is used: by the maps, where it was examined, and else by the disk. It is
    /// examined from then on.
    ///
    /// # Errors
    ///
    /// `Failed` where a read failed.
    pub fn verify_inode(&mut self, inode: u32) -> Result<bool, Failed>
        requires safe { IsSafe (D.state self.old.disk) self.old.books }
        requires from_one { 1 ≤ inode }
        requires within { inode ≤ self.old.books.at.inodes }
        ensures { VerifiesInode (D.state self.old.disk) self.old.books
            (D.state self.new.disk) self.new.books inode result }
    {
        match self.books.verdict_of_inode(inode) {
            Some(used) => Ok(used),
            None => self.examine_inode(inode),
        }
    }

    // Learns from the disk whether a block that was not examined is used.
    fn examine_block(&mut self, block: u64) -> Result<bool, Failed>
        requires unknown { verdict_of_block self.old.books block ≡ None }
        requires safe { IsSafe (D.state self.old.disk) self.old.books }
        requires block { block < self.old.books.at.blocks }
        ensures { VerifiesBlock (D.state self.old.disk) self.old.books
            (D.state self.new.disk) self.new.books block result }
    {
        let used = check_block(&mut self.disk, &self.books, block)?;
        self.books.learn_block(block, used);
        Ok(used)
    }

    // Learns from the disk whether an inode that was not examined is used.
    fn examine_inode(&mut self, inode: u32) -> Result<bool, Failed>
        requires unknown { verdict_of_inode self.old.books inode ≡ None }
        requires safe { IsSafe (D.state self.old.disk) self.old.books }
        requires from_one { 1 ≤ inode }
        requires within { inode ≤ self.old.books.at.inodes }
        ensures { VerifiesInode (D.state self.old.disk) self.old.books
            (D.state self.new.disk) self.new.books inode result }
    {
        let used = check_inode(&mut self.disk, &self.books, inode)?;
        self.books.learn_inode(inode, used);
        Ok(used)
    }
}
