//! Verdicts of the maps: what stands there of a block or an inode, and what is learned of one.
ghost use Rattle.std.specs.Prelude.{◌≡◌, ◌-◌, ◌<◌, ◌≤◌, length};
ghost use Rattle.nofs_state.specs.Books.Verdicts.{OffersBlock, OffersInode, learned_block, learned_inode};
ghost use Rattle.nofs_state.specs.Books.Verdicts.{verdict_of_block, verdict_of_inode};

use crate::books::maps::Books;

impl Books {
    /// Whether a block is used; `None` where it was not examined.
    pub fn verdict_of_block(&self, block: u64) -> Option<bool>
        requires unknown { block < length self.now.unknown_blocks }
        requires free { block < length self.now.free_blocks }
        ensures { result ≡ verdict_of_block self.now block }
    {
        if self.unknown_blocks.get(block) {
            None
        } else {
            Some(!self.free_blocks.get(block))
        }
    }

    /// Whether an inode is used; `None` where it was not examined.
    pub fn verdict_of_inode(&self, inode: u32) -> Option<bool>
        requires from_one { 1 ≤ inode }
        requires unknown { inode - 1 < length self.now.unknown_inodes }
        requires free { inode - 1 < length self.now.free_inodes }
        ensures { result ≡ verdict_of_inode self.now inode }
    {
        let place = u64::from(inode) - 1;
        if self.unknown_inodes.get(place) {
            None
        } else {
            Some(!self.free_inodes.get(place))
        }
    }

    /// Sets the verdict of a block that was not examined.
    pub fn learn_block(&mut self, block: u64, used: bool)
        requires unknown { block < length self.old.unknown_blocks }
        requires free { block < length self.old.free_blocks }
        ensures { self.new ≡ learned_block self.old block used }
    {
        self.unknown_blocks.set(block, false);
        self.free_blocks.set(block, !used);
    }

    /// Sets the verdict of an inode that was not examined.
    pub fn learn_inode(&mut self, inode: u32, used: bool)
        requires from_one { 1 ≤ inode }
        requires unknown { inode - 1 < length self.old.unknown_inodes }
        requires free { inode - 1 < length self.old.free_inodes }
        requires agreed { inode - 1 < length self.old.agreement }
        ensures { self.new ≡ learned_inode self.old inode used }
    {
        let place = u64::from(inode) - 1;
        self.unknown_inodes.set(place, false);
        self.free_inodes.set(place, !used);
        if inode > 2 {
            self.agreement.set(inode, Some(used));
        }
    }

    /// Sets the verdict of a block where it was not examined, and answers the one that stands.
    pub fn settle_block(&mut self, block: u64, used: bool) -> bool
        requires unknown { block < length self.old.unknown_blocks }
        requires free { block < length self.old.free_blocks }
        ensures { OffersBlock self.old self.new block used result }
    {
        let stands = self.verdict_of_block(block);
        if stands.is_none() {
            self.learn_block(block, used);
        }
        stands.unwrap_or(used)
    }

    /// Sets the verdict of an inode where it was not examined, and answers the one that stands.
    pub fn settle_inode(&mut self, inode: u32, used: bool) -> bool
        requires from_one { 1 ≤ inode }
        requires unknown { inode - 1 < length self.old.unknown_inodes }
        requires free { inode - 1 < length self.old.free_inodes }
        requires agreed { inode - 1 < length self.old.agreement }
        ensures { OffersInode self.old self.new inode used result }
    {
        let stands = self.verdict_of_inode(inode);
        if stands.is_none() {
            self.learn_inode(inode, used);
        }
        stands.unwrap_or(used)
    }
}
