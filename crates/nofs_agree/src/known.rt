//! What is known of inodes: whether each is agreed.
//!
//! Promise: what was set of an inode is what is told of it. Whether that is true is its user's to see to.
ghost use Rattle.std.specs.Prelude.{◌≡◌, ◌-◌, ◌≤◌, IfOk, None, length, replicate, slice_set};
ghost use Rattle.nofs_agree.specs.Chain.{LearnsOne, known_agreement};

use std::alloc::{AllocError, Global};
use std::marker::Model;

/// What is known of some inodes: `Some(true)` is agreed, `Some(false)` is not, and of the others nothing is known. No
/// call but `nothing` takes memory.
#[derive(Drop)]
pub struct Known {
    // Place `i - 1` is inode `i`. `None` has no place.
    inodes: Option<Vec<Option<bool>>>,
}

impl Model for Known {
    ghost use Rattle.std.specs.Prelude.{Bool, List, Option};
    ghost use Rattle.nofs_agree.specs.Known.{places};

    ghost Value = { List (Option Bool) };

    ghost view = { λ known. places (λ inodes. inodes.items) known.inodes };
}

impl Known {
    /// Nothing is known, and there is a place for no inode.
    pub const NONE: Known = Known { inodes: None };

    /// Nothing is known of so many inodes.
    pub fn nothing(alloc: Global, inodes: u64) -> Result<Self, AllocError>
        ensures { IfOk result (λ known. known ≡ replicate inodes None) }
    {
        Ok(Known {
            inodes: Some(vec![in alloc; None; inodes as usize]?),
        })
    }

    /// Whether an inode is agreed; `None` where that isn't known, and where there is no such inode.
    pub fn told(&self, inode: u32) -> Option<bool>
        ensures { result ≡ known_agreement self.now inode }
    {
        let inodes = self.places();
        let place = inode as usize;
        if place == 0 || place > inodes.len() {
            return None;
        }
        inodes[place - 1]
    }

    fn places(&self) -> &[Option<bool>]
        ensures { result.now ≡ self.now }
    {
        match &self.inodes {
            None => &[],
            Some(inodes) => inodes.as_slice(),
        }
    }

    /// Makes known whether an inode is agreed, where there is such an inode.
    pub(crate) fn learn(&mut self, inode: u32, agreed: bool)
        ensures { LearnsOne self.old self.new inode agreed }
    {
        if 1 <= inode && inode as usize <= self.places().len() {
            self.set(inode, Some(agreed));
        }
    }

    /// Sets what is known of an inode, and changes nothing of the others.
    pub fn set(&mut self, inode: u32, agreed: Option<bool>)
        requires from_one { 1 ≤ inode }
        requires within { inode ≤ length self.old }
        ensures { self.new ≡ slice_set self.old (inode - 1) agreed }
    {
        match &mut self.inodes {
            None => {}
            Some(inodes) => inodes[inode as usize - 1] = agreed,
        }
    }
}
