//! The directories of a walk.
//!
//! Promise: each inode is kept once, in the order in which it came.
ghost use Rattle.std.specs.Prelude.{◌≡◌, ℕ, ◌-◌, ◌^◌, ◌<◌, [], map, OnOk, IfSome, option_map, slice_get, ◌==◌};
ghost use Rattle.std.specs.List.{list_any};
ghost use Rattle.std.specs.Ordering.{nat_cmp};
ghost use Rattle.std.specs.BTreeSet.{contains};
ghost use Rattle.nofs_salvage.specs.Report.Losses.{with_one};
ghost use Rattle.nofs_salvage.specs.Report.Inodes.{inode_of, with_handle};

use crate::report::answers::InodeHandle;
use std::alloc::{AllocError, Global};
use std::collections::BTreeSet;

/// A list of directories in which no inode stands twice, and the set of its inodes.
#[derive(Drop)]
pub struct Tree {
    list: Vec<InodeHandle>,
    numbers: BTreeSet<u32>,
    pub ghost same: { (q : ℕ) → contains nat_cmp numbers q ≡ list_any (λ x. x == q) (map inode_of list.items) },
}

impl Tree {
    /// A list without directories.
    pub fn new(alloc: Global) -> Self
        ensures empty { map inode_of result.list.items ≡ [] }
        ensures none { result.list.items ≡ [] }
    {
        Tree {
            list: Vec::new(alloc),
            numbers: BTreeSet::new(alloc),
        }
    }

    /// Puts a directory at the end, where its inode isn't there yet.
    pub fn add(&mut self, directory: InodeHandle) -> Result<(), AllocError>
        ensures inodes { OnOk result
            (map inode_of self.new.list.items ≡ with_one (map inode_of self.old.list.items) directory.inode) }
        ensures handles { OnOk result (self.new.list.items ≡ with_handle self.old.list.items directory) }
    {
        if self.numbers.contains(&directory.inode) {
            return Ok(());
        }
        let count = self.list.len();
        self.list.push(directory)?;
        match self.numbers.insert(directory.inode) {
            Ok(_) => Ok(()),
            Err(_) => {
                self.list.truncate(count);
                Err(AllocError)
            }
        }
    }

    /// The directory at a place counted from 0, and `None` exactly where there is none.
    pub fn get(&self, at: usize) -> Option<InodeHandle>
        ensures is { option_map inode_of result ≡ slice_get (map inode_of self.now.list.items) at }
        ensures handle { result ≡ slice_get self.now.list.items at }
        ensures early { IfSome result (λ directory. at < 2 ^ 64 - 1) }
    {
        if at < self.list.len() {
            Some(self.list[at])
        } else {
            None
        }
    }
}
