//! The check of a chain of directories that keeps what it finds on the way.
//!
//! Promise: it answers as the check that keeps nothing does. What is known afterwards is true where what was known
//! before is, and each directory on the way up is known then. So many checks in a row walk each directory of a disk
//! once, however deep it lies, and whether the way leads to the root or not.
ghost use Rattle.std.specs.Prelude.{◌≡◌, ◌≤◌, IfOk, IsTrue, OnErr, OnOk, Some, length};
ghost use Rattle.nofs_disk.specs.Disk.{Rose, StaysButFaults};
ghost use Rattle.nofs_model.specs.Files as files;
ghost use Rattle.nofs_agree.specs.Chain.{AreTrue, LearnsAgreement, LearnsAbove, LearnsChain, known_agreement};
ghost use Rattle.nofs_agree.specs.Reads.{IsAt, IsLast, KnowsDirectory, KnowsInode};

use crate::chain::{Directory, check_chain, is_agreed_directory, is_root, is_special, read_parent};
use crate::known::Known;
use crate::pair::read_pair;
use crate::reads::{LastRead, read_inode};
use nofs_disk::{Disk, Failed};
use nofs_inode::{BackLink, Record};
use nofs_super::SuperBlock;

/// Whether an inode is agreed, as `check_chain` answers it. Afterwards that is known of the inode, and of each
/// directory on the ways up from it. It asks the superblock of the disk, and a place for each inode.
///
/// # Errors
///
/// `Failed` where a read failed. What was found before it is known.
pub fn learn_chain<D: Disk>(
    disk: &mut D,
    at: &SuperBlock,
    known: &mut Known,
    inode: u32,
) -> Result<bool, Failed>
    requires numbers { IsAt (D.state disk.old) at.now }
    requires known { length known.old ≡ at.now.inodes }
    ensures stays { StaysButFaults (D.state disk.old) (D.state disk.new) }
    ensures learns { LearnsAgreement (D.state disk.old) known.old known.new }
    ensures agreed { IfOk result (λ answer. IsTrue (D.state disk.old).tells → AreTrue (D.state disk.old).now known.old
        → answer ≡ files.agreed (files.files_in (D.state disk.old).now) inode) }
    ensures knows { IfOk result
        (λ answer. 1 ≤ inode → inode ≤ at.now.inodes → known_agreement known.new inode ≡ Some answer) }
    ensures cause { OnErr result (Rose (D.state disk.old).faults (D.state disk.new).faults) }
    ensures no_fault { OnOk result ((D.state disk.new).faults ≡ (D.state disk.old).faults) }
{
    if let Some(agreed) = known.told(inode) {
        return Ok(agreed);
    }
    learn_above(disk, at, known, inode)?;
    let agreed = check_chain(disk, at, known, inode)?;
    known.learn(inode, agreed);
    Ok(agreed)
}

// Walks the way up by each back link of an inode.
fn learn_above<D: Disk>(
    disk: &mut D,
    at: &SuperBlock,
    known: &mut Known,
    inode: u32,
) -> Result<(), Failed>
    requires { IsAt (D.state disk.old) at.now }
    ensures { LearnsAbove (D.state disk.old) (D.state disk.new) known.old known.new result }
{
    let mut last = LastRead::NONE;
    let it = read_inode(disk, at, inode, &mut last)?;
    if it.kind.is_none() {
        return Ok(());
    }
    for place in 0..4 {
        let link = it.links[place];
        learn_link(disk, at, known, inode, &it, &link, &mut last)?;
    }
    Ok(())
}

// Walks the way up by a back link, where it is a pair.
fn learn_link<D: Disk>(
    disk: &mut D,
    at: &SuperBlock,
    known: &mut Known,
    inode: u32,
    it: &Record,
    link: &BackLink,
    last: &mut LastRead,
) -> Result<(), Failed>
    requires record { KnowsInode (D.state disk.old) at.now inode it.now }
    requires last { IsLast (D.state disk.old) last.old }
    ensures { LearnsChain (D.state disk.old) (D.state disk.new) known.old known.new last.new result }
{
    match read_pair(disk, at, inode, it, link, last)? {
        None => Ok(()),
        Some(record) => {
            let directory = Directory {
                inode: link.directory,
                record,
            };
            learn_directory(disk, at, known, directory, last)
        }
    }
}

// Walks the way up from a directory twice: what the first walk finds at its end, the second one keeps.
fn learn_directory<D: Disk>(
    disk: &mut D,
    at: &SuperBlock,
    known: &mut Known,
    directory: Directory,
    last: &mut LastRead,
) -> Result<(), Failed>
    requires record { KnowsDirectory (D.state disk.old) at.now directory.inode directory.record.generation
        directory.record }
    requires last { IsLast (D.state disk.old) last.old }
    ensures { LearnsChain (D.state disk.old) (D.state disk.new) known.old known.new last.new result }
{
    let agreed = is_agreed_directory(disk, at, known, directory, last)?;
    keep_way(disk, at, known, directory, agreed, last)
}

// Makes known of each directory on the way up, as far as nothing is known of it, what this one is.
fn keep_way<D: Disk>(
    disk: &mut D,
    at: &SuperBlock,
    known: &mut Known,
    directory: Directory,
    agreed: bool,
    last: &mut LastRead,
) -> Result<(), Failed>
    requires record { KnowsDirectory (D.state disk.old) at.now directory.inode directory.record.generation
        directory.record }
    requires agreed { IsTrue (D.state disk.old).tells → AreTrue (D.state disk.old).now known.old
        → agreed ≡ files.agreed (files.files_in (D.state disk.old).now) directory.inode }
    requires last { IsLast (D.state disk.old) last.old }
    ensures { LearnsChain (D.state disk.old) (D.state disk.new) known.old known.new last.new result }
{
    let mut here = directory;
    while known.told(here.inode).is_none() {
        known.learn(here.inode, agreed);
        if is_root(here.inode, &here.record) {
            return Ok(());
        }
        if is_special(here.inode) {
            return Ok(());
        }
        match read_parent(disk, at, &here, last)? {
            None => return Ok(()),
            Some(parent) => here = parent,
        }
    }
    Ok(())
}
