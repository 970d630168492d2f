//! One element is examined in one step.
ghost use Rattle.std.specs.Prelude.{◌≡◌, ◌||◌, ◌==◌, nat_lt};
ghost use Rattle.nofs_history.specs.declared.machine.steps.Step.TheVariants as step;
ghost use Rattle.nofs_state.specs.Books.Maps.{IsSafe};
ghost use Rattle.nofs_scan.specs.Steps.Sees.{Examines};

use nofs_disk::Disk;
use nofs_history::Refusal;
use nofs_state::Core;

/// Whether a block is used. It is known from then on. It takes no memory.
///
/// # Errors
///
/// `Stopped`; `BadRange` where there is no such block; `ReadFault` where a read failed.
pub fn see_block<D: Disk + Drop>(core: &mut Core<D>, block: u64) -> Result<bool, Refusal>
    requires { IsSafe (D.state core.old.disk) core.old.books }
    ensures { Examines (D.state core.old.disk) core.old.books (D.state core.new.disk) core.new.books
        (step.SeeBlock block) result }
{
    if core.books.stopped {
        return Err(Refusal::Stopped);
    }
    if block >= core.books.at.blocks {
        return Err(Refusal::BadRange);
    }
    match core.verify_block(block) {
        Ok(used) => Ok(used),
        Err(_) => Err(Refusal::ReadFault),
    }
}

/// Whether an inode is used. It is known from then on. It takes no memory.
///
/// # Errors
///
/// `Stopped`; `BadRange` where there is no such inode; `ReadFault` where a read failed.
pub fn see_inode<D: Disk + Drop>(core: &mut Core<D>, inode: u32) -> Result<bool, Refusal>
    requires { IsSafe (D.state core.old.disk) core.old.books }
    ensures { Examines (D.state core.old.disk) core.old.books (D.state core.new.disk) core.new.books
        (step.SeeInode inode) result }
{
    let beyond = is_beyond(core.books.at.inodes, inode);
    if core.books.stopped {
        return Err(Refusal::Stopped);
    }
    if beyond {
        return Err(Refusal::BadRange);
    }
    match core.verify_inode(inode) {
        Ok(used) => Ok(used),
        Err(_) => Err(Refusal::ReadFault),
    }
}

// Whether a disk with so many inodes has no such one.
fn is_beyond(inodes: u64, inode: u32) -> bool
    ensures { result ≡ ((inode == 0) || nat_lt inodes inode) }
{
    inode == 0 || u64::from(inode) > inodes
}
