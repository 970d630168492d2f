//! A file is written to a disk in memory, the power fails, and what is left is mounted again.
//!
//! Promise: what the power cut leaves of a sound disk is a sound disk, so the next mount may rely on it, and it is what
//! the promise allows of the steps that were made (`IsAllowed` in `nofs_history`).
#![tactic(auto)]

mod notes;

ghost use Rattle.std.specs.Prelude.{◌≡◌, All, IfOk};
ghost use Rattle.nofs_client.specs.Task.Commands.{AreWellFormed};
ghost use Rattle.nofs_example.specs.Cut.{LeavesAllowed};
ghost use Rattle.nofs_memdisk.specs.Parts.{memory_state};
ghost use Rattle.nofs_shared.specs.Mount.Invariant.{IsSoundDisk};
ghost use Rattle.nofs_versions.specs.Memory.{PicksVersions};

use crate::notes::{read_the_file, text_of, write_the_file};
use nofs_client::{Client, CommandList, LineList};
use nofs_disk::Disk;
use nofs_history::FIRST_USER;
use nofs_memdisk::{MemDisk, Pick};
use nofs_model::law_formatted;
use nofs_shared::{Mount, SharedMount};
use nofs_super::format;
use std::alloc::{AllocError, Global};
use std::io;
use std::sync::Wait;

/// A formatted disk. `new` takes the memory of its cells, and `format` that of its calls before it makes the first one:
/// it writes each block once and flushes once. What it leaves is sound, as each promise on contents asks.
fn formatted(alloc: Global) -> io::Result<MemDisk>
    ensures sound { IfOk result (λ disk. IsSoundDisk (memory_state disk)) }
{
    law_formatted();
    let mut disk = MemDisk::new(alloc, 64)?;
    match format(&mut disk, 64, 16) {
        Ok(()) => Ok(disk),
        Err(_) => Err(io::Error::other("not formatted")),
    }
}

/// The disk, mounted. `begin` takes the memory of the mount, but not of its history, before it writes block 0 and
/// flushes; where it refuses, the disk comes back in the error.
fn mounted(alloc: Global, disk: MemDisk) -> io::Result<Mount<MemDisk>>
    ensures found { IfOk result (λ mount. mount.found.value ≡ disk) }
{
    match Mount::begin(alloc, disk, 0) {
        Ok(mount) => Ok(mount),
        Err(_) => Err(io::Error::other("not mounted")),
    }
}

/// Runs commands as the only user of a mount. `run_all` makes the steps that each command asks for. A step waits until
/// no other user has the turn, so here never, and takes the memory of its entry in the history: where that is wanting
/// it is not made, and the run ends early.
fn run<R: Wait>(
    rt: &R,
    alloc: Global,
    mount: Mount<MemDisk>,
    commands: &CommandList,
) -> io::Result<(Mount<MemDisk>, LineList)>
    requires formed { AreWellFormed commands.now }
    ensures found { IfOk result (λ ran. ran.0.found.value ≡ mount.found.value) }
{
    let Ok((shared, mut passes)) = SharedMount::new(alloc, mount, 1) else {
        return Err(AllocError.into());
    };
    let Some(pass) = passes.pop() else {
        return Err(io::Error::other("no pass"));
    };
    let mut user = Client::new(shared.pass(rt, alloc, FIRST_USER, pass));
    let mut lines = LineList::new(alloc);
    user.run_all(alloc, commands, &mut lines)?;
    let pass = user.into_inner().back();
    match shared.close(pass) {
        Ok(mount) => Ok((mount, lines)),
        Err(_) => Err(io::Error::other("a pass is out")),
    }
}

/// The power fails: of each block the disk has kept the cell that was last flushed, and no later one. `end` makes no
/// call of the disk, and `image` takes the memory of the new one.
fn cut(alloc: Global, mount: Mount<MemDisk>) -> Result<MemDisk, AllocError>
    ensures leaves { IfOk result (λ left. IsSoundDisk (memory_state mount.found.value)
        → ∥ LeavesAllowed (memory_state mount.core.disk) mount.core.books.history (memory_state left) ∥₁) }
{
    let (disk, _history) = mount.end();
    let flushed = flushed_cells(alloc, &disk)?;
    disk.image(alloc, flushed.as_slice())
}

// Of each block the oldest cell that a crash may leave.
fn flushed_cells(alloc: Global, disk: &MemDisk) -> Result<Vec<Pick>, AllocError>
    ensures { IfOk result (λ picks. All (PicksVersions (memory_state disk.now)) picks.items) }
{
    let mut picks = Vec::new(alloc);
    for block in 0..disk.blocks() {
        picks.push(Pick { block, version: 0 })?;
    }
    Ok(picks)
}

fn main(rt: HostRuntime) -> io::Result<()> {
    let alloc = rt.alloc();
    let mount = mounted(alloc, formatted(alloc)?)?;
    let (mount, lines) = run(&rt, alloc, mount, &write_the_file(alloc)?)?;
    for line in lines.as_slice() {
        println!(rt; "{}", text_of(line))?;
    }
    let mount = mounted(alloc, cut(alloc, mount)?)?;
    let (_mount, lines) = run(&rt, alloc, mount, &read_the_file(alloc)?)?;
    for line in lines.as_slice() {
        println!(rt; "after the power cut: {}", text_of(line))?;
    }
    Ok(())
}
