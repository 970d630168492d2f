//! Making durable what was written.
ghost use Rattle.std.specs.Prelude.{◌≡◌, ◌≤◌, ◌==◌, ◌&&◌, OnOk, true};
ghost use Rattle.nofs_disk.specs.Disk.{IsSettled};
ghost use Rattle.nofs_history.specs.Claims.{no_claims};
ghost use Rattle.nofs_history.specs.declared.machine.steps.Step.TheVariants as step;
ghost use Rattle.nofs_state.specs.Books.Maps.{IsSafe};
ghost use Rattle.nofs_state.specs.Cores.Steps.{Goes};
ghost use Rattle.nofs_files.specs.Reads.{FlushesDisk, answers_whole, flush_answer};

use nofs_agree::LastRead;
use nofs_disk::Disk;
use nofs_history::Refusal;
use nofs_state::{Core, open_inode};

/// Makes all that was written durable. Inode 0 of generation 0 names the whole disk. Where it is done, a crash leaves
/// just what a read gives. Over any disk, a flush of the whole disk is made, or fails, or finds no memory, or the mount
/// is stopped.
pub fn flush<D: Disk + Drop>(core: &mut Core<D>, inode: u32, generation: u64) -> Result<(), Refusal>
    requires { IsSafe (D.state core.old.disk) core.old.books }
    ensures goes { Goes (D.state core.old.disk) core.old.books (D.state core.new.disk) core.new.books
        (step.Flush inode generation) no_claims (flush_answer result) }
    ensures settled { OnOk result (IsSettled (D.state core.new.disk)) }
    ensures whole { ((inode == 0) && (generation == 0)) ≡ true → answers_whole result ≡ true }
{
    match core.disk.ready(1) {
        Ok(()) => flush_with_room(core, inode, generation),
        Err(_) => Err(Refusal::OutOfMemory),
    }
}

fn flush_with_room<D: Disk + Drop>(
    core: &mut Core<D>,
    inode: u32,
    generation: u64,
) -> Result<(), Refusal>
    requires safe { IsSafe (D.state core.old.disk) core.old.books }
    requires spare { 1 ≤ (D.state core.old.disk).spare }
    ensures goes { Goes (D.state core.old.disk) core.old.books (D.state core.new.disk) core.new.books
        (step.Flush inode generation) no_claims (flush_answer result) }
    ensures settled { OnOk result (IsSettled (D.state core.new.disk)) }
    ensures whole { ((inode == 0) && (generation == 0)) ≡ true → answers_whole result ≡ true }
{
    if core.books.stopped {
        return Err(Refusal::Stopped);
    }
    if names_disk(inode, generation) {
        return flush_disk(core);
    }
    let mut last = LastRead::NONE;
    match open_inode(&mut core.disk, &core.books, inode, generation, &mut last) {
        Ok(_) => flush_disk(core),
        Err(why) => Err(why),
    }
}

// Whether these name the whole disk.
fn names_disk(inode: u32, generation: u64) -> bool
    ensures { result ≡ ((inode == 0) && (generation == 0)) }
{
    inode == 0 && generation == 0
}

fn flush_disk<D: Disk + Drop>(core: &mut Core<D>) -> Result<(), Refusal>
    requires { 1 ≤ (D.state core.old.disk).spare }
    ensures { FlushesDisk (D.state core.old.disk) core.old.books (D.state core.new.disk) core.new.books result }
{
    match core.disk.flush() {
        Ok(()) => Ok(()),
        Err(_) => {
            core.books.stopped = true;
            Err(Refusal::WriteFault)
        }
    }
}
