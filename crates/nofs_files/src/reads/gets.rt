//! The content of a slot.
ghost use Rattle.std.specs.Prelude.{◌≡◌, false};
ghost use Rattle.nofs_history.specs.Faults.{is_fault};
ghost use Rattle.nofs_history.specs.Claims.{no_claims};
ghost use Rattle.nofs_history.specs.Steps.{is_out_of_memory};
ghost use Rattle.nofs_history.specs.declared.machine.steps.Step.TheVariants as step;
ghost use Rattle.nofs_history.specs.declared.machine.replies.Refusal.TheVariants as refusal;
ghost use Rattle.nofs_history.specs.declared.machine.replies.Reply.TheVariants as reply;
ghost use Rattle.nofs_state.specs.Books.Maps.{IsSafe};
ghost use Rattle.nofs_state.specs.Cores.FirstRows.{RefusesEarly};
ghost use Rattle.nofs_state.specs.Cores.Steps.{Goes};
ghost use Rattle.nofs_files.specs.Reads.{KeptButBytes, got_answer};

use crate::reads::files::{find_content, open_file, slots_of};
use nofs_agree::{LastRead, PathAnswer};
use nofs_disk::Disk;
use nofs_history::Refusal;
use nofs_state::Core;

/// What a slot gives.
#[derive(Clone, Copy, Debug, PartialEq, Eq)]
pub enum Got {
    /// The slot's 1,024 bytes.
    Bytes,
    /// Nothing was ever put there.
    Hole,
    /// A crash or damage took the content.
    Lost,
}

/// Reads a slot of a file, whatever the size. Where there are bytes, `into` has them, and else it is as it was: no
/// bytes of a block that is lost come there. It takes no memory, and has only read, so its caller may still find none
/// for them. A slot that no file has is `TooLarge`, and nothing else is, over any disk.
pub fn get<D: Disk + Drop>(
    core: &mut Core<D>,
    inode: u32,
    generation: u64,
    slot: u64,
    into: &mut [u8; 1024],
) -> Result<Got, Refusal>
    requires { IsSafe (D.state core.old.disk) core.old.books }
    ensures goes { Goes (D.state core.old.disk) core.old.books (D.state core.new.disk) core.new.books
        (step.Get inode generation slot) no_claims (got_answer into.new result) }
    ensures memory { is_fault (got_answer into.new result) ≡ false
        → Goes (D.state core.old.disk) core.old.books (D.state core.new.disk) core.new.books
        (step.Get inode generation slot) no_claims (reply.Refused refusal.OutOfMemory) }
    ensures no_memory { is_out_of_memory (got_answer into.new result) ≡ false }
    ensures kept { KeptButBytes into.old into.new result }
    ensures early { RefusesEarly core.old.books (step.Get inode generation slot) (got_answer into.new result) }
{
    if core.books.stopped {
        return Err(Refusal::Stopped);
    }
    if slot >= slots_of(&core.books.at) {
        return Err(Refusal::TooLarge);
    }
    let mut last = LastRead::NONE;
    let it = match open_file(&mut core.disk, &core.books, inode, generation, &mut last) {
        Ok(it) => it,
        Err(why) => return Err(why),
    };
    let found = match find_content(&mut core.disk, &mut last, &core.books.at, inode, &it, slot) {
        Ok(found) => found,
        Err(_) => return Err(Refusal::ReadFault),
    };
    match found {
        PathAnswer::Hole => Ok(Got::Hole),
        PathAnswer::Lost => Ok(Got::Lost),
        PathAnswer::Holds(_) => {
            *into = last.cell.payload;
            Ok(Got::Bytes)
        }
    }
}
