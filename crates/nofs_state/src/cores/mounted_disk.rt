//! A mounted disk.
ghost use Rattle.std.specs.Prelude.{◌≡◌, ◌+◌, ◌-◌, ◌∷◌, ◌++◌, ◌*◌, ◌^◌, ◌<◌, ◌≤◌, [], IsTrue};
ghost use Rattle.nofs_disk.specs.Disk.{IsSettled};
ghost use Rattle.nofs_model.specs.Geometry.{is_mountable};
ghost use Rattle.nofs_model.specs.Sound.{IsBelow};
ghost use Rattle.nofs_agree.specs.Reads.{IsAt};
ghost use Rattle.nofs_state.specs.Books.Maps.{IsRoom, IsSafe, with_history};
ghost use Rattle.nofs_state.specs.Cores.Invariant.{IsOpen};
ghost use Rattle.nofs_state.specs.Cores.Beginning.{HasBegun, first_past};
ghost use Rattle.nofs_state.specs.Cores.WriteOuts.{WroteOne};

use crate::books::maps::{Books, Room};
use nofs_disk::{Disk, OutFault};
use nofs_history::{Claims, Entry1, Reply, Step};
use nofs_super::SuperBlock;

/// A device, and what a mount keeps in memory of it.
#[derive(Drop)]
pub struct Core<D: Disk + Drop> {
    pub disk: D,
    pub books: Books,
}

impl<D: Disk + Drop> Core<D> {
    /// A core over a disk as a mount leaves it: only the superblock, the inode table, the root and
    /// the label file are known. It takes no memory.
    pub fn over(disk: D, at: SuperBlock, first: u64, room: Room) -> Core<D>
        requires numbers { IsAt (D.state disk) at }
        requires mount { at.mount < 2 ^ 24 }
        requires first { first ≤ 2 ^ 40 }
        requires room { IsRoom at room }
        ensures disk { result.disk ≡ disk }
        ensures safe { IsSafe (D.state disk) result.books }
        ensures begun { HasBegun (D.state disk) at result.books }
        ensures open { IsTrue (D.state disk).tells → IsSettled (D.state disk)
            → IsTrue (is_mountable (D.state disk).now)
            → 0 < at.mount * 2 ^ 40 + first → IsBelow (at.mount * 2 ^ 40 + first) (D.state disk).now
            → IsOpen (D.state disk) result.books [] (first_past (D.state disk) first) }
    {
        let mut history = room.history;
        history.restart(disk.moment());
        Core {
            disk,
            books: Books {
                at,
                unknown_inodes: room.unknown_inodes,
                free_inodes: room.free_inodes,
                agreement: room.agreement,
                unknown_blocks: room.unknown_blocks,
                free_blocks: room.free_blocks,
                serial: first,
                stopped: false,
                history,
            },
        }
    }

    /// Adds the entry of a step that ends now. It takes no memory.
    pub fn keep_step(&mut self, caller: u32, from: u64, step: Step, reply: Reply, claims: Claims)
        requires { 0 < self.old.books.history.spare }
        ensures disk { self.new.disk ≡ self.old.disk }
        ensures books { self.new.books ≡ with_history self.old.books (record {
          start = self.old.books.history.start;
          entries = self.old.books.history.entries
              ++ record {
                caller = caller;
                from = from;
                to = (D.state self.old.disk).moment;
                step = step;
                reply = reply;
                claims = claims;
              } ∷ [];
          spare = self.old.books.history.spare - 1;
        }) }
    {
        let to = self.disk.moment();
        self.books.history.push(Entry1 {
            caller,
            from,
            to,
            step,
            reply,
            claims,
        });
    }

    /// Writes out one block that the device kept back, and names it; `None` where there is none. It makes room for one
    /// call first.
    pub fn write_out(&mut self) -> Result<Option<u64>, OutFault>
        ensures books { self.new.books ≡ self.old.books }
        ensures out { WroteOne (D.state self.old.disk) (D.state self.new.disk) result }
    {
        match self.disk.ready(1) {
            Ok(()) => {}
            Err(_) => return Err(OutFault::OutOfMemory),
        }
        match self.disk.write_out() {
            Ok(block) => Ok(block),
            Err(_) => Err(OutFault::Failed),
        }
    }
}
