//! A stand-in for workers: it notes the elements that it is asked for.
ghost use Rattle.nofs_workers.specs.Sweep.{AreInRange};

use crate::mount::{Answers, Told};
use nofs_disk::OutFault;
use nofs_history::{ElementKind, Refusal, Reply, Step, Steps};
use nofs_workers::{Batches, WritesOut, see_of};
use std::alloc::Global;

/// What it was told, and what it notes.
#[derive(Drop)]
pub struct Fake {
    alloc: Global,
    /// How many further steps find memory.
    pub room: u64,
    /// The counts of the batches that were asked for.
    pub asked: Vec<u64>,
    /// Whether each look is refused.
    pub refuses: bool,
    /// The elements that were examined, in order.
    pub seen: Vec<u64>,
    /// How many commits were made.
    pub committed: u64,
    /// How many blocks are dirty.
    pub dirty: u64,
    /// How many write-outs were asked for.
    pub outs: u64,
    /// Which write-out fails, counted from 1; none at 0.
    pub fails_at: u64,
}

/// The evidence of a batch: an element is used where its number is odd.
#[derive(Drop)]
pub struct Odds {
    kind: ElementKind,
    items: Vec<u64>,
    ghost in_range: { AreInRange kind items.items },
}

impl Fake {
    /// A stand-in with room for 1,000 steps, and three dirty blocks.
    pub fn new(alloc: Global) -> Self {
        Fake {
            alloc,
            room: 1000,
            asked: Vec::new(alloc),
            refuses: false,
            seen: Vec::new(alloc),
            committed: 0,
            dirty: 3,
            outs: 0,
            fails_at: 0,
        }
    }

    /// Notes a step, where there is memory for it.
    fn note(&mut self, step: &Step) -> bool {
        if self.room == 0 {
            return false;
        }
        self.room -= 1;
        match step {
            Step::SeeInode { inode } => self.seen.push(u64::from(*inode)).is_ok(),
            Step::SeeBlock { block } => self.seen.push(*block).is_ok(),
            _ => false,
        }
    }
}

impl Answers for Fake {
    fn answer(&mut self, step: &Step) -> Reply {
        if self.note(step) {
            Reply::Seen { used: false }
        } else {
            Reply::Refused(Refusal::OutOfMemory)
        }
    }
}

impl Batches for Told<Fake> {
    ghost use Rattle.std.specs.Prelude.{◌%◌, nat_eq, get_or};

    type Evidence = Odds;

    ghost looked = { λ odds. record {
      kind = odds.kind;
      items = odds.items.items;
      verdict = λ at. nat_eq (get_or odds.items.items at 0 % 2) 1;
    } };

    ghost owns = { λ fake odds. Unit {0} };

    ghost lacks_room = { λ fake. Unit {0} };

    fn look_batch(&mut self, kind: ElementKind, items: &[u64]) -> Result<Odds, Refusal> {
        match self.answers.asked.push(items.len() as u64) {
            Ok(()) => {}
            Err(_) => return Err(Refusal::OutOfMemory),
        }
        if self.answers.refuses {
            return Err(Refusal::BadRange);
        }
        match Vec::from_slice(self.answers.alloc, items) {
            Ok(items) => Ok(Odds { kind, items }),
            Err(_) => Err(Refusal::OutOfMemory),
        }
    }

    fn judge(evidence: &Odds, at: u32) -> bool {
        evidence.items[at as usize] % 2 == 1
    }

    fn commit(&mut self, evidence: &Odds, at: u32, _used: bool) -> Reply {
        self.answers.committed = self.answers.committed.wrapping_add(1);
        self.step(see_of(evidence.kind, evidence.items[at as usize]))
    }

    fn see(&mut self, kind: ElementKind, item: u64) -> Reply {
        self.step(see_of(kind, item))
    }
}

impl WritesOut for Told<Fake> {
    ghost wrote = { λ old out new. Unit {0} };

    fn write_out(&mut self) -> Result<Option<u64>, OutFault> {
        let fake = &mut self.answers;
        fake.outs = fake.outs.wrapping_add(1);
        if fake.outs == fake.fails_at {
            return Err(OutFault::Failed);
        }
        if fake.dirty == 0 {
            return Ok(None);
        }
        fake.dirty -= 1;
        Ok(Some(fake.dirty))
    }
}
