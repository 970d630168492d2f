//! The calls of a disk in memory, and which of them are to fail.
//!
//! Promise: a call is to fail exactly where its kind and number were named.
ghost use Rattle.std.specs.Prelude.{◌≡◌};
ghost use Rattle.nofs_versions.specs.Faults.{fault_of};

use nofs_disk::Cell;

/// The kinds of calls that can be made to fail.
#[derive(Clone, Copy, Debug, PartialEq, Eq)]
pub enum CallKind {
    Read,
    Write,
    Flush,
}

/// A call that is to fail.
#[derive(Clone, Copy, Debug, PartialEq, Eq)]
pub struct FaultAt {
    /// The kind of the call.
    pub call: CallKind,
    /// Its number among the calls of that kind, from 1 on.
    pub number: u64,
    /// Whether a write that fails is taken. It means nothing for other kinds.
    pub taken: bool,
}

/// Which of the cells that a block may hold an image takes.
#[derive(Clone, Copy, Debug, PartialEq, Eq)]
pub struct Pick {
    /// The number of the block, from 0 on.
    pub block: u64,
    /// 0 is the flushed cell; then come those that were written since, in order.
    pub version: u64,
}

/// How many calls of each kind were made, up to the greatest u64.
#[derive(Clone, Copy, Debug, PartialEq, Eq)]
pub struct CallCounts {
    pub reads: u64,
    pub writes: u64,
    pub flushes: u64,
}

/// A write or flush that was made.
#[derive(Clone, Copy)]
pub enum Call {
    Write { block: u64, cell: Cell, taken: bool },
    Flush { settles: bool },
}

/// The fault that a call is to have: whether it is taken all the same.
pub fn fault_at(fails: &[FaultAt], call: CallKind, number: u64) -> Option<bool>
    ensures { result ≡ fault_of fails.now call number }
{
    fails
        .iter()
        .find(|fault| fault.call == call && fault.number == number)
        .map(|fault| fault.taken)
}
