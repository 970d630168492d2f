//! What a step is answered.

ghost use Rattle.std.specs.Prelude.{◌≡◌};
ghost use Rattle.nofs_history.specs.Steps.{is_out_of_memory};
ghost use Rattle.nofs_history.specs.Faults.{is_fault};

use nofs_dirent::{Content, ListOf, Name};
use nofs_inode::inode::FileKind;

/// The file that a name leads to.
#[derive(Clone, Copy, Debug, PartialEq, Eq)]
pub struct Found {
    pub inode: u32,
    pub generation: u64,
    pub kind: FileKind,
}

/// What is known of a file beside its content. The size is in bytes, 0 for a directory; `links` counts
/// the names that lead to it.
#[derive(Clone, Copy, Debug, PartialEq, Eq)]
pub struct Stat {
    pub kind: FileKind,
    pub size: u64,
    pub links: u32,
}

/// One name of a directory. A dead name leads to no file, and has the kind `File`.
#[derive(Drop)]
pub struct NameLine {
    pub name: Name,
    pub kind: FileKind,
    pub dead: bool,
}

/// The names of one slot of a directory, in the order of their places.
pub type NameList = ListOf<NameLine>;

/// The reply to a step.
#[derive(Drop)]
pub enum Reply {
    /// To Look.
    Found(Found),
    /// To Make.
    Made { inode: u32, generation: u64 },
    /// To Link.
    Linked,
    /// To Drop. `removed` where it was the last name, so that the file is gone.
    Dropped { removed: bool },
    /// To Rename.
    Renamed,
    /// To List: the slot, and its names.
    Names(u64, NameList),
    /// To List: the slot's content is lost.
    LostNames(u64),
    /// To List: no slot from the given one on has names.
    NoMore,
    /// To Get: the slot's 1,024 bytes.
    Bytes(Content),
    /// To Get: nothing was ever put there, which reads as zeros.
    Hole,
    /// To Get: a crash or damage took the content.
    Lost,
    /// To Put.
    Stored,
    /// To Resize.
    Resized,
    /// To Stat.
    Stat(Stat),
    /// To Flush.
    Flushed,
    /// To SeeInode and SeeBlock.
    Seen { used: bool },
    /// The step was not accepted.
    Refused(Refusal),
}

impl Reply {
    /// Whether memory was wanting.
    pub fn is_out_of_memory(&self) -> bool
        ensures { result ≡ is_out_of_memory self.now }
    {
        matches!(self, Reply::Refused(Refusal::OutOfMemory))
    }

    /// Whether a call of the device failed.
    pub fn is_fault(&self) -> bool
        ensures { result ≡ is_fault self.now }
    {
        matches!(
            self,
            Reply::Refused(Refusal::ReadFault | Refusal::WriteFault)
        )
    }
}

/// Why a step was refused. But for `WriteFault`, a refused step changed nothing.
#[derive(Clone, Copy, Debug, PartialEq, Eq)]
pub enum Refusal {
    /// No entry of the directory has the name.
    Missing,
    /// Entries have the name, and none leads to a file. The least of them.
    LostEntry {
        entry: u32,
    },
    /// The content of a slot that the step needs is lost.
    LostSlot {
        slot: u64,
    },
    /// The new name leads to a file already.
    Exists,
    /// What was given as a directory is a file.
    NotDirectory,
    /// What was given as a file is a directory.
    IsDirectory,
    /// The directory still has a name that leads to a file.
    NotEmpty,
    /// A given name can't be that of a file.
    BadName,
    /// The bytes don't lie in one slot, or there are none; or no such inode or block is on the disk.
    BadRange,
    /// The file has no room for a further name.
    TooManyLinks,
    /// The directory has no room for a further entry.
    DirectoryFull,
    /// The slot or the size is beyond what a file can have.
    TooLarge,
    /// A put would leave a gap behind the end of the file.
    PastEnd,
    /// The file or directory isn't there any more.
    Stale,
    /// Fewer free blocks than needed are known. `next` is the least block that was not examined, 0 where
    /// all were.
    Full {
        needed: u64,
        free: u64,
        unverified: u64,
        next: u64,
    },
    /// No free inode is known. `next` is the least inode that was not examined, 0 where all were.
    InodesFull {
        unverified: u64,
        next: u64,
    },
    /// The mount has given all its stamps.
    SerialsSpent,
    /// A read of the device failed; nothing was written.
    ReadFault,
    /// A write or flush of the device failed: the step may be done or not, and the mount is stopped.
    WriteFault,
    /// An earlier step had a write fault.
    Stopped,
    /// Memory was wanting.
    OutOfMemory,
}
