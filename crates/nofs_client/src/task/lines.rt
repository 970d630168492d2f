//! The line that a command ends with.

use nofs_dirent::{Content, ListOf};
use nofs_history::{NameLine, Refusal, Stat};

/// What was got of one slot: only the bytes that were asked for.
#[derive(Drop)]
pub enum GotPart {
    /// The bytes.
    Bytes(Content),
    /// So many bytes that were never written: they are zero.
    Hole(u64),
    /// So many bytes that a crash took.
    Lost(u64),
}

/// One part of a list: a name, or a slot of the directory that a crash took.
#[derive(Drop)]
pub enum ListPart {
    /// An entry.
    Name(NameLine),
    /// The lost slot.
    Lost(u64),
}

/// The parts of a get, by slot.
pub type GotParts = ListOf<GotPart>;

/// The parts of a list, in the order of the directory.
pub type ListParts = ListOf<ListPart>;

/// The line of a command (docs/FORMAT.md, "Lines").
#[derive(Drop)]
pub enum Line {
    /// A file or a directory was made.
    Made,
    /// So many bytes were put.
    Put(u64),
    /// The bytes that were asked for, as far as the file goes.
    Got(GotParts),
    /// The new size in bytes.
    Sized(u64),
    /// Kind, size and number of names.
    Stat(Stat),
    /// What the directory holds.
    Names(ListParts),
    /// The further name was given.
    Linked,
    /// The name was taken away.
    Dropped,
    /// The name was replaced.
    Renamed,
    /// What was accepted is durable.
    Synced,
    /// The file was moved.
    Moved,
    /// A step was refused. The line of every command but a put.
    Refused(Refusal),
    /// A step of a put was refused, after so many bytes were stored.
    RefusedPut { refusal: Refusal, stored: u64 },
}

/// The lines of one user, in order.
pub type LineList = ListOf<Line>;
