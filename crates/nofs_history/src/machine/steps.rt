//! What a mount is asked, one locked section of work at a time.
//!
//! Promise: whoever makes steps through `Steps` gets replies that fit them.
ghost use Rattle.std.specs.Prelude.{◌≡◌, List};
ghost use Rattle.nofs_history.specs.Steps.{Made, Fits, with_made};

use crate::machine::replies::Reply;
use nofs_dirent::{Content, Name};
use nofs_inode::inode::FileKind;

/// An atomic step of the mounted file system.
///
/// A file or directory is named by its inode number together with its generation, so that a number
/// that was given to a later file is never taken for the earlier one. A slot is the place of a block
/// of 1,024 bytes in its file, counted from 0.
#[derive(Drop)]
pub enum Step {
    /// Finds the file of a name.
    Look {
        directory: u32,
        generation: u64,
        name: Name,
    },
    /// Makes a file or directory under a new name.
    Make {
        directory: u32,
        generation: u64,
        name: Name,
        kind: FileKind,
    },
    /// Gives the file `inode` of generation `of` a further name.
    Link {
        directory: u32,
        generation: u64,
        name: Name,
        inode: u32,
        of: u64,
    },
    /// Takes a name away, and with its last name the file.
    Drop {
        directory: u32,
        generation: u64,
        name: Name,
    },
    /// Changes a name in its place.
    Rename {
        directory: u32,
        generation: u64,
        old: Name,
        new: Name,
    },
    /// Lists the first slot of a directory, at or after the given one, that isn't a hole.
    List {
        directory: u32,
        generation: u64,
        slot: u64,
    },
    /// Reads a slot.
    Get {
        inode: u32,
        generation: u64,
        slot: u64,
    },
    /// Writes bytes into a slot, from byte `at` of the slot on.
    Put {
        inode: u32,
        generation: u64,
        slot: u64,
        at: u32,
        bytes: Content,
    },
    /// Gives a file another size, in bytes.
    Resize {
        inode: u32,
        generation: u64,
        size: u64,
    },
    /// Asks for kind, size and number of links.
    Stat {
        inode: u32,
        generation: u64,
    },
    /// Makes all that was written durable. Inode 0 of generation 0 names the whole disk.
    Flush {
        inode: u32,
        generation: u64,
    },
    /// Examines an inode: is it used?
    SeeInode {
        inode: u32,
    },
    /// Examines a block: is it used?
    SeeBlock {
        block: u64,
    },
}

/// What a scan examines.
#[derive(Clone, Copy, Debug, PartialEq, Eq)]
pub enum ElementKind {
    Inode,
    Block,
}

/// Whoever makes steps: a mount, one of several passes to it, or a stand-in of a test.
pub trait Steps {
    /// The steps that were made, each with its reply, in order.
    ghost made: { Self → List Made };

    /// What any number of steps keeps, those of other callers too.
    ghost goes: { Self → Self → Type 0 };

    /// Makes one step. It is added to the steps made, but not where memory was wanting.
    fn step(&mut self, step: Step) -> Reply
        ensures made { made self.new ≡ with_made (made self.old) step result }
        ensures fits { Fits step result }
        ensures goes { goes self.old self.new };

    /// No step keeps all.
    ghost goes_none: { (steps : Self) → goes steps steps };

    /// What is kept twice is kept.
    ghost goes_on: { (a b c : Self) → goes a b → goes b c → goes a c };
}
