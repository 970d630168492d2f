//! What an accepted step gives, with its places looked up and its cell made.
//!
//! Promise: none by itself. `given_of` of `specs/Accepted/Given.antt` says what it is in the words of the machine.

use nofs_inode::inode::{BackLink, FileKind};

/// A cell for a slot of one generation of an inode.
#[derive(Drop)]
pub struct GivenCell {
    pub inode: u32,
    pub generation: u64,
    pub slot: u64,
    pub cell: Box<[u8; 1024]>,
}

/// What a file becomes beside its content, or that it is gone.
#[derive(Drop)]
pub enum MetaNow {
    Gone,
    Is {
        kind: FileKind,
        size: u64,
        links: [BackLink; 4],
    },
}

/// What one generation of an inode becomes.
#[derive(Drop)]
pub struct GivenMeta {
    pub inode: u32,
    pub generation: u64,
    pub meta: MetaNow,
}

/// A new file without content, with one back link.
#[derive(Drop)]
pub struct Birth {
    pub inode: u32,
    pub generation: u64,
    pub kind: FileKind,
    pub link: BackLink,
}

/// What a step gives.
#[derive(Drop)]
pub enum GivenNow {
    Nothing,
    /// Another size to one generation of an inode.
    Size {
        inode: u32,
        generation: u64,
        size: u64,
    },
    /// A cell, and what an inode becomes.
    Cell {
        cell: GivenCell,
        meta: Option<GivenMeta>,
    },
    /// A cell of a directory, and a new file.
    Make {
        cell: GivenCell,
        birth: Birth,
    },
}
