//! What is read of an element under the turn. No verdict is among it.
//!
//! Of a record, and of a block above a slot, it is what a verdict can depend on, and no more.
use nofs_disk::{Kind, Pointer, Tag};
use nofs_inode::FileKind;

/// What is kept of an entry of a directory: whom it names.
#[derive(Clone, Copy)]
pub struct EntryTarget {
    pub inode: u32,
    pub generation: u64,
}

/// A back link, and what it leads to.
#[derive(Clone, Copy)]
pub struct LinkSight {
    /// The generation of the directory that the link names.
    pub generation: u64,
    /// The entry that the link names; `None` where there is none, and where the directory is not one
    /// of the link's generation.
    pub entry: Option<EntryTarget>,
    /// Whether the directory is agreed.
    pub agreed: bool,
}

/// What was read of an inode.
#[derive(Clone, Copy)]
pub struct InodeSight {
    pub inode: u32,
    /// The generation in its record.
    pub generation: u64,
    /// `None` where the inode is free.
    pub kind: Option<FileKind>,
    /// Its back links.
    pub links: [LinkSight; 4],
}

/// What was read of a block above a slot.
#[derive(Clone, Copy)]
pub struct Above {
    /// The bytes of its tag. They are zeros, the tag of an unused block, where the block is not in the data area.
    pub tag: [u8; 32],
    /// The pointer in it, towards the slot.
    pub pointer: Pointer,
}

/// The blocks above a slot.
#[derive(Clone, Copy)]
pub struct BlocksAbove {
    /// The leaf or the top, where the slot is under it.
    pub upper: Above,
    /// The child of the top, where the slot is under it.
    pub lower: Above,
}

impl Above {
    /// Nothing: there is no such block above the slot, or none in the data area.
    pub const NONE: Above = Above {
        tag: [0; 32],
        pointer: Pointer::NULL,
    };
}

impl BlocksAbove {
    /// No block: the pointer is in the record.
    pub const NONE: BlocksAbove = BlocksAbove {
        upper: Above::NONE,
        lower: Above::NONE,
    };
}

/// What the record of a tag's inode says of the tag's slot.
#[derive(Clone, Copy)]
pub struct OwnerSight {
    /// Whether the inode is in use.
    pub live: bool,
    pub generation: u64,
    /// What a block in the slot is for.
    pub kind: Kind,
    /// The slot's pointer, or that of the upper block.
    pub pointer: Pointer,
}

/// A block's tag that names a slot, and what was read of that slot.
#[derive(Clone, Copy)]
pub struct TagSight {
    pub tag: Tag,
    pub owner: OwnerSight,
    pub way: BlocksAbove,
    /// Whether the inode is agreed.
    pub agreed: bool,
}

/// What was read of a block of the data area.
#[derive(Clone, Copy)]
pub struct BlockSight {
    pub block: u64,
    /// `None` where the block has no tag, or the tag names no slot of an inode, as that of an unused block.
    pub tagged: Option<TagSight>,
}

/// What was read of an element.
#[derive(Clone, Copy)]
pub enum Sight {
    Inode(InodeSight),
    Block(BlockSight),
    /// A block of the superblock or the inode table. Nothing of it is read.
    Fixed(u64),
}
