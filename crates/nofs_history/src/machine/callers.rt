//! Who makes the steps of a mount: the number that an entry of the history has as its `caller`.

/// The caller of the steps that the program makes itself: the flush that closes a mount, and the reads of a drill.
pub const PROGRAM: u32 = 0;

/// The caller of a session's first user, and of a visitor. The users of a session have the numbers from here on.
pub const FIRST_USER: u32 = 1;

/// How many users a session has at most.
pub const MOST_USERS: u64 = 8;

/// The caller of the sweep of the inodes.
pub const INODE_SWEEPER: u32 = 9;

/// The caller of the sweep of the blocks.
pub const BLOCK_SWEEPER: u32 = 10;

/// The caller of the flusher, which writes cells out and makes no step.
pub const FLUSHER: u32 = 11;
