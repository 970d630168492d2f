//! One entry of a directory's cell. It takes no memory.
ghost use Rattle.std.specs.Prelude.{◌≡◌, ◌<◌, IfSome, IsTrue, Some, is_some, not};
ghost use Rattle.nofs_dirent.specs.Entries.{entry_in};
ghost use Rattle.nofs_names.specs.Searches.Slots.{IsEntrySpelled, named_in};

use nofs_dirent::{bytes_of, is_entry};
use nofs_disk::{read_u32_at, read_u64_at};

/// The inode that an entry names.
#[derive(Clone, Copy)]
pub struct Named {
    pub inode: u32,
    pub generation: u64,
}

/// The inode that the entry at a place names; `None` where the place is empty.
pub(crate) fn named_at(payload: &[u8; 1024], at: u32) -> Option<Named>
    requires { at < 16 }
    ensures value { result ≡ named_in (entry_in payload.now at) }
    ensures some { IfSome result IsEntrySpelled }
{
    if is_empty(payload, at) {
        None
    } else {
        Some(named_inode(payload, at))
    }
}

/// Whether a place is empty.
pub(crate) fn is_empty(payload: &[u8; 1024], at: u32) -> bool
    requires { at < 16 }
    ensures { result ≡ not (is_some (entry_in payload.now at)) }
{
    !is_entry(bytes_of(payload, at))
}

/// The inode that the entry at a place names.
pub(crate) fn named_inode(payload: &[u8; 1024], at: u32) -> Named
    requires place { at < 16 }
    requires entry { IsTrue (is_some (entry_in payload.now at)) }
    ensures value { named_in (entry_in payload.now at) ≡ Some result }
    ensures spelled { IsEntrySpelled result }
{
    let bytes = bytes_of(payload, at);
    Named {
        inode: read_u32_at(bytes, 0),
        generation: read_u64_at(bytes, 8),
    }
}
