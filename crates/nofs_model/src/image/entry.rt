//! Whether an entry of a directory names an inode. It takes no memory.
ghost use Rattle.std.specs.Prelude.{◌≡◌, ◌<◌, ◌&&◌, length, nat_eq};
ghost use Rattle.nofs_disk.specs.Number.{number_at};
ghost use Rattle.nofs_dirent.specs.Entries.{entry_in, entry_of};
ghost use Rattle.nofs_model.specs.Files.{names};

use nofs_dirent::{bytes_of, is_entry};
use nofs_disk::{read_u32_at, read_u64_at};

/// Whether the entry at a place of a directory cell names this generation of an inode.
pub fn names_inode(payload: &[u8; 1024], at: u32, inode: u32, generation: u64) -> bool
    requires { at < 16 }
    ensures { result ≡ names (entry_in payload.now at) inode generation }
{
    has_entry(bytes_of(payload, at), inode, generation)
}

// Whether these 64 bytes spell an entry that names this generation of an inode.
fn has_entry(bytes: &[u8], inode: u32, generation: u64) -> bool
    requires { length bytes.now ≡ 64 }
    ensures { result ≡ names (entry_of bytes.now) inode generation }
{
    if !has_fields(bytes, inode, generation) {
        return false;
    }
    is_entry(bytes)
}

fn has_fields(bytes: &[u8], inode: u32, generation: u64) -> bool
    requires { length bytes.now ≡ 64 }
    ensures { result ≡ (nat_eq (number_at 4 0 bytes.now) inode && nat_eq (number_at 8 8 bytes.now) generation) }
{
    read_u32_at(bytes, 0) == inode && read_u64_at(bytes, 8) == generation
}
