//! The tag that the block of a slot has, and the pointer at a place of a record.
ghost use Rattle.std.specs.Prelude.{◌≡◌, ◌<◌};
ghost use Rattle.nofs_disk.specs.Tag.{tag_of};
ghost use Rattle.nofs_model.specs.Cells as cells;
ghost use Rattle.nofs_model.specs.Places.{place_path};
ghost use Rattle.nofs_model.specs.Slots as slots;

use crate::image::place::{Place, has_pointers};
use nofs_disk::{Kind, Pointer, Tag, read_tag};
use nofs_inode::{FileKind, Record};

/// The pointer at a place of a record: 0 to 7 direct, 8 that of the leaf, 9 that of the top.
pub fn record_pointer(it: &Record, place: u64) -> Pointer
    requires { place < 10 }
    ensures { result ≡ slots.record_pointer it.now place }
{
    match place {
        8 => it.leaf,
        9 => it.top,
        _ => it.direct[place as usize],
    }
}

/// The kind of a block in this place of an inode with this record.
pub fn kind_in(it: &Record, place: Place) -> Kind
    ensures { result ≡ slots.kind_in it.now (place_path place) }
{
    if has_pointers(place) {
        Kind::Leaf
    } else {
        content_kind(it.kind)
    }
}

fn content_kind(kind: Option<FileKind>) -> Kind
    ensures { result ≡ slots.content_kind kind }
{
    match kind {
        Some(FileKind::Directory) => Kind::Directory,
        Some(FileKind::File) => Kind::Content,
        None => Kind::Content,
    }
}

/// Whether these bytes spell this tag.
pub fn is_tag(bytes: &[u8; 32], wanted: &Tag) -> bool
    ensures { result ≡ slots.is_tag (tag_of bytes.now) wanted.now }
{
    match read_tag(bytes) {
        None => false,
        Some(tag) => same_tag(&tag, wanted),
    }
}

fn same_tag(a: &Tag, b: &Tag) -> bool
    ensures { result ≡ cells.same_tag a.now b.now }
{
    same_kind(a.kind, b.kind)
        && a.inode == b.inode
        && a.generation == b.generation
        && a.slot == b.slot
        && a.stamp == b.stamp
}

fn same_kind(a: Kind, b: Kind) -> bool
    ensures { result ≡ cells.same_kind a b }
{
    a == b
}
