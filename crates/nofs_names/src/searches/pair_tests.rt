//! Whether an entry and the inode that it names are a pair.
ghost use Rattle.std.specs.Prelude.{◌≡◌};
ghost use Rattle.std.specs.List.{list_any};
ghost use Rattle.nofs_inode.specs.declared.inode.FileKind.TheVariants as kind;
ghost use Rattle.nofs_model.specs.Files as files;
ghost use Rattle.nofs_history.specs.Machine.{same_link};
ghost use Rattle.nofs_names.specs.Searches.Slots.{answers, is_root_record, paired_kind};

use crate::searches::entries::Named;
use nofs_inode::{BackLink, FileKind, Record};

/// The kind of the inode that an entry names, where its record has the entry's back link and the
/// two are a pair.
pub(crate) fn paired_kind(it: &Record, named: Named, link: &BackLink) -> Option<FileKind>
    ensures { result ≡ paired_kind it.now named link.now }
{
    match it.kind {
        None => None,
        Some(kind) => {
            if answers(it, kind, named, link) {
                Some(kind)
            } else {
                None
            }
        }
    }
}

fn answers(it: &Record, kind: FileKind, named: Named, link: &BackLink) -> bool
    ensures { result ≡ answers it.now kind named link.now }
{
    it.generation == named.generation
        && (kind == FileKind::File || link.generation < it.generation)
        && has_link(&it.links, link)
        && may_be_named(it, named.inode)
}

fn has_link(links: &[BackLink; 4], wanted: &BackLink) -> bool
    ensures { result ≡ list_any (λ link. same_link link wanted.now) links.now }
{
    links.iter().any(|link| same_link(link, wanted))
}

pub(crate) fn same_link(a: &BackLink, b: &BackLink) -> bool
    ensures { result ≡ same_link a.now b.now }
{
    a.directory == b.directory && a.entry == b.entry && a.generation == b.generation
}

// Whether the record is that of the root or the label file, where the inode is one of them.
fn may_be_named(it: &Record, inode: u32) -> bool
    ensures { result ≡ is_root_record inode it.now }
{
    match inode {
        1 => is_record(it, FileKind::Directory, 1),
        2 => is_record(it, FileKind::File, 2),
        _ => true,
    }
}

fn is_record(it: &Record, kind: FileKind, generation: u64) -> bool
    ensures { result ≡ files.is_record kind generation it.now }
{
    it.kind == Some(kind) && it.generation == generation
}
