//! What an accepted step makes of a file beside its content.
ghost use Rattle.std.specs.Prelude.{◌≡◌, ◌<◌, IfOk, max};
ghost use Rattle.nofs_history.specs.Meta.{Is};
ghost use Rattle.nofs_history.specs.Machine as machine;
ghost use Rattle.nofs_history.specs.Accepted.Files.{kept_files_of};
ghost use Rattle.nofs_history.specs.Accepted.Given.{meta_now};

use crate::accepted::files::file::FilesNow;
use crate::accepted::files::links::{with_link, without_link};
use crate::accepted::given::given::MetaNow;
use nofs_inode::inode::BackLink;
use std::alloc::{AllocError, Global};

/// A file that reaches to this end at least.
pub(crate) fn grown(files: &FilesNow, inode: u32, end: u64) -> MetaNow
    ensures { meta_now result ≡ machine.meta_with (kept_files_of files.now) inode
        (λ f. Is f.kind (max f.size end) f.links) }
{
    match files.file(inode) {
        None => MetaNow::Gone,
        Some(file) => MetaNow::Is {
            kind: file.kind,
            size: file.size.max(end),
            links: file.links,
        },
    }
}

/// A file with a back link at a place.
pub(crate) fn linked(files: &FilesNow, inode: u32, place: usize, link: BackLink) -> MetaNow
    requires { place < 4 }
    ensures { meta_now result ≡ machine.meta_with (kept_files_of files.now) inode
        (λ f. Is f.kind f.size (machine.set_link f.links place link)) }
{
    match files.file(inode) {
        None => MetaNow::Gone,
        Some(file) => MetaNow::Is {
            kind: file.kind,
            size: file.size,
            links: with_link(file.links, place, link),
        },
    }
}

/// A file without a back link. With its last one it is gone.
pub(crate) fn unlinked(
    alloc: Global,
    files: &FilesNow,
    inode: u32,
    link: &BackLink,
) -> Result<MetaNow, AllocError>
    ensures { IfOk result (λ it. meta_now it ≡ machine.drop_meta (kept_files_of files.now) inode link.now) }
{
    if files.is_last(alloc, inode, link)? {
        return Ok(MetaNow::Gone);
    }
    match files.file(inode) {
        None => Ok(MetaNow::Gone),
        Some(file) => Ok(MetaNow::Is {
            kind: file.kind,
            size: file.size,
            links: without_link(&file.links, link),
        }),
    }
}
