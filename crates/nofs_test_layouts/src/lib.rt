//! The files of images in each layout, over files in memory, that crates of tests share.
//!
//! Promise: a disk in a file begins with all of it durable, and a file that is made anew has the layout that is asked
//! for.
#![tactic(auto)]

ghost use Rattle.std.specs.Prelude.{ℕ, IfOk};
ghost use Rattle.nofs_filedisk.specs.Bytes.{IsSynced};
ghost use Rattle.nofs_pages.specs.Singles.{SingleRests};
ghost use Rattle.nofs_pages.specs.Twins.{TwinRests};

use nofs_filedisk::{FileDisk, MemFile, Positioned, write_part};
use nofs_pages::{ImageFile, Layout, Paged, Single, Twin, layout_of, single_pages, twin_pages};
use std::alloc::{AllocError, Global};

/// At most so many bytes are moved by a call.
const PIECE: usize = 1_048_576;

/// The file of an image, in one layout or another.
pub type LaidFile<B> = ImageFile<B, Paged<Single<B>>, Paged<Twin<B>>>;

/// The disk in a file in memory.
pub type LaidDisk = FileDisk<LaidFile<MemFile>>;

/// A file in a layout. `fresh` says that it is going to be written anew.
pub fn laid<B: Positioned + Drop>(
    alloc: Global,
    layout: Layout,
    file: B,
    fresh: bool,
) -> Result<LaidFile<B>, AllocError>
    requires synced { IsSynced (B.state file) }
    requires rests { (p : ℕ) → SingleRests (B.state file) p }
    requires twins { (p : ℕ) → TwinRests (B.state file) p }
    ensures { IfOk result (λ laid. IsSynced (⟦<LaidFile<B> as Positioned>⟧.state laid)) }
{
    match layout {
        Layout::Packed => Ok(ImageFile::Packed(file)),
        Layout::Paged => Ok(ImageFile::Paged(single_pages(alloc, file, fresh)?)),
        Layout::Twin => Ok(ImageFile::Twin(twin_pages(alloc, file, fresh)?)),
    }
}

/// What a file in a layout is made of.
pub fn unlaid<B: Positioned + Drop>(file: LaidFile<B>) -> B {
    match file {
        ImageFile::Packed(file) => file,
        ImageFile::Paged(file) => file.into_store().into_file(),
        ImageFile::Twin(file) => file.into_store().into_file(),
    }
}

/// The bytes of a file in a layout that has the bytes of these cells. A file in memory fails for want of memory alone.
pub fn laid_bytes(alloc: Global, layout: Layout, cells: &[u8]) -> Result<Vec<u8>, AllocError> {
    let mut file = laid(alloc, layout, MemFile::new(alloc, &[], PIECE, &[])?, true)?;
    if write_part(&mut file, 0, cells).is_err() || file.sync().is_err() {
        return Err(AllocError);
    }
    unlaid(file).bytes().to_vec(alloc)
}

// The layout that these bytes show.
fn shown(alloc: Global, bytes: &[u8]) -> Result<Layout, AllocError> {
    let mut file = MemFile::new(alloc, bytes, PIECE, &[])?;
    match layout_of(&mut file) {
        Ok(layout) => Ok(layout),
        Err(_) => Err(AllocError),
    }
}

/// The disk in a file with these bytes, in the layout that they show.
pub fn found_disk(alloc: Global, bytes: &[u8]) -> Result<LaidDisk, AllocError> {
    let layout = shown(alloc, bytes)?;
    let file = MemFile::new(alloc, bytes, PIECE, &[])?;
    FileDisk::over(alloc, laid(alloc, layout, file, false)?)
}

/// The disk in a file with these bytes, which is going to be written anew in a layout.
pub fn fresh_disk(alloc: Global, layout: Layout, bytes: &[u8]) -> Result<LaidDisk, AllocError> {
    let file = MemFile::new(alloc, bytes, PIECE, &[])?;
    FileDisk::over(alloc, laid(alloc, layout, file, true)?)
}
