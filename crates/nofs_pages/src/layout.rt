//! The file of an image, in one layout of three.
//!
//! Promise: it is the file that it is made of.

ghost use Rattle.std.specs.Prelude.{◌≡◌, ◌≤◌, ℕ, IfOk, OnErr, OnOk};
ghost use Rattle.nofs_disk.specs.Disk.{Rose};
ghost use Rattle.nofs_filedisk.specs.Bytes.{IsSynced, KeepsBytes};
ghost use Rattle.nofs_pages.specs.Singles.{SingleRests};
ghost use Rattle.nofs_pages.specs.Twins.{TwinRests};

use crate::page::{MAGIC, PAGE_BYTES};
use crate::paged::Paged;
use crate::place::TWIN_MAGIC;
use crate::single::Single;
use crate::twin::Twin;
use nofs_disk::{Failed, read_u64_at};
use nofs_filedisk::{Positioned, read_part};
use std::alloc::{AllocError, Global};

/// How the cells of an image lie in its file.
#[derive(Clone, Copy, Debug, PartialEq, Eq)]
pub enum Layout {
    /// One behind the other, 1,056 bytes each.
    Packed,
    /// In pages of 4,096 bytes, three each.
    Paged,
    /// In pages of 4,096 bytes with two places, three each.
    Twin,
}

/// "NoFSv001" as a number: a file of cells begins with it.
const PACKED_MAGIC: u64 = 0x3130_3076_5346_6f4e;

/// The file of an image: `B` is one of cells, `P` one in pages, and `T` one in pages with two places.
#[derive(Drop)]
pub enum ImageFile<B: Positioned + Drop, P: Positioned + Drop, T: Positioned + Drop> {
    /// Cells of 1,056 bytes, one behind the other.
    Packed(B),
    /// Pages of three cells.
    Paged(P),
    /// Pages of three cells with two places.
    Twin(T),
}

// The eight bytes at a place of a file, as a number.
fn word_at<B: Positioned>(file: &mut B, at: u64) -> Result<u64, Failed>
    requires { at ≤ 4096 }
    ensures keeps { KeepsBytes (B.state file.old) (B.state file.new) }
    ensures cause { OnErr result (Rose (B.state file.old).faults (B.state file.new).faults) }
    ensures no_fault { OnOk result ((B.state file.new).faults ≡ (B.state file.old).faults) }
{
    let mut word = [0; 8];
    read_part(file, at, &mut word)?;
    Ok(read_u64_at(&word, 0))
}

/// The layout that the first bytes of a file show; one that shows no other is packed. The first place of a file with
/// two places for each page may be blank or torn: then its second one tells.
pub fn layout_of<B: Positioned>(file: &mut B) -> Result<Layout, Failed>
    ensures keeps { KeepsBytes (B.state file.old) (B.state file.new) }
    ensures cause { OnErr result (Rose (B.state file.old).faults (B.state file.new).faults) }
    ensures no_fault { OnOk result ((B.state file.new).faults ≡ (B.state file.old).faults) }
{
    let first = word_at(file, 0)?;
    if first == TWIN_MAGIC {
        return Ok(Layout::Twin);
    }
    if first == MAGIC {
        return Ok(Layout::Paged);
    }
    if first != PACKED_MAGIC && word_at(file, PAGE_BYTES as u64)? == TWIN_MAGIC {
        return Ok(Layout::Twin);
    }
    Ok(Layout::Packed)
}

/// A file in pages, as its cells. All memory is taken here. `fresh` says that it is going to be written anew, whatever
/// is in it.
pub fn single_pages<B: Positioned + Drop>(
    alloc: Global,
    file: B,
    fresh: bool,
) -> Result<Paged<Single<B>>, AllocError>
    requires { (p : ℕ) → SingleRests (B.state file) p }
    ensures { IfOk result (λ paged. IsSynced (⟦<Paged<Single<B>> as Positioned>⟧.state paged)) }
{
    Paged::over(alloc, Single::over(alloc, file, fresh)?)
}

/// A file in pages with two places, as its cells. All memory is taken here. `fresh` says that it is going to be written
/// anew, whatever is in it.
pub fn twin_pages<B: Positioned + Drop>(
    alloc: Global,
    file: B,
    fresh: bool,
) -> Result<Paged<Twin<B>>, AllocError>
    requires { (p : ℕ) → TwinRests (B.state file) p }
    ensures { IfOk result (λ paged. IsSynced (⟦<Paged<Twin<B>> as Positioned>⟧.state paged)) }
{
    Paged::over(alloc, Twin::over(alloc, file, fresh)?)
}

impl<B: Positioned + Drop, P: Positioned + Drop, T: Positioned + Drop> Positioned
    for ImageFile<B, P, T> {
    ghost use Rattle.nofs_filedisk.specs.Bytes.{IsHostFile};
    ghost use Rattle.nofs_pages.specs.declared.layout.ImageFile.TheVariants.{Packed, Paged, Twin};

    ghost state = { λ f. elim f [ Packed file ↦ B.state file | Paged file ↦ P.state file | Twin file ↦ T.state file ] };

    fn read_at(&mut self, at: u64, into: &mut [u8]) -> Result<usize, Failed> {
        match self {
            ImageFile::Packed(file) => file.read_at(at, into),
            ImageFile::Paged(file) => file.read_at(at, into),
            ImageFile::Twin(file) => file.read_at(at, into),
        }
    }

    fn read_ahead(&mut self, at: u64, into: &mut [u8]) -> Result<Option<usize>, Failed> {
        match self {
            ImageFile::Packed(file) => file.read_ahead(at, into),
            ImageFile::Paged(file) => file.read_ahead(at, into),
            ImageFile::Twin(file) => file.read_ahead(at, into),
        }
    }

    fn write_at(&mut self, at: u64, from: &[u8]) -> Result<usize, Failed> {
        match self {
            ImageFile::Packed(file) => file.write_at(at, from),
            ImageFile::Paged(file) => file.write_at(at, from),
            ImageFile::Twin(file) => file.write_at(at, from),
        }
    }

    fn sync(&mut self) -> Result<(), Failed> {
        match self {
            ImageFile::Packed(file) => file.sync(),
            ImageFile::Paged(file) => file.sync(),
            ImageFile::Twin(file) => file.sync(),
        }
    }

    ghost is_file = { λ f. elim f as (λ f. IsHostFile (elim f [
      | Packed file ↦ B.state file
      | Paged file ↦ P.state file
      | Twin file ↦ T.state file
    ])) [ Packed file ↦ B.is_file file | Paged file ↦ P.is_file file | Twin file ↦ T.is_file file ] };
}
