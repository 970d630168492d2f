//! What an image means, and the checks on a device.
ghost use Rattle.nofs_agree.specs.Reads.{IsAt};
ghost use Rattle.nofs_ptrs.specs.Paths as paths;
ghost use Rattle.nofs_model.specs.Geometry as image;
ghost use Rattle.nofs_model.specs.Geometry.{IsMountable};
ghost use Rattle.nofs_ptrs.specs.Paths.{slot_limit};
ghost use Rattle.std.specs.Prelude.{IsTrue, length, ◌<◌, ◌≡◌};

use crate::typed::typed;
use nofs_agree::{Known, PathAnswer};
use nofs_bits::Bits;
use nofs_dirent::Content;
use nofs_disk::{Cell, Disk, Failed, Pointer};
use nofs_model::{ScanResult, Value};
use nofs_super::SuperBlock;
use std::alloc::{AllocError, Global};

/// `nofs_model::Value`
pub fn value_variant(it: &Value) -> u8 {
    match it {
        Value::Hole => 0,
        Value::Bytes(first) => typed::<Content>(first, 1),
        Value::Lost => 2,
    }
}

/// `nofs_model::ScanResult`
pub fn scan_result_fields(it: ScanResult) -> (Bits, Bits) {
    let ScanResult { inodes, blocks } = it;
    (inodes, blocks)
}

/// `nofs_model::value_of`
pub fn model_value_of(
    alloc: Global,
    cells: &[Cell],
    inode: u32,
    slot: u64,
) -> Result<Value, AllocError>
    requires image { IsMountable cells.now }
    requires slot { slot < slot_limit }
{
    nofs_model::value_of(alloc, cells, inode, slot)
}

/// `nofs_model::agreed`
pub fn model_agreed(cells: &[Cell], inode: u32) -> bool
    requires image { image.IsMountable cells.now }
{
    nofs_model::agreed(cells, inode)
}

/// `nofs_model::owner_of`
pub fn model_owner_of(cells: &[Cell], block: u64) -> Option<(u32, u64)>
    requires { IsMountable cells.now }
{
    nofs_model::owner_of(cells, block)
}

/// `nofs_model::full_scan`
pub fn model_full_scan(alloc: Global, cells: &[Cell]) -> Result<ScanResult, AllocError>
    requires { IsMountable cells.now }
{
    nofs_model::full_scan(alloc, cells)
}

/// What was read, or that a read failed.
type Read<T> = Result<T, Failed>;

/// `nofs_agree::check_path`
pub fn check_path<D: Disk>(disk: &mut D, at: &SuperBlock, inode: u32, slot: u64) -> Read<PathAnswer>
    requires numbers { IsAt (D.state disk.old) at.now }
    requires slot { IsTrue (paths.is_slot slot) }
{
    nofs_agree::check_path(disk, at, inode, slot)
}

/// `nofs_agree::check_chain`
pub fn check_chain<D: Disk>(disk: &mut D, at: &SuperBlock, known: &Known, inode: u32) -> Read<bool>
    requires known { length known.now ≡ at.now.inodes }
    requires numbers { IsAt (D.state disk.old) at.now }
{
    nofs_agree::check_chain(disk, at, known, inode)
}

/// `nofs_agree::PathAnswer`
pub fn path_answer_variant(it: &PathAnswer) -> u8 {
    match it {
        PathAnswer::Hole => 0,
        PathAnswer::Holds(first) => typed::<Pointer>(first, 1),
        PathAnswer::Lost => 2,
    }
}
