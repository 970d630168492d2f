//! The checks of a disk, and how many blocks they read. Each reads the superblock first.
ghost use Rattle.std.specs.Prelude.{◌≡◌, IfOk, length};
ghost use Rattle.nofs_ptrs.specs.Paths.{is_slot};

use crate::tests::images::{LEAF, fail_read};
use nofs_agree::{Known, PathAnswer, check_chain, check_path, learn_chain};
use nofs_disk::{Cell, Failed};
use nofs_memdisk::MemDisk;
use nofs_model::{Value, is_mountable, value_of};
use nofs_test_disks::read_numbers;
use std::alloc::{AllocError, Global};

fn is_slot(number: u64) -> bool
    ensures { result ≡ is_slot number }
{
    number < 4168 || number >= LEAF && number < LEAF + 66
}

// What stands in a slot; `None` where it is no slot or the disk has no superblock.
fn path(disk: &mut MemDisk, inode: u32, slot: u64) -> Option<Result<PathAnswer, Failed>> {
    if !is_slot(slot) {
        return None;
    }
    let at = read_numbers(disk)?;
    Some(check_path(disk, &at, inode, slot))
}

/// Whether an inode is agreed, where these are known to be; `None` where the disk has no superblock.
pub(crate) fn chain(
    alloc: Global,
    disk: &mut MemDisk,
    known: &[u32],
    inode: u32,
) -> Result<Option<Result<bool, Failed>>, AllocError> {
    match read_numbers(disk) {
        None => Ok(None),
        Some(at) => {
            let known = known_of(alloc, at.inodes, known)?;
            Ok(Some(check_chain(disk, &at, &known, inode)))
        }
    }
}

/// These inodes are known to be agreed.
fn known_of(alloc: Global, inodes: u64, known: &[u32]) -> Result<Known, AllocError>
    ensures { IfOk result (λ all. length all ≡ inodes) }
{
    let mut all = Known::nothing(alloc, inodes)?;
    for inode in known {
        set_known(&mut all, inodes, *inode);
    }
    Ok(all)
}

fn set_known(known: &mut Known, inodes: u64, inode: u32)
    requires { length known.old ≡ inodes }
    ensures { length known.new ≡ inodes }
{
    if 1 <= inode && u64::from(inode) <= inodes {
        known.set(inode, Some(true));
    }
}

// The number of an inode that is agreed; nothing of one that is not; `unsound` behind one of which neither is sure.
fn agreed_text(alloc: Global, inode: u32, agreed: Option<bool>) -> Result<String, AllocError> {
    match agreed {
        Some(true) => format!(in alloc; "{inode} "),
        Some(false) => Ok(String::new(alloc)),
        None => format!(in alloc; "{inode} unsound "),
    }
}

// The answer of the check that keeps what it finds, where that is told from then on; nothing is told of an inode that
// is not there.
fn kept(answer: Result<bool, Failed>, told: Option<bool>, is_there: bool) -> Option<bool> {
    let agreed = answer.ok()?;
    (told == is_there.then_some(agreed)).then_some(agreed)
}

/// The inodes of which the check that keeps what it finds says that they are agreed.
pub(crate) fn learned_in(alloc: Global, disk: &mut MemDisk) -> Result<String, AllocError> {
    let Some(at) = read_numbers(disk) else {
        return String::from_str(alloc, "no superblock");
    };
    let mut known = Known::nothing(alloc, at.inodes)?;
    let mut text = String::new(alloc);
    for inode in 0..18 {
        let answer = learn_chain(disk, &at, &mut known, inode);
        let is_there = 1 <= inode && u64::from(inode) <= at.inodes;
        let agreed = kept(answer, known.told(inode), is_there);
        text.push_str(agreed_text(alloc, inode, agreed)?.as_str())?;
    }
    Ok(text)
}

/// The inodes of which the check of the chain says that they are agreed, where some are known to be.
pub(crate) fn agreed_in(
    alloc: Global,
    disk: &mut MemDisk,
    known: &[u32],
) -> Result<String, AllocError> {
    let mut text = String::new(alloc);
    for inode in 0..18 {
        let agreed = sound_chain(alloc, disk, known, inode)?;
        text.push_str(agreed_text(alloc, inode, agreed)?.as_str())?;
    }
    Ok(text)
}

/// How many blocks the check of a slot reads beside the superblock.
pub(crate) fn path_reads(disk: &mut MemDisk, inode: u32, slot: u64) -> u64 {
    let before = disk.calls().reads;
    let _ = path(disk, inode, slot);
    disk.calls().reads.wrapping_sub(before).wrapping_sub(1)
}

/// How many blocks the check of a chain reads beside the superblock.
pub(crate) fn chain_reads(
    alloc: Global,
    disk: &mut MemDisk,
    known: &[u32],
    inode: u32,
) -> Result<u64, AllocError> {
    let before = disk.calls().reads;
    let _ = chain(alloc, disk, known, inode)?;
    Ok(disk.calls().reads.wrapping_sub(before).wrapping_sub(1))
}

fn is_failed<T>(answer: &Option<Result<T, Failed>>) -> bool {
    matches!(answer, Some(Err(_)))
}

/// What stands in a slot; `None` where more than four blocks beside the superblock are read for it, or where one of
/// these reads can fail and the check does not.
pub(crate) fn sound_path(
    disk: &mut MemDisk,
    inode: u32,
    slot: u64,
) -> Result<Option<PathAnswer>, AllocError> {
    let reads = path_reads(disk, inode, slot);
    for number in 0..reads {
        fail_read(disk, number.saturating_add(2))?;
        if !is_failed(&path(disk, inode, slot)) {
            return Ok(None);
        }
    }
    match path(disk, inode, slot) {
        Some(Ok(answer)) if reads <= 4 => Ok(Some(answer)),
        _ => Ok(None),
    }
}

/// Whether an inode is agreed; `None` where a read of the check can fail and the check does not.
pub(crate) fn sound_chain(
    alloc: Global,
    disk: &mut MemDisk,
    known: &[u32],
    inode: u32,
) -> Result<Option<bool>, AllocError> {
    for number in 0..chain_reads(alloc, disk, known, inode)? {
        fail_read(disk, number.saturating_add(2))?;
        if !is_failed(&chain(alloc, disk, known, inode)?) {
            return Ok(None);
        }
    }
    match chain(alloc, disk, known, inode)? {
        Some(Ok(answer)) => Ok(Some(answer)),
        _ => Ok(None),
    }
}

/// Whether the definitions give a slot of content the value that belongs to an answer.
pub(crate) fn is_same(
    alloc: Global,
    cells: &[Cell],
    inode: u32,
    slot: u64,
    found: Option<PathAnswer>,
) -> Result<bool, AllocError> {
    if slot >= 4168 || !is_mountable(cells) {
        return Ok(true);
    }
    match value_of(alloc, cells, inode, slot)? {
        Value::Hole => Ok(found == Some(PathAnswer::Hole)),
        Value::Lost => Ok(found == Some(PathAnswer::Lost)),
        Value::Bytes(content) => Ok(has_bytes(cells, found, content.as_slice())),
    }
}

fn has_bytes(cells: &[Cell], found: Option<PathAnswer>, bytes: &[u8]) -> bool {
    match found {
        Some(PathAnswer::Holds(pointer)) => match cells.get(pointer.block as usize) {
            None => false,
            Some(cell) => cell.payload[..] == bytes[..],
        },
        _ => false,
    }
}
