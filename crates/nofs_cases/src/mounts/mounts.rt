//! A formatted disk, its mount, and the mount after one Put.
ghost use Rattle.std.specs.Prelude.{◌≡◌, [], false, true, codes, IfOk, IsTrue, OnOk};
ghost use Rattle.nofs_memdisk.specs.Parts.{memory_state};
ghost use Rattle.nofs_shared.specs.Mount.Invariant.{IsSoundDisk};
ghost use Rattle.nofs_shared.specs.Laws.{IsBlankDisk};
ghost use Rattle.nofs_cases.specs.Mounts.Open.{StandsOpen};
ghost use Rattle.nofs_cases.specs.Mounts.Replies.{AddsOne, SeesAndPuts, tells_free, is_stored};
ghost use Rattle.nofs_history.specs.declared.machine.replies.Reply.TheVariants as reply;
ghost use Rattle.nofs_history.specs.declared.machine.steps.Step.TheVariants as step;

use nofs_crashlaw::law_homes;
use nofs_dirent::Content;
use nofs_disk::Disk;
use nofs_history::{Reply, Step};
use nofs_memdisk::MemDisk;
use nofs_model::law_formatted;
use nofs_shared::{BeginFault, Mount, law_mounts};
use nofs_super::{FormatFault, MountFault, format};
use std::alloc::Global;

/// The numbers of the disk.
const BLOCKS: u64 = 64;

const INODES: u64 = 16;

/// The first block behind the inode table.
const BLOCK: u64 = 5;

/// Why there is no such mount.
#[derive(Clone, Copy)]
pub enum Unmade {
    /// There was no memory for the disk or the bytes.
    OutOfMemory,
    NotFormatted(FormatFault),
    NotMounted(MountFault),
    /// The block was not found to be free, or the Put was not stored.
    Refused,
}

/// Formats a disk. Where it tells, each image that a crash may leave then is sound, and blank.
///
/// # Errors
///
/// Those of `format`.
pub(crate) fn format_disk<D: Disk>(
    disk: &mut D,
    blocks: u64,
    inodes: u64,
) -> Result<(), FormatFault>
    ensures sound { OnOk result (IsTrue (D.state disk.old).tells → IsSoundDisk (D.state disk.new)) }
    ensures blank { OnOk result (IsTrue (D.state disk.old).tells → IsBlankDisk (D.state disk.new)) }
{
    law_formatted();
    law_mounts::<D>();
    format(disk, blocks, inodes)
}

/// A formatted disk in memory, of 64 blocks and 16 inodes.
///
/// # Errors
///
/// `OutOfMemory`, and `NotFormatted` where the format failed.
pub(crate) fn new_disk(alloc: Global) -> Result<MemDisk, Unmade>
    ensures sound { IfOk result (λ disk. IsSoundDisk (memory_state disk)) }
    ensures blank { IfOk result (λ disk. IsBlankDisk (memory_state disk)) }
{
    let Ok(mut disk) = MemDisk::new(alloc, BLOCKS) else {
        return Err(Unmade::OutOfMemory);
    };
    match format_disk(&mut disk, BLOCKS, INODES) {
        Ok(()) => Ok(disk),
        Err(fault) => Err(Unmade::NotFormatted(fault)),
    }
}

/// The mount of that disk, before its first step.
///
/// # Errors
///
/// Those of `new_disk`, and `NotMounted` where the mount failed.
pub(crate) fn formatted_mount(alloc: Global) -> Result<Mount<MemDisk>, Unmade>
    ensures found { IfOk result (λ m. IsSoundDisk (memory_state m.found.value)) }
    ensures blank { IfOk result (λ m. IsBlankDisk (memory_state m.found.value)) }
    ensures empty { IfOk result (λ m. m.core.books.history.entries ≡ []) }
    ensures open { IfOk result
        (λ m. ∥ StandsOpen (memory_state m.found.value) (memory_state m.core.disk) m.first m.core.books ∥₁) }
{
    law_homes();
    let disk = match new_disk(alloc) {
        Ok(disk) => disk,
        Err(why) => return Err(why),
    };
    match Mount::begin(alloc, disk, 0) {
        Ok(mount) => Ok(mount),
        Err(BeginFault { disk: _, cause }) => Err(Unmade::NotMounted(cause)),
    }
}

fn tells_free(reply: &Reply) -> bool
    ensures { result ≡ tells_free reply.now }
{
    matches!(reply, Reply::Seen { used: false })
}

fn is_stored(reply: &Reply) -> bool
    ensures { result ≡ is_stored reply.now }
{
    matches!(reply, Reply::Stored)
}

// Examines a block: whether it was found to be free.
fn see_free(mount: &mut Mount<MemDisk>, alloc: Global, block: u64) -> bool
    ensures found { mount.new.found ≡ mount.old.found }
    ensures adds { result ≡ true → AddsOne (step.SeeBlock block)
        (reply.Seen false) mount.old.core.books.history.entries mount.new.core.books.history.entries }
{
    let seen = mount.step(alloc, 1, Step::SeeBlock { block });
    tells_free(&seen)
}

// Puts bytes to the first slot of the label file: whether they were stored.
fn put_first(mount: &mut Mount<MemDisk>, alloc: Global, bytes: Content) -> bool
    ensures found { mount.new.found ≡ mount.old.found }
    ensures adds { result ≡ true → AddsOne (step.Put 2 2 0 0 bytes) reply.Stored mount.old.core.books.history.entries
        mount.new.core.books.history.entries }
{
    let put = Step::Put {
        inode: 2,
        generation: 2,
        slot: 0,
        at: 0,
        bytes,
    };
    let stored = mount.step(alloc, 1, put);
    is_stored(&stored)
}

/// The mount of that disk after two steps: the first block behind the inode table is examined, and
/// two bytes are put to the first slot of the label file.
///
/// # Errors
///
/// Those of `formatted_mount`, `OutOfMemory`, and `Refused` where a step was not accepted.
pub fn formatted_put(alloc: Global) -> Result<Mount<MemDisk>, Unmade>
    ensures found { IfOk result (λ m. IsSoundDisk (memory_state m.found.value)) }
    ensures blank { IfOk result (λ m. IsBlankDisk (memory_state m.found.value)) }
    ensures history { IfOk result (λ m. SeesAndPuts 5 (codes "ab") m.core.books.history.entries) }
    ensures open { IfOk result
        (λ m. ∥ StandsOpen (memory_state m.found.value) (memory_state m.core.disk) m.first m.core.books ∥₁) }
{
    law_homes();
    let mut mount = match formatted_mount(alloc) {
        Ok(mount) => mount,
        Err(why) => return Err(why),
    };
    let Ok(bytes) = Content::from_slice(alloc, b"ab") else {
        return Err(Unmade::OutOfMemory);
    };
    if !see_free(&mut mount, alloc, BLOCK) {
        return Err(Unmade::Refused);
    }
    if !put_first(&mut mount, alloc, bytes) {
        return Err(Unmade::Refused);
    }
    Ok(mount)
}
