//! The superblock in block 0: its numbers, the bytes that spell it, and why it can't be mounted.
ghost use Rattle.std.specs.Prelude.{◌≡◌, ◌≢◌, ◌<◌, ◌==◌, true, IfOk, IsTrue, List, Some, ℕ, not, position};
ghost use Rattle.nofs_disk.specs.Disk.{Rose, StaysButFaults, cell_at};
ghost use Rattle.nofs_disk.specs.Number.{IsBytes};
ghost use Rattle.nofs_super.specs.Format.{super_cell, super_payload};
ghost use Rattle.nofs_super.specs.Super.{CanMount, IsReadAnswer, check_super, is_version, rest_fault, super_in};
ghost use Rattle.nofs_super.specs.Super.{super_of};

use crate::geometry::accepts;
use nofs_disk::{
    Cell, Disk, Kind, Tag, clear, read_u32_at, read_u64_at, write_bytes_at, write_tag,
    write_u32_at, write_u64_at,
};

/// The first eight bytes of block 0.
pub const MAGIC: [u8; 8] = *b"NoFSv001";

/// What block 0 says of the file system.
#[derive(Clone, Copy, Debug, PartialEq, Eq)]
pub struct SuperBlock {
    /// The version of the format: 1, or 2 where files reach past their leaf.
    pub version: u32,
    /// How many blocks the file system has, block 0 with them.
    pub blocks: u64,
    /// How many inodes the table has.
    pub inodes: u64,
    /// How often the file system was mounted, below 2^24.
    pub mount: u64,
}

/// Why a device isn't mounted. The first fault is named, in the order of the table in
/// `docs/FORMAT.md`.
#[derive(Clone, Copy, Debug, PartialEq, Eq)]
pub enum MountFault {
    /// The first eight bytes aren't `NoFSv001`.
    BadMagic { found: [u8; 8] },
    /// The version is neither 1 nor 2.
    BadVersion { found: u32 },
    /// A format takes these numbers on no device.
    BadGeometry { blocks: u64, inodes: u64 },
    /// The device has fewer blocks than the superblock names, or none.
    DeviceTooSmall { has: u64 },
    /// The mount number is 2^24 - 1 or more.
    MountsSpent { found: u64 },
    /// A read failed. Nothing was written.
    ReadFault,
    /// The write of the superblock or its flush failed.
    WriteFault,
    /// Byte `at` is the first of bytes 12 to 15 and 40 to 1,023 that isn't zero.
    BadRest { at: u64 },
    /// There was no memory for the mount. Nothing was written. No call of this crate answers it.
    OutOfMemory,
}

/// Reads the superblock with one read, or with none on a device without blocks.
///
/// # Errors
///
/// The first fault of the table that block 0 has on this device; `ReadFault` where the read failed.
pub fn read_super<D: Disk>(disk: &mut D) -> Result<SuperBlock, MountFault>
    ensures stays { StaysButFaults (D.state disk.old) (D.state disk.new) }
    ensures empty { (D.state disk.old).blocks ≡ 0 → result ≡ Err (MountFault.DeviceTooSmall 0) }
    ensures told { result ≢ Err MountFault.ReadFault → 0 < (D.state disk.old).blocks → IsTrue (D.state disk.old).tells
        → result ≡ check_super (D.state disk.old).blocks (cell_at (D.state disk.old).now 0).payload }
    ensures some { result ≢ Err MountFault.ReadFault → 0 < (D.state disk.old).blocks
        → (payload : List ℕ) × IsBytes 1024 payload × (result ≡ check_super (D.state disk.old).blocks payload) }
    ensures spelled { IfOk result
        (λ it. IsTrue (D.state disk.old).tells → super_of (cell_at (D.state disk.old).now 0).payload ≡ Some it) }
    ensures mountable { IfOk result (CanMount (D.state disk.old).blocks) }
    ensures cause { result ≡ Err MountFault.ReadFault → Rose (D.state disk.old).faults (D.state disk.new).faults }
    ensures no_fault { result ≢ Err MountFault.ReadFault → (D.state disk.new).faults ≡ (D.state disk.old).faults }
    ensures reads { IsReadAnswer result }
{
    let device = disk.blocks();
    if device == 0 {
        return Err(MountFault::DeviceTooSmall { has: 0 });
    }
    let mut cell = Cell::ZERO;
    match disk.read(0, &mut cell) {
        Ok(()) => check(&cell.payload, device),
        Err(_) => Err(MountFault::ReadFault),
    }
}

/// Writes the cell of a superblock.
#[tactic(auto, unfolding(crate::specs::Format::super_cell, crate::specs::Format::super_payload))]
pub fn write_super(it: &SuperBlock, into: &mut Cell)
    ensures cell { into.new ≡ super_cell it.now }
    ensures bytes { IsBytes 1024 into.new.payload }
    ensures spells { is_version it.now.version ≡ true → super_of into.new.payload ≡ Some it.now }
    ensures only { (payload : List ℕ) → IsBytes 1024 payload → super_of payload ≡ Some it.now
        → payload ≡ into.new.payload }
    ensures read_back { (device : ℕ) → CanMount device it.now → check_super device into.new.payload ≡ Ok it.now }
{
    let SuperBlock {
        version,
        blocks,
        inodes,
        mount,
    } = *it;
    clear(&mut into.payload);
    write_bytes_at(&mut into.payload, 0, &MAGIC);
    write_u32_at(&mut into.payload, 8, version);
    write_u64_at(&mut into.payload, 16, blocks);
    write_u64_at(&mut into.payload, 24, inodes);
    write_u64_at(&mut into.payload, 32, mount);
    let tag = Tag {
        kind: Kind::Super,
        inode: 0,
        generation: 0,
        slot: 0,
        stamp: 0,
    };
    write_tag(&tag, &mut into.tag);
}

// The superblock that a payload spells on a device of this many blocks, or its first fault.
#[tactic(auto, unfolding(crate::specs::Super::check_super))]
pub fn check(payload: &[u8; 1024], device: u64) -> Result<SuperBlock, MountFault>
    ensures value { result ≡ check_super device payload.now }
    ensures no_read { result ≢ Err MountFault.ReadFault }
    ensures bytes { IsBytes 1024 payload.now }
{
    let mut found = [0; 8];
    found.copy_from_slice(&payload[..8]);
    if found != MAGIC {
        return Err(MountFault::BadMagic { found });
    }
    let it = numbers_in(payload);
    if !has_version(it.version) {
        return Err(MountFault::BadVersion { found: it.version });
    }
    if let Some(at) = first_in_rest(payload) {
        return Err(MountFault::BadRest { at });
    }
    if !accepts(u64::MAX, it.blocks, it.inodes) {
        return Err(MountFault::BadGeometry {
            blocks: it.blocks,
            inodes: it.inodes,
        });
    }
    if device < it.blocks {
        return Err(MountFault::DeviceTooSmall { has: device });
    }
    if it.mount >= (1 << 24) - 1 {
        return Err(MountFault::MountsSpent { found: it.mount });
    }
    Ok(it)
}

/// The numbers of a superblock.
#[tactic(auto, unfolding(crate::specs::Super::super_in))]
pub fn numbers_in(payload: &[u8; 1024]) -> SuperBlock
    ensures { result ≡ super_in payload.now }
{
    SuperBlock {
        version: read_u32_at(payload, 8),
        blocks: read_u64_at(payload, 16),
        inodes: read_u64_at(payload, 24),
        mount: read_u64_at(payload, 32),
    }
}

// Whether there are superblocks of this version.
fn has_version(version: u32) -> bool
    ensures { result ≡ is_version version }
{
    version == 1 || version == 2
}

// The first byte that isn't zero.
fn first_not_zero(bytes: &[u8]) -> Option<usize>
    ensures { result ≡ position (λ byte. not (byte == 0)) bytes.now }
{
    bytes.iter().position(|byte| *byte != 0)
}

// The first byte of the rest that isn't zero.
fn first_in_rest(payload: &[u8; 1024]) -> Option<u64>
    ensures value { result ≡ rest_fault payload.now }
{
    match first_not_zero(&payload[12..16]) {
        Some(at) => Some(12 + at as u64),
        None => match first_not_zero(&payload[40..1024]) {
            Some(at) => Some(40 + at as u64),
            None => None,
        },
    }
}
