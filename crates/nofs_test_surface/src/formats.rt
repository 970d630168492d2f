//! The bytes of the superblock, of records, of pointers and of entries.
ghost use Rattle.nofs_dirent.specs.Entries.{HasEntrySpelling};
ghost use Rattle.nofs_inode.specs.InodeRecords.{HasRecordSpelling};
ghost use Rattle.std.specs.Prelude.{◌-◌, ◌<◌, ◌^◌, ◌≤◌};

use crate::typed::typed;
use nofs_dirent::{Entry, Name};
use nofs_disk::{Disk, Pointer};
use nofs_inode::{BackLink, FileKind, Record};
use nofs_ptrs::SlotPath;
use nofs_super::{FormatFault, MountFault, SuperBlock};
use std::alloc::{AllocError, Global};

/// `nofs_super::SuperBlock`
pub fn super_block_fields(it: SuperBlock) -> (u32, u64, u64, u64) {
    let SuperBlock {
        version,
        blocks,
        inodes,
        mount,
    } = it;
    (version, blocks, inodes, mount)
}

/// `nofs_super::format`
pub fn super_format<D: Disk>(disk: &mut D, blocks: u64, inodes: u64) -> Result<(), FormatFault> {
    nofs_super::format(disk, blocks, inodes)
}

/// `nofs_super::read_super`
pub fn super_read_super<D: Disk>(disk: &mut D) -> Result<SuperBlock, MountFault> {
    nofs_super::read_super(disk)
}

/// `nofs_super::raise_mount`
pub fn super_raise_mount<D: Disk>(disk: &mut D, old: &SuperBlock) -> Result<SuperBlock, MountFault>
    requires blocks { 0 < (D.state disk.old).blocks }
    requires spare { 2 ≤ (D.state disk.old).spare }
    requires mount { old.now.mount < 2 ^ 24 - 1 }
{
    nofs_super::raise_mount(disk, old)
}

/// `nofs_super::FormatFault`
pub fn format_fault_variant(it: &FormatFault) -> u8 {
    match it {
        FormatFault::TooSmall { least } => typed::<u64>(least, 0),
        FormatFault::TooLarge { most } => typed::<u64>(most, 1),
        FormatFault::NotMultiple { inodes } => typed::<u64>(inodes, 2),
        FormatFault::WriteFault => 3,
        FormatFault::OutOfMemory => 4,
    }
}

/// `nofs_super::MountFault`
pub fn mount_fault_variant(it: &MountFault) -> u8 {
    match it {
        MountFault::BadMagic { found } => typed::<[u8; 8]>(found, 0),
        MountFault::BadVersion { found } => typed::<u32>(found, 1),
        MountFault::BadGeometry { blocks, inodes } => typed::<(&u64, &u64)>(&(blocks, inodes), 2),
        MountFault::DeviceTooSmall { has } => typed::<u64>(has, 3),
        MountFault::MountsSpent { found } => typed::<u64>(found, 4),
        MountFault::ReadFault => 5,
        MountFault::WriteFault => 6,
        MountFault::BadRest { at } => typed::<u64>(at, 7),
        MountFault::OutOfMemory => 8,
    }
}

/// `nofs_inode::FileKind`
pub fn file_kind_variant(it: &FileKind) -> u8 {
    match it {
        FileKind::File => 0,
        FileKind::Directory => 1,
    }
}

/// `nofs_inode::BackLink`
pub fn back_link_of(directory: u32, entry: u32, generation: u64) -> BackLink {
    BackLink {
        directory,
        entry,
        generation,
    }
}

/// `nofs_inode::Record`
pub fn record_fields(
    it: Record,
) -> (
    u64,
    Option<FileKind>,
    [BackLink; 4],
    u64,
    [Pointer; 8],
    Pointer,
    Pointer,
) {
    let Record {
        generation,
        kind,
        links,
        size,
        direct,
        leaf,
        top,
    } = it;
    (generation, kind, links, size, direct, leaf, top)
}

/// `nofs_inode::read_record`
pub fn inode_read_record(payload: &[u8; 1024], index: u32) -> Option<Record>
    requires { index < 4 }
{
    nofs_inode::read_record(payload, index)
}

/// `nofs_inode::write_record`
pub fn inode_write_record(payload: &mut [u8; 1024], index: u32, it: &Record)
    requires index { index < 4 }
    requires spelling { HasRecordSpelling it.now }
{
    nofs_inode::write_record(payload, index, it);
}

/// `nofs_ptrs::SlotPath`
pub fn slot_path_variant(it: &SlotPath) -> u8 {
    match it {
        SlotPath::Direct(first) => typed::<u32>(first, 0),
        SlotPath::Leaf(first) => typed::<u32>(first, 1),
        SlotPath::Child(first, second) => typed::<(&u32, &u32)>(&(first, second), 2),
    }
}

/// `nofs_ptrs::path_of`
pub fn ptrs_path_of(slot: u64) -> Option<SlotPath> {
    nofs_ptrs::path_of(slot)
}

/// `nofs_ptrs::read_pointer`
pub fn ptrs_read_pointer(payload: &[u8; 1024], at: u32) -> Pointer
    requires { at < 64 }
{
    nofs_ptrs::read_pointer(payload, at)
}

/// `nofs_ptrs::write_pointer`
pub fn ptrs_write_pointer(payload: &mut [u8; 1024], at: u32, it: Pointer)
    requires { at < 64 }
{
    nofs_ptrs::write_pointer(payload, at, it);
}

/// `nofs_dirent::Entry`
pub fn entry_of(inode: u32, generation: u64, name: Name) -> Entry {
    Entry {
        inode,
        generation,
        name,
    }
}

/// `nofs_dirent::Name`
pub fn name_itself(it: Name) -> Name {
    it
}

/// `nofs_dirent::read_entry`
pub fn dirent_read_entry(
    alloc: Global,
    payload: &[u8; 1024],
    at: u32,
) -> Result<Option<Entry>, AllocError>
    requires { at < 16 }
{
    nofs_dirent::read_entry(alloc, payload, at)
}

/// `nofs_dirent::write_entry`
pub fn dirent_write_entry(payload: &mut [u8; 1024], at: u32, it: &Entry)
    requires place { at < 16 }
    requires spelling { HasEntrySpelling it.now }
{
    nofs_dirent::write_entry(payload, at, it);
}

/// `nofs_dirent::clear_entry`
pub fn dirent_clear_entry(payload: &mut [u8; 1024], at: u32)
    requires { at < 16 }
{
    nofs_dirent::clear_entry(payload, at);
}

/// `nofs_dirent::find_name`
pub fn dirent_find_name(payload: &[u8; 1024], name: &[u8], from: u32) -> Option<u32> {
    nofs_dirent::find_name(payload, name, from)
}

/// `nofs_dirent::name_ok`
pub fn dirent_name_ok(name: &[u8]) -> bool {
    nofs_dirent::name_ok(name)
}
