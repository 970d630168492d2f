//! The disks in memory and in a file, the cache, and the mirror.
ghost use Rattle.nofs_disk.specs.Disk.{IsSettled};
ghost use Rattle.nofs_filedisk.specs.Bytes.{IsSynced};
ghost use Rattle.nofs_memdisk.specs.Parts.{memory_state};
ghost use Rattle.nofs_versions.specs.Memory.{PicksVersions};
ghost use Rattle.std.specs.Prelude.{All, length, ◌+◌, ◌<◌, ◌^◌, ◌≤◌};

use nofs_cache::{CacheFault, Cached, Gathered};
use nofs_disk::{Cell, Disk, Failed};
use nofs_filedisk::{FileDisk, HostFile, MemFile, Positioned};
use nofs_memdisk::{CallCounts, CallKind, FaultAt, MemDisk, Pick};
use nofs_mirror::{Mirror, MirrorCause, MirrorFault, Sides};
use std::alloc::{AllocError, Global};
use std::io;

/// `nofs_memdisk::MemDisk`
pub fn mem_disk_itself(it: MemDisk) -> MemDisk {
    it
}

/// `nofs_memdisk::FaultAt`
pub fn fault_at_of(call: CallKind, number: u64, taken: bool) -> FaultAt {
    FaultAt {
        call,
        number,
        taken,
    }
}

/// `nofs_memdisk::CallKind`
pub fn call_kind_variant(it: &CallKind) -> u8 {
    match it {
        CallKind::Read => 0,
        CallKind::Write => 1,
        CallKind::Flush => 2,
    }
}

/// `nofs_memdisk::Pick`
pub fn pick_fields(it: Pick) -> (u64, u64) {
    let Pick { block, version } = it;
    (block, version)
}

/// `nofs_memdisk::CallCounts`
pub fn call_counts_of(reads: u64, writes: u64, flushes: u64) -> CallCounts {
    CallCounts {
        reads,
        writes,
        flushes,
    }
}

/// `nofs_memdisk::MemDisk::new`
pub fn mem_disk_new(alloc: Global, blocks: u64) -> Result<MemDisk, AllocError> {
    MemDisk::new(alloc, blocks)
}

/// `nofs_memdisk::MemDisk::fail_at`
pub fn mem_disk_fail_at(this: &mut MemDisk, faults: &[FaultAt]) -> Result<(), AllocError> {
    this.fail_at(faults)
}

/// `nofs_memdisk::MemDisk::put_cell`
pub fn mem_disk_put_cell(this: &mut MemDisk, block: u64, cell: &Cell)
    requires block { block < (memory_state this.old).blocks }
    requires settled { IsSettled (memory_state this.old) }
{
    this.put_cell(block, cell);
}

/// `nofs_memdisk::MemDisk::choices`
pub fn mem_disk_choices(this: &MemDisk, block: u64) -> u64
    requires { block < (memory_state this.now).blocks }
{
    this.choices(block)
}

/// `nofs_memdisk::MemDisk::image`
pub fn mem_disk_image(this: &MemDisk, alloc: Global, picks: &[Pick]) -> Result<MemDisk, AllocError>
    requires { All (PicksVersions (memory_state this.now)) picks.now }
{
    this.image(alloc, picks)
}

/// `nofs_filedisk::HostFile::open`
pub fn host_file_open(rt: &HostRuntime, path: &str) -> io::Result<HostFile> {
    HostFile::open(rt, path)
}

/// `nofs_filedisk::HostFile::open_existing`
pub fn host_file_open_existing(rt: &HostRuntime, path: &str) -> io::Result<HostFile> {
    HostFile::open_existing(rt, path)
}

/// `nofs_filedisk::MemFile::new`
pub fn mem_file_new(
    alloc: Global,
    bytes: &[u8],
    piece: usize,
    fails: &[u64],
) -> Result<MemFile, AllocError>
    requires { 1 ≤ piece }
{
    MemFile::new(alloc, bytes, piece, fails)
}

/// `nofs_filedisk::MemFile::bytes`
pub fn mem_file_bytes(this: &MemFile) -> &[u8] {
    this.bytes()
}

/// `nofs_filedisk::MemFile::durable`
pub fn mem_file_durable(this: &MemFile) -> &[u8] {
    this.durable()
}

/// `nofs_filedisk::MemFile::calls`
pub fn mem_file_calls(this: &MemFile) -> u64 {
    this.calls()
}

/// `nofs_filedisk::read_part`
pub fn filedisk_read_part<B: Positioned>(
    file: &mut B,
    at: u64,
    into: &mut [u8],
) -> Result<(), Failed>
    requires { at + length into.old < 2 ^ 63 }
{
    nofs_filedisk::read_part(file, at, into)
}

/// `nofs_filedisk::write_part`
pub fn filedisk_write_part<B: Positioned>(file: &mut B, at: u64, part: &[u8]) -> Result<(), Failed>
    requires { at + length part.now < 2 ^ 63 }
{
    nofs_filedisk::write_part(file, at, part)
}

/// `nofs_filedisk::FileDisk`
pub fn file_disk_itself<B: Positioned + Drop>(it: FileDisk<B>) -> FileDisk<B> {
    it
}

/// `nofs_filedisk::FileDisk::over`
pub fn file_disk_over<B: Positioned + Drop>(
    alloc: Global,
    file: B,
) -> Result<FileDisk<B>, AllocError>
    requires { IsSynced (B.state file) }
{
    FileDisk::over(alloc, file)
}

/// `nofs_filedisk::FileDisk::file`
pub fn file_disk_file<B: Positioned + Drop>(this: FileDisk<B>) -> B {
    this.file()
}

/// `nofs_cache::Cached`
pub fn cached_itself<D: Disk + Drop>(it: Cached<D>) -> Cached<D> {
    it
}

/// `nofs_cache::CacheFault`
pub fn cache_fault_fields<D: Disk + Drop>(it: CacheFault<D>) -> D {
    let CacheFault { under } = it;
    under
}

/// `nofs_cache::Cached::new`
pub fn cached_new<D: Disk + Drop>(alloc: Global, under: D) -> Result<Cached<D>, CacheFault<D>> {
    Cached::new(alloc, under)
}

/// `nofs_cache::Cached::below`
pub fn cached_below<D: Disk + Drop>(this: Cached<D>) -> D {
    this.below()
}

/// `nofs_cache::Gathered`
pub fn gathered_itself<D: Disk + Drop>(it: Gathered<D>) -> Gathered<D> {
    it
}

/// `nofs_cache::Gathered::new`
pub fn gathered_new<D: Disk + Drop>(under: D) -> Gathered<D> {
    Gathered::new(under)
}

/// `nofs_cache::Gathered::below`
pub fn gathered_below<D: Disk + Drop>(this: Gathered<D>) -> D {
    this.below()
}

/// `nofs_mirror::Mirror`
pub fn mirror_itself<A: Disk + Drop, B: Disk + Drop>(it: Mirror<A, B>) -> Mirror<A, B> {
    it
}

/// `nofs_mirror::MirrorFault`
pub fn mirror_fault_fields<A: Disk + Drop, B: Disk + Drop>(
    it: MirrorFault<A, B>,
) -> (A, B, MirrorCause) {
    let MirrorFault { lead, other, cause } = it;
    (lead, other, cause)
}

/// `nofs_mirror::Mirror::open`
pub fn mirror_open<A: Disk + Drop, B: Disk + Drop>(
    lead: A,
    other: B,
    blocks: u64,
) -> Result<Mirror<A, B>, MirrorFault<A, B>> {
    Mirror::open(lead, other, blocks)
}

/// `nofs_mirror::Mirror::sides`
pub fn mirror_sides<A: Disk + Drop, B: Disk + Drop>(this: &Mirror<A, B>) -> Sides {
    this.sides()
}

/// `nofs_mirror::Mirror::apart`
pub fn mirror_apart<A: Disk + Drop, B: Disk + Drop>(this: Mirror<A, B>) -> (A, B) {
    this.apart()
}
