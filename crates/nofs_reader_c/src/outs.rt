//! Answers as structs of C, but for how much is used, which is given as it is.
//!
//! Promise: each has the fields of the answer of `nofs_reader` that it is made of.
ghost use Rattle.std.specs.Prelude.{◌≡◌};
ghost use Rattle.nofs_reader_c.specs.Outs.{HasPlace, bare_line, kind_number, last_beside, line_of, looked_of, next_of};
ghost use Rattle.nofs_reader_c.specs.Outs.{run_kind_number, run_of, stat_of, superblock_of};

use nofs_disk::clear;
use nofs_inode::FileKind;
use nofs_reader::{InodeStat, Line, Looked, NextLine, Run, RunKind};
use nofs_super::SuperBlock;

/// The numbers of an image.
#[repr(C)]
#[derive(Clone, Copy)]
pub struct CSuperblock {
    pub version: u64,
    pub blocks: u64,
    pub inodes: u64,
    pub mount: u64,
}

/// A file or directory.
#[repr(C)]
#[derive(Clone, Copy)]
pub struct CStat {
    /// 1 is a file, 2 a directory.
    pub kind: u32,
    pub links: u32,
    pub generation: u64,
    pub size: u64,
}

/// A run of slots of a file.
#[repr(C)]
#[derive(Clone, Copy)]
pub struct CRun {
    /// 1 has bytes, 2 is holes, 3 is lost.
    pub what: u64,
    pub slots: u64,
}

/// What stands at a place of a directory.
#[repr(C)]
#[derive(Clone, Copy)]
pub struct CLine {
    /// 0 is nothing, 1 an entry, 2 a dead entry, 3 a lost slot.
    pub what: u32,
    pub place: u32,
    pub inode: u32,
    /// 1 is a file, 2 a directory, 0 neither.
    pub kind: u32,
    pub generation: u64,
    pub length: u64,
    pub name: [u8; 48],
}

pub(crate) fn superblock_of(it: &SuperBlock) -> CSuperblock
    ensures { result ≡ superblock_of it.now }
{
    CSuperblock {
        version: u64::from(it.version),
        blocks: it.blocks,
        inodes: it.inodes,
        mount: it.mount,
    }
}

fn kind_number(kind: FileKind) -> u32
    ensures { result ≡ kind_number kind }
{
    match kind {
        FileKind::File => 1,
        FileKind::Directory => 2,
    }
}

pub(crate) fn stat_of(it: &InodeStat) -> CStat
    ensures { result ≡ stat_of it.now }
{
    CStat {
        links: it.links,
        generation: it.generation,
        size: it.size,
        kind: kind_number(it.kind),
    }
}

pub(crate) fn run_of(it: &Run) -> CRun
    ensures { result ≡ run_of it.now }
{
    CRun {
        what: run_kind_number(it.kind),
        slots: it.slots,
    }
}

fn run_kind_number(kind: RunKind) -> u64
    ensures { result ≡ run_kind_number kind }
{
    match kind {
        RunKind::Bytes => 1,
        RunKind::Holes => 2,
        RunKind::Lost => 3,
    }
}

// An entry, dead or not.
fn line_of(it: &Line) -> CLine
    ensures { result ≡ line_of it.now }
{
    match it.kind {
        Some(kind) => CLine {
            what: 1,
            place: it.place,
            inode: it.named.inode,
            kind: kind_number(kind),
            generation: it.named.generation,
            length: u64::from(it.named.length),
            name: it.named.name,
        },
        None => CLine {
            what: 2,
            place: it.place,
            inode: it.named.inode,
            kind: 0,
            generation: it.named.generation,
            length: u64::from(it.named.length),
            name: it.named.name,
        },
    }
}

// What is no entry.
fn bare_line(what: u32, place: u32) -> CLine
    ensures { result ≡ bare_line what place }
{
    let mut it = CLine {
        what,
        place,
        inode: 0,
        kind: 0,
        generation: 0,
        length: 0,
        name: [0; 48],
    };
    clear(&mut it.name);
    it
}

// The last place of the slot of a place.
fn last_beside(place: u32) -> u32
    ensures { result ≡ last_beside place }
{
    16 * (place / 16) + 15
}

pub(crate) fn next_of(it: &NextLine) -> CLine
    ensures { result ≡ next_of it.now }
{
    match it {
        NextLine::Line(line) => line_of(line),
        NextLine::Lost { place } => bare_line(3, last_beside(*place)),
        NextLine::End => bare_line(0, 0),
    }
}

pub(crate) fn looked_of(it: &Looked) -> CLine
    requires { HasPlace it.now }
    ensures { result ≡ looked_of it.now }
{
    match it {
        Looked::Found(line) => line_of(line),
        Looked::LostEntry { place } => bare_line(2, *place),
        Looked::LostSlot { slot } => bare_line(3, 16 * *slot + 15),
        Looked::Missing => bare_line(0, 0),
    }
}
