//! What an element has on the disk, read block by block.
//!
//! Promise: each sight is that of the disk's image, whatever the bytes are. A read changes no disk, takes no memory,
//! and fails only where the disk's count of faults rose. What it finds of inodes on the ways up is known from then on.
ghost use Rattle.std.specs.Prelude.{◌≡◌, ◌<◌, ◌^◌, IsTrue, OnOk, length, true};
ghost use Rattle.nofs_inode.specs.declared.inode.FileKind.TheVariants as kind;
ghost use Rattle.nofs_dirent.specs.Entries.{entry_in};
ghost use Rattle.nofs_ptrs.specs.Paths as paths;
ghost use Rattle.nofs_disk.specs.Disk.{cell_at};
ghost use Rattle.nofs_model.specs.Files as files;
ghost use Rattle.nofs_model.specs.Geometry as image;
ghost use Rattle.nofs_model.specs.Places.{IsPlace, place_path};
ghost use Rattle.nofs_disk.specs.Tag.{tag_of};
ghost use Rattle.nofs_agree.specs.Reads.{IsAt, IsLast, KnowsDirectory};
ghost use Rattle.nofs_scan.specs.Steps.Elements.{HasElement};
ghost use Rattle.nofs_scan.specs.Steps.Looks.{LooksAt};
ghost use Rattle.nofs_scan.specs.Sights.Reads.{AreLast, KeepsRecord, ReadsAnswer, Sees};
ghost use Rattle.nofs_scan.specs.Sights.Verdicts as sights;

use crate::sights::last_reads::LastReads;
use crate::sights::sights::{
    Above, BlockSight, BlocksAbove, EntryTarget, InodeSight, LinkSight, OwnerSight, Sight, TagSight,
};
use crate::sights::verdicts::is_slot;
use nofs_agree::{Known, LastRead, PathAnswer, find_slot, learn_chain, read_block, read_inode};
use nofs_dirent::bytes_of;
use nofs_disk::{Disk, Failed, Pointer, Tag, read_tag, read_u32_at, read_u64_at};
use nofs_history::ElementKind;
use nofs_inode::{BackLink, FileKind, Record};
use nofs_model::{Place, kind_in, names_inode, place_of, record_pointer};
use nofs_ptrs::read_pointer;
use nofs_super::SuperBlock;

/// Reads what the disk has of an element: an inode's record and what each of its back links leads to; or a block's tag
/// and what stands in the slot that the tag names. Of a block of the superblock or the inode table nothing is read.
///
/// # Errors
///
/// `Failed` where a read failed.
pub(crate) fn read_sight<D: Disk>(
    disk: &mut D,
    at: &SuperBlock,
    known: &mut Known,
    kind: ElementKind,
    item: u64,
    reads: &mut LastReads,
) -> Result<Sight, Failed>
    requires numbers { IsAt (D.state disk.old) at.now }
    requires known { length known.old ≡ at.now.inodes }
    requires range { HasElement kind at.now item }
    requires small { at.now.inodes < 2 ^ 32 }
    requires last { AreLast (D.state disk.old) reads.old }
    ensures looks { LooksAt (D.state disk.old) at.now known.old known.new (D.state disk.new) kind item result }
    ensures kept { OnOk result (AreLast (D.state disk.new) reads.new) }
{
    match kind {
        ElementKind::Inode => {
            let inode = item as u32;
            read_record(disk, at, inode, reads)?;
            let it = &reads.in_table;
            let links = read_links(disk, at, known, &it.links)?;
            Ok(Sight::Inode(InodeSight {
                inode,
                generation: it.generation,
                kind: it.kind,
                links,
            }))
        }
        ElementKind::Block => {
            if item <= at.inodes / 4 {
                return Ok(Sight::Fixed(item));
            }
            let tag = read_own_tag(disk, at, item, &mut reads.own)?;
            let tagged = read_tagged(disk, at, known, tag, reads)?;
            Ok(Sight::Block(BlockSight {
                block: item,
                tagged,
            }))
        }
    }
}

// The record of an inode is read where it isn't the one that was read last. It is kept.
fn read_record<D: Disk>(
    disk: &mut D,
    at: &SuperBlock,
    inode: u32,
    reads: &mut LastReads,
) -> Result<(), Failed>
    requires numbers { IsAt (D.state disk.old) at.now }
    requires last { AreLast (D.state disk.old) reads.old }
    ensures { KeepsRecord (D.state disk.old) (D.state disk.new) inode reads.new result }
{
    if inode == reads.inode {
        return Ok(());
    }
    let it = read_inode(disk, at, inode, &mut reads.table)?;
    reads.in_table = it;
    reads.inode = inode;
    Ok(())
}

// What four back links lead to.
fn read_links<D: Disk>(
    disk: &mut D,
    at: &SuperBlock,
    known: &mut Known,
    links: &[BackLink; 4],
) -> Result<[LinkSight; 4], Failed>
    requires numbers { IsAt (D.state disk.old) at.now }
    requires known { length known.old ≡ at.now.inodes }
    ensures { Sees (D.state disk.old) (D.state disk.new) known.old known.new
        (λ X. sights.link_sights X links.now) result }
{
    let low = read_two(disk, at, known, &links[0], &links[1])?;
    let high = read_two(disk, at, known, &links[2], &links[3])?;
    Ok([low.0, low.1, high.0, high.1])
}

fn read_two<D: Disk>(
    disk: &mut D,
    at: &SuperBlock,
    known: &mut Known,
    one: &BackLink,
    two: &BackLink,
) -> Result<(LinkSight, LinkSight), Failed>
    requires numbers { IsAt (D.state disk.old) at.now }
    requires known { length known.old ≡ at.now.inodes }
    ensures { Sees (D.state disk.old) (D.state disk.new) known.old known.new
        (λ X. (sights.link_sight X one.now, sights.link_sight X two.now)) result }
{
    let first = read_link(disk, at, known, one)?;
    let second = read_link(disk, at, known, two)?;
    Ok((first, second))
}

// What a back link leads to.
fn read_link<D: Disk>(
    disk: &mut D,
    at: &SuperBlock,
    known: &mut Known,
    link: &BackLink,
) -> Result<LinkSight, Failed>
    requires numbers { IsAt (D.state disk.old) at.now }
    requires known { length known.old ≡ at.now.inodes }
    ensures { Sees (D.state disk.old) (D.state disk.new) known.old known.new
        (λ X. sights.link_sight X link.now) result }
{
    let entry = read_link_entry(disk, at, link)?;
    let agreed = read_agreed(disk, at, known, link.directory)?;
    Ok(LinkSight {
        generation: link.generation,
        entry,
        agreed,
    })
}

// Whether an inode is agreed. No inode has the number 0, which each empty link has.
fn read_agreed<D: Disk>(
    disk: &mut D,
    at: &SuperBlock,
    known: &mut Known,
    inode: u32,
) -> Result<bool, Failed>
    requires numbers { IsAt (D.state disk.old) at.now }
    requires known { length known.old ≡ at.now.inodes }
    ensures { Sees (D.state disk.old) (D.state disk.new) known.old known.new
        (λ X. files.agreed (files.files_in X) inode) result }
{
    if inode == 0 {
        return Ok(false);
    }
    learn_chain(disk, at, known, inode)
}

// The entry that a back link names, in a directory of its generation.
fn read_link_entry<D: Disk>(
    disk: &mut D,
    at: &SuperBlock,
    link: &BackLink,
) -> Result<Option<EntryTarget>, Failed>
    requires { IsAt (D.state disk.old) at.now }
    ensures { ReadsAnswer (D.state disk.old) (D.state disk.new)
        (λ X. sights.entry_linked (files.files_in X) link.now) result }
{
    if link.directory == 0 {
        return Ok(None);
    }
    let mut last = LastRead::NONE;
    let directory = read_inode(disk, at, link.directory, &mut last)?;
    if !is_directory(&directory, link.generation) {
        return Ok(None);
    }
    read_entry_of(disk, at, link, &directory, &mut last)
}

// Whether this is the record of a live directory of this generation.
fn is_directory(it: &Record, generation: u64) -> bool
    ensures { result ≡ files.is_record kind.Directory generation it.now }
{
    it.kind == Some(FileKind::Directory) && it.generation == generation
}

// The entry that a back link names in this directory.
fn read_entry_of<D: Disk>(
    disk: &mut D,
    at: &SuperBlock,
    link: &BackLink,
    directory: &Record,
    last: &mut LastRead,
) -> Result<Option<EntryTarget>, Failed>
    requires directory { KnowsDirectory (D.state disk.old) at.now link.now.directory link.now.generation directory.now }
    requires last { IsLast (D.state disk.old) last.old }
    ensures { ReadsAnswer (D.state disk.old) (D.state disk.new)
        (λ X. sights.named_inode (files.entry_at (files.files_in X) link.now.directory link.now.entry)) result }
{
    if link.entry >= 1152 {
        return Ok(None);
    }
    let place = place_of(u64::from(link.entry / 16));
    match find_slot(disk, at, link.directory, directory, place, last)? {
        PathAnswer::Holds(_) => Ok(named_at(&last.cell.payload, link.entry % 16)),
        PathAnswer::Hole => Ok(None),
        PathAnswer::Lost => Ok(None),
    }
}

// Whom the entry at a place of a directory cell names.
fn named_at(payload: &[u8; 1024], at: u32) -> Option<EntryTarget>
    requires { at < 16 }
    ensures { result ≡ sights.named_inode (entry_in payload.now at) }
{
    let bytes = bytes_of(payload, at);
    let inode = read_u32_at(bytes, 0);
    let generation = read_u64_at(bytes, 8);
    if names_inode(payload, at, inode, generation) {
        Some(EntryTarget { inode, generation })
    } else {
        None
    }
}

// The tag of a block.
fn read_own_tag<D: Disk>(
    disk: &mut D,
    at: &SuperBlock,
    block: u64,
    last: &mut LastRead,
) -> Result<Option<Tag>, Failed>
    requires numbers { IsAt (D.state disk.old) at.now }
    requires block { block < at.now.blocks }
    requires last { IsLast (D.state disk.old) last.old }
    ensures answers { ReadsAnswer (D.state disk.old) (D.state disk.new) (λ X. tag_of (cell_at X block).tag) result }
    ensures kept { OnOk result (IsLast (D.state disk.new) last.new) }
{
    read_block(disk, block, last)?;
    Ok(read_tag(&last.cell.tag))
}

fn read_tagged<D: Disk>(
    disk: &mut D,
    at: &SuperBlock,
    known: &mut Known,
    tag: Option<Tag>,
    reads: &mut LastReads,
) -> Result<Option<TagSight>, Failed>
    requires numbers { IsAt (D.state disk.old) at.now }
    requires known { length known.old ≡ at.now.inodes }
    requires last { AreLast (D.state disk.old) reads.old }
    ensures sees { Sees (D.state disk.old) (D.state disk.new) known.old known.new (λ X. sights.tagged_in X tag) result }
    ensures kept { OnOk result (AreLast (D.state disk.new) reads.new) }
{
    match tag {
        None => Ok(None),
        Some(tag) => {
            if names_slot(&tag) {
                Ok(Some(read_slot(disk, at, known, tag, reads)?))
            } else {
                Ok(None)
            }
        }
    }
}

// Whether a tag names a slot of an inode. No inode has the number 0, which the tag of each unused block has.
fn names_slot(tag: &Tag) -> bool
    ensures value { result ≡ sights.names_slot tag.now }
    ensures slot { result ≡ true → IsTrue (paths.is_slot tag.now.slot) }
{
    tag.inode != 0 && is_slot(tag.slot)
}

// What stands in the slot that a tag names.
fn read_slot<D: Disk>(
    disk: &mut D,
    at: &SuperBlock,
    known: &mut Known,
    tag: Tag,
    reads: &mut LastReads,
) -> Result<TagSight, Failed>
    requires slot { IsTrue (paths.is_slot tag.slot) }
    requires numbers { IsAt (D.state disk.old) at.now }
    requires known { length known.old ≡ at.now.inodes }
    requires last { AreLast (D.state disk.old) reads.old }
    ensures sees { Sees (D.state disk.old) (D.state disk.new) known.old known.new (λ X. sights.tag_sight X tag) result }
    ensures kept { OnOk result (AreLast (D.state disk.new) reads.new) }
{
    let found = read_slot_way(disk, at, tag.inode, place_of(tag.slot), reads)?;
    let agreed = read_agreed(disk, at, known, tag.inode)?;
    Ok(TagSight {
        tag,
        owner: found.0,
        way: found.1,
        agreed,
    })
}

// What the record of an inode says of the slot at a place, and the blocks above that slot.
fn read_slot_way<D: Disk>(
    disk: &mut D,
    at: &SuperBlock,
    inode: u32,
    place: Place,
    reads: &mut LastReads,
) -> Result<(OwnerSight, BlocksAbove), Failed>
    requires numbers { IsAt (D.state disk.old) at.now }
    requires place { IsPlace place }
    requires last { AreLast (D.state disk.old) reads.old }
    ensures answers { ReadsAnswer (D.state disk.old) (D.state disk.new)
        (λ X. sights.slot_way X (image.inode X inode) (place_path place)) result }
    ensures kept { OnOk result (AreLast (D.state disk.new) reads.new) }
{
    read_record(disk, at, inode, reads)?;
    let owner = owner_sight(&reads.in_table, place);
    let way = read_way(disk, at, place, owner.pointer.block, reads)?;
    Ok((owner, way))
}

// What a record says of the slot at a place.
fn owner_sight(it: &Record, place: Place) -> OwnerSight
    requires { IsPlace place }
    ensures { result ≡ sights.owner_sight it.now (place_path place) }
{
    OwnerSight {
        live: it.kind.is_some(),
        generation: it.generation,
        kind: kind_in(it, place),
        pointer: first_pointer(it, place),
    }
}

// The pointer of the slot at a place, or that of the upper block.
fn first_pointer(it: &Record, place: Place) -> Pointer
    requires { IsPlace place }
    ensures { result ≡ sights.first_pointer it.now (place_path place) }
{
    match place {
        Place::InRecord(at) => record_pointer(it, at),
        Place::UnderRecord { at, .. } => record_pointer(it, at),
        Place::UnderChild { .. } => it.top,
    }
}

// The blocks above the slot at a place, the upper of which is this one.
#[tactic(auto, unfolding(nofs_disk::specs::Number::zeros))]
fn read_way<D: Disk>(
    disk: &mut D,
    at: &SuperBlock,
    place: Place,
    block: u64,
    reads: &mut LastReads,
) -> Result<BlocksAbove, Failed>
    requires place { IsPlace place }
    requires numbers { IsAt (D.state disk.old) at.now }
    requires last { AreLast (D.state disk.old) reads.old }
    ensures answers { ReadsAnswer (D.state disk.old) (D.state disk.new)
        (λ X. sights.way_in X block (place_path place)) result }
    ensures kept { OnOk result (AreLast (D.state disk.new) reads.new) }
{
    match place {
        Place::InRecord(_) => Ok(BlocksAbove::NONE),
        Place::UnderRecord { place, .. } => Ok(BlocksAbove {
            upper: read_above(disk, at, block, place, &mut reads.upper)?,
            lower: Above::NONE,
        }),
        Place::UnderChild { child, place } => {
            read_under_top(disk, at, block, child, place, reads)
        }
    }
}

// The top, and a child of it.
fn read_under_top<D: Disk>(
    disk: &mut D,
    at: &SuperBlock,
    block: u64,
    child: u64,
    place: u64,
    reads: &mut LastReads,
) -> Result<BlocksAbove, Failed>
    requires numbers { IsAt (D.state disk.old) at.now }
    requires child { child < 64 }
    requires place { place < 64 }
    requires last { AreLast (D.state disk.old) reads.old }
    ensures answers { ReadsAnswer (D.state disk.old) (D.state disk.new)
        (λ X. sights.under_top X block child place) result }
    ensures kept { OnOk result (AreLast (D.state disk.new) reads.new) }
{
    let upper = read_above(disk, at, block, child, &mut reads.upper)?;
    let lower = read_above(disk, at, upper.pointer.block, place, &mut reads.lower)?;
    Ok(BlocksAbove { upper, lower })
}

// The tag of a block and the pointer at a place in it, where it is a block of the data area.
#[tactic(auto, unfolding(nofs_disk::specs::Number::zeros))]
fn read_above<D: Disk>(
    disk: &mut D,
    at: &SuperBlock,
    block: u64,
    place: u64,
    last: &mut LastRead,
) -> Result<Above, Failed>
    requires place { place < 64 }
    requires numbers { IsAt (D.state disk.old) at.now }
    requires last { IsLast (D.state disk.old) last.old }
    ensures answers { ReadsAnswer (D.state disk.old) (D.state disk.new) (λ X. sights.above_in X block place) result }
    ensures kept { OnOk result (IsLast (D.state disk.new) last.new) }
{
    if block <= at.inodes / 4 || block >= at.blocks {
        return Ok(Above::NONE);
    }
    read_block(disk, block, last)?;
    Ok(Above {
        tag: last.cell.tag,
        pointer: read_pointer(&last.cell.payload, place as u32),
    })
}
