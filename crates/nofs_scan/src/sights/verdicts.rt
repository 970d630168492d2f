//! The verdict of what was read of an element. It takes no device.
//!
//! Promise: of what an image has, the verdict is that of the image's scan.
ghost use Rattle.std.specs.Prelude.{◌≡◌, ◌<◌, ℕ, Some};
ghost use Rattle.nofs_ptrs.specs.Paths as paths;
ghost use Rattle.nofs_model.specs.Files as files;
ghost use Rattle.nofs_model.specs.Geometry.{Image, super_at};
ghost use Rattle.nofs_model.specs.Places.{IsPlace, place_path};
ghost use Rattle.nofs_model.specs.Slots as slots;
ghost use Rattle.nofs_history.specs.declared.machine.steps.ElementKind.{ElementKind};
ghost use Rattle.nofs_scan.specs.Steps.Elements.{HasElement, is_used};
ghost use Rattle.nofs_scan.specs.Sights.Verdicts as sights;

use crate::sights::sights::{
    Above, BlockSight, EntryTarget, InodeSight, LinkSight, Sight, TagSight,
};
use nofs_disk::{Kind, Pointer, Tag};
use nofs_inode::FileKind;
use nofs_model::{Place, is_tag, place_of, slot_number};

impl Sight {
    /// The number of the element.
    pub fn item(&self) -> u64
        ensures { result ≡ sights.item_of self.now }
    {
        match self {
            Sight::Inode(sight) => u64::from(sight.inode),
            Sight::Block(sight) => sight.block,
            Sight::Fixed(block) => *block,
        }
    }

    /// Whether the element is used.
    pub fn is_used(&self) -> bool
        ensures value { result ≡ sights.sight_verdict self.now }
        ensures scan { (X : Image) (kind : ElementKind) (item : ℕ) → HasElement kind (super_at X) item
            → self.now ≡ sights.sight_in kind X item → result ≡ is_used kind X item }
    {
        judged(self)
    }
}

// Whether an element is used, by what was read of it.
fn judged(sight: &Sight) -> bool
    ensures { result ≡ sights.sight_verdict sight.now }
{
    match sight {
        Sight::Inode(sight) => is_inode_used(sight),
        Sight::Block(sight) => is_block_used(sight),
        Sight::Fixed(_) => true,
    }
}

// An inode is used where it is 1 or 2, or some back link leads up to an agreed directory.
fn is_inode_used(sight: &InodeSight) -> bool
    ensures { result ≡ sights.judged_inode sight.now }
{
    is_special(sight.inode)
        || leads_up_at(sight, 0)
        || leads_up_at(sight, 1)
        || leads_up_at(sight, 2)
        || leads_up_at(sight, 3)
}

fn is_special(inode: u32) -> bool
    ensures { result ≡ files.is_special inode }
{
    inode == 1 || inode == 2
}

fn leads_up_at(sight: &InodeSight, place: usize) -> bool
    requires { place < 4 }
    ensures { result ≡ sights.leads_up_at sight.now place }
{
    leads_up(sight, &sight.links[place])
}

// Whether a back link is a pair with an agreed directory.
fn leads_up(sight: &InodeSight, link: &LinkSight) -> bool
    ensures { result ≡ sights.leads_up sight.now.inode sight.now.generation sight.now.kind link.now }
{
    may_have(sight.kind, link.generation, sight.generation)
        && names_it(link.entry, sight.inode, sight.generation)
        && link.agreed
}

// Whether an inode may have this back link: a directory is younger than the one that names it.
fn may_have(kind: Option<FileKind>, directory: u64, generation: u64) -> bool
    ensures { result ≡ sights.may_have kind directory generation }
{
    match kind {
        None => false,
        Some(FileKind::File) => true,
        Some(FileKind::Directory) => directory < generation,
    }
}

fn names_it(entry: Option<EntryTarget>, inode: u32, generation: u64) -> bool
    ensures { result ≡ sights.names_it entry inode generation }
{
    match entry {
        None => false,
        Some(named) => named.inode == inode && named.generation == generation,
    }
}

// A block of the data area is used where the slot that its tag names holds it, in an agreed inode.
fn is_block_used(sight: &BlockSight) -> bool
    ensures { result ≡ sights.judged_tag sight.now.block sight.now.tagged }
{
    match &sight.tagged {
        None => false,
        Some(tagged) => is_owned(sight.block, tagged),
    }
}

// Whether the slot that a tag names holds this block, and its inode is agreed.
fn is_owned(block: u64, sight: &TagSight) -> bool
    ensures { result ≡ sights.judged_tag block (Some sight.now) }
{
    is_slot(sight.tag.slot) && holds_down(block, sight, place_of(sight.tag.slot)) && sight.agreed
}

/// Whether a number is a slot's.
pub(crate) fn is_slot(number: u64) -> bool
    ensures { result ≡ paths.is_slot number }
{
    number < 4168 || number >= 1 << 32 && number < (1 << 32) + 66
}

// Whether the slot at a place holds this block, and each slot above it holds.
fn holds_down(block: u64, sight: &TagSight, place: Place) -> bool
    requires { IsPlace place }
    ensures { result ≡ sights.holds_down block sight.now (place_path place) }
{
    match place {
        Place::InRecord(_) => holds_it(block, sight, place, sight.owner.pointer),
        Place::UnderRecord { at, .. } => {
            holds_upper(sight, at) && holds_it(block, sight, place, sight.way.upper.pointer)
        }
        Place::UnderChild { child, .. } => {
            holds_upper(sight, 9)
                && holds_lower(sight, child)
                && holds_it(block, sight, place, sight.way.lower.pointer)
        }
    }
}

// Whether the leaf or the top holds.
fn holds_upper(sight: &TagSight, at: u64) -> bool
    requires { at < 10 }
    ensures { result ≡ sights.holds_above sight.now (paths.InRecord at) sight.now.owner.pointer sight.now.way.upper }
{
    let place = Place::InRecord(at);
    holds_above(sight, place, sight.owner.pointer, &sight.way.upper)
}

// Whether this child of the top holds.
fn holds_lower(sight: &TagSight, child: u64) -> bool
    requires { child < 64 }
    ensures { result ≡ sights.holds_above sight.now (paths.child child) sight.now.way.upper.pointer
        sight.now.way.lower }
{
    let place = Place::UnderRecord {
        at: 9,
        place: child,
    };
    holds_above(sight, place, sight.way.upper.pointer, &sight.way.lower)
}

// Whether the slot at a place has this pointer to the block, and the block its tag.
fn holds_it(block: u64, sight: &TagSight, place: Place, pointer: Pointer) -> bool
    requires { IsPlace place }
    ensures { result ≡ sights.holds_it block sight.now (place_path place) pointer }
{
    pointer.block == block
        && may_hold(sight, pointer)
        && is_same_tag(
            &sight.tag,
            &wanted_tag(sight, sight.owner.kind, place, pointer.stamp),
        )
}

fn is_same_tag(tag: &Tag, wanted: &Tag) -> bool
    ensures { result ≡ slots.is_tag (Some tag.now) wanted.now }
{
    *tag == *wanted
}

// Whether the slot at a place with this pointer holds the block of pointers above the tag's slot.
fn holds_above(sight: &TagSight, place: Place, pointer: Pointer, above: &Above) -> bool
    requires { IsPlace place }
    ensures { result ≡ sights.holds_above sight.now (place_path place) pointer above.now }
{
    may_hold(sight, pointer)
        && is_tag(
            &above.tag,
            &wanted_tag(sight, Kind::Leaf, place, pointer.stamp),
        )
}

// Whether a slot with this pointer holds, if its block has the wanted tag: it names a block, in a live inode.
fn may_hold(sight: &TagSight, pointer: Pointer) -> bool
    ensures { result ≡ sights.may_hold sight.now.owner pointer }
{
    !pointer.is_null() && sight.owner.live
}

// The tag that a block of this kind must have in the slot at a place.
fn wanted_tag(sight: &TagSight, kind: Kind, place: Place, stamp: u64) -> Tag
    requires { IsPlace place }
    ensures { result ≡ sights.tag_wanted sight.now.owner sight.now.tag.inode kind (place_path place) stamp }
{
    Tag {
        kind,
        inode: sight.tag.inode,
        generation: sight.owner.generation,
        slot: slot_number(place),
        stamp,
    }
}
