//! The place of a slot: in the record, or in a block of pointers.
//!
//! Promise: a slot has one place, and its place leads back to its number.
ghost use Rattle.std.specs.Prelude.{◌≡◌, ◌<◌, ◌+◌, IsTrue};
ghost use Rattle.nofs_ptrs.specs.Paths.{is_pointer_slot, is_slot, path_of, slot_of};
ghost use Rattle.nofs_model.specs.Places.{IsPlace, place_path};

use nofs_ptrs::SLOT_LIMIT;

/// Where the pointer of a slot stands.
#[derive(Clone, Copy, Debug, PartialEq, Eq)]
pub enum Place {
    /// A place of the record: 0 to 7 are the direct pointers, 8 is the leaf's and 9 the top's.
    InRecord(u64),
    /// A place in the leaf or the top, which is at this place of the record.
    UnderRecord { at: u64, place: u64 },
    /// A place in a child of the top.
    UnderChild { child: u64, place: u64 },
}

/// The place of a slot. It asks a number that is a slot's: below 4,168, or from 2^32 to 2^32 + 65.
#[tactic(auto, unfolding(nofs_ptrs::specs::Paths::path_of))]
pub fn place_of(slot: u64) -> Place
    requires { IsTrue (is_slot slot) }
    ensures path { place_path result ≡ path_of slot }
    ensures is { IsPlace result }
{
    if slot < 8 {
        Place::InRecord(slot)
    } else if slot < 72 {
        Place::UnderRecord {
            at: 8,
            place: slot - 8,
        }
    } else if slot < SLOT_LIMIT {
        Place::UnderChild {
            child: (slot - 72) / 64,
            place: (slot - 72) % 64,
        }
    } else if slot < (1 << 32) + 2 {
        Place::InRecord(8 + (slot - (1 << 32)))
    } else {
        Place::UnderRecord {
            at: 9,
            place: slot - ((1 << 32) + 2),
        }
    }
}

/// The number of the slot at a place.
#[tactic(auto, unfolding(nofs_ptrs::specs::Paths::slot_of))]
pub fn slot_number(place: Place) -> u64
    requires { IsPlace place }
    ensures { result ≡ slot_of (place_path place) }
{
    match place {
        Place::InRecord(at) => { if at < 8 { at } else { (1 << 32) + (at - 8) } }
        Place::UnderRecord { at, place } => {
            if at == 8 {
                8 + place
            } else {
                (1 << 32) + 2 + place
            }
        }
        Place::UnderChild { child, place } => 72 + 64 * child + place,
    }
}

/// Whether a block in this place holds pointers: it is a leaf, a top or a child.
pub(crate) fn has_pointers(place: Place) -> bool
    ensures { result ≡ is_pointer_slot (place_path place) }
{
    match place {
        Place::InRecord(at) => at >= 8,
        Place::UnderRecord { at, .. } => at == 9,
        Place::UnderChild { .. } => false,
    }
}
