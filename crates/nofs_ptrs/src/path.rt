//! Where the pointer of a slot stands (docs/FORMAT.md, "Leaf and directory cells").
//!
//! Promise: each slot of content has one place, and no other number has one.
ghost use Rattle.std.specs.Prelude.{◌≡◌, ◌≤◌, ◌↔◌, IfSome, IsNone};
ghost use Rattle.nofs_ptrs.specs.Paths.{IsSlot, path_of, place_of, slot_limit};

/// How many slots of content a file has at most.
pub const SLOT_LIMIT: u64 = 4168;

/// The place of the pointer of a slot of content. Pointers are counted from 0.
#[derive(Clone, Copy, Debug, PartialEq, Eq)]
pub enum SlotPath {
    /// The record's direct pointer with this number, below 8.
    Direct(u32),
    /// The leaf's pointer with this number, below 64.
    Leaf(u32),
    /// The child with this number, and that child's pointer with this number, both below 64.
    Child(u32, u32),
}

/// The place of a slot's pointer; `None` exactly for slots from 4,168 on.
#[tactic(auto, unfolding(crate::specs::Paths::path_of))]
pub fn path_of(slot: u64) -> Option<SlotPath>
    ensures place { IfSome result (λ path. place_of path ≡ path_of slot) }
    ensures slot { IfSome result (λ path. IsSlot (place_of path)) }
    ensures none { IsNone result ↔ slot_limit ≤ slot }
{
    match slot {
        0..8 => Some(SlotPath::Direct(slot as u32)),
        8..72 => Some(SlotPath::Leaf(slot as u32 - 8)),
        72..4168 => {
            let far = slot as u32 - 72;
            Some(SlotPath::Child(far / 64, far % 64))
        }
        _ => None,
    }
}
