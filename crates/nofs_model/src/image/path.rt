//! What stands in a slot.
use nofs_disk::Pointer;

/// What the check of a slot finds.
#[derive(Clone, Copy, Debug, PartialEq, Eq)]
pub enum PathAnswer {
    /// The slot has no block: its pointer is null, or that of a block above it.
    Hole,
    /// The pointer's block has the tag of just this slot.
    Holds(Pointer),
    /// Some block on the way to the slot, or its own, has another tag than the pointer asks for.
    Lost,
}
