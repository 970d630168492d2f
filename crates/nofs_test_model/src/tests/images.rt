//! The example images by their names, a disk on which a read fails, and what is said of a slot.

use nofs_disk::Cell;
use nofs_memdisk::MemDisk;
use nofs_test_disks::*;
use nofs_versions::{CallKind, FaultAt};
use std::alloc::{AllocError, Global};

/// The number of the leaf's slot. The top's and those of the children follow.
pub(crate) const LEAF: u64 = 4_294_967_296;

// The place of a name in `NAMES`.
fn place_of(name: &str) -> Option<usize> {
    NAMES.iter().position(|it| *it == name)
}

/// The names of the images, in the order of `image`.
const NAMES: [&str; 14] = [
    "empty",
    "stamp that differs",
    "two owners",
    "two owners the other way",
    "inode made again",
    "residue past the size",
    "blocks under the top",
    "dead second link",
    "one name twice",
    "entry of a free record",
    "entry of another generation",
    "loop of directories",
    "bytes ff",
    "chain of directories",
];

/// The image of this name; no cells where none has it.
pub(crate) fn image(alloc: Global, name: &str) -> Result<Vec<Cell>, AllocError> {
    match place_of(name) {
        Some(0) => empty(alloc),
        Some(1) => stamp_that_differs(alloc),
        Some(2) => two_owners(alloc),
        Some(3) => two_owners_the_other_way(alloc),
        Some(4) => inode_made_again(alloc),
        Some(5) => residue_past_the_size(alloc),
        Some(6) => blocks_under_the_top(alloc),
        Some(7) => dead_second_link(alloc),
        Some(8) => one_name_twice(alloc),
        Some(9) => entry_of_a_free_record(alloc),
        Some(10) => entry_of_another_generation(alloc),
        Some(11) => loop_of_directories(alloc),
        Some(12) => bytes_ff(alloc),
        Some(13) => chain_of_directories(alloc),
        _ => Ok(Vec::new(alloc)),
    }
}

/// A disk that holds the image of this name.
pub(crate) fn image_disk(alloc: Global, name: &str) -> Result<MemDisk, AllocError> {
    disk_of(alloc, &image(alloc, name)?)
}

/// Lets a read fail: the next one has number 1.
pub(crate) fn fail_read(disk: &mut MemDisk, number: u64) -> Result<(), AllocError> {
    let fault = FaultAt {
        call: CallKind::Read,
        number: disk.calls().reads.saturating_add(number),
        taken: false,
    };
    disk.fail_at(&[fault])
}

/// Adds what is said of a slot, where something is.
pub(crate) fn push_slot(
    alloc: Global,
    text: &mut String,
    inode: u32,
    slot: u64,
    says: &str,
) -> Result<(), AllocError> {
    if says.is_empty() {
        return Ok(());
    }
    text.push_str(format!(in alloc; "{inode}:{slot}={says} ")?.as_str())
}
