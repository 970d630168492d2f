//! What a crash may leave: the laws over the definitions, each the contract of a function.
//!
//! Promise: where each write of a step is proper, every image that a crash may leave at any moment reads each slot as
//! content given since the last flush, as a hole, or as lost.
//!
//! The parts, from the lowest up:
//!
//! - `machine`: laws of the machine's step, and worked examples.
//! - `images`: why a cell may stand on the disk, and what that says of each image.
//! - `untouched`: what a step leaves as it was.
//! - `files`: what Put and Resize leave on the disk.
//! - `names`: what Rename and Drop, and then Link and Make, leave on the disk.
//! - `maps`: what a step leaves of the maps and of the stamps.
//! - `homes`: what each step on names does to the homes of the blocks.
//! - `numbers`: why each number that a step writes is one that it may write.
//! - `runs`: what a run of the machine keeps, whatever its entries.
//! - `lives`: runs with crashes between them.
//! - `paths`: which name finds its file in every image that a crash may leave.
//!
//! The laws of steps in a history stand in this file itself. `specs/` and `proofs/On..` have a folder for each part;
//! that of these laws is `Histories`.
#![tactic(auto)]

mod files;
mod homes;
mod images;
mod lives;
mod machine;
mod maps;
mod names;
mod numbers;
mod paths;
mod runs;
mod untouched;

ghost use Rattle.nofs_crashlaw.specs.Histories.Laws.{LawLater, LawNames, LawRest, LawStep, LawUnflushed};
ghost use Rattle.nofs_crashlaw.specs.Histories.Stage.{LawFirstStage, LawFlushStage, LawIdleStage, LawLasts, LawStage};
ghost use Rattle.nofs_crashlaw.specs.Histories.Stage.{LawSteady, LawTracked};

pub use files::{law_put, law_resize, law_writes};
pub use homes::{
    law_drop_homes, law_entry_place, law_link_homes, law_make_homes, law_rename_homes,
    law_spelled_entry,
};
pub use images::{law_flush, law_images, law_moment};
pub use lives::{law_begin, law_lives, law_mount_stamps};
pub use machine::{law_accepted, law_examples, law_fits, law_next};
pub use maps::{law_fresh, law_good, law_homes, law_moves, law_pieces};
pub use names::new_names::{law_link, law_make, law_name_homes};
pub use names::old_names::{law_drop, law_rename};
use nofs_disk::Disk;
pub use numbers::{
    law_content_numbers, law_directory_numbers, law_name_numbers, law_pointer_numbers,
    law_put_numbers, law_resize_numbers, law_table_numbers,
};
pub use paths::law_path;
pub use runs::{law_base, law_run};
pub use untouched::law_frames;

/// A step whose writes are proper leaves only images that are allowed with its entry under way, and
/// in which the pointers of what is sure are the same.
pub fn law_step()
    ensures { LawStep }
{}

/// Entries that come later change nothing of what is allowed at a moment.
pub fn law_later()
    ensures { LawLater }
{}

/// What is live and not agreed stays the base's over each step.
pub fn law_rest()
    ensures { LawRest }
{}

/// A name that every version since the mark agrees on is a pair in each image.
pub fn law_names()
    ensures { LawNames }
{}

/// A life with an empty history leaves its base: so a mount that ended inside its raise is a life.
pub fn law_unflushed()
    ensures { LawUnflushed }
{}

/// Over the states of a disk: a step that does not flush keeps what holds between two steps. Where a
/// write of it failed, all that a crash may leave stays allowed.
pub fn law_stage<D: Disk>()
    ensures lasts { (old new : D) → LawLasts (D.state old) (D.state new) }
    ensures stage { (old new : D) → LawStage (D.state old) (D.state new) }
    ensures idle { (old new : D) → LawIdleStage (D.state old) (D.state new) }
    ensures tracked { (disk : D) → LawTracked (D.state disk) }
{}

/// Over the states of a disk: a flush that succeeds makes the disk before it the new mark.
pub fn law_flush_stage<D: Disk>()
    ensures { (old new : D) → LawFlushStage (D.state old) (D.state new) }
{}

/// Over the states of a disk: after a mount that succeeded the first step may begin, and so may a
/// flush.
pub fn law_first_stage<D: Disk>()
    ensures { (disk : D) → LawFirstStage (D.state disk) }
{}

/// Over the states of a disk: between two steps every image that a crash may leave has the pointers of
/// what is sure that a read finds, and what is live and not agreed is the base's.
pub fn law_steady<D: Disk>()
    ensures { (disk : D) → LawSteady (D.state disk) }
{}
