//! Why a cell may stand on the disk: the reasons that each write of a step has, and what they say
//! of every image that a crash may leave.
//!
//! Promise: a reason speaks of one cell alone, and of no other block and of no order of writes.

ghost use Rattle.nofs_crashlaw.specs.Images.Moments.{LawFlush, LawImages, LawMoment};

/// What has its reason before a step, and the proper writes of the step, have their reasons after
/// it, whichever of them were done.
pub fn law_moment()
    ensures { LawMoment }
{}

/// Every image that picks for each block a cell with its reason says only what may be read.
pub fn law_images()
    ensures { LawImages }
{}

/// What a flush leaves has its reason at the new mark.
pub fn law_flush()
    ensures { LawFlush }
{}
