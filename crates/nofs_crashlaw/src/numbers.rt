//! Every write is below the next stamp: why each number in a cell that a step writes is an old one, or
//! one that the step claims.
//!
//! Promise: each law speaks of the disk before a step and the disk after it, and of no code. Four laws
//! serve any step, one for each kind of cell, and each writing step has its own from what it leaves on
//! the disk.

ghost use Rattle.nofs_crashlaw.specs.Numbers.Cells.{LawContentNumbers, LawDirectoryNumbers, LawPointerNumbers};
ghost use Rattle.nofs_crashlaw.specs.Numbers.Cells.{LawTableMoment, LawTableNumbers};
ghost use Rattle.nofs_crashlaw.specs.Numbers.Files.{LawPutCells, LawPutRecord, LawResizeCells, LawResizeRecord};
ghost use Rattle.nofs_crashlaw.specs.Numbers.Names.{LawDropNumbers, LawLinkInHoleNumbers, LawLinkInPlaceNumbers};
ghost use Rattle.nofs_crashlaw.specs.Numbers.Names.{LawMakeInHoleNumbers};
ghost use Rattle.nofs_crashlaw.specs.Numbers.Names.{LawMakeInPlaceNumbers, LawRenameNumbers};

/// A cell of content, in place or in a claimed block.
pub fn law_content_numbers()
    ensures { LawContentNumbers }
{}

/// A block of pointers, each of which was there, is null, or is a claimed one.
pub fn law_pointer_numbers()
    ensures { LawPointerNumbers }
{}

/// A directory's cell in which one entry is written or cleared, in place or in a claimed block.
pub fn law_directory_numbers()
    ensures { LawDirectoryNumbers }
{}

/// A table cell, with any of its records written, and between two writes of one step.
pub fn law_table_numbers()
    ensures cell { LawTableNumbers }
    ensures moment { LawTableMoment }
{}

/// What a Put writes.
pub fn law_put_numbers()
    ensures cells { LawPutCells }
    ensures inode { LawPutRecord }
{}

/// What a Resize writes.
pub fn law_resize_numbers()
    ensures cells { LawResizeCells }
    ensures inode { LawResizeRecord }
{}

/// What the steps on names write.
pub fn law_name_numbers()
    ensures rename { LawRenameNumbers }
    ensures drop { LawDropNumbers }
    ensures link_in_place { LawLinkInPlaceNumbers }
    ensures link_in_hole { LawLinkInHoleNumbers }
    ensures make_in_place { LawMakeInPlaceNumbers }
    ensures make_in_hole { LawMakeInHoleNumbers }
{}
