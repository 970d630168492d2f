//! What the definitions say together, as laws.
ghost use Rattle.nofs_model.specs.Definitions.{LawPairs, LawOwners, LawSlots};
ghost use Rattle.nofs_model.specs.Geometry.{LawMountable};
ghost use Rattle.nofs_model.specs.Sound.{LawFormatted, LawSound};

/// An image can be mounted exactly where the test of its superblock and its size says so.
pub(crate) fn law_mountable()
    ensures { LawMountable }
{}

/// A slot holds, is empty, and has its value exactly where the words that programs compute say so.
pub(crate) fn law_slots()
    ensures { LawSlots }
{}

/// So for pairs and agreed inodes. Agreement is what its equation says, and the least such relation.
pub(crate) fn law_names()
    ensures { LawPairs }
{}

/// So for owners, used inodes and used blocks. A block has one owner at most.
pub(crate) fn law_owners()
    ensures { LawOwners }
{}

/// Fresh stamps and old contents keep every image sound.
pub fn law_sound()
    ensures { LawSound }
{}

/// What a format leaves is sound.
pub fn law_formatted()
    ensures { LawFormatted }
{}
