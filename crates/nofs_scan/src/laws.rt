//! What the scans come to.
ghost use Rattle.nofs_scan.specs.Laws.{LawScanned};

use nofs_disk::Disk;
use nofs_state::Core;

/// Once each inode and each block was examined, by a step or by a late verdict, every element is
/// known, and the maps are the full scan of the disk as it is then, whatever users did in between.
pub fn law_scanned<D: Disk + Drop>(core: &Core<D>)
    ensures { LawScanned (D.state core.now.disk) core.now.books }
{
    let _ = core;
}
