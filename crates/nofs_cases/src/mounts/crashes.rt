//! The mount after one Put, a crash, and the mount of what the crash left.
ghost use Rattle.std.specs.Prelude.{IfOk};
ghost use Rattle.nofs_cases.specs.Mounts.Two.{Crashed, TwoMounts};

use crate::mounts::mounts::{Unmade, formatted_put};
use nofs_history::History;
use nofs_memdisk::MemDisk;
use nofs_shared::{BeginFault, Mount, law_comes_after, law_mount_life};
use std::alloc::Global;

/// What a crash at the end of the mount after one Put may leave.
///
/// # Errors
///
/// Those of `formatted_put`, and `OutOfMemory`.
pub(crate) fn crashed_put(alloc: Global) -> Result<MemDisk, Unmade>
    ensures { IfOk result (λ left. ∥ Crashed left ∥₁) }
{
    law_comes_after::<MemDisk>();
    let mount = match formatted_put(alloc) {
        Ok(mount) => mount,
        Err(why) => return Err(why),
    };
    let (disk, _) = mount.end();
    match disk.image(alloc, &[]) {
        Ok(left) => Ok(left),
        Err(_) => Err(Unmade::OutOfMemory),
    }
}

/// The mount of that.
///
/// # Errors
///
/// Those of `crashed_put`, and `NotMounted` where the mount failed.
pub fn second_mount(alloc: Global) -> Result<Mount<MemDisk>, Unmade>
    ensures { IfOk result (λ m. ∥ Crashed m.found.value ∥₁) }
{
    let left = crashed_put(alloc)?;
    match Mount::begin(alloc, left, 0) {
        Ok(mount) => Ok(mount),
        Err(BeginFault { disk: _, cause }) => Err(Unmade::NotMounted(cause)),
    }
}

/// Both mounts, to the end of the second one: its disk and its history.
///
/// # Errors
///
/// Those of `second_mount`.
pub fn two_mounts(alloc: Global) -> Result<(MemDisk, History), Unmade>
    ensures { IfOk result (λ r. ∥ TwoMounts r.0 r.1 ∥₁) }
{
    law_mount_life::<MemDisk>();
    match second_mount(alloc) {
        Ok(mount) => Ok(mount.end()),
        Err(why) => Err(why),
    }
}
