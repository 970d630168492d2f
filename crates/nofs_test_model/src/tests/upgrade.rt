//! Which fault stops an upgrade of the empty example image. What it leaves is told by the cases of `nofs_rows`.
use nofs_memdisk::MemDisk;
use nofs_super::MountFault;
use nofs_test_disks::{disk_of, empty, fault};
use nofs_upgrade::{UpgradeFault, upgrade};
use nofs_versions::CallKind;
use std::alloc::{AllocError, Global};
use std::test::Fail;

/// The image on a disk whose first call of a kind fails.
fn failing(alloc: Global, call: CallKind, taken: bool) -> Result<MemDisk, AllocError> {
    let mut disk = disk_of(alloc, &empty(alloc)?)?;
    disk.fail_at(&[fault(call, 1, taken)])?;
    Ok(disk)
}

#[test]
fn a_call_that_fails_in_an_upgrade_is_a_fault_of_reading_or_writing(
    rt: HostRuntime,
) -> Result<(), Fail> {
    for (call, taken, want) in [
        (CallKind::Read, false, MountFault::ReadFault),
        (CallKind::Write, true, MountFault::WriteFault),
        (CallKind::Write, false, MountFault::WriteFault),
        (CallKind::Flush, false, MountFault::WriteFault),
    ] {
        let mut disk = failing(rt.alloc(), call, taken)?;
        let came = upgrade(&mut disk);
        assert_eq!(rt;
            came,
            Err(UpgradeFault::Mount(want)),
            "{call:?}, taken: {taken}"
        );
    }
    Ok(())
}
