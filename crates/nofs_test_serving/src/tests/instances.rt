//! The instances of a mount's invariant are there: each mount is made.
use nofs_cases::{Unmade, formatted_put, second_mount, two_mounts};
use nofs_memdisk::MemDisk;
use nofs_shared::Mount;
use nofs_test_asks::{Ask, Cases, LABEL, follow};
use std::alloc::Global;
use std::test::Fail;

/// The first slot of the label file begins with what was put, and with bytes that were not.
const BYTES: Cases = &[(Ask::Get(LABEL, 0), "ab\0\0")];

// How many entries a mount has that has the bytes.
fn entries_of(alloc: Global, made: Result<Mount<MemDisk>, Unmade>) -> Result<u64, Fail> {
    let mut mount = made.ok().ok_or("not made")?;
    let entries = mount.history().len();
    follow(alloc, &mut mount, BYTES)?;
    Ok(entries)
}

#[test]
fn each_mount_is_made_and_has_the_bytes(rt: HostRuntime) -> Result<(), Fail> {
    let alloc = rt.alloc();
    assert_eq!(rt; entries_of(alloc, formatted_put(alloc))?, 2, "a new disk");
    assert_eq!(rt;
        entries_of(alloc, second_mount(alloc))?,
        0,
        "what a crash left"
    );
    assert!(rt; two_mounts(alloc).is_ok(), "both");
    Ok(())
}
