//! A name that was found or made is found again without a read, until a rename was done.
use nofs_memdisk::MemDisk;
use nofs_shared::Mount;
use nofs_test_asks::{Ask, Cases, examined, follow};
use nofs_test_disks::formatted;
use std::alloc::Global;
use std::test::Fail;

/// Steps, and a look behind them.
type Story = (Cases<'static>, Cases<'static>);

/// A file is made.
const MADE: Story = (
    &[
        (Ask::SeeInode(3), "free"),
        (Ask::Make(b"a"), "made 3 1099511627776"),
    ],
    &[(Ask::Look(b"a"), "found 3 1099511627776 File")],
);

/// A file is made and gets another name.
const RENAMED: Story = (
    &[
        (Ask::SeeInode(3), "free"),
        (Ask::Make(b"a"), "made 3 1099511627776"),
        (Ask::Rename(b"a", b"b"), "renamed"),
    ],
    &[(Ask::Look(b"b"), "found 3 1099511627776 File")],
);

// Makes the steps of a story, and then its look so often.
fn make_and_look(
    alloc: Global,
    mount: &mut Mount<MemDisk>,
    story: Story,
    looks: u64,
) -> Result<(), Fail> {
    follow(alloc, mount, story.0)?;
    for _ in 0..looks {
        follow(alloc, mount, story.1)?;
    }
    Ok(())
}

/// How many blocks are read of a disk for this.
fn reads_with(alloc: Global, story: Story, looks: u64) -> Result<u64, Fail> {
    let mut mount = examined(alloc, formatted(alloc, 16, 4)?, 0, 16)?;
    make_and_look(alloc, &mut mount, story, looks)?;
    let (disk, _history) = mount.end();
    Ok(disk.calls().reads)
}

#[test]
fn a_name_that_is_known_is_found_without_a_read(rt: HostRuntime) -> Result<(), Fail> {
    let alloc = rt.alloc();
    assert_eq!(rt; reads_with(alloc, MADE, 9)?, reads_with(alloc, MADE, 0)?);
    let once = reads_with(alloc, RENAMED, 1)?;
    assert!(rt; reads_with(alloc, RENAMED, 0)? < once);
    assert_eq!(rt; reads_with(alloc, RENAMED, 9)?, once);
    Ok(())
}
