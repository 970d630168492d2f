//! A run over an image that was laid down cell by cell.

use nofs_test_disks::{chain_of_directories, disk_of};
use nofs_test_sessions::prints;
use std::test::Fail;

#[test]
fn a_long_chain_of_directories_is_counted(rt: HostRuntime) -> Result<(), Fail> {
    let alloc = rt.alloc();
    let disk = disk_of(alloc, &chain_of_directories(alloc)?)?;
    let want = "inodes used 2002 free 2 unchecked 0, blocks used 2502 free 1594 unchecked 0\n";
    prints(&rt, disk, "scan", "", want, 0)?;
    Ok(())
}
