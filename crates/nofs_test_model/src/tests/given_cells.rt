//! A disk of given cells holds them, and tells its numbers.
use nofs_disk::{Cell, Disk};
use nofs_super::SuperBlock;
use nofs_test_disks::{cell_of, disk_of, empty, read_numbers};
use std::test::Fail;

#[test]
fn a_disk_holds_its_cells_and_tells_its_numbers(rt: HostRuntime) -> Result<(), Fail> {
    let mut cells = empty(rt.alloc())?;
    let mut last = Cell::ZERO;
    last.payload[7] = 9;
    cells.pop();
    cells.push(last)?;
    let mut disk = disk_of(rt.alloc(), &cells)?;
    assert_eq!(rt; disk.blocks(), 16);
    let found = cell_of(&mut disk, 15).map(|cell| cell.payload);
    assert!(rt; found == Some(last.payload));
    let numbers = SuperBlock {
        version: 1,
        blocks: 16,
        inodes: 4,
        mount: 1,
    };
    assert_eq!(rt; read_numbers(&mut disk), Some(numbers));
    cells.pop();
    let mut small = disk_of(rt.alloc(), &cells)?;
    assert_eq!(rt; read_numbers(&mut small), None);
    Ok(())
}
