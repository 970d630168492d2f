//! A disk in a real file, calls of a file that fail, and how many calls of a file a script costs.
ghost use Rattle.std.specs.Prelude.{◌<◌};

use crate::tests::disks::{cell_of, follow};
use nofs_disk::Disk;
use nofs_filedisk::{FileDisk, HostFile, MemFile};
use std::alloc::Global;
use std::test::Fail;
use std::{fs, process};

/// The path of a file of this test alone, which isn't there.
fn new_path(rt: &HostRuntime, test: &str) -> Result<String, Fail> {
    let id = process::id(rt.process());
    let path = format!(in rt.alloc(); "/tmp/nofs_filedisk_{test}_{id}")?;
    if fs::exists(rt, path.as_str())? {
        fs::remove_file(rt, path.as_str())?;
    }
    Ok(path)
}

/// The disk in the file of this path.
fn open(rt: &HostRuntime, path: &str) -> Result<FileDisk<HostFile>, Fail> {
    Ok(FileDisk::over(rt.alloc(), HostFile::open(rt, path)?)?)
}

/// Follows scripts on the disk in a file, which is opened for each and then removed: how many bytes it had.
fn bytes_after(rt: &HostRuntime, test: &str, scripts: &[&str]) -> Result<u64, Fail> {
    let path = new_path(rt, test)?;
    for script in scripts {
        follow(&mut open(rt, path.as_str())?, script)?;
    }
    let bytes = fs::metadata(rt, path.as_str())?.len();
    fs::remove_file(rt, path.as_str())?;
    Ok(bytes)
}

#[test]
fn a_cell_is_read_again_after_reopening(rt: HostRuntime) -> Result<(), Fail> {
    let scripts = ["70?0 70=7 70?7 flush", "0?0 69?0 70?7 71?0 1048575?0"];
    assert_eq!(rt; bytes_after(&rt, "reopened", &scripts)?, 71 * 1056);
    Ok(())
}

#[test]
fn reads_before_across_and_after_a_write_show_it(rt: HostRuntime) -> Result<(), Fail> {
    let script = "64=64 65=65 66=66 67=67 64?64 65?65 66?66 67?67
        65=1 66=2 64?64 65?1 66?2 67?67 68?0";
    bytes_after(&rt, "window", &[script])?;
    Ok(())
}

#[test]
fn the_part_of_a_last_cell_that_is_there_counts(rt: HostRuntime) -> Result<(), Fail> {
    let path = new_path(&rt, "part")?;
    fs::write(&rt, path.as_str(), [9u8; 1500].as_slice())?;
    let mut disk = open(&rt, path.as_str())?;
    follow(&mut disk, "0?9")?;
    let mut cell = cell_of(1);
    assert!(rt; disk.read(1, &mut cell).is_ok());
    assert!(rt; cell.payload[..444].iter().all(|byte| *byte == 9));
    assert!(rt; cell.payload[444..1024].iter().all(|byte| *byte == 0));
    assert_eq!(rt; cell.tag, [0; 32]);
    fs::remove_file(&rt, path.as_str())?;
    Ok(())
}

#[test]
fn what_has_no_places_for_bytes_is_an_error(rt: HostRuntime) {
    for path in ["/tmp", "/nowhere/at/all", "/dev/full", "/dev/zero"] {
        assert!(rt; HostFile::open(&rt, path).is_err(), "{path}");
    }
}

#[test]
fn a_file_that_is_open_is_opened_again_once_it_is_dropped(rt: HostRuntime) -> Result<(), Fail> {
    let path = new_path(&rt, "locked")?;
    let first = HostFile::open(&rt, path.as_str())?;
    assert!(rt; HostFile::open(&rt, path.as_str()).is_err());
    drop(first);
    assert!(rt; HostFile::open(&rt, path.as_str()).is_ok());
    fs::remove_file(&rt, path.as_str())?;
    Ok(())
}

/// Cuts the file of this path after so many bytes.
fn cut(rt: &HostRuntime, path: &str, bytes: u64) -> Result<(), Fail> {
    fs::OpenOptions::new()
        .write(true)
        .open(rt, path)?
        .set_len(bytes)?;
    Ok(())
}

// Past the end that a file has when it is opened it reads zeros.
#[test]
fn what_is_cut_off_an_open_file_is_a_fault(rt: HostRuntime) -> Result<(), Fail> {
    let path = new_path(&rt, "cut")?;
    let mut disk = open(&rt, path.as_str())?;
    follow(&mut disk, "70=7 140=8 flush 200?0 70?7")?;
    cut(&rt, path.as_str(), 80 * 1056)?;
    follow(&mut disk, "140?! 70=9 flush! 70?9")?;
    drop(disk);
    follow(&mut open(&rt, path.as_str())?, "70?7 140?0")?;
    fs::remove_file(&rt, path.as_str())?;
    Ok(())
}

/// Follows a script on a disk in an empty file in memory that moves so many bytes a call, of which a call fails, and
/// one on a disk in the bytes that are durable then: how many these are. They are all bytes of the file.
fn durable_after(
    alloc: Global,
    moved: usize,
    fails: u64,
    script: &str,
    then: &str,
) -> Result<usize, Fail> {
    let file = MemFile::new(alloc, b"", moved.max(1), &[fails])?;
    let mut disk = FileDisk::over(alloc, file)?;
    follow(&mut disk, script)?;
    let file = disk.file();
    if file.durable() != file.bytes() {
        return Err("not durable".into());
    }
    let again = MemFile::new(alloc, file.durable(), 1 << 20, &[])?;
    follow(&mut FileDisk::over(alloc, again)?, then)?;
    Ok(file.durable().len())
}

// A cell that was put half way (the file has 1,000 bytes of it then; two calls found it empty) is read whole, and the
// next flush writes all of it. A run that could not be put stays in memory where the next can't begin; a flush that
// comes later puts it. A flush makes the bytes durable, and one that fails may not.
#[test]
fn what_could_not_be_put_is_put_by_the_next_flush(rt: HostRuntime) -> Result<(), Fail> {
    for (moved, fails, script, then, blocks) in [
        (1000, 4, "0?0 0=7 flush! 0?7 flush", "0?7", 1),
        (
            1 << 20,
            1,
            "4=7 5=8 4=9 9=1! 4?9 5?8 9?0 9=1 flush 3?0 4?9 5?8 6?0 9?1",
            "3?0 4?9 5?8 6?0 9?1",
            10,
        ),
        (2000, 2, "0=7 flush! flush", "0?7", 1),
    ] {
        let bytes = durable_after(rt.alloc(), moved, fails, script, then)?;
        assert_eq!(rt; bytes, blocks * 1056, "{script}");
    }
    Ok(())
}

/// How many calls of a file with so many blocks of bytes 5 a script costs.
fn calls_of(alloc: Global, blocks: usize, script: &str) -> Result<u64, Fail> {
    let bytes = vec![in alloc; 5u8; blocks.saturating_mul(1056)]?;
    let file = MemFile::new(alloc, bytes.as_slice(), 1 << 30, &[])?;
    let mut disk = FileDisk::over(alloc, file)?;
    follow(&mut disk, script)?;
    Ok(disk.file().calls())
}

// One call writes a run of neighbours, in rising or falling order, within 66 blocks from a multiple of 66 on, and one
// makes the sync. A scan costs a call in 66 cells, up and down. The first window is read whole, any other where a cell
// of it was read alone lately, or many of the one beside it; after windows that were of no use, where more of its cells
// were.
const CALLS: [(usize, &str, u64); 22] = [
    (0, "flush", 1),
    (0, "7=1 flush", 2),
    (0, "7=1 8=1 9=1 8=1 7=1 flush", 2),
    (0, "7=1 8=1 10=1 11=1 flush", 3),
    (0, "9=1 8=1 7=1 flush", 2),
    (0, "8=1 9=1 7=1 10=1 6=1 8=1 flush", 2),
    (0, "64=1 65=1 66=1 67=1 flush", 3),
    (0, "0..65=1 flush", 2),
    (0, "0..132=1 flush", 4),
    (0, "65..0=1 flush", 2),
    (0, "132..0=1 flush", 4),
    (0, "0..65535=1 flush", 994),
    (0, "4095..0=1 flush", 64),
    (66_000, "0..65999?5", 1_000),
    (66_000, "65999..0?5", 1_000),
    (1_024, "0?5 1?5 65?5", 1),
    (1_024, "0?5 660?5", 2),
    (1_024, "0?5 660?5 720?5 661?5 719?5 662?5 663?5 718?5", 3),
    (1_024, "0?5 66?5 0?5 66?5 67?5", 3),
    (1_024, "0..15?5 66?5 67?5", 2),
    (
        1_024,
        "0?5 66..67?5 132..133?5 198..199?5 264..265?5 330..331?5 396..397?5 462..463?5
        528..529?5 660..663?5",
        20,
    ),
    (
        1_024,
        "0?5 200?5 300?5 400?5 500?5 600?5 700?5 800?5 900?5 1000?5 200?5",
        11,
    ),
];

#[test]
fn neighbours_cost_one_call_and_a_window_is_read_where_it_is_of_use(
    rt: HostRuntime,
) -> Result<(), Fail> {
    for (blocks, script, calls) in CALLS {
        assert_eq!(rt; calls_of(rt.alloc(), blocks, script)?, calls, "{script}");
    }
    Ok(())
}
