//! An image in a file of the system: one run makes it, the next serves it, and a third counts it.

use nofs_filedisk::{FileDisk, HostFile};
use nofs_memdisk::MemDisk;
use nofs_test_disks::{bytes_of, cells_of, used};
use nofs_test_sessions::run_on;
use std::alloc::{AllocError, Global};
use std::test::Fail;
use std::{fs, process};

// The first run fills the disk until no block is left that was not examined. From then on it does
// not depend on the sweeps which blocks the user's commands take, and each block is written anew.
fn first_session(alloc: Global) -> Result<Vec<u8>, AllocError> {
    let mut text = Vec::new(alloc);
    push_put(&mut text, "41")?;
    text.extend_from_slice(b"put @ 20480 01\nsize @ 0\n".as_slice())?;
    push_put(&mut text, "42")?;
    text.extend_from_slice(
        b"size @ 10240\nmake /a\nput /a 0 636465\nmkdir /d\nmake /d/c\n".as_slice(),
    )?;
    Ok(text)
}

// A put of 20,480 times this byte.
fn push_put(text: &mut Vec<u8>, digits: &str) -> Result<(), AllocError> {
    text.extend_from_slice(b"put @ 0 ".as_slice())?;
    for _ in 0..20_480 {
        text.extend_from_slice(digits.as_bytes())?;
    }
    text.extend_from_slice(b"\n".as_slice())
}

const FIRST_LINES: &str =
    "put 20480\nrefused 15 full, needed 1, free 0, unchecked 0, stored 0\nsized 0\nput 20480\nsized 10240\nmade\n\
    put 3\nmade\nmade\n";

// Commands that take no block.
const SECOND_SESSION: &str =
    "get @ 10239 1\nput @ 0 4343\nrename /a b\ndrop /d/c\nlist /\nstat /b\nget @ 0 3\nfsync @\n";

const SECOND_LINES: &str =
    "got bytes:42\nput 2\nrenamed\ndropped\nnames b d/\nstat file 3 1\ngot bytes:434342\nsynced\n";

// Four inodes. Three blocks of the superblock and the table, eleven of the label file, and one of
// the root, of `b` and of `d`.
const COUNTS: &str = "inodes used 4 free 4 unchecked 0, blocks used 17 free 7 unchecked 0\n";

// The path of a file of this run alone.
fn own_path(rt: &HostRuntime) -> Result<String, AllocError> {
    let id = process::id(rt.process());
    format!(in rt.alloc(); "/tmp/nofs_image_{id}")
}

// A disk in the file of this path.
fn open(rt: &HostRuntime, path: &str) -> Result<FileDisk<HostFile>, Fail> {
    Ok(FileDisk::over(rt.alloc(), HostFile::open(rt, path)?)?)
}

#[test]
fn an_image_in_a_file_is_that_of_a_disk_in_memory(rt: HostRuntime) -> Result<(), Fail> {
    let alloc = rt.alloc();
    let path = own_path(&rt)?;
    if fs::exists(&rt, path.as_str())? {
        fs::remove_file(&rt, path.as_str())?;
    }
    let mut memory = MemDisk::new(alloc, 24)?;
    let first = first_session(alloc)?;
    for (command, session, want) in [
        ("new 24 8", first.as_slice(), FIRST_LINES),
        ("run", SECOND_SESSION.as_bytes(), SECOND_LINES),
        ("scan", b"".as_slice(), COUNTS),
    ] {
        let file = open(&rt, path.as_str())?;
        let (status, sink, _) = run_on(&rt, alloc, command, session, file)?;
        assert_eq!(rt; sink.bytes(), want.as_bytes(), "{command}");
        assert_eq!(rt; status, 0, "{command}");
        let (_, _, after) = run_on(&rt, alloc, command, session, memory)?;
        memory = after;
    }
    let cells = cells_of(alloc, &mut memory, 24)?;
    let bytes = fs::read(&rt, path.as_str())?;
    assert!(rt; bytes == bytes_of(alloc, &cells)?);
    assert_eq!(rt; used(alloc, &cells)?, Some((4, 17)));
    fs::remove_file(&rt, path.as_str())?;
    Ok(())
}
