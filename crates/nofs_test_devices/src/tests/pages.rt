//! Sums against those of libxxhash 0.8.1, and pages that are torn, in another's place or rotten.
use nofs_filedisk::{MemFile, Positioned, read_part, write_part};
use nofs_pages::{Layout, layout_of, single_pages, sum_of};
use std::alloc::Global;
use std::test::Fail;

// A cell of one byte.
fn cell(byte: u8) -> [u8; 1056] {
    [byte; 1056]
}

/// The byte at a place, 0 where there is none.
pub fn byte_at(bytes: &[u8], at: usize) -> u8 {
    match bytes.get(at) {
        Some(byte) => *byte,
        None => 0,
    }
}

/// Writes three cells of one byte to the page of a number; whether that was done.
pub fn write_page<P: Positioned>(file: &mut P, number: u16, byte: u8) -> bool {
    write_part(file, 3168 * number as u64, &[byte; 3168]).is_ok()
}

/// Writes pages, each with its byte, and syncs; whether all was done.
pub fn write_pages<P: Positioned>(file: &mut P, pages: &[(u16, u8)]) -> bool {
    for (number, byte) in pages.iter() {
        if !write_page(file, *number, *byte) {
            return false;
        }
    }
    file.sync().is_ok()
}

// The bytes of a file in pages with cells 0 to 8, of which each has its number and one more.
fn nine_cells(alloc: Global) -> Result<Vec<u8>, Fail> {
    let mut file = single_pages(alloc, MemFile::new(alloc, &[], 65_536, &[])?, true)?;
    for number in 0..9 {
        if write_part(&mut file, 1056 * number, &cell(number as u8 + 1)).is_err() {
            return Err("a write failed".into());
        }
    }
    if file.sync().is_err() {
        return Err("a sync failed".into());
    }
    Ok(file.into_store().into_file().bytes().to_vec(alloc)?)
}

// The same, with a last sector of page 1 that was torn.
fn torn_page(alloc: Global) -> Result<Vec<u8>, Fail> {
    let mut bytes = nine_cells(alloc)?;
    if let Some(sector) = bytes.as_mut_slice().get_mut(4096 + 3584..8192) {
        sector.fill(3);
    }
    Ok(bytes)
}

// The same, with page 0 in the place of page 2 too.
fn exchanged_page(alloc: Global) -> Result<Vec<u8>, Fail> {
    let mut bytes = nine_cells(alloc)?;
    let first = bytes.get(..4096).ok_or("short")?.to_vec(alloc)?;
    if let Some(last) = bytes.as_mut_slice().get_mut(8192..12_288) {
        last.copy_from_slice(first.as_slice());
    }
    Ok(bytes)
}

// Which of the cells 0 to 8 can be read as they were written, one digit each: 1, or 0 where the read fails.
fn readable(alloc: Global, bytes: &[u8], fresh: bool) -> Result<u64, Fail> {
    let mut file = single_pages(alloc, MemFile::new(alloc, bytes, 65_536, &[])?, fresh)?;
    let mut digits: u64 = 0;
    for number in 0..9u8 {
        let mut into = [0; 1056];
        digits = digits.saturating_mul(10);
        if read_part(&mut file, 1056 * number as u64, &mut into).is_ok() {
            let wanted = if into[0] == 0 { 0 } else { number + 1 };
            if into.iter().any(|byte| *byte != wanted) {
                return Err("a cell has other bytes".into());
            }
            digits = digits.saturating_add(1);
        }
    }
    Ok(digits)
}

// The sum of the first bytes of 0, 1, 2 and so on.
fn sum_of_first(alloc: Global, count: u8, seed: u64) -> Result<u64, Fail> {
    let mut bytes = Vec::new(alloc);
    for byte in 0..count {
        bytes.push(byte)?;
    }
    Ok(sum_of(bytes.as_slice(), seed))
}

#[test]
fn sums_are_those_of_xxhash(rt: HostRuntime) -> Result<(), Fail> {
    let sums = [
        sum_of(&[0; 3168], 0),
        sum_of_first(rt.alloc(), 32, 0)?,
        sum_of_first(rt.alloc(), 64, 1)?,
    ];
    let wanted = [
        0x61ac_bbec_b7d4_846d,
        14_696_824_831_085_589_172,
        4_388_122_281_962_448_576,
    ];
    assert_eq!(rt; sums, wanted);
    Ok(())
}

// What nine cells are read as, over calls of seven bytes, and how many bytes their file has.
fn reopened(alloc: Global) -> Result<(usize, u64, Layout), Fail> {
    let bytes = nine_cells(alloc)?;
    let mut file = MemFile::new(alloc, bytes.as_slice(), 7, &[])?;
    let layout = layout_of(&mut file).map_err(|_| Fail::from("a read failed"))?;
    Ok((
        bytes.len(),
        readable(alloc, bytes.as_slice(), false)?,
        layout,
    ))
}

#[test]
fn cells_are_read_after_reopening(rt: HostRuntime) -> Result<(), Fail> {
    assert_eq!(rt; reopened(rt.alloc())?, (12_288, 111_111_111, Layout::Paged));
    Ok(())
}

// Which cells can be read of a torn page and of one in another's place; last of a torn one that is written anew.
fn damaged(alloc: Global) -> Result<[u64; 3], Fail> {
    let (torn, exchanged) = (torn_page(alloc)?, exchanged_page(alloc)?);
    Ok([
        readable(alloc, torn.as_slice(), false)?,
        readable(alloc, exchanged.as_slice(), false)?,
        readable(alloc, torn.as_slice(), true)?,
    ])
}

#[test]
fn a_damaged_page_is_not_read(rt: HostRuntime) -> Result<(), Fail> {
    assert_eq!(rt;
        damaged(rt.alloc())?,
        [111_000_111, 111_111_000, 111_111_111]
    );
    Ok(())
}

// Whether a part of a torn page is written, whether all of it is, and a byte that is durable then.
fn written_over_torn(alloc: Global) -> Result<(bool, bool, u8), Fail> {
    let bytes = torn_page(alloc)?;
    let file = MemFile::new(alloc, bytes.as_slice(), 65_536, &[])?;
    let mut file = single_pages(alloc, file, false)?;
    let part = write_part(&mut file, 1056 * 4, &cell(9)).is_ok();
    let whole = write_pages(&mut file, &[(1, 9)]);
    let file = file.into_store().into_file();
    Ok((part, whole, byte_at(file.durable(), 4096 + 928)))
}

// A part of it would go beside what nobody knows.
#[test]
fn a_torn_page_is_written_whole_alone(rt: HostRuntime) -> Result<(), Fail> {
    assert_eq!(rt; written_over_torn(rt.alloc())?, (false, true, 9));
    Ok(())
}

// The cells of a page that is gone have zeros, as all past the end.
#[test]
fn a_page_that_is_cut_is_not_read(rt: HostRuntime) -> Result<(), Fail> {
    let bytes = nine_cells(rt.alloc())?;
    for (count, digits) in [
        (12_287, 111_111_000),
        (8_193, 111_111_000),
        (8_192, 111_111_111),
    ] {
        let left = bytes.get(..count).ok_or("short")?;
        assert_eq!(rt; readable(rt.alloc(), left, false)?, digits);
    }
    Ok(())
}

// Writes page 0, page 5, page 0 again and page 7: whether that was done, how many calls it took, and a byte of page 0.
fn written_again(alloc: Global) -> Result<(bool, u64, u8), Fail> {
    let file = MemFile::new(alloc, &[], 65_536, &[])?;
    let mut file = single_pages(alloc, file, true)?;
    let done = write_pages(&mut file, &[(0, 1), (5, 2), (0, 3), (7, 4)]);
    let file = file.into_store().into_file();
    Ok((done, file.calls(), byte_at(file.bytes(), 928)))
}

// Four writes, a sync before the second one of page 0, and the sync that was asked for.
#[test]
fn no_page_is_written_twice_before_a_sync(rt: HostRuntime) -> Result<(), Fail> {
    assert_eq!(rt; written_again(rt.alloc())?, (true, 6, 3));
    Ok(())
}

// Writes three windows: whether that was done, how many calls it took, and how many bytes there are.
fn windows_written(alloc: Global) -> Result<(bool, u64, usize), Fail> {
    let file = MemFile::new(alloc, &[], 131_072, &[])?;
    let mut file = single_pages(alloc, file, false)?;
    let window = vec![in alloc; 7u8; 69_696]?;
    let mut done = true;
    for number in 0..3 {
        done = done && write_part(&mut file, 69_696 * number, window.as_slice()).is_ok();
    }
    done = done && file.sync().is_ok();
    let file = file.into_store().into_file();
    Ok((done, file.calls(), file.bytes().len()))
}

#[test]
fn windows_in_rising_order_are_one_write_each_and_no_read(rt: HostRuntime) -> Result<(), Fail> {
    assert_eq!(rt; windows_written(rt.alloc())?, (true, 4, 3 * 22 * 4096));
    Ok(())
}

// The byte of which a cell at a place is; 0 where it can't be read, or has several.
fn byte_of<P: Positioned>(file: &mut P, at: u16) -> u8 {
    let mut into = [0; 1056];
    if read_part(file, at as u64, &mut into).is_err() {
        return 0;
    }
    let first = into[0];
    if into.iter().all(|byte| *byte == first) {
        first
    } else {
        0
    }
}

// Writes pages 0, 2, 4 and 6, and syncs, of which the second call fails: what was done, and cells of pages 2 and 0.
fn after_failed_write(alloc: Global) -> Result<([bool; 5], u8, u8), Fail> {
    let file = MemFile::new(alloc, &[], 65_536, &[2])?;
    let mut file = single_pages(alloc, file, true)?;
    let (one, two) = (write_page(&mut file, 0, 5), write_page(&mut file, 2, 7));
    let (three, four) = (write_page(&mut file, 4, 9), write_page(&mut file, 6, 9));
    let done = [one, two, three, four, file.sync().is_ok()];
    Ok((done, byte_of(&mut file, 3168 * 2), byte_of(&mut file, 0)))
}

#[test]
fn after_a_write_that_failed_nothing_is_written(rt: HostRuntime) -> Result<(), Fail> {
    let wanted = ([true, true, false, false, false], 7, 5);
    assert_eq!(rt; after_failed_write(rt.alloc())?, wanted);
    Ok(())
}
