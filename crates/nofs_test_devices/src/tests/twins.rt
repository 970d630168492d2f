//! Pages with two places: versions that alternate, and places that are torn, exchanged, another page's or rotten.
use crate::tests::pages::{byte_at, write_page, write_pages};
use nofs_filedisk::{MemFile, Positioned, read_part, write_part};
use nofs_pages::{Layout, layout_of, sum_of, twin_pages};
use std::alloc::Global;
use std::test::Fail;

// The bytes of a file, after pages 0 to 2 were written and synced once with each of some bytes.
fn after(alloc: Global, bytes: &[u8], rounds: &[u8]) -> Result<Vec<u8>, Fail> {
    let mut file = twin_pages(alloc, MemFile::new(alloc, bytes, 65_536, &[])?, false)?;
    for byte in rounds.iter() {
        if !write_pages(&mut file, &[(0, *byte), (1, *byte), (2, *byte)]) {
            return Err("a write or a sync failed".into());
        }
    }
    Ok(file.into_store().into_file().bytes().to_vec(alloc)?)
}

// The byte of which all cells of pages 0 to 2 are, one digit a page; 9 where a page can't be read.
fn shown(alloc: Global, bytes: &[u8], fresh: bool) -> Result<u64, Fail> {
    let mut file = twin_pages(alloc, MemFile::new(alloc, bytes, 65_536, &[])?, fresh)?;
    let mut digits: u64 = 0;
    for number in 0..3 {
        let mut into = [0; 3168];
        let mut digit = 9;
        if read_part(&mut file, 3168 * number, &mut into).is_ok() {
            digit = into[0];
            if into.iter().any(|byte| *byte != digit) {
                return Err("a page has other bytes".into());
            }
        }
        digits = digits.saturating_mul(10).saturating_add(digit as u64);
    }
    Ok(digits)
}

// The versions in both places of page 0, and what is shown.
fn told(alloc: Global, bytes: &[u8]) -> Result<(u8, u8, u64), Fail> {
    let (first, second) = (byte_at(bytes, 896), byte_at(bytes, 4096 + 896));
    Ok((first, second, shown(alloc, bytes, false)?))
}

// Copies bytes from a place of a file to one of another.
fn copy(from: &[u8], at: usize, count: usize, into: &mut Vec<u8>, to: usize) -> Result<(), Fail> {
    for k in 0..count {
        let byte = *from.get(at.saturating_add(k)).ok_or("short")?;
        *into
            .as_mut_slice()
            .get_mut(to.saturating_add(k))
            .ok_or("short")? = byte;
    }
    Ok(())
}

// After one version, after five and after six.
fn versions(alloc: Global) -> Result<[(u8, u8, u64); 3], Fail> {
    let one = after(alloc, &[], &[1])?;
    let five = after(alloc, one.as_slice(), &[2, 3, 4, 5])?;
    let six = after(alloc, five.as_slice(), &[6])?;
    Ok([
        told(alloc, one.as_slice())?,
        told(alloc, five.as_slice())?,
        told(alloc, six.as_slice())?,
    ])
}

#[test]
fn versions_alternate_between_the_places(rt: HostRuntime) -> Result<(), Fail> {
    assert_eq!(rt;
        versions(rt.alloc())?,
        [(0, 1, 111), (4, 5, 555), (6, 5, 666)]
    );
    Ok(())
}

// After one version: how many bytes the file has, how many of the first place are zeros, and whether the second one
// begins as it should.
fn put_once(alloc: Global) -> Result<(usize, usize, bool), Fail> {
    let one = after(alloc, &[], &[1])?;
    let zeros = one.iter().take_while(|byte| **byte == 0).count();
    let begins = one.get(4096..4104) == Some(b"NoFStwin".as_slice());
    Ok((one.len(), zeros, begins))
}

#[test]
fn a_page_that_was_put_once_has_a_blank_first_place(rt: HostRuntime) -> Result<(), Fail> {
    assert_eq!(rt; put_once(rt.alloc())?, (3 * 8192, 4096, true));
    Ok(())
}

// What is shown where the place of page 0 that was being written has its first 0, 1, 2 .. sectors.
fn torn(alloc: Global) -> Result<[u64; 9], Fail> {
    let old = after(alloc, &[], &[1, 2])?;
    let new = after(alloc, old.as_slice(), &[3])?;
    let mut found = [0; 9];
    for sectors in 0..9 {
        let mut crashed = old.as_slice().to_vec(alloc)?;
        copy(new.as_slice(), 4096, 512 * sectors, &mut crashed, 4096)?;
        found[sectors] = shown(alloc, crashed.as_slice(), false)?;
    }
    Ok(found)
}

#[test]
fn a_place_that_is_torn_leaves_the_version_before(rt: HostRuntime) -> Result<(), Fail> {
    assert_eq!(rt;
        torn(rt.alloc())?,
        [222, 222, 222, 222, 222, 222, 222, 222, 322]
    );
    Ok(())
}

// What is shown where the only version of page 1 is torn.
fn torn_once(alloc: Global) -> Result<u64, Fail> {
    let first = after(alloc, &[], &[4])?;
    let mut crashed = first.as_slice().to_vec(alloc)?;
    copy(first.as_slice(), 4096, 512, &mut crashed, 8192 + 512)?;
    shown(alloc, crashed.as_slice(), false)
}

#[test]
fn a_page_that_was_put_once_has_zeros_before(rt: HostRuntime) -> Result<(), Fail> {
    assert_eq!(rt; torn_once(rt.alloc())?, 404);
    Ok(())
}

// What is shown where each byte of the place of page 0 that was being written is the old or the new one, by lot.
fn mixed(alloc: Global) -> Result<[u64; 8], Fail> {
    let old = after(alloc, &[], &[1, 2])?;
    let new = after(alloc, old.as_slice(), &[3])?;
    let (mut draw, mut found) = (88_172_645_463_325_252u64, [0; 8]);
    for trial in 0..8 {
        let mut crashed = old.as_slice().to_vec(alloc)?;
        for at in 4096..8192 {
            // George Marsaglia, "Xorshift RNGs", 2003.
            draw ^= draw << 13;
            draw ^= draw >> 7;
            draw ^= draw << 17;
            if draw % 2 == 0 {
                copy(new.as_slice(), at, 1, &mut crashed, at)?;
            }
        }
        found[trial] = shown(alloc, crashed.as_slice(), false)?;
    }
    Ok(found)
}

#[test]
fn any_mixture_of_old_and_new_bytes_leaves_the_version_before(rt: HostRuntime) -> Result<(), Fail> {
    assert_eq!(rt; mixed(rt.alloc())?, [222; 8]);
    Ok(())
}

// What is shown where the places of page 1 are exchanged, as found and to be written anew; where page 0's second place
// stands there; and where both do.
fn exchanged(alloc: Global) -> Result<[u64; 4], Fail> {
    let bytes = after(alloc, &[], &[1, 2])?;
    let mut swapped = bytes.as_slice().to_vec(alloc)?;
    copy(bytes.as_slice(), 8192, 4096, &mut swapped, 8192 + 4096)?;
    copy(bytes.as_slice(), 8192 + 4096, 4096, &mut swapped, 8192)?;
    let found = shown(alloc, swapped.as_slice(), false)?;
    let fresh = shown(alloc, swapped.as_slice(), true)?;
    let mut strange = bytes.as_slice().to_vec(alloc)?;
    copy(bytes.as_slice(), 4096, 4096, &mut strange, 8192 + 4096)?;
    let one = shown(alloc, strange.as_slice(), false)?;
    copy(bytes.as_slice(), 0, 4096, &mut strange, 8192)?;
    Ok([found, fresh, one, shown(alloc, strange.as_slice(), false)?])
}

#[test]
fn places_that_are_exchanged_are_not_read(rt: HostRuntime) -> Result<(), Fail> {
    assert_eq!(rt; exchanged(rt.alloc())?, [292, 202, 212, 292]);
    Ok(())
}

// Pages 1 and 2 have no place that is told, and are then put: what is shown before and after, the versions in the
// second place of page 1 and in the first one of page 2, and whether their other places stay.
fn put_over_untold(alloc: Global) -> Result<(u64, u64, [u8; 2], bool), Fail> {
    let mut bad = after(alloc, &[], &[1, 2])?;
    for page in [8_192, 16_384] {
        copy(&[7, 7, 7], 0, 3, &mut bad, page + 4000)?;
        copy(&[7, 7, 7], 0, 3, &mut bad, page + 8000)?;
    }
    let before = shown(alloc, bad.as_slice(), false)?;
    let next = after(alloc, bad.as_slice(), &[3])?;
    let versions = [
        byte_at(next.as_slice(), 12_288 + 896),
        byte_at(next.as_slice(), 16_384 + 896),
    ];
    let stays = next.get(8_192..12_288) == bad.get(8_192..12_288)
        && next.get(20_480..24_576) == bad.get(20_480..24_576);
    Ok((
        before,
        shown(alloc, next.as_slice(), false)?,
        versions,
        stays,
    ))
}

#[test]
fn a_page_without_a_told_place_is_put_over_its_own(rt: HostRuntime) -> Result<(), Fail> {
    assert_eq!(rt; put_over_untold(rt.alloc())?, (299, 333, [1, 2], true));
    Ok(())
}

// The versions in both places of a page, 0 of a blank one, and the byte of its cells in each.
fn both(bytes: &[u8], number: u16) -> [u8; 4] {
    let at = 8192 * number as usize;
    [
        byte_at(bytes, at + 896),
        byte_at(bytes, at + 4096 + 896),
        byte_at(bytes, at + 928),
        byte_at(bytes, at + 4096 + 928),
    ]
}

// Pages 0 to 31 are written at once, all of the first of some bytes, and synced; so with the next bytes: how many calls
// of the file that took, what the places of pages 0 and 1 have, and how many pages have the same in theirs.
fn rows(alloc: Global, rounds: &[u8]) -> Result<(u64, [u8; 4], [u8; 4], u8), Fail> {
    let mut file = twin_pages(alloc, MemFile::new(alloc, &[], 65_536, &[])?, false)?;
    for byte in rounds.iter() {
        let row = vec![in alloc; *byte; 101_376]?;
        if write_part(&mut file, 0, row.as_slice()).is_err() || file.sync().is_err() {
            return Err("a write or a sync failed".into());
        }
    }
    let file = file.into_store().into_file();
    let (even, odd) = (both(file.bytes(), 0), both(file.bytes(), 1));
    let mut same: u8 = 0;
    for number in 0..32 {
        let wanted = if number % 2 == 0 { even } else { odd };
        same = same.saturating_add((both(file.bytes(), number) == wanted) as u8);
    }
    Ok((file.calls(), even, odd, same))
}

// A read, as no version is known, 16 writes of two places, and a sync.
#[test]
fn two_new_pages_are_put_by_one_call(rt: HostRuntime) -> Result<(), Fail> {
    assert_eq!(rt;
        rows(rt.alloc(), &[5])?,
        (18, [0, 1, 0, 5], [2, 0, 5, 0], 32)
    );
    Ok(())
}

// Then one write of page 0, 15 of two places, one of page 31, and a sync.
#[test]
fn two_pages_are_put_again_by_one_call(rt: HostRuntime) -> Result<(), Fail> {
    assert_eq!(rt;
        rows(rt.alloc(), &[5, 6])?,
        (36, [2, 1, 6, 5], [2, 3, 5, 6], 32)
    );
    Ok(())
}

// A packed file is written anew: whether that was done, whether its first place begins as it should, what is shown.
fn over_packed(alloc: Global) -> Result<(bool, bool, u64), Fail> {
    let mut old = vec![in alloc; 5u8; 24_576]?;
    copy(b"NoFSv001".as_slice(), 0, 8, &mut old, 0)?;
    let file = MemFile::new(alloc, old.as_slice(), 65_536, &[])?;
    let mut file = twin_pages(alloc, file, true)?;
    let done = write_pages(&mut file, &[(0, 1)]);
    let new = file.into_store().into_file().bytes().to_vec(alloc)?;
    let begins = new.get(..8) == Some(b"NoFStwin".as_slice());
    Ok((done, begins, shown(alloc, new.as_slice(), false)?))
}

#[test]
fn a_file_that_had_another_layout_shows_its_own_at_once(rt: HostRuntime) -> Result<(), Fail> {
    assert_eq!(rt; over_packed(rt.alloc())?, (true, true, 199));
    Ok(())
}

// Writes page 0, page 5, page 0 again and page 7: whether that was done, how many calls it took, and a byte of each
// place of page 0.
fn written_again(alloc: Global) -> Result<(bool, u64, u8, u8), Fail> {
    let file = MemFile::new(alloc, &[], 65_536, &[])?;
    let mut file = twin_pages(alloc, file, false)?;
    let done = write_pages(&mut file, &[(0, 1), (5, 2), (0, 3), (7, 4)]);
    let file = file.into_store().into_file();
    let (first, second) = (
        byte_at(file.bytes(), 928),
        byte_at(file.bytes(), 4096 + 928),
    );
    Ok((done, file.calls(), first, second))
}

// Four writes, a sync before the second one of page 0, and the sync that was asked for; a page is read before it is
// first put.
#[test]
fn a_second_write_before_a_sync_makes_one(rt: HostRuntime) -> Result<(), Fail> {
    assert_eq!(rt; written_again(rt.alloc())?, (true, 9, 3, 1));
    Ok(())
}

// A place of page 0 with the greatest version, of which all cells are of one byte.
fn last_version(alloc: Global, byte: u8) -> Result<Vec<u8>, Fail> {
    let mut page = vec![in alloc; 0u8; 4_096]?;
    copy(b"NoFStwin".as_slice(), 0, 8, &mut page, 0)?;
    copy(&[255; 8], 0, 8, &mut page, 896)?;
    copy(&[byte; 3168], 0, 3168, &mut page, 928)?;
    let sum = sum_of(page.get(896..4096).ok_or("short")?, 0);
    copy(&sum.to_le_bytes(), 0, 8, &mut page, 16)?;
    Ok(page)
}

// Page 0 has the greatest version, and is put: what is shown before, whether it was put and synced, and whether all
// stays.
fn put_over_last(alloc: Global) -> Result<(u64, bool, bool, bool), Fail> {
    let mut bytes = vec![in alloc; 0u8; 24_576]?;
    let last = last_version(alloc, 8)?;
    copy(last.as_slice(), 0, 4096, &mut bytes, 4096)?;
    let before = shown(alloc, bytes.as_slice(), false)?;
    let file = MemFile::new(alloc, bytes.as_slice(), 65_536, &[])?;
    let mut file = twin_pages(alloc, file, false)?;
    let (put, synced) = (write_page(&mut file, 0, 1), file.sync().is_ok());
    let stays = file.into_store().into_file().bytes() == bytes.as_slice();
    Ok((before, put, synced, stays))
}

// The row is taken before it is put to the file.
#[test]
fn a_version_without_a_next_one_stays(rt: HostRuntime) -> Result<(), Fail> {
    assert_eq!(rt; put_over_last(rt.alloc())?, (800, true, false, true));
    Ok(())
}

// The layout of a file with these first words in its first two pages.
fn layout(alloc: Global, words: (&[u8], &[u8])) -> Result<Layout, Fail> {
    let (first, second) = words;
    let mut bytes = vec![in alloc; 0u8; 8_192]?;
    copy(first, 0, first.len(), &mut bytes, 0)?;
    copy(second, 0, second.len(), &mut bytes, 4096)?;
    let mut file = MemFile::new(alloc, bytes.as_slice(), 7, &[])?;
    layout_of(&mut file).map_err(|_| Fail::from("a read failed"))
}

#[test]
fn a_layout_is_known_by_the_first_words(rt: HostRuntime) -> Result<(), Fail> {
    let (packed, paged) = (b"NoFSv001".as_slice(), b"NoFSpage".as_slice());
    let (twin, torn) = (b"NoFStwin".as_slice(), b"NoFStwom".as_slice());
    for (first, second, wanted) in [
        (twin, torn, Layout::Twin),
        (torn, twin, Layout::Twin),
        (b"".as_slice(), twin, Layout::Twin),
        (packed, twin, Layout::Packed),
        (paged, twin, Layout::Paged),
        (torn, torn, Layout::Packed),
    ] {
        assert_eq!(rt; layout(rt.alloc(), (first, second))?, wanted);
    }
    Ok(())
}
