//! Where the cell of a block stands in the bytes of an image, by the layout that their first bytes show.
//!
//! Promise: a place is given only where the bytes there are the cell's, and a page is called bad only where it is
//! neither a page with its number and its sum nor one of zeros; one with two places, where neither of them is.
ghost use Rattle.std.specs.Prelude.{◌≡◌, ◌+◌, ◌*◌, ◌^◌, ◌<◌, ◌≤◌, length};
ghost use Rattle.nofs_disk.specs.CellsOfBytes.{part_of};
ghost use Rattle.nofs_pages.specs.Pages.{is_page};
ghost use Rattle.nofs_reader.specs.Layouts.{IsPlaceOf, has_word, is_blank, layout_of, pair_of, sort_of};
ghost use Rattle.nofs_reader.specs.declared.layout.Layout.TheVariants.{Paged, Twin};

use crate::bytes::read_bytes;
use nofs_disk::read_u64_at;
use nofs_pages::{AREA_AT, Current, MAGIC, PAGE_BYTES, PAIR_BYTES, TWIN_MAGIC, is_made, judge};

/// "NoFSv001" as a number: the superblock of packed cells begins with it.
const PACKED_MAGIC: u64 = 0x3130_3076_5346_6f4e;

/// How many bytes a cell has.
const CELL_BYTES: usize = 1_056;

/// How many cells a page has.
const PAGE_CELLS: u64 = 3;

/// How the cells of an image lie in its bytes (docs/FORMAT.md, "Cells" and "Pages").
#[derive(Clone, Copy, Debug, PartialEq, Eq)]
pub enum Layout {
    /// One behind the other.
    Packed,
    /// In pages of three, each with a sum.
    Paged,
    /// In pages of three with two places, each with a sum and a version.
    Twin,
}

/// A page that can't be told: it is torn, rotten or another's.
#[derive(Clone, Copy, Debug, PartialEq, Eq)]
pub struct BadPage {
    /// Its number, counted from 0: it has the cells of the blocks from three times as much on.
    pub number: u64,
}

/// Where the cell of a block stands.
#[derive(Clone, Copy)]
pub(crate) enum CellPlace {
    /// From this byte on, with zeros past the end.
    At(usize),
    /// Nowhere: it is zeros.
    Blank,
    /// In a page that can't be told.
    Bad(BadPage),
}

/// What the bytes of a page are.
#[derive(Clone, Copy)]
pub(crate) enum PageSort {
    Told,
    Blank,
    Bad,
}

/// What the bytes of a page with two places are.
#[derive(Clone, Copy)]
pub(crate) enum PairSort {
    /// Its cells are in the first place.
    First,
    /// In the second one.
    Second,
    Blank,
    Bad,
}

// Whether a word stands at a place, all eight bytes of it.
#[tactic(auto, unfolding(crate::specs::Layouts::has_word))]
fn has_word(bytes: &[u8], at: usize, word: u64) -> bool
    requires { at ≤ 4096 }
    ensures { result ≡ has_word bytes.now at word }
{
    bytes.len() >= at + 8 && read_u64_at(bytes, at) == word
}

/// The layout that the first bytes of an image show; one that shows no other is packed. The first place of the first
/// page of two places may be blank or torn: then the second one tells.
#[tactic(auto, unfolding(crate::specs::Layouts::layout_of))]
pub fn layout_of(bytes: &[u8]) -> Layout
    ensures { result ≡ layout_of bytes.now }
{
    if has_word(bytes, 0, TWIN_MAGIC) {
        Layout::Twin
    } else if has_word(bytes, 0, MAGIC) {
        Layout::Paged
    } else if has_word(bytes, 0, PACKED_MAGIC) {
        Layout::Packed
    } else if has_word(bytes, PAGE_BYTES, TWIN_MAGIC) {
        Layout::Twin
    } else {
        Layout::Packed
    }
}

/// Where the cell of a block stands in an image.
pub(crate) fn find_cell(bytes: &[u8], block: u64) -> CellPlace
    requires { block < 1048576 }
    ensures { IsPlaceOf bytes.now block result }
{
    match layout_of(bytes) {
        Layout::Packed => CellPlace::At(CELL_BYTES * block as usize),
        Layout::Paged => find_in_page(bytes, block / PAGE_CELLS, (block % PAGE_CELLS) as usize),
        Layout::Twin => find_in_pair(bytes, block / PAGE_CELLS, (block % PAGE_CELLS) as usize),
    }
}

// Where one of the three cells of a page stands.
fn find_in_page(bytes: &[u8], number: u64, cell: usize) -> CellPlace
    requires paged { layout_of bytes.now ≡ Paged }
    requires number { 3 * number + cell < 1048576 }
    requires cell { cell < 3 }
    ensures { IsPlaceOf bytes.now (3 * number + cell) result }
{
    let at = PAGE_BYTES * number as usize;
    match sort_at(bytes, at, number) {
        PageSort::Told => CellPlace::At(at + AREA_AT + CELL_BYTES * cell),
        PageSort::Blank => CellPlace::Blank,
        PageSort::Bad => CellPlace::Bad(BadPage { number }),
    }
}

// Where one of the three cells of a page with two places stands.
fn find_in_pair(bytes: &[u8], number: u64, cell: usize) -> CellPlace
    requires twin { layout_of bytes.now ≡ Twin }
    requires number { 3 * number + cell < 1048576 }
    requires cell { cell < 3 }
    ensures { IsPlaceOf bytes.now (3 * number + cell) result }
{
    let at = PAIR_BYTES * number as usize;
    match pair_at(bytes, at, number) {
        PairSort::First => CellPlace::At(at + AREA_AT + CELL_BYTES * cell),
        PairSort::Second => CellPlace::At(at + PAGE_BYTES + AREA_AT + CELL_BYTES * cell),
        PairSort::Blank => CellPlace::Blank,
        PairSort::Bad => CellPlace::Bad(BadPage { number }),
    }
}

// What the page is whose bytes stand at a place, with zeros past the end.
fn sort_at(bytes: &[u8], at: usize, number: u64) -> PageSort
    requires { at + 4096 < 2 ^ 63 }
    ensures { result ≡ sort_of number (part_of bytes.now at 4096) }
{
    let end = at + PAGE_BYTES;
    if end <= bytes.len() {
        return sort_of(&bytes[at..end], number);
    }
    let mut page = zeros();
    read_bytes(bytes, at, &mut page);
    sort_of(&page, number)
}

// What the page with two places is whose bytes stand from a place on, with zeros past the end.
fn pair_at(bytes: &[u8], at: usize, number: u64) -> PairSort
    requires { at + 8192 < 2 ^ 63 }
    ensures { result ≡ pair_of number (part_of bytes.now at 4096) (part_of bytes.now (at + 4096) 4096) }
{
    let (middle, end) = (at + PAGE_BYTES, at + PAIR_BYTES);
    if end <= bytes.len() {
        return pair_of(&bytes[at..middle], &bytes[middle..end], number);
    }
    let mut one = zeros();
    let mut two = zeros();
    read_bytes(bytes, at, &mut one);
    read_bytes(bytes, middle, &mut two);
    pair_of(&one, &two, number)
}

fn zeros() -> [u8; PAGE_BYTES]
    ensures { length result ≡ 4096 }
{
    [0; PAGE_BYTES]
}

// What 4,096 bytes are.
fn sort_of(page: &[u8], number: u64) -> PageSort
    requires { length page.now ≡ 4096 }
    ensures { result ≡ sort_of number page.now }
{
    if is_told_page(page, number) {
        PageSort::Told
    } else if is_blank(page) {
        PageSort::Blank
    } else {
        PageSort::Bad
    }
}

// What the two places of a page are.
fn pair_of(one: &[u8], two: &[u8], number: u64) -> PairSort
    requires one { length one.now ≡ 4096 }
    requires two { length two.now ≡ 4096 }
    ensures { result ≡ pair_of number one.now two.now }
{
    match judge(one, two, number) {
        Current::First => PairSort::First,
        Current::Second => PairSort::Second,
        Current::Neither => {
            if is_blank(one) || is_blank(two) {
                PairSort::Blank
            } else {
                PairSort::Bad
            }
        }
    }
}

// Whether 4,096 bytes are the page with a number.
fn is_told_page(page: &[u8], number: u64) -> bool
    requires { length page.now ≡ 4096 }
    ensures { result ≡ is_page number page.now }
{
    is_made(MAGIC, AREA_AT, page, number)
}

// Whether all bytes are zeros.
fn is_blank(page: &[u8]) -> bool
    ensures { result ≡ is_blank page.now }
{
    page.iter().all(|&byte| byte == 0)
}
