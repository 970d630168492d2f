//! Records of the inode table, and the 256 bytes that spell one (docs/FORMAT.md, "Inode table").
//!
//! Promise: what is written is read, a record has one spelling, and other bytes stay.
ghost use Rattle.std.specs.Prelude.{◌≡◌, ◌≢◌, IfSome, List, ℕ, ◌<◌, ◌*◌, ◌+◌, ◌≤◌, Some, length};
ghost use Rattle.std.specs.List.{list_all};
ghost use Rattle.nofs_disk.specs.Number.{IsBytes};
ghost use Rattle.nofs_disk.specs.Pointer.{is_null};
ghost use Rattle.nofs_inode.specs.Beside.{SameBeside, SameRange};
ghost use Rattle.nofs_inode.specs.InodeRecords.{HasNumbers, record_at, HasRecordSpelling, direct_in, links_in};
ghost use Rattle.nofs_inode.specs.InodeRecords.{allows_kind, allows_record, fields_in, has_rest, is_free, is_no_link};
ghost use Rattle.nofs_inode.specs.InodeRecords.{is_tidy_link, file_kind_number, file_kind_of, link_count, link_in};
ghost use Rattle.nofs_inode.specs.InodeRecords.{record_of};

use nofs_disk::{
    Pointer, read_pointer_at, read_u32_at, read_u64_at, write_pointer_at, write_u32_at,
    write_u64_at,
};

/// The most bytes that a file has: 4,168 slots of 1,024.
const LARGEST_SIZE: u64 = 4_268_032;

/// What an inode is.
#[derive(Clone, Copy, Debug, PartialEq, Eq)]
pub enum FileKind {
    File,
    Directory,
}

/// Where an inode's name stands: in an entry of a directory. Directory 0 is an empty place.
#[derive(Clone, Copy, Debug, PartialEq, Eq)]
pub struct BackLink {
    /// The directory's inode, counted from 1.
    pub directory: u32,
    /// The place of the entry, counted from 0 over the directory's whole content.
    pub entry: u32,
    /// The directory's generation.
    pub generation: u64,
}

impl BackLink {
    /// An empty place.
    pub const EMPTY: BackLink = BackLink {
        directory: 0,
        entry: 0,
        generation: 0,
    };
}

/// What the table says of an inode.
#[derive(Clone, Copy, Debug, PartialEq, Eq)]
pub struct Record {
    /// The stamp that the inode got when it was made: 1 or more, and 0 where it is free.
    pub generation: u64,
    /// `None` where the inode is free.
    pub kind: Option<FileKind>,
    /// The places of its names. A directory has at most one.
    pub links: [BackLink; 4],
    /// In bytes, at most 4,268,032. A directory has 0.
    pub size: u64,
    /// The blocks of slots 0 to 7.
    pub direct: [Pointer; 8],
    /// The block that holds the pointers of slots 8 to 71.
    pub leaf: Pointer,
    /// The block that holds the pointers to the 64 children, for slots from 72 on. A directory has
    /// none.
    pub top: Pointer,
}

/// A record that isn't in use.
pub const FREE_RECORD: Record = Record {
    generation: 0,
    kind: None,
    links: [BackLink::EMPTY; 4],
    size: 0,
    direct: [Pointer::NULL; 8],
    leaf: Pointer::NULL,
    top: Pointer::NULL,
};

/// The record that the 256 bytes with this index spell; `None` exactly where they are no spelling.
pub fn read_record(payload: &[u8; 1024], index: u32) -> Option<Record>
    requires { index < 4 }
    ensures value { result ≡ record_of index payload.now }
    ensures spelling { IfSome result HasRecordSpelling }
    ensures one_spelling { IfSome result
        (λ r. (other : List ℕ) → IsBytes 1024 other → record_of index other ≡ Some r
        → SameRange (256 * index) 256 other payload.now) }
{
    spelled_record(payload, index)
}

/// The record of the 256 bytes with this index: the free one where they are no spelling.
#[tactic(auto, unfolding(crate::specs::InodeRecords::record_at))]
pub fn record_at(payload: &[u8; 1024], index: u32) -> Record
    requires { index < 4 }
    ensures value { result ≡ record_at payload.now index }
    ensures spelled { HasRecordSpelling result }
{
    match read_record(payload, index) {
        None => FREE_RECORD,
        Some(it) => it,
    }
}

/// Writes a record into the 256 bytes with this index. The other bytes of the cell stay.
pub fn write_record(payload: &mut [u8; 1024], index: u32, it: &Record)
    requires index { index < 4 }
    requires spelling { HasRecordSpelling it.now }
    ensures written { record_of index payload.new ≡ Some it.now }
    ensures others { (j : ℕ) → j ≢ index → j < 4 → record_of j payload.new ≡ record_of j payload.old }
    ensures beside { SameBeside (256 * index) 256 payload.old payload.new }
{
    let at = 256 * index as usize;
    write_numbers(payload, at, it);
    write_links(payload, at + 32, &it.links);
    write_pointers(payload, at + 96, &it.direct);
    write_pointer_at(payload, at + 224, it.leaf);
    write_pointer_at(payload, at + 240, it.top);
}

#[tactic(auto, unfolding(crate::specs::InodeRecords::record_of))]
fn spelled_record(payload: &[u8; 1024], index: u32) -> Option<Record>
    requires { index < 4 }
    ensures { result ≡ record_of index payload.now }
{
    let at = 256 * index as usize;
    let record = fields_in(payload, at);
    if has_rest(payload, at, &record) && has_spelling(&record) {
        Some(record)
    } else {
        None
    }
}

// The fields of the 256 bytes at a place, whether they are a spelling or not.
#[tactic(auto, unfolding(crate::specs::InodeRecords::fields_in))]
fn fields_in(payload: &[u8; 1024], at: usize) -> Record
    requires { at + 256 ≤ 1024 }
    ensures { result ≡ fields_in at payload.now }
{
    Record {
        generation: read_u64_at(payload, at),
        kind: kind_with_number(read_u32_at(payload, at + 8)),
        links: [
            link_at(payload, at + 32),
            link_at(payload, at + 32 + 16),
            link_at(payload, at + 32 + 32),
            link_at(payload, at + 32 + 48),
        ],
        size: read_u64_at(payload, at + 16),
        direct: [
            read_pointer_at(payload, at + 96),
            read_pointer_at(payload, at + 96 + 16),
            read_pointer_at(payload, at + 96 + 32),
            read_pointer_at(payload, at + 96 + 48),
            read_pointer_at(payload, at + 96 + 64),
            read_pointer_at(payload, at + 96 + 80),
            read_pointer_at(payload, at + 96 + 96),
            read_pointer_at(payload, at + 96 + 112),
        ],
        leaf: read_pointer_at(payload, at + 224),
        top: read_pointer_at(payload, at + 240),
    }
}

// The kind with this number; none for a number of no kind, and for 0.
fn kind_with_number(number: u32) -> Option<FileKind>
    ensures { result ≡ file_kind_of number }
{
    match number {
        1 => Some(FileKind::File),
        2 => Some(FileKind::Directory),
        _ => None,
    }
}

fn number_of_kind(kind: Option<FileKind>) -> u32
    ensures { result ≡ file_kind_number kind }
{
    match kind {
        None => 0,
        Some(FileKind::File) => 1,
        Some(FileKind::Directory) => 2,
    }
}

#[tactic(auto, unfolding(crate::specs::InodeRecords::link_in))]
fn link_at(bytes: &[u8], at: usize) -> BackLink
    requires { at + 16 ≤ length bytes.now }
    ensures { result ≡ link_in at bytes.now }
{
    BackLink {
        directory: read_u32_at(bytes, at),
        entry: read_u32_at(bytes, at + 4),
        generation: read_u64_at(bytes, at + 8),
    }
}

// Whether the numbers that follow from the other fields are those of this record.
fn has_rest(payload: &[u8; 1024], at: usize, it: &Record) -> bool
    requires { at + 256 ≤ 1024 }
    ensures { result ≡ has_rest at payload.now it.now }
{
    read_u32_at(payload, at + 8) == number_of_kind(it.kind)
        && read_u32_at(payload, at + 12) == count_links(&it.links)
        && read_u64_at(payload, at + 24) == 0
}

fn count_links(links: &[BackLink; 4]) -> u32
    ensures { result ≡ link_count links.now }
{
    links.iter().filter(|link| link.directory != 0).count() as u32
}

// Whether some bytes spell this record.
fn has_spelling(it: &Record) -> bool
    ensures value { result ≡ allows_record it.now.kind it.now }
{
    match it.kind {
        None => is_free(it),
        Some(kind) => it.generation >= 1 && are_tidy(&it.links) && allows_kind(kind, it),
    }
}

fn allows_kind(kind: FileKind, it: &Record) -> bool
    ensures { result ≡ allows_kind kind it.now }
{
    match kind {
        FileKind::File => it.size <= LARGEST_SIZE,
        FileKind::Directory => it.size == 0 && count_links(&it.links) <= 1 && it.top.is_null(),
    }
}

// Whether each place without a directory is all zero.
fn are_tidy(links: &[BackLink; 4]) -> bool
    ensures { result ≡ list_all is_tidy_link links.now }
{
    links.iter().all(|link| link.directory != 0 || link.entry == 0 && link.generation == 0)
}

fn are_empty(links: &[BackLink; 4]) -> bool
    ensures { result ≡ list_all is_no_link links.now }
{
    links.iter().all(|link| link.directory == 0 && link.entry == 0 && link.generation == 0)
}

fn is_free(it: &Record) -> bool
    ensures { result ≡ is_free it.now }
{
    it.generation == 0
        && it.size == 0
        && are_empty(&it.links)
        && are_null(&it.direct)
        && it.leaf.is_null()
        && it.top.is_null()
}

fn are_null(pointers: &[Pointer; 8]) -> bool
    ensures { result ≡ list_all is_null pointers.now }
{
    pointers.iter().all(|pointer| pointer.is_null())
}

// Writes the 32 bytes before the back links.
fn write_numbers(bytes: &mut [u8], at: usize, it: &Record)
    requires { at + 32 ≤ length bytes.old }
    ensures value { HasNumbers at bytes.new it.now }
    ensures beside { SameBeside at 32 bytes.old bytes.new }
{
    write_u64_at(bytes, at, it.generation);
    write_u32_at(bytes, at + 8, number_of_kind(it.kind));
    write_u32_at(bytes, at + 12, count_links(&it.links));
    write_u64_at(bytes, at + 16, it.size);
    write_u64_at(bytes, at + 24, 0);
}

fn write_link_at(bytes: &mut [u8], at: usize, it: BackLink)
    requires { at + 16 ≤ length bytes.old }
    ensures value { link_in at bytes.new ≡ it }
    ensures beside { SameBeside at 16 bytes.old bytes.new }
{
    write_u32_at(bytes, at, it.directory);
    write_u32_at(bytes, at + 4, it.entry);
    write_u64_at(bytes, at + 8, it.generation);
}

fn write_links(bytes: &mut [u8], at: usize, links: &[BackLink; 4])
    requires { at + 64 ≤ length bytes.old }
    ensures value { links_in at bytes.new ≡ links.now }
    ensures beside { SameBeside at 64 bytes.old bytes.new }
{
    for j in 0..4 {
        let place = at + 16 * j;
        write_link_at(bytes, place, links[j]);
    }
}

fn write_pointers(bytes: &mut [u8], at: usize, pointers: &[Pointer; 8])
    requires { at + 128 ≤ length bytes.old }
    ensures value { direct_in at bytes.new ≡ pointers.now }
    ensures beside { SameBeside at 128 bytes.old bytes.new }
{
    for j in 0..8 {
        write_pointer_at(bytes, at + 16 * j, pointers[j]);
    }
}
