//! Entries of a directory, 16 to a cell, and the 64 bytes that spell one (docs/FORMAT.md, "Leaf and
//! directory cells").
//!
//! Promise: what is written is read, an entry has one spelling, and other bytes stay.
ghost use Rattle.std.specs.Prelude.{◌≡◌, ◌≢◌, ◌+◌, ◌*◌, ◌<◌, ◌≤◌, false, IfOk, IfSome, IfNone, None, Some, length};
ghost use Rattle.std.specs.Prelude.{IsTrue, drop, is_some, nat_eq, ℕ};
ghost use Rattle.std.specs.List.{list_all};
ghost use Rattle.std.specs.Option.{option_copied as copied};
ghost use Rattle.nofs_disk.specs.Number.{number_at, put_bytes, zeros};
ghost use Rattle.nofs_dirent.specs.Names.{longest_name};
ghost use Rattle.nofs_dirent.specs.EntryLaws.{Spells};
ghost use Rattle.nofs_dirent.specs.Entries.{HasEntrySpelling, IsFirstNamed, carries_name, entry_bytes, entry_in};
ghost use Rattle.nofs_dirent.specs.Entries.{entry_of, entry_with, has_entry_spelling, has_name, has_zeros_after};
ghost use Rattle.nofs_dirent.specs.Entries.{name_of, spelled_entry};

use crate::lists::Name;
use crate::name::name_ok;
use nofs_disk::{clear, read_u32_at, read_u64_at, write_bytes_at, write_u32_at, write_u64_at};
use std::alloc::{AllocError, Global};

/// How many entries a directory has at most: 16 in each of its slots 0 to 71.
pub const ENTRY_LIMIT: u32 = 1152;

/// A name in a directory, and the inode that it names.
#[derive(Drop)]
pub struct Entry {
    /// Counted from 1.
    pub inode: u32,
    /// The generation of that inode when it was named, 1 or more.
    pub generation: u64,
    /// 1 to 48 bytes that `name_ok` takes.
    pub name: Name,
}

/// The entry at a place of a directory cell; `None` exactly where its 64 bytes spell none, and the
/// place is empty. Fails only for want of memory for the name.
pub fn read_entry(alloc: Global, payload: &[u8; 1024], at: u32) -> Result<Option<Entry>, AllocError>
    requires { at < 16 }
    ensures value { IfOk result (λ entry. entry ≡ entry_in payload.now at) }
    ensures spelling { IfOk result (λ entry. IfSome entry HasEntrySpelling) }
    ensures one_spelling { IfOk result
        (λ entry. IfSome entry (λ e. entry_bytes payload.now at ≡ spelled_entry e.inode e.generation e.name)) }
{
    spelled_entry(alloc, payload, at)
}

/// Whether the entry at a place of a directory cell has this name. It looks at these 64 bytes alone.
#[tactic(auto, unfolding(crate::specs::Entries::has_name))]
pub fn has_name(payload: &[u8; 1024], name: &[u8], at: u32) -> bool
    requires { at < 16 }
    ensures { result ≡ has_name payload.now name.now at }
{
    let bytes = bytes_of(payload, at);
    if !carries_name(bytes, name) {
        return false;
    }
    is_entry(bytes)
}

// Whether the size and the bytes of a name stand in these 64 bytes. Most entries have another name, so this is asked
// before whether they spell an entry.
fn carries_name(bytes: &[u8], name: &[u8]) -> bool
    requires { length bytes.now ≡ 64 }
    ensures { result ≡ carries_name bytes.now name.now }
{
    let size = name.len();
    size <= 48 && read_u32_at(bytes, 4) as usize == size && &bytes[16..16 + size] == name
}

/// The first place at or after `from` whose entry has this name; `None` exactly where there is none.
/// It takes no memory.
pub fn find_name(payload: &[u8; 1024], name: &[u8], from: u32) -> Option<u32>
    ensures found { IfSome result (IsFirstNamed payload.now name.now from) }
    ensures none { IfNone result ((k : ℕ) → from ≤ k → k < 16 → has_name payload.now name.now k ≡ false) }
{
    for at in from..16 {
        if has_name(payload, name, at) {
            return Some(at);
        }
    }
    None
}

/// Writes an entry at a place of a directory cell. The other bytes of the cell stay.
pub fn write_entry(payload: &mut [u8; 1024], at: u32, it: &Entry)
    requires place { at < 16 }
    requires spelling { HasEntrySpelling it.now }
    ensures put { payload.new ≡ put_bytes (64 * at)
        (spelled_entry it.now.inode it.now.generation it.now.name) payload.old }
    ensures written { entry_in payload.new at ≡ Some it.now }
    ensures others { (j : ℕ) → j ≢ at → j < 16 → entry_in payload.new j ≡ entry_in payload.old j }
{
    let mut bytes = [0; 64];
    spell(it.inode, it.generation, it.name.as_slice(), &mut bytes);
    write_bytes_at(payload, 64 * at as usize, &bytes);
}

/// Makes a place of a directory cell empty. The other bytes of the cell stay.
pub fn clear_entry(payload: &mut [u8; 1024], at: u32)
    requires { at < 16 }
    ensures put { payload.new ≡ put_bytes (64 * at) (zeros 64) payload.old }
    ensures empty { entry_in payload.new at ≡ None }
    ensures others { (j : ℕ) → j ≢ at → j < 16 → entry_in payload.new j ≡ entry_in payload.old j }
{
    let mut zeros = [0; 64];
    clear(&mut zeros);
    write_bytes_at(payload, 64 * at as usize, &zeros);
}

fn spelled_entry(alloc: Global, payload: &[u8; 1024], at: u32) -> Result<Option<Entry>, AllocError>
    requires { at < 16 }
    ensures { IfOk result (λ entry. entry ≡ entry_in payload.now at) }
{
    let bytes = bytes_of(payload, at);
    match name_of(bytes) {
        None => Ok(None),
        Some(name) => Ok(Some(Entry {
            inode: read_u32_at(bytes, 0),
            generation: read_u64_at(bytes, 8),
            name: Name::from_slice(alloc, name)?,
        })),
    }
}

/// The 64 bytes of the entry at a place.
pub fn bytes_of(payload: &[u8; 1024], at: u32) -> &[u8]
    requires { at < 16 }
    ensures bytes { result.now ≡ entry_bytes payload.now at }
    ensures len { length result.now ≡ 64 }
{
    let at = 64 * at as usize;
    &payload[at..at + 64]
}

// The name of the entry that these 64 bytes spell.
fn name_of(bytes: &[u8]) -> Option<&[u8]>
    requires { length bytes.now ≡ 64 }
    ensures { copied result ≡ name_of (entry_of bytes.now) }
{
    if !is_entry(bytes) {
        return None;
    }
    let size = read_u32_at(bytes, 4) as usize;
    Some(&bytes[16..16 + size])
}

/// Whether these 64 bytes spell an entry. Those of an empty place, which are zeros, are told by their inode.
#[inline(never)]
pub fn is_entry(bytes: &[u8]) -> bool
    requires { length bytes.now ≡ 64 }
    ensures value { result ≡ is_some (entry_of bytes.now) }
    ensures short { IsTrue result → number_at 4 4 bytes.now ≤ longest_name }
{
    let inode = read_u32_at(bytes, 0);
    if inode == 0 {
        return false;
    }
    let size = read_u32_at(bytes, 4) as usize;
    if !has_zeros_after(bytes, size) {
        return false;
    }
    has_spelling(inode, read_u64_at(bytes, 8), &bytes[16..16 + size])
}

// Whether some bytes spell this entry.
fn has_spelling(inode: u32, generation: u64, name: &[u8]) -> bool
    ensures { result ≡ has_entry_spelling (entry_with inode generation name.now) }
{
    inode >= 1 && generation >= 1 && name_ok(name)
}

/// Whether a name of this size fits into these 64 bytes, and zeros follow it.
pub fn has_zeros_after(bytes: &[u8], size: usize) -> bool
    requires { length bytes.now ≡ 64 }
    ensures { result ≡ has_zeros_after bytes.now size }
{
    size <= 48 && are_zero_from(bytes, 16 + size)
}

// Whether the bytes from a place on are zeros. It goes by words of eight bytes, of which the last one overlaps, since
// most names are short.
fn are_zero_from(bytes: &[u8], from: usize) -> bool
    requires len { length bytes.now ≡ 64 }
    requires place { from ≤ 64 }
    ensures { result ≡ list_all (λ b. nat_eq b 0) (drop from bytes.now) }
{
    if from > 56 {
        return are_zero(&bytes[from..64]);
    }
    let mut all = read_u64_at(bytes, 56) == 0;
    for word in 0..(64 - from) / 8 {
        all &= read_u64_at(bytes, from + 8 * word) == 0;
    }
    all
}

fn are_zero(bytes: &[u8]) -> bool
    ensures { result ≡ list_all (λ b. nat_eq b 0) bytes.now }
{
    bytes.iter().all(|&byte| byte == 0)
}

// The 64 bytes of an entry.
#[tactic(auto, unfolding(crate::specs::Entries::spelled_entry))]
fn spell(inode: u32, generation: u64, name: &[u8], into: &mut [u8; 64])
    requires { HasEntrySpelling (entry_with inode generation name.now) }
    ensures bytes { into.new ≡ spelled_entry inode generation name.now }
    ensures spells { Spells into.new (entry_with inode generation name.now) }
{
    clear(into);
    write_bytes_at(into, 16, name);
    write_u64_at(into, 8, generation);
    write_u32_at(into, 4, name.len() as u32);
    write_u32_at(into, 0, inode);
}
