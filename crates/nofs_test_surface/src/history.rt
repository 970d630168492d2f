//! Steps, replies and refusals, entries with their claims, and the history.
ghost use Rattle.std.specs.Prelude.{[], ◌<◌, ◌≡◌};

use crate::typed::typed;
use nofs_dirent::{Content, Name};
use nofs_disk::{Cell, Pointer};
use nofs_history::{
    Claims, ElementKind, Entry1, Found, History, NameList, Refusal, Reply, Stat, Step,
};
use nofs_inode::FileKind;
use nofs_model::Value;
use std::alloc::{AllocError, Global};

/// The number of a variant whose fields are an inode, a generation, and this one or these.
fn on<T>(_inode: &u32, _generation: &u64, _field: &T, variant: u8) -> u8 {
    variant
}

/// `nofs_history::Step`
pub fn step_variant(it: &Step) -> u8 {
    match it {
        Step::Look {
            directory,
            generation,
            name,
        } => on::<Name>(directory, generation, name, 0),
        Step::Make {
            directory,
            generation,
            name,
            kind,
        } => on::<(&Name, &FileKind)>(directory, generation, &(name, kind), 1),
        Step::Link {
            inode,
            of,
            directory,
            generation,
            name,
        } => typed::<(&u32, &u64, &Name, &u32, &u64)>(&(directory, generation, name, inode, of), 2),
        Step::Drop {
            directory,
            generation,
            name,
        } => on::<Name>(directory, generation, name, 3),
        Step::Rename {
            directory,
            generation,
            old,
            new,
        } => on::<(&Name, &Name)>(directory, generation, &(old, new), 4),
        Step::List {
            directory,
            generation,
            slot,
        } => on::<u64>(directory, generation, slot, 5),
        Step::Get {
            inode,
            generation,
            slot,
        } => on::<u64>(inode, generation, slot, 6),
        Step::Put {
            bytes,
            at,
            slot,
            inode,
            generation,
        } => on::<(&u64, &u32, &Content)>(inode, generation, &(slot, at, bytes), 7),
        Step::Resize {
            inode,
            generation,
            size,
        } => on::<u64>(inode, generation, size, 8),
        Step::Stat { inode, generation } => typed::<(&u32, &u64)>(&(inode, generation), 9),
        Step::Flush { inode, generation } => typed::<(&u32, &u64)>(&(inode, generation), 10),
        Step::SeeInode { inode } => typed::<u32>(inode, 11),
        Step::SeeBlock { block } => typed::<u64>(block, 12),
    }
}

/// `nofs_history::Reply`
pub fn reply_variant(it: &Reply) -> u8 {
    match it {
        Reply::Found(first) => typed::<Found>(first, 0),
        Reply::Made { inode, generation } => typed::<(&u32, &u64)>(&(inode, generation), 1),
        Reply::Linked => 2,
        Reply::Dropped { removed } => typed::<bool>(removed, 3),
        Reply::Renamed => 4,
        Reply::Names(first, second) => typed::<(&u64, &NameList)>(&(first, second), 5),
        Reply::LostNames(first) => typed::<u64>(first, 6),
        Reply::NoMore => 7,
        Reply::Bytes(first) => typed::<Content>(first, 8),
        Reply::Hole => 9,
        Reply::Lost => 10,
        Reply::Stored => 11,
        Reply::Resized => 12,
        Reply::Stat(first) => typed::<Stat>(first, 13),
        Reply::Flushed => 14,
        Reply::Seen { used } => typed::<bool>(used, 15),
        Reply::Refused(first) => typed::<Refusal>(first, 16),
    }
}

/// `nofs_history::Refusal`
pub fn refusal_variant(it: &Refusal) -> u8 {
    match it {
        Refusal::Missing => 0,
        Refusal::LostEntry { entry } => typed::<u32>(entry, 1),
        Refusal::LostSlot { slot } => typed::<u64>(slot, 2),
        Refusal::Exists => 3,
        Refusal::NotDirectory => 4,
        Refusal::IsDirectory => 5,
        Refusal::NotEmpty => 6,
        Refusal::BadName => 7,
        Refusal::BadRange => 8,
        Refusal::TooManyLinks => 9,
        Refusal::DirectoryFull => 10,
        Refusal::TooLarge => 11,
        Refusal::PastEnd => 12,
        Refusal::Stale => 13,
        Refusal::Full {
            needed,
            free,
            unverified,
            next,
        } => typed::<(&u64, &u64, &u64, &u64)>(&(needed, free, unverified, next), 14),
        Refusal::InodesFull { unverified, next } => typed::<(&u64, &u64)>(&(unverified, next), 15),
        Refusal::SerialsSpent => 16,
        Refusal::ReadFault => 17,
        Refusal::WriteFault => 18,
        Refusal::Stopped => 19,
        Refusal::OutOfMemory => 20,
    }
}

/// `nofs_history::Entry1`
pub fn entry1_fields(it: Entry1) -> (u64, u64, u32, Step, Reply, Claims) {
    let Entry1 {
        from,
        to,
        caller,
        step,
        reply,
        claims,
    } = it;
    (from, to, caller, step, reply, claims)
}

/// `nofs_history::Claims`
pub fn claims_fields(it: Claims) -> (u32, u64, Pointer, Pointer, Pointer) {
    let Claims {
        inode,
        generation,
        cell,
        leaf,
        top,
    } = it;
    (inode, generation, cell, leaf, top)
}

/// `nofs_history::History`
pub fn history_itself(it: History) -> History {
    it
}

/// `nofs_history::ElementKind`
pub fn element_kind_variant(it: &ElementKind) -> u8 {
    match it {
        ElementKind::Inode => 0,
        ElementKind::Block => 1,
    }
}

/// `nofs_history::History::new`
pub fn history_new(alloc: Global, start: u64) -> History {
    History::new(alloc, start)
}

/// `nofs_history::History::restart`
pub fn history_restart(this: &mut History, start: u64)
    requires { this.old.entries ≡ [] }
{
    this.restart(start);
}

/// `nofs_history::History::reserve`
pub fn history_reserve(this: &mut History, entries: u64) -> Result<(), AllocError> {
    this.reserve(entries)
}

/// `nofs_history::History::push`
pub fn history_push(this: &mut History, it: Entry1)
    requires { 0 < this.old.spare }
{
    this.push(it);
}

/// `nofs_history::History::len`
pub fn history_len(this: &History) -> u64 {
    this.len()
}

/// `nofs_history::History::entry`
pub fn history_entry(this: &History, at: u64) -> Option<&Entry1> {
    this.entry(at)
}

/// `nofs_history::History::start`
pub fn history_start(this: &History) -> u64 {
    this.start()
}

/// `nofs_history::accepted_of`
pub fn accepted_of(
    history: &History,
    base: &[Cell],
    inode: u32,
    generation: u64,
    slot: u64,
    alloc: Global,
) -> Result<Vec<Value>, AllocError> {
    nofs_history::accepted_of(alloc, base, history, inode, generation, slot)
}

/// `nofs_history::FileKind`
pub fn file_kind_of_history(it: FileKind) -> nofs_history::FileKind {
    it
}
