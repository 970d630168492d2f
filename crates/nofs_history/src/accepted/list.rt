//! The list of values that were accepted for one slot.
ghost use Rattle.std.specs.Prelude.{◌≡◌, ℕ, ◌<◌, ◌++◌, ◌∷◌, [], ◌+◌, length, drop, IfOk, OnOk, option_to_list};
ghost use Rattle.std.specs.Prelude.{if◌then◌else◌};
ghost use Rattle.nofs_ptrs.specs.Paths.{slot_limit};
ghost use Rattle.nofs_model.specs.Geometry as image;
ghost use Rattle.nofs_model.specs.Slots as slots;
ghost use Rattle.nofs_history.specs.Machine as machine;
ghost use Rattle.nofs_history.specs.Since.{accepted_of, is_generation};
ghost use Rattle.nofs_history.specs.Next.{IsAfter};
ghost use Rattle.nofs_history.specs.World.{World};
ghost use Rattle.nofs_history.specs.Accepted.Files.{kept_files_of, kept_files};
ghost use Rattle.nofs_history.specs.Accepted.Fit.{IsFit, AreFit};
ghost use Rattle.nofs_history.specs.Accepted.Given.{value_for, values_for};

use crate::accepted::applying::do_entry;
use crate::accepted::base::{files_at, inodes_of, note_sizes, read_inode};
use crate::accepted::files::file::FilesNow;
use crate::accepted::given::entries::value_by_entry;
use crate::accepted::given::slots::Wanted;
use crate::machine::history::{Entry1, History};
use nofs_disk::Cell;
use nofs_model::{Value, is_mountable, value_of};
use nofs_ptrs::SLOT_LIMIT;
use std::alloc::{AllocError, Global};

/// The values that a history accepted for a slot of one generation of an inode, the base's first. It is
/// the list of the definition where the base can be mounted, the slot is below 4,168 and the history is
/// a run over that base; on anything else it is some list. The error is want of memory alone.
pub fn accepted_of(
    alloc: Global,
    base: &[Cell],
    history: &History,
    inode: u32,
    generation: u64,
    slot: u64,
) -> Result<Vec<Value>, AllocError>
    ensures { IfOk result (λ values. image.IsMountable base.now
        → slot < slot_limit → (first : ℕ) (V : World) → IsAfter base.now first history.now V
        → values.items ≡ accepted_of base.now history.now.entries inode generation slot) }
{
    if slot >= SLOT_LIMIT || !is_mountable(base) {
        return Ok(Vec::new(alloc));
    }
    let wanted = Wanted {
        inode,
        generation,
        slot,
    };
    let mut values = Vec::new(alloc);
    note_base(alloc, base, &wanted, &mut values)?;
    note_entries(alloc, files_at(alloc, base)?, history, &wanted, &mut values)?;
    Ok(values)
}

// Whether a base has a live record of this generation.
fn is_generation(base: &[Cell], inode: u32, generation: u64) -> bool
    requires { image.IsMountable base.now }
    ensures { result ≡ is_generation base.now inode generation }
{
    if inode == 0 {
        return false;
    }
    if u64::from(inode) > inodes_of(base) {
        return false;
    }
    let it = read_inode(base, inode);
    it.kind.is_some() && it.generation == generation
}

// Adds the base's value, where it has one.
fn note_base(
    alloc: Global,
    base: &[Cell],
    wanted: &Wanted,
    values: &mut Vec<Value>,
) -> Result<(), AllocError>
    requires image { image.IsMountable base.now }
    requires slot { wanted.now.slot < slot_limit }
    ensures { OnOk result (values.new.items ≡ values.old.items
        ++ (if is_generation base.now wanted.now.inode wanted.now.generation
        then slots.value base.now wanted.now.inode wanted.now.slot ∷ [] else [])) }
{
    note_sizes(base);
    if is_generation(base, wanted.inode, wanted.generation) {
        values.push(value_of(alloc, base, wanted.inode, wanted.slot)?)?;
    }
    Ok(())
}

// Adds what an entry gives, and does its step.
fn note_entry(
    alloc: Global,
    files: &mut FilesNow,
    entry: &Entry1,
    wanted: &Wanted,
    values: &mut Vec<Value>,
) -> Result<(), AllocError>
    requires { wanted.now.slot < slot_limit }
    ensures values { OnOk result (IsFit entry.now → values.new.items
        ≡ values.old.items
        ++ option_to_list (value_for (machine.given_by (kept_files_of files.old) entry.now) wanted.now)) }
    ensures files { OnOk result (IsFit entry.now
        → kept_files (kept_files_of files.new) ≡ kept_files (machine.files_by (kept_files_of files.old) entry.now)) }
{
    if let Some(value) = value_by_entry(alloc, files, wanted, entry)? {
        values.push(value)?;
    }
    do_entry(alloc, files, entry)
}

// Adds what the entry at a place gives, and does its step.
fn note_at(
    alloc: Global,
    files: &mut FilesNow,
    history: &History,
    at: u64,
    wanted: &Wanted,
    values: &mut Vec<Value>,
) -> Result<(), AllocError>
    requires slot { wanted.now.slot < slot_limit }
    requires place { at < length history.now.entries }
    ensures { OnOk result (AreFit history.now.entries
        → values.new.items ++ values_for (kept_files_of files.new) (drop (at + 1) history.now.entries) wanted.now
        ≡ values.old.items ++ values_for (kept_files_of files.old) (drop at history.now.entries) wanted.now) }
{
    match history.entry(at) {
        Some(entry) => {
            note_entry(alloc, files, entry, wanted, values)?;
            Ok(())
        }
        None => Ok(()),
    }
}

// Adds what the entries of a history give, in their order.
fn note_entries(
    alloc: Global,
    files: FilesNow,
    history: &History,
    wanted: &Wanted,
    values: &mut Vec<Value>,
) -> Result<(), AllocError>
    requires { wanted.now.slot < slot_limit }
    ensures { OnOk result (AreFit history.now.entries → values.new.items ≡ values.old.items
        ++ values_for (kept_files_of files) history.now.entries wanted.now) }
{
    let mut files = files;
    for at in 0..history.len() {
        note_at(alloc, &mut files, history, at, wanted, values)?;
    }
    Ok(())
}
