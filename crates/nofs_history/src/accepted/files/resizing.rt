//! How a file changes with its size.
ghost use Rattle.std.specs.Prelude.{◌≡◌, ◌<◌, ◌≤◌, ◌+◌, ◌/◌, ◌==◌, ℕ, Some, if◌then◌else◌, slice_get};
ghost use Rattle.nofs_history.specs.Machine as machine;
ghost use Rattle.nofs_history.specs.Accepted.Files.{value_now, value_at, file_of, kept_file, end_value, resized_file};

use crate::accepted::files::cells::trim;
use crate::accepted::files::file::{FileNow, ValueNow};

/// How many slots a size reaches into.
pub(crate) fn slots_in(size: u64) -> u64
    ensures { result ≡ machine.slots_in size }
{
    size / 1024 + u64::from(size % 1024 != 0)
}

fn trimmed(kept: ValueNow, cut: usize) -> ValueNow
    requires { cut ≤ 1024 }
    ensures { value_now result ≡ machine.trimmed_value cut (value_now kept) }
{
    match kept {
        ValueNow::Bytes(bytes) => {
            let mut cell = bytes;
            trim(&mut cell, cut);
            ValueNow::Bytes(cell)
        }
        ValueNow::Hole => ValueNow::Hole,
        ValueNow::Lost => ValueNow::Lost,
    }
}

fn trim_slot(values: &mut Vec<ValueNow>, slot: usize, cut: usize)
    requires { cut ≤ 1024 }
    ensures { (k : ℕ) → value_at (slice_get values.new.items k)
        ≡ (if slot == k then machine.trimmed_value cut (value_at (slice_get values.old.items slot))
        else value_at (slice_get values.old.items k)) }
{
    if slot < values.len() {
        let kept = std::mem::replace(&mut values[slot], ValueNow::Hole);
        values[slot] = trimmed(kept, cut);
    }
}

/// Puts zeros behind the old end, where the file does not shrink and the last of its slots is not full.
fn trim_end(values: &mut Vec<ValueNow>, old: u64, size: u64, slots: u64)
    ensures { (k : ℕ) → value_at (slice_get values.new.items k) ≡ end_value old size slots k
        (value_at (slice_get values.old.items k)) }
{
    if old <= size && old % 1024 != 0 && slots > 0 {
        trim_slot(values, slots as usize - 1, old as usize % 1024);
    }
}

impl FileNow {
    /// The file with another size: holes from the cut on, and zeros behind the old end.
    pub fn resized(self, size: u64) -> FileNow
        ensures { kept_file (Some (file_of result)) ≡ kept_file (Some (resized_file (file_of self) size)) }
    {
        let slots = slots_in(self.size).min(slots_in(size));
        let mut file = self;
        file.values.truncate(slots as usize);
        trim_end(&mut file.values, file.size, size, slots);
        file.size = size;
        file
    }
}
