//! Lists whose places behind the last one count as empty.
ghost use Rattle.std.specs.Prelude.{◌≡◌, ◌≤◌, ◌<◌, ℕ, OnOk, length, slice_get};
ghost use Rattle.nofs_history.specs.Accepted.Files.{value_at, file_at};

use crate::accepted::files::file::{FileNow, ValueNow};
use std::alloc::AllocError;

/// Adds holes until so many slots are kept.
pub(crate) fn grow_values(values: &mut Vec<ValueNow>, count: usize) -> Result<(), AllocError>
    ensures same { (k : ℕ) → value_at (slice_get values.new.items k) ≡ value_at (slice_get values.old.items k) }
    ensures long { OnOk result (count ≤ length values.new.items) }
{
    while values.len() < count {
        values.push(ValueNow::Hole)?;
    }
    Ok(())
}

/// Adds inodes without a file until so many are kept.
pub(crate) fn grow_files(files: &mut Vec<Option<FileNow>>, count: usize) -> Result<(), AllocError>
    ensures same { (k : ℕ) → file_at (slice_get files.new.items k) ≡ file_at (slice_get files.old.items k) }
    ensures long { OnOk result (count ≤ length files.new.items) }
{
    while files.len() < count {
        files.push(None)?;
    }
    Ok(())
}
