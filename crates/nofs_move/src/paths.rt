//! Copies of paths.
ghost use Rattle.std.specs.Prelude.{◌≡◌, IfOk};

use nofs_client::Path;
use nofs_dirent::PathNames;
use std::alloc::{AllocError, Global};

fn copy_names(alloc: Global, names: &PathNames) -> Result<PathNames, AllocError>
    ensures { IfOk result (λ copy. copy ≡ names.now) }
{
    let mut copy = PathNames::new(alloc);
    for name in names.as_slice() {
        copy.push(name.copy(alloc)?)?;
    }
    Ok(copy)
}

/// A second path with the same names.
pub(crate) fn copy_path(alloc: Global, path: &Path) -> Result<Path, AllocError>
    ensures { IfOk result (λ copy. copy ≡ path.now) }
{
    match path {
        Path::Label => Ok(Path::Label),
        Path::Names(names) => Ok(Path::Names(copy_names(alloc, names)?)),
    }
}
