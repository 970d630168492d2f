//! The step of an element that is examined.
ghost use Rattle.std.specs.Prelude.{◌≡◌, ◌<◌, ◌^◌};
ghost use Rattle.nofs_scan.specs.Steps.Elements.{see_step};

use nofs_history::{ElementKind, Step};

/// The step that examines an element.
pub fn step_of(kind: ElementKind, item: u64) -> Step
    requires { item < 2 ^ 32 }
    ensures { result ≡ see_step kind item }
{
    match kind {
        ElementKind::Inode => Step::SeeInode { inode: item as u32 },
        ElementKind::Block => Step::SeeBlock { block: item },
    }
}
