//! Why a walk gave no report.
//!
//! Promise: a refusal is carried as it came.
ghost use Rattle.std.specs.Prelude.{◌≡◌};
ghost use Rattle.nofs_salvage.specs.declared.report.fault.SalvageFault.TheVariants.{OutOfMemory};
ghost use Rattle.nofs_salvage.specs.Walk.Steps.{fault_by};

use nofs_history::Refusal;
use std::alloc::AllocError;

/// Why a walk gave no report.
#[derive(Clone, Copy, Debug, PartialEq, Eq)]
pub enum SalvageFault {
    /// A step of the walk was refused.
    Refused(Refusal),
    /// Memory was wanting.
    OutOfMemory,
}

impl From<AllocError> for SalvageFault {
    ghost from_gives = { λ _ e. e ≡ OutOfMemory };

    fn from(_: AllocError) -> Self {
        SalvageFault::OutOfMemory
    }
}

/// The fault of a step that was refused.
pub(crate) fn fault_of(why: Refusal) -> SalvageFault
    ensures { result ≡ fault_by why }
{
    match why {
        Refusal::OutOfMemory => SalvageFault::OutOfMemory,
        _ => SalvageFault::Refused(why),
    }
}
