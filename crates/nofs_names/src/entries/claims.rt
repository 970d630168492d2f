//! What a step on names claims.
ghost use Rattle.std.specs.Prelude.{◌≡◌};
ghost use Rattle.nofs_history.specs.Claims.{no_claims};

use nofs_disk::Pointer;
use nofs_history::{Claims, NO_CLAIMS};

/// The claims of a step on these blocks for a cell and its leaf, each null where there is none.
pub(crate) fn claims_of(cell: Pointer, leaf: Pointer) -> Claims
    ensures { result ≡ record no_claims { cell = cell; leaf = leaf } }
{
    Claims {
        cell,
        leaf,
        ..NO_CLAIMS
    }
}
