//! How a step that may claim has ended, and where the record of an inode stands.
ghost use Rattle.std.specs.Prelude.{◌≡◌, ◌+◌, ◌-◌, ◌/◌, ◌≤◌, Err};
ghost use Rattle.nofs_history.specs.Claims.{no_claims};

use nofs_history::{Claims, NO_CLAIMS, Refusal};

/// How a step that may claim has ended. Its claims stand in its entry also where a write failed.
#[derive(Drop)]
pub struct Ended {
    pub claims: Claims,
    pub result: Result<(), Refusal>,
}

/// The step was refused.
pub fn refused(why: Refusal) -> Ended
    ensures { result ≡ record { claims = no_claims; result = Err why } }
{
    Ended {
        claims: NO_CLAIMS,
        result: Err(why),
    }
}

/// The block of the inode table with the record of an inode.
pub fn table_block(inode: u32) -> u64
    requires { 1 ≤ inode }
    ensures { result ≡ 1 + (inode - 1) / 4 }
{
    1 + u64::from((inode - 1) / 4)
}
