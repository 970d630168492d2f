//! Which replies fit a step.
ghost use Rattle.std.specs.Prelude.{◌<◌, IsTrue, All};
ghost use Rattle.nofs_dirent.specs.Names.{is_name};
ghost use Rattle.nofs_history.specs.Steps.{Fits, InRange};

use nofs_dirent::name_ok;
use nofs_history::{NameList, Refusal, Reply, Step};

fn are_names(names: &NameList) -> bool
    ensures { IsTrue result → All (λ line. IsTrue (is_name line.name)) names.now }
{
    names
        .as_slice()
        .iter()
        .all(|line| name_ok(line.name.as_slice()))
}

fn is_in_range(refusal: &Refusal) -> bool
    ensures { IsTrue result → InRange refusal.now }
{
    match refusal {
        Refusal::Full { unverified, .. } => *unverified <= u64::MAX,
        Refusal::InodesFull { unverified, next } => {
            *unverified <= u64::MAX && *next <= u64::from(u32::MAX)
        }
        _ => true,
    }
}

/// Says yes only where the reply fits the step.
pub fn fits(step: &Step, reply: &Reply) -> bool
    ensures { IsTrue result → Fits step.now reply.now }
{
    match reply {
        Reply::Refused(refusal) => is_in_range(refusal),
        Reply::Found(_) => matches!(step, Step::Look { .. }),
        Reply::Made { .. } => matches!(step, Step::Make { .. }),
        Reply::Linked => matches!(step, Step::Link { .. }),
        Reply::Dropped { .. } => matches!(step, Step::Drop { .. }),
        Reply::Renamed => matches!(step, Step::Rename { .. }),
        Reply::Names(slot, names) => {
            matches!(step, Step::List { .. }) && *slot < 72 && names.len() <= 16 && are_names(names)
        }
        Reply::LostNames(slot) => matches!(step, Step::List { .. }) && *slot < 72,
        Reply::NoMore => matches!(step, Step::List { .. }),
        Reply::Bytes(bytes) => matches!(step, Step::Get { .. }) && bytes.len() == 1024,
        Reply::Hole => matches!(step, Step::Get { .. }),
        Reply::Lost => matches!(step, Step::Get { .. }),
        Reply::Stored => matches!(step, Step::Put { .. }),
        Reply::Resized => matches!(step, Step::Resize { .. }),
        Reply::Stat(_) => matches!(step, Step::Stat { .. }),
        Reply::Flushed => matches!(step, Step::Flush { .. }),
        Reply::Seen { .. } => matches!(step, Step::SeeInode { .. } | Step::SeeBlock { .. }),
    }
}
