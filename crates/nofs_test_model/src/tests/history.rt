//! A history keeps its entries in their order.
ghost use Rattle.std.specs.Prelude.{◌<◌};

use nofs_history::{Entry1, History, NO_CLAIMS, Reply, Step};
use std::alloc::AllocError;

fn flushed(from: u64) -> Entry1
    requires { from < 100 }
{
    Entry1 {
        caller: 0,
        from,
        to: from + 2,
        step: Step::Flush {
            inode: 0,
            generation: 0,
        },
        reply: Reply::Flushed,
        claims: NO_CLAIMS,
    }
}

#[test]
fn a_history_keeps_its_entries_in_order(rt: HostRuntime) -> Result<(), AllocError> {
    let mut history = History::new(rt.alloc(), 0);
    history.reserve(2)?;
    history.restart(4);
    history.push(flushed(4));
    history.push(flushed(6));
    assert!(rt; history.len() == 2 && history.start() == 4);
    assert!(rt; matches!(history.entry(1), Some(Entry1 { from: 6, to: 8, .. })));
    assert!(rt; history.entry(2).is_none());
    Ok(())
}

const _: () = prove!(std::mem::size_of::<Entry1>() == 200);
