//! Two passes of one mount, taken by turns on one thread.
use crate::tests::mounts::two_passes;
use nofs_history::{ElementKind, Refusal, Reply, Step};
use nofs_shared::{BusyStep, Serves, SharedOut};
use nofs_test_asks::mounted;
use nofs_test_disks::formatted;
use std::alloc::Global;
use std::sync::Wait;
use std::test::Fail;

const STAT: Step = Step::Stat {
    inode: 2,
    generation: 2,
};

fn is_stat(answer: &Result<Reply, BusyStep>) -> bool {
    match answer {
        Ok(reply) => matches!(reply, Reply::Stat(_)),
        Err(_) => false,
    }
}

// The same of an answer that is not needed any more.
fn was_stat(answer: Result<Reply, BusyStep>) -> bool {
    is_stat(&answer)
}

fn is_found<E: Drop>(evidence: Result<E, Refusal>) -> bool {
    evidence.is_ok()
}

/// Whether the step of a pass is answered, whether it then looks at two blocks, which makes no entry, how many entries
/// that pass knows of, and how many passes were out.
type Told = (bool, bool, u64, u64);

// A mount that is closed with one pass out, and again with none.
fn closed_twice<R: Wait, V: Serves>(rt: &R, alloc: Global, mount: V) -> Result<(Told, V), Fail> {
    let (shared, first, second) = two_passes(alloc, mount).ok_or("no passes")?;
    let mut user = shared.pass(rt, alloc, 1, first);
    let answered = was_stat(user.try_step(STAT));
    let looked = is_found(user.look_batch(ElementKind::Block, &[1, 15]));
    let progress = user.progress();
    let first = user.back();
    let (shared, mut first, out) = match shared.close(first) {
        Ok(_) => return Err("closed".into()),
        Err(SharedOut { mount, pass, out }) => (mount, pass, out),
    };
    shared.join(&mut first, second);
    let mount = shared.close(first).ok().ok_or("not closed")?;
    Ok(((answered, looked, progress, out), mount))
}

// The same of a new disk, and how many entries the mount has then.
fn mount_closed_twice<R: Wait>(rt: &R, alloc: Global) -> Result<(Told, u64), Fail> {
    let mount = mounted(alloc, formatted(alloc, 16, 4)?)?;
    let (told, mount) = closed_twice(rt, alloc, mount)?;
    Ok((told, mount.history().len()))
}

#[test]
fn a_mount_comes_back_when_both_passes_do(rt: HostRuntime) -> Result<(), Fail> {
    let told = mount_closed_twice(&rt, rt.alloc())?;
    assert_eq!(rt; told, ((true, true, 1, 1), 1));
    Ok(())
}
