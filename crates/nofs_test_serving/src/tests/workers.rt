//! Workers over a stand-in for a mount, which notes what it is asked.
ghost use Rattle.std.specs.Prelude.{IfOk};
ghost use Rattle.nofs_client.specs.Task.Commands.{AreWellFormed};

mod gates;

use crate::tests::workers::gates::{Calls, CountGate, no_calls};
use nofs_client::{Command, CommandList, Path};
use nofs_test_standin::{Fake, Told, Transcript};
use nofs_workers::{
    BlockSweeper, Downwards, Flusher, InodeSweeper, OpenGate, Upwards, UserEnd, UserWorker,
};
use std::alloc::{AllocError, Global};
use std::sync::atomic::Ordering;
use std::test::Fail;

fn two_stats(alloc: Global) -> Result<CommandList, AllocError>
    ensures { IfOk result AreWellFormed }
{
    let mut commands = CommandList::new(alloc);
    commands.push(Command::Stat { path: Path::Label })?;
    commands.push(Command::Stat { path: Path::Label })?;
    Ok(commands)
}

/// How many elements were examined, and how many by a commit, with the first and the last of them.
fn counts(fake: &Fake) -> (usize, u64, Option<&u64>, Option<&u64>) {
    let seen = &fake.seen;
    (seen.len(), fake.committed, seen.first(), seen.last())
}

#[test]
fn a_sweep_of_130_inodes_asks_for_64_and_64_and_2(rt: HostRuntime) -> Result<(), Fail> {
    let told = Told::new(Fake::new(rt.alloc()));
    let mut sweeper = InodeSweeper::new(told, Upwards { count: 130 }, OpenGate);
    sweeper.work();
    assert!(rt; !sweeper.out_of_memory);
    let fake = sweeper.into_inner().answers;
    assert_eq!(rt; fake.asked.as_slice(), [64, 64, 2].as_slice());
    assert_eq!(rt; counts(&fake), (130, 130, Some(&1), Some(&130)));
    Ok(())
}

#[test]
fn a_sweep_whose_looks_are_refused_sees_one_by_one(rt: HostRuntime) -> Result<(), Fail> {
    let mut fake = Fake::new(rt.alloc());
    fake.refuses = true;
    let mut sweeper = BlockSweeper::new(Told::new(fake), Downwards { count: 66 }, OpenGate);
    sweeper.work();
    let fake = sweeper.into_inner().answers;
    assert_eq!(rt; fake.asked.as_slice(), [64, 2].as_slice());
    assert_eq!(rt; counts(&fake), (66, 0, Some(&65), Some(&0)));
    Ok(())
}

#[test]
fn a_sweep_ends_where_memory_is_wanting(rt: HostRuntime) -> Result<(), Fail> {
    let mut fake = Fake::new(rt.alloc());
    fake.room = 70;
    let mut sweeper = BlockSweeper::new(Told::new(fake), Upwards { count: 130 }, OpenGate);
    sweeper.work();
    assert!(rt; sweeper.out_of_memory);
    let fake = sweeper.into_inner().answers;
    assert_eq!(rt; fake.asked.as_slice(), [64, 64].as_slice());
    assert_eq!(rt; fake.seen.len(), 70);
    Ok(())
}

/// The calls of a flusher with four turns over three dirty blocks, and the blocks that stay dirty.
fn flush_three(alloc: Global, fails_at: u64) -> (u64, u64) {
    let mut fake = Fake::new(alloc);
    fake.fails_at = fails_at;
    let mut flusher = Flusher::new(Told::new(fake), OpenGate, 4);
    flusher.work();
    let fake = flusher.into_inner().answers;
    (fake.outs, fake.dirty)
}

#[test]
fn a_flusher_calls_four_times_or_until_a_call_fails(rt: HostRuntime) {
    for (fails_at, came) in [(0, (4, 0)), (2, (2, 2))] {
        assert_eq!(rt; flush_three(rt.alloc(), fails_at), came, "call {fails_at}");
    }
}

/// What came of a user with two stats to which these replies come: its steps, how many lines it has, and whether memory
/// was wanting.
fn worked(alloc: Global, told: &str, calls: &Calls) -> Result<(String, u64, bool), AllocError> {
    let commands = two_stats(alloc)?;
    let steps = Told::new(Transcript::new(alloc, told));
    let mut user = UserWorker::new(alloc, steps, commands, CountGate { calls });
    user.work();
    let UserEnd {
        steps,
        lines,
        out_of_memory,
    } = user.into_inner();
    Ok((steps.answers.text, lines.len(), out_of_memory))
}

#[test]
fn a_user_passes_its_gate_at_each_step(rt: HostRuntime) -> Result<(), Fail> {
    let calls = no_calls();
    let told = "stat 2/2 -> file 0 1\nstat 2/2 -> file 0 1\n";
    let (steps, lines, wanting) = worked(rt.alloc(), told, &calls)?;
    assert_eq!(rt; (steps.as_str(), lines, wanting), (told, 2, false));
    assert_eq!(rt; calls.before.load(Ordering::SeqCst), 2);
    assert_eq!(rt; calls.after.load(Ordering::SeqCst), 2);
    Ok(())
}

#[test]
fn a_user_ends_where_memory_is_wanting(rt: HostRuntime) -> Result<(), Fail> {
    let told = "stat 2/2 -> file 0 1\nstat 2/2 -> refused OutOfMemory\n";
    let (steps, lines, wanting) = worked(rt.alloc(), told, &no_calls())?;
    assert_eq!(rt; (steps.as_str(), lines, wanting), (told, 1, true));
    Ok(())
}
