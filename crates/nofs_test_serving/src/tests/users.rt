//! Two users at once, with gates that hold and count, and the entries that they leave.

use crate::tests::gates::{Hold, Marks};
use crate::tests::runs::{RunOutput, count_of, is_last_by, plans_for, run_of, told_to};
use nofs_history::{BLOCK_SWEEPER, INODE_SWEEPER, PROGRAM};
use nofs_test_asks::mounted;
use nofs_test_disks::{cached, formatted};
use nofs_workers::OpenGate;
use std::alloc::Global;
use std::sync::Wait;
use std::sync::atomic::Ordering;
use std::test::Fail;
use std::thread::Threads;

/// How often user 1 looks for user 2's reply before it gives up.
const MOST_TURNS: u64 = 200_000_000;

const STAT: &[u8] = b"stat @\n";

// A run in which user 1 waits for a reply to user 2.
fn run_with_marks<R: Threads + Wait + Sync>(
    rt: &R,
    alloc: Global,
    marks: &Marks,
) -> Result<RunOutput, Fail> {
    let gates = (
        Hold {
            turns: MOST_TURNS,
            ..Hold::open(marks)
        },
        Hold {
            counts: true,
            ..Hold::open(marks)
        },
    );
    let plans = plans_for(alloc, (STAT, STAT), gates)?;
    let mount = mounted(alloc, formatted(alloc, 64, 16)?)?;
    let open = (Hold::open(marks), Hold::open(marks), Hold::open(marks));
    Ok(run_of(rt, alloc, mount, plans, (16, 64), open)?)
}

#[test]
fn user_1_waits_for_the_first_reply_of_user_2(rt: HostRuntime) -> Result<(), Fail> {
    let marks = Marks::new();
    let told = run_with_marks(&rt, rt.alloc(), &marks)?;
    assert!(rt; !told.out_of_memory);
    assert_eq!(rt;
        told.text.as_slice(),
        b"stat file 0 0\nstat file 0 0\n".as_slice()
    );
    assert_eq!(rt; marks.late.load(Ordering::SeqCst), 0);
    assert_eq!(rt; marks.replies.load(Ordering::SeqCst), 1);
    Ok(())
}

/// A user at work in one directory.
const ONE: &[u8] = b"mkdir /src\nmake /src/main.rs\nput /src/main.rs 0 666e206d61696e28297b7d0a\n\
    fsync /src/main.rs\nrename /src/main.rs lib.rs\nlist /src\n";

/// A user at work in another.
const TWO: &[u8] = b"mkdir /doc\nmake /doc/a\nput /doc/a 0 7465787400\nlink /doc/a /doc/b\n\
    drop /doc/a\nget /doc/b 0 100\nlist /doc\n";

/// What both are answered.
const BOTH: &[u8] = b"made\nmade\nput 12\nsynced\nrenamed\nnames lib.rs\n\
    made\nmade\nput 5\nlinked\ndropped\ngot bytes:7465787400\nnames b\n";

fn run_over_a_cache<R: Threads + Wait + Sync>(rt: &R, alloc: Global) -> Result<RunOutput, Fail> {
    let plans = plans_for(alloc, (ONE, TWO), (OpenGate, OpenGate))?;
    let mount = mounted(alloc, cached(alloc, formatted(alloc, 64, 16)?)?)?;
    let open = (OpenGate, OpenGate, OpenGate);
    Ok(run_of(rt, alloc, mount, plans, (16, 64), open)?)
}

// The entries of the sweeps, and of users, sweeps and the last flush.
fn counts_of(told: &RunOutput) -> [u64; 4] {
    let history = &told.history;
    [
        count_of(history, &[INODE_SWEEPER]),
        count_of(history, &[BLOCK_SWEEPER]),
        count_of(history, &[PROGRAM]),
        count_of(history, &[1, 2, INODE_SWEEPER, BLOCK_SWEEPER, PROGRAM]),
    ]
}

#[test]
fn a_flusher_over_a_cache_makes_no_entry(rt: HostRuntime) -> Result<(), Fail> {
    let told = run_over_a_cache(&rt, rt.alloc())?;
    assert_eq!(rt; told.text.as_slice(), BOTH);
    assert_eq!(rt; counts_of(&told), [16, 64, 1, told.history.len()]);
    Ok(())
}

// User 1 sizes the label file, which is a step, and gets a slot, which is two: the size is asked first. User 2 flushes.
fn run_with_no_sweep<R: Threads + Wait + Sync>(rt: &R, alloc: Global) -> Result<RunOutput, Fail> {
    let texts = (b"size @ 9\nget @ 0 9\n".as_slice(), b"fsync @\n".as_slice());
    let plans = plans_for(alloc, texts, (OpenGate, OpenGate))?;
    let mount = mounted(alloc, formatted(alloc, 16, 4)?)?;
    let open = (OpenGate, OpenGate, OpenGate);
    Ok(run_of(rt, alloc, mount, plans, (0, 0), open)?)
}

#[test]
fn two_users_and_the_last_flush_stand_in_the_history(rt: HostRuntime) -> Result<(), Fail> {
    let alloc = rt.alloc();
    let run = run_with_no_sweep(&rt, alloc)?;
    let told = told_to(alloc, &run.history, &[1, 2, PROGRAM])?;
    assert_eq!(rt;
        run.text.as_slice(),
        b"sized 9\ngot hole:9\nsynced\n".as_slice()
    );
    assert_eq!(rt;
        told.as_str(),
        "resized, File 9 0, hole, end\nflushed, end\nflushed, end\n"
    );
    assert_eq!(rt; run.history.len(), 5);
    assert!(rt; is_last_by(&run.history, PROGRAM));
    Ok(())
}
