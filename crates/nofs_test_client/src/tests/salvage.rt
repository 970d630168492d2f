//! Walks over a stand-in for a mount: the steps that are made, and the reports of small disks.

ghost use Rattle.std.specs.Prelude.{◌≡◌, true};

use nofs_salvage::{All, Loss, NameFilter, Report, SalvageFault, salvage};
use nofs_test_standin::{Told, Transcript};
use std::alloc::{AllocError, Global};
use std::test::Fail;

/// Walks: the steps that are made, the replies to them, and what is lost. The name `a` is the byte 97.
const WALKS: [&str; 4] = [
    "\
stat 2/2 -> file 5 1
get 2/2 0 -> lost
list 1/1 0 -> names 0 dead:a
list 1/1 1 -> no more
Slot { inode: 2, slot: 0 }
Dead { directory: 1, name: ListOf { items: [97] } }
",
    "\
stat 2/2 -> file 0 1
list 1/1 0 -> names 0 a a
look 1/1 a -> found 3/3 file
stat 3/3 -> file 0 1
list 1/1 1 -> no more
Twice { directory: 1, name: ListOf { items: [97] } }
",
    "\
stat 2/2 -> file 0 1
list 1/1 0 -> names 2 d/ f
look 1/1 d -> found 4/4 directory
look 1/1 f -> found 5/5 file
stat 5/5 -> file 9000 1
get 5/5 0 -> hole
get 5/5 1 -> lost
get 5/5 2 -> refused TooLarge
list 1/1 3 -> no more
list 4/4 0 -> lost names 3
list 4/4 4 -> no more
Slot { inode: 5, slot: 1 }
Slot { inode: 4, slot: 3 }
",
    "\
stat 2/2 -> file 0 1
list 1/1 0 -> refused Stale
Refused(Stale)
",
];

/// The report of a walk, or why there is none.
fn report_text(alloc: Global, report: Result<Report, SalvageFault>) -> Result<String, AllocError> {
    match report {
        Ok(report) => losses_text(alloc, report.as_slice()),
        Err(fault) => format!(in alloc; "{fault:?}\n"),
    }
}

/// What is lost, one a line.
fn losses_text(alloc: Global, losses: &[Loss]) -> Result<String, AllocError> {
    let mut text = String::new(alloc);
    for loss in losses {
        text.push_str(format!(in alloc; "{loss:?}\n")?.as_str())?;
    }
    Ok(text)
}

/// The steps of a walk over all names, and its report or why there is none.
fn walked(alloc: Global, told: &str) -> Result<String, AllocError> {
    let mut told = Told::new(Transcript::new(alloc, told));
    let filter = NameFilter::new(
        |_name: &[u8]| -> bool
            ensures { result ≡ true }
        { true },
        All,
    );
    let report = salvage(alloc, &mut told, &filter);
    let mut text = told.answers.text;
    text.push_str(report_text(alloc, report)?.as_str())?;
    Ok(text)
}

#[test]
fn a_walk_reports_what_is_lost_dead_or_twice(rt: HostRuntime) -> Result<(), Fail> {
    for walk in WALKS {
        assert_eq!(rt; walked(rt.alloc(), walk)?.as_str(), walk);
    }
    Ok(())
}
