//! Runs the cases in the files that its arguments name, and tells of each file how many hold.
//!
//! `docs/CASES.md` says how a case is written. The file `images` has the images that cases name. Behind `!` stands a
//! file of which no case may hold: it shows that each form of a line that judges can fail. Behind `paged:` and `twin:`
//! stands one whose cases are run over a file in that layout, but for those of the disk in memory alone.
//!
//! Promise: each line of a case is obeyed, or the case fails by name. The status is 0 where each file has cases and all
//! of them end as they are to.
//!
//! - `cases`: the cases of a file, and how many hold; `turns`: how often a case is run, and over which images of a
//!   crash
//! - `stage`: what stands while a case is run; its lines by what they say: `settings`, `runs`, `files`, `mounts`,
//!   `judging`
//!
//! `nofs_test_lines` has what the lines say by themselves: images, steps, answers, and what is printed.
#![tactic(auto)]

mod cases;
mod files;
mod judging;
mod mounts;
mod runs;
mod settings;
mod stage;
mod turns;

use crate::cases::{Tally, run_file};
use crate::stage::Stage;
use nofs_pages::Layout;
use nofs_test_lines::lines_of;
use std::process::ExitCode;
use std::rt::Files;
use std::sync::Wait;
use std::thread::Threads;
use std::{env, fs, io};

// How many cases were run, and how many of them did not end as they are to.
#[derive(Clone, Copy)]
struct Count {
    cases: u64,
    wrong: u64,
}

fn main(rt: HostRuntime) -> io::Result<ExitCode> {
    let text = fs::read_to_string(&rt, "images")?;
    let images = lines_of(rt.alloc(), text.as_str())?;
    let mut all = Count { cases: 0, wrong: 0 };
    for word in env::args(&rt)?.skip(1) {
        all = sum(all, run_word(&rt, &images, word.as_str())?);
    }
    println!(rt; "all: {} cases, {} wrong", all.cases, all.wrong)?;
    Ok(ExitCode::from(status_of(all)))
}

fn sum(one: Count, other: Count) -> Count {
    Count {
        cases: one.cases.saturating_add(other.cases),
        wrong: one.wrong.saturating_add(other.wrong),
    }
}

// Where nothing was run, that is wrong too.
fn status_of(all: Count) -> u8 {
    if all.wrong == 0 && all.cases > 0 {
        0
    } else {
        1
    }
}

// The layout that a word asks for, if it asks for one, and what is behind that.
fn layout_asked(word: &str) -> (Option<Layout>, &str) {
    if let Some(rest) = word.strip_prefix("paged:") {
        return (Some(Layout::Paged), rest);
    }
    match word.strip_prefix("twin:") {
        Some(rest) => (Some(Layout::Twin), rest),
        None => (None, word),
    }
}

// Runs the file that a word names: each case is to hold, or none.
fn run_word<R: Files + AllocGlobal + Print + Eprint + Threads + Wait + Sync>(
    rt: &R,
    images: &[&str],
    word: &str,
) -> io::Result<Count> {
    let (layout, rest) = layout_asked(word);
    let path = rest.strip_prefix('!').unwrap_or(rest);
    let text = fs::read_to_string(rt, path)?;
    let lines = lines_of(rt.alloc(), text.as_str())?;
    let mut stage = Stage::new(rt.alloc(), layout, 0);
    let tally = run_file(rt, &mut stage, images, &lines, path == rest)?;
    print_tally(rt, told_name(word), &tally)?;
    Ok(Count {
        cases: tally.cases,
        wrong: tally.wrong,
    })
}

// What is told of the file that a word names: `!` is left out.
fn told_name(word: &str) -> &str {
    word.strip_prefix('!').unwrap_or(word)
}

// Tells of each case that did not end as it is to, to standard error too, which the gate shows, and then of the file.
fn print_tally(rt: &(impl Print + Eprint), path: &str, tally: &Tally) -> io::Result<()> {
    let Tally { cases, failed, .. } = tally;
    let text = tally.text.as_str();
    print!(rt; "{text}")?;
    eprint!(rt; "{text}")?;
    println!(rt; "{path}: {cases} cases, {failed} failed")
}
