//! How often a case is run, and over which of the images that a crash may leave.
//!
//! A line `each KIND FIRST..LAST` runs the whole case once for each number. Behind a line `images` stand the lines that
//! are obeyed over each image.

use crate::stage::Stage;
use nofs_memdisk::MemDisk;
use nofs_test_disks::left;
use nofs_test_lines::{Failure, least_images, picks_of, place_of, turns_of, words_of};
use nofs_versions::Pick;
use std::sync::Wait;
use std::thread::Threads;

/// Runs a case in each of its turns.
pub fn run_case<R: Threads + Wait + Sync>(
    rt: &R,
    stage: &mut Stage,
    images: &[&str],
    body: &[&str],
) -> Result<(), Failure> {
    stage.told.clear();
    let (first, last) = turns_of(stage.alloc, body)?;
    let mut seen = 0_u64;
    for turn in first..last.saturating_add(1) {
        let place = format!(in stage.alloc; "turn {turn} ")?;
        stage.begin(turn, None, place);
        seen = seen.saturating_add(run_turn(rt, stage, images, body)?);
    }
    if seen >= least_images(stage.alloc, body)? {
        Ok(())
    } else {
        Err(Failure::Case("too few images"))
    }
}

// Runs the lines up to the images of a crash, if there are some, and those behind them over each: how many images.
fn run_turn<R: Threads + Wait + Sync>(
    rt: &R,
    stage: &mut Stage,
    images: &[&str],
    body: &[&str],
) -> Result<u64, Failure> {
    let place = place_of(body, "images ");
    stage.obey_all(rt, images, body.get(..place).unwrap_or(body))?;
    let Some((line, lines)) = body.get(place..).unwrap_or(&[]).split_first() else {
        return Ok(0);
    };
    match stage.disk.take() {
        Some(disk) => over_images(rt, stage, images, lines, &disk, line),
        None => Err(Failure::Case("no disk")),
    }
}

// Obeys lines over the disk as a crash leaves it at its last cells, and over each that a line tells of: how many the
// latter are.
fn over_images<R: Threads + Wait + Sync>(
    rt: &R,
    stage: &mut Stage,
    images: &[&str],
    lines: &[&str],
    disk: &MemDisk,
    line: &str,
) -> Result<u64, Failure> {
    let Some(all) = picks_of(stage.alloc, disk, &words_of(stage.alloc, line)?)? else {
        return Err(Failure::Case("which images?"));
    };
    over_image(rt, stage, disk, &[], images, lines)?;
    for picks in &all {
        over_image(rt, stage, disk, picks, images, lines)?;
    }
    Ok(all.len() as u64)
}

fn over_image<R: Threads + Wait + Sync>(
    rt: &R,
    stage: &mut Stage,
    disk: &MemDisk,
    picks: &[Pick],
    images: &[&str],
    lines: &[&str],
) -> Result<(), Failure> {
    let Some(image) = left(stage.alloc, disk, picks)? else {
        return Err(Failure::Case("no such image"));
    };
    let place = format!(in stage.alloc; "image {picks:?} ")?;
    stage.begin(stage.turn, Some(image), place);
    stage.obey_all(rt, images, lines)
}
