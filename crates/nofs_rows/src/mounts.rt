//! Lines that mount a disk, ask the mount step by step, and end it.

use crate::stage::Stage;
use nofs_history::{NO_CLAIMS, Step};
use nofs_memdisk::MemDisk;
use nofs_shared::Mount;
use nofs_state::Counts;
use nofs_super::format;
use nofs_test_lines::{Failure, halves, is_answer, number_of, range_of, reply_text, step_of};
use std::alloc::{AllocError, Global};

// How many stamps a mount has: the first of them may be given at most with this number.
const SERIALS: u64 = 1_099_511_627_776;

impl Stage {
    /// Obeys a line of a mount; whether this is one.
    pub fn ask_mount(&mut self, words: &[&str]) -> Result<bool, Failure> {
        match words {
            ["format", blocks, inodes] => self.format(number_of(blocks), number_of(inodes)),
            ["begin", serial] => self.begin_mount(number_of(serial)),
            ["end"] => Ok(self.end_mount()),
            ["free" | "inodes" | "entries" | "out", ..] => self.judge_counts(words),
            [caller, words @ ..] => match (caller.parse::<u32>(), halves(words)) {
                (Ok(caller), Some((step, answer))) => self.ask(caller, step, answer),
                _ => Ok(false),
            },
            _ => Ok(false),
        }
    }

    fn format(&mut self, blocks: Option<u64>, inodes: Option<u64>) -> Result<bool, Failure> {
        let (Some(blocks), Some(inodes)) = (blocks, inodes) else {
            return Ok(false);
        };
        let mut disk = self.new_disk(blocks)?;
        let is_formatted = format(&mut disk, blocks, inodes).is_ok();
        self.disk = Some(disk);
        Ok(is_formatted)
    }

    fn begin_mount(&mut self, serial: Option<u64>) -> Result<bool, Failure> {
        let serial = match serial {
            Some(serial) if serial <= SERIALS => serial,
            _ => return Ok(false),
        };
        let disk = self.take_disk()?;
        match Mount::begin(self.alloc, disk, serial) {
            Ok(mount) => {
                self.mount = Some(mount);
                Ok(true)
            }
            Err(_) => Err(Failure::Case("not mounted")),
        }
    }

    fn end_mount(&mut self) -> bool {
        match self.mount.take() {
            Some(mount) => {
                let (disk, _) = mount.end();
                self.disk = Some(disk);
                true
            }
            None => false,
        }
    }

    fn judge_counts(&mut self, words: &[&str]) -> Result<bool, Failure> {
        let Some(mount) = &mut self.mount else {
            return Err(Failure::Case("no mount"));
        };
        let is_told = is_told(mount, words);
        self.judge(is_told)?;
        Ok(true)
    }

    // Asks a step, or one for each block of a range.
    fn ask(&mut self, caller: u32, step: &[&str], answer: &[&str]) -> Result<bool, Failure> {
        let Some(mount) = &mut self.mount else {
            return Err(Failure::Case("no mount"));
        };
        let wrong = match step {
            ["block", blocks] => ask_blocks(self.alloc, mount, caller, range_of(blocks), answer)?,
            _ => ask_step(
                self.alloc,
                mount,
                caller,
                step_of(self.alloc, step)?,
                answer,
            )?,
        };
        self.tell(wrong.as_str())?;
        self.judge(wrong.is_empty())?;
        Ok(true)
    }
}

// Makes a step at a mount: what it is answered, and what it claims.
fn answer_of(
    alloc: Global,
    mount: &mut Mount<MemDisk>,
    caller: u32,
    step: Step,
) -> Result<String, AllocError> {
    let before = mount.history().len();
    let reply = mount.step(alloc, caller, step);
    let claims = match mount.history().entry(before) {
        Some(entry) => entry.claims,
        None => NO_CLAIMS,
    };
    reply_text(alloc, &reply, &claims)
}

// What was answered, where that is not as wanted; else an empty text.
fn ask_step(
    alloc: Global,
    mount: &mut Mount<MemDisk>,
    caller: u32,
    step: Option<Step>,
    answer: &[&str],
) -> Result<String, Failure> {
    let Some(step) = step else {
        return Err(Failure::Case("no step"));
    };
    let came = answer_of(alloc, mount, caller, step)?;
    if is_answer(alloc, answer, came.as_str())? {
        Ok(String::new(alloc))
    } else {
        Ok(format!(in alloc; "answered {} ", came.as_str())?)
    }
}

fn ask_blocks(
    alloc: Global,
    mount: &mut Mount<MemDisk>,
    caller: u32,
    blocks: Option<(u64, u64)>,
    answer: &[&str],
) -> Result<String, Failure> {
    let Some((first, last)) = blocks else {
        return Err(Failure::Case("no blocks"));
    };
    let mut wrong = String::new(alloc);
    for block in first..last.saturating_add(1) {
        let step = Some(Step::SeeBlock { block });
        wrong.push_str(ask_step(alloc, mount, caller, step, answer)?.as_str())?;
    }
    Ok(wrong)
}

// Whether a line tells what holds of a mount.
fn is_told(mount: &mut Mount<MemDisk>, words: &[&str]) -> bool {
    match words {
        ["out", "none"] => mount.write_out() == Ok(None),
        _ => are_counts(mount.counts(), mount.history().len(), words),
    }
}

// Whether a line tells these counts of a mount: how many inodes and blocks are known to be free, how many inodes are
// known to be used or free and how many were not examined, or how many entries its history has.
fn are_counts(counts: Counts, entries: u64, words: &[&str]) -> bool {
    match words {
        ["free", inodes, blocks] => {
            number_of(inodes) == Some(counts.inodes_free)
                && number_of(blocks) == Some(counts.blocks_free)
        }
        ["inodes", used, free, unchecked] => {
            number_of(used) == Some(counts.inodes_used)
                && number_of(free) == Some(counts.inodes_free)
                && number_of(unchecked) == Some(counts.inodes_unchecked)
        }
        ["entries", count] => number_of(count) == Some(entries),
        _ => false,
    }
}

/// What a mount counts.
pub fn counts_text(alloc: Global, mount: &Mount<MemDisk>) -> Result<String, AllocError> {
    let (counts, entries) = (mount.counts(), mount.history().len());
    format!(in alloc; "with {counts:?} and {entries} entries ")
}
