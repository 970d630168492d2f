//! The cases of a file: their lines, and how many of them hold.

use crate::stage::Stage;
use crate::turns::run_case;
use nofs_test_lines::{Failure, place_of};
use std::alloc::{AllocError, Global};
use std::sync::Wait;
use std::thread::Threads;

/// What came of the cases of a file.
#[derive(Drop)]
pub struct Tally {
    pub cases: u64,
    pub failed: u64,
    /// How many did not end as they are to, and what is told of them.
    pub wrong: u64,
    pub text: String,
}

impl Tally {
    // Counts a case that ended so, and is to hold, or to fail. `told` tells where it ended, and what came.
    fn count(
        &mut self,
        alloc: Global,
        name: &str,
        told: &str,
        end: Result<(), Failure>,
        is_to_hold: bool,
    ) -> Result<(), AllocError> {
        let (holds, why) = match end {
            Ok(()) => (true, "it holds"),
            Err(Failure::Case(why)) => (false, why),
            Err(Failure::OutOfMemory) => return Err(AllocError),
        };
        self.cases = self.cases.saturating_add(1);
        if !holds {
            self.failed = self.failed.saturating_add(1);
        }
        if holds != is_to_hold {
            self.wrong = self.wrong.saturating_add(1);
            let text = format!(in alloc; "WRONG: {name}\n{told}{why}\n")?;
            self.text.push_str(text.as_str())?;
        }
        Ok(())
    }
}

/// Runs each case of a file that the stage runs, which is to hold, or to fail. Lines before the first of them count as
/// one that fails, and so does a file without cases.
pub fn run_file<R: Threads + Wait + Sync>(
    rt: &R,
    stage: &mut Stage,
    images: &[&str],
    lines: &[&str],
    is_to_hold: bool,
) -> Result<Tally, AllocError> {
    let alloc = stage.alloc;
    let mut tally = Tally {
        cases: 0,
        failed: 0,
        wrong: 0,
        text: String::new(alloc),
    };
    let mut has_begun = false;
    for (at, line) in lines.iter().enumerate() {
        match line.strip_prefix("case ") {
            Some(name) => {
                has_begun = true;
                let body = body_of(lines, at);
                if stage.runs(body) {
                    let end = run_case(rt, stage, images, body);
                    tally.count(alloc, name, stage.told.as_str(), end, is_to_hold)?;
                }
            }
            None if !has_begun && !line.is_empty() => {
                tally.count(alloc, line, "", Err(Failure::Case("of no case")), true)?;
            }
            None => {}
        }
    }
    if tally.cases == 0 {
        tally.wrong = 1;
    }
    Ok(tally)
}

// The lines behind that of a case, up to the next one.
fn body_of<'a, 'b>(lines: &'a [&'b str], at: usize) -> &'a [&'b str] {
    let behind = lines.get(at.saturating_add(1)..).unwrap_or(lines);
    behind.get(..place_of(behind, "case ")).unwrap_or(behind)
}
