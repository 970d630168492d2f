//! Lines that set which calls fail, and the disk that is made of the cells that were laid down.

use crate::runs::{RunOptions, failing, option_of};
use crate::stage::Stage;
use nofs_memdisk::MemDisk;
use nofs_test_disks::disk_with;
use nofs_test_lines::{Failure, range_of};
use nofs_versions::{CallKind, FaultAt};
use std::alloc::AllocError;

impl Stage {
    /// Obeys a line that sets something; whether this is one.
    pub fn set(&mut self, words: &[&str]) -> Result<bool, Failure> {
        match words {
            ["fails", kind, numbers] => self.set_faults(kind, range_of(numbers), false),
            ["fails", kind, numbers, "taken"] => self.set_faults(kind, range_of(numbers), true),
            ["each", "time", _] => Ok(true),
            ["each", kind, _] => self.set_fault(kind, self.turn, false),
            ["each", kind, _, "taken"] => self.set_fault(kind, self.turn, true),
            _ => Ok(self.choose(option_of(self.options, words))),
        }
    }

    // Takes these options, if there are some.
    fn choose(&mut self, options: Option<RunOptions>) -> bool {
        match options {
            Some(options) => {
                self.options = options;
                true
            }
            None => false,
        }
    }

    fn set_faults(
        &mut self,
        kind: &str,
        numbers: Option<(u64, u64)>,
        taken: bool,
    ) -> Result<bool, Failure> {
        let Some((first, last)) = numbers else {
            return Ok(false);
        };
        let mut is_set = true;
        for number in first..last.saturating_add(1) {
            is_set = self.set_fault(kind, number, taken)? && is_set;
        }
        Ok(is_set)
    }

    // Lets a call fail from now on, or gives room for so many calls.
    fn set_fault(&mut self, kind: &str, number: u64, taken: bool) -> Result<bool, Failure> {
        match call_of(kind) {
            Some(call) => {
                self.push_fault(FaultAt {
                    call,
                    number,
                    taken,
                })?;
                Ok(true)
            }
            None => Ok(self.choose(failing(self.options, kind, number))),
        }
    }

    fn push_fault(&mut self, fault: FaultAt) -> Result<(), AllocError> {
        match &mut self.disk {
            Some(disk) => disk.fail_at(&[fault]),
            None => Ok(self.faults.push(fault)?),
        }
    }

    /// Takes the disk as it is now, which is made where there is none.
    pub fn take_disk(&mut self) -> Result<MemDisk, AllocError> {
        match self.disk.take() {
            Some(disk) => Ok(disk),
            None => self.new_disk(self.cells.len() as u64),
        }
    }

    /// A disk of so many blocks with the cells that were laid down, whose calls fail as they are to.
    pub fn new_disk(&self, blocks: u64) -> Result<MemDisk, AllocError> {
        let mut disk = disk_with(self.alloc, blocks, &self.cells)?;
        disk.fail_at(&self.faults)?;
        Ok(disk)
    }
}

fn call_of(kind: &str) -> Option<CallKind> {
    match kind {
        "write" => Some(CallKind::Write),
        "read" => Some(CallKind::Read),
        "flush" => Some(CallKind::Flush),
        _ => None,
    }
}
