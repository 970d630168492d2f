//! What is known of a chain of lives so far, and what is noted of each disk that a crash may leave.

use crate::tests::lives::BLOCKS;
use crate::tests::lives::numbers::{SERIALS, has_mount, is_table, mount_on, push_numbers};
use crate::tests::lives::scripts::{FILES, SLOTS};
use nofs_disk::Cell;
use nofs_memdisk::MemDisk;
use nofs_test_disks::{cell_of, choices_of, left};
use nofs_test_sessions::{ReadTally, count, number_in, see_line};
use nofs_versions::Pick;
use std::alloc::{AllocError, Global};
use std::test::Fail;

/// What a number was given for: a slot of an inode of a generation, as the tag of a cell tells it, or an inode, whose
/// generation and slot are 0 here.
type Owner = (u64, u64, u64);

/// What was found in some chains.
#[derive(Clone, Copy)]
pub struct ChainsFound {
    /// The last thing that was otherwise than it ought to be, if something was.
    pub wrong: &'static str,
    pub seen: ReadTally,
    /// How many mounts ended, and how many failed.
    pub mounts: u64,
    pub failed: u64,
    /// How many cells might have been left.
    pub cells: u64,
}

impl ChainsFound {
    pub const NOTHING: ChainsFound = ChainsFound {
        wrong: "",
        seen: ReadTally::NOTHING,
        mounts: 0,
        failed: 0,
        cells: 0,
    };
}

/// What is known of a chain of lives so far.
#[derive(Drop)]
pub struct Chain {
    /// The draws of sessions and faults, and those of crashes. How many the latter are depends on the threads.
    pub plans: u64,
    pub crashes: u64,
    /// The greatest mount number of the images so far.
    pub greatest: u64,
    /// The numbers on the disk as the life began: stamps, and generations, which are stamps too.
    pub numbers: Vec<u64>,
    /// What each number was given for.
    claims: Vec<(u64, Owner)>,
    /// The bytes that lives have put.
    pub given: Vec<u8>,
    pub found: ChainsFound,
}

fn owner_of(claims: &[(u64, Owner)], number: u64) -> Option<Owner> {
    claims
        .iter()
        .find(|claim| claim.0 == number)
        .map(|claim| claim.1)
}

// The disk that a crash leaves with these versions.
pub(crate) fn left_image(
    alloc: Global,
    disk: &MemDisk,
    picks: &[Pick],
) -> Result<MemDisk, AllocError> {
    match left(alloc, disk, picks)? {
        Some(image) => Ok(image),
        None => Err(AllocError),
    }
}

// How many cells a crash may leave at each block.
fn all_choices(alloc: Global, disk: &MemDisk) -> Result<Vec<u64>, AllocError> {
    let mut choices = Vec::new(alloc);
    for block in 0..BLOCKS {
        choices.push(choices_of(disk, block))?;
    }
    Ok(choices)
}

// The version of this number of each block that has so many.
fn picks_of(alloc: Global, choices: &[u64], version: u64) -> Result<Vec<Pick>, AllocError> {
    let mut picks = Vec::new(alloc);
    for (block, count) in choices.iter().enumerate() {
        if version < *count {
            picks.push(Pick {
                block: block as u64,
                version,
            })?;
        }
    }
    Ok(picks)
}

impl Chain {
    // A disk that is not yet formatted. The root and the label file get the generations 1 and 2 from the format.
    pub fn new(alloc: Global, seed: u64, found: ChainsFound) -> Result<Chain, AllocError> {
        let mut numbers = Vec::new(alloc);
        numbers.extend_from_slice(&[1, 2])?;
        Ok(Chain {
            plans: seed,
            crashes: seed,
            greatest: 0,
            numbers,
            claims: Vec::new(alloc),
            given: Vec::new(alloc),
            found,
        })
    }

    // The number of a mount that ended.
    pub fn note_mount(&mut self, disk: &mut MemDisk) -> u64 {
        let mount = mount_on(disk);
        if mount <= self.greatest || has_mount(&self.numbers, mount) || choices_of(disk, 0) != 1 {
            self.found.wrong = "the number of a mount is not durable, or not above all before it";
        }
        count(&mut self.found.mounts);
        mount
    }

    // Looks at each cell that a crash may leave, after a life with this mount number.
    pub fn note_cells(
        &mut self,
        alloc: Global,
        disk: &MemDisk,
        mount: u64,
    ) -> Result<(), AllocError> {
        let choices = all_choices(alloc, disk)?;
        for version in 0..u64::MAX {
            let picks = picks_of(alloc, &choices, version)?;
            if picks.is_empty() {
                return Ok(());
            }
            let mut image = left_image(alloc, disk, &picks)?;
            for pick in &picks {
                if let Some(cell) = cell_of(&mut image, pick.block) {
                    self.note_cell(alloc, pick.block, &cell, mount)?;
                }
            }
        }
        Ok(())
    }

    fn note_cell(
        &mut self,
        alloc: Global,
        block: u64,
        cell: &Cell,
        mount: u64,
    ) -> Result<(), AllocError> {
        let mut numbers = Vec::new(alloc);
        push_numbers(&mut numbers, block, cell)?;
        for number in &numbers {
            if *number / SERIALS != mount && !self.numbers.contains(number) {
                self.found.wrong = "a new number is not of the mount";
            }
        }
        count(&mut self.found.cells);
        if is_table(block) {
            self.note_records(block, cell)
        } else {
            self.note_tag(cell)
        }
    }

    // The generation of each record is given for its inode. Those of the first table block are 1 to 4.
    fn note_records(&mut self, block: u64, cell: &Cell) -> Result<(), AllocError> {
        for place in 0..4_usize {
            let owner = block.saturating_mul(4).saturating_add(place as u64);
            let owner = (owner.saturating_sub(3), 0, 0);
            self.note_claim(number_in(&cell.payload, place * 256), owner)?;
        }
        Ok(())
    }

    // The stamp of a tag is given for all else that it says, and the generation for the inode alone.
    fn note_tag(&mut self, cell: &Cell) -> Result<(), AllocError> {
        let owner = number_in(&cell.tag, 0);
        let generation = number_in(&cell.tag, 8);
        let slot = number_in(&cell.tag, 16);
        self.note_claim(number_in(&cell.tag, 24), (owner, generation, slot))?;
        self.note_claim(generation, (owner >> 32, 0, 0))
    }

    fn note_claim(&mut self, number: u64, owner: Owner) -> Result<(), AllocError> {
        if number == 0 {
            return Ok(());
        }
        match owner_of(&self.claims, number) {
            Some(old) => {
                if old != owner {
                    self.found.wrong = "a number was given for two things";
                }
                Ok(())
            }
            None => Ok(self.claims.push((number, owner))?),
        }
    }

    // The bytes that were put into the file with this first byte.
    fn own(&self, alloc: Global, first: u8) -> Result<Vec<u8>, AllocError> {
        let mut own = Vec::new(alloc);
        for byte in &self.given {
            if *byte / 16 == first / 16 {
                own.push(*byte)?;
            }
        }
        Ok(own)
    }

    // The lines of a reading, one a slot.
    pub fn see(&mut self, alloc: Global, lines: &[u8]) -> Result<(), Fail> {
        for (at, line) in lines.split(|byte| *byte == b'\n').enumerate() {
            if let Some(file) = FILES.get(at / SLOTS as usize) {
                let own = self.own(alloc, file.3)?;
                see_line(alloc, &mut self.found.seen, line, &own)?;
            }
        }
        Ok(())
    }
}
