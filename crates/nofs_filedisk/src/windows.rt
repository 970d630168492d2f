//! Windows of 66 cells of a file, kept in memory, so that a scan makes a call in 66 cells.
//!
//! Promise: each window that has a number shows the bytes of the file, also after a write.
//!
//! A window takes some fifteen times what a cell takes to read, so it is read only where its other cells are likely to
//! be asked for: where no window is kept yet, where many cells of the one beside it were read, or where some of its own
//! were read alone lately. Any other cell is read alone. How many those some are is learned: one at first, twice as
//! many after each window that was given up with few reads, and one again after a window that was of use. So reads
//! without neighbours, which an image can ask for as well as an honest order, cost a cell each.
ghost use Rattle.std.specs.Prelude.{◌≡◌, ◌≢◌, ◌+◌, ◌*◌, ◌/◌, ◌%◌, ◌<◌, ◌≤◌, All, IfOk, IfSome, IsFalse, IsTrue, List};
ghost use Rattle.std.specs.Prelude.{None, OnErr, OnOk, Some, length, slice_range, ℕ};
ghost use Rattle.nofs_disk.specs.Disk.{Rose};
ghost use Rattle.nofs_disk.specs.Number.{put_bytes};
ghost use Rattle.nofs_disk.specs.CellsOfBytes.{cell_in};
ghost use Rattle.nofs_filedisk.specs.Bytes.{HostFileState, IsPart, IsPut, KeepsBytes};

use crate::moving::{read_behind, read_part};
use crate::positioned::Positioned;
use nofs_disk::{Cell, Failed, write_bytes_at};
use std::alloc::{AllocError, Global};

/// How many bytes a cell has.
pub const CELL_BYTES: usize = 1_056;

/// How many cells a window shows.
pub const WINDOW_CELLS: u64 = 66;

/// How many bytes a window shows.
pub const WINDOW_BYTES: usize = 69_696;

/// How many windows are kept.
const WINDOWS: usize = 8;

/// After so many reads of a window the one beside it is read whole.
const MANY: u64 = 16;

/// A window with fewer reads was of no use.
const FEW: u64 = 8;

/// How many of the cells that were read alone are remembered.
const REMEMBERED: usize = 16;

/// The bytes of 66 cells of a file.
#[derive(Drop)]
pub struct Window {
    // Which 66 cells it shows, from 0; none where it shows nothing.
    number: Option<u64>,
    // How many cells were read from it.
    reads: u64,
    bytes: Vec<u8>,
    ghost size: { length bytes.items ≡ 69696 },
}

/// The windows of a file. The next that is read takes the place of the one that was read first.
#[derive(Drop)]
pub struct Windows {
    windows: Vec<Window>,
    next: usize,
    lone: Lone,
    ghost count: { length windows.items ≡ 8 },
    ghost turn: { next < 8 },
}

// The windows of the last cells that were read alone. The next takes the place of the oldest.
#[derive(Drop)]
struct Lone {
    numbers: [Option<u64>; REMEMBERED],
    next: usize,
    // After so many of them in one window that is read whole.
    wanted: usize,
    ghost turn: { next < 16 },
}

impl Lone {
    // No cell was read alone.
    const NONE: Lone = Lone {
        numbers: [None; REMEMBERED],
        next: 0,
        wanted: 1,
    };

    // Whether some of the last cells that were read alone lie in a window.
    fn has_some(&self, number: u64) -> bool {
        let is_here = |it: &&Option<u64>| **it == Some(number);
        self.numbers.iter().filter(is_here).count() >= self.wanted
    }

    // A window was given up after so many reads.
    fn weigh(&mut self, reads: u64) {
        self.wanted = if reads < FEW {
            (2 * self.wanted.min(REMEMBERED)).min(REMEMBERED)
        } else {
            1
        };
    }

    // A cell of a window was read alone.
    fn keep(&mut self, number: u64) {
        self.numbers[self.next] = Some(number);
        self.next = (self.next + 1) % REMEMBERED;
    }
}

/// A block's place in its window.
pub fn place_of(block: u64) -> usize
    ensures value { result ≡ 1056 * (block % 66) }
    ensures fits { result + 1056 ≤ 69696 }
{
    CELL_BYTES * (block % WINDOW_CELLS) as usize
}

/// So many zeros.
pub fn zeros(alloc: Global, count: usize) -> Result<Vec<u8>, AllocError>
    ensures { IfOk result (λ bytes. length bytes.items ≡ count) }
{
    vec![in alloc; 0u8; count]
}

// Reads a window of the file, where all of it can be told.
fn read_window<B: Positioned>(file: &mut B, number: u64, into: &mut Vec<u8>) -> Result<bool, Failed>
    requires number { number < 15888 }
    requires size { length into.old.items ≡ 69696 }
    ensures keeps { KeepsBytes (B.state file.old) (B.state file.new) }
    ensures size { length into.new.items ≡ 69696 }
    ensures part { IfOk result (λ all. IsTrue all
        → IsTrue (B.state file.old).tells → IsPart (B.state file.old).bytes (69696 * number) into.new.items) }
    ensures cause { OnErr result (Rose (B.state file.old).faults (B.state file.new).faults) }
    ensures no_fault { OnOk result ((B.state file.new).faults ≡ (B.state file.old).faults) }
{
    let at = WINDOW_BYTES as u64 * number;
    match file.read_ahead(at, into.as_mut_slice())? {
        Some(count) => {
            read_behind(file, at, into.as_mut_slice(), count)?;
            Ok(true)
        }
        None => Ok(false),
    }
}

// Reads the cell of a block, and nothing beside it.
fn read_alone<B: Positioned>(file: &mut B, block: u64, into: &mut Cell) -> Result<(), Failed>
    requires { block < 1048576 }
    ensures keeps { KeepsBytes (B.state file.old) (B.state file.new) }
    ensures cell { OnOk result (IsTrue (B.state file.old).tells → into.new ≡ cell_in (B.state file.old).bytes block) }
    ensures cause { OnErr result (Rose (B.state file.old).faults (B.state file.new).faults) }
    ensures no_fault { OnOk result ((B.state file.new).faults ≡ (B.state file.old).faults) }
{
    let mut bytes = [0; CELL_BYTES];
    read_part(file, CELL_BYTES as u64 * block, &mut bytes)?;
    copy_cell(&bytes, 0, into);
    Ok(())
}

/// Copies the cell at a place of some bytes.
pub fn copy_cell(bytes: &[u8], at: usize, into: &mut Cell)
    requires { at + 1056 ≤ length bytes.now }
    ensures payload { into.new.payload ≡ slice_range bytes.now at (at + 1024) }
    ensures tag { into.new.tag ≡ slice_range bytes.now (at + 1024) (at + 1056) }
{
    into.payload.copy_from_slice(&bytes[at..at + 1024]);
    into.tag.copy_from_slice(&bytes[at + 1024..at + 1056]);
}

// Puts some bytes at their place.
fn put_part(bytes: &mut Vec<u8>, at: usize, part: &[u8])
    requires { at + length part.now ≤ length bytes.old.items }
    ensures { bytes.new.items ≡ put_bytes at part.now bytes.old.items }
{
    write_bytes_at(bytes.as_mut_slice(), at, part);
}

impl Window {
    ghost use Rattle.nofs_filedisk.specs.Windows.{IsShown};

    fn new(alloc: Global) -> Result<Window, AllocError>
        ensures { IfOk result (λ window. window.number ≡ None) }
    {
        Ok(Window {
            number: None,
            reads: 0,
            bytes: zeros(alloc, WINDOW_BYTES)?,
        })
    }

    // Shows other cells. Where the file fails, or not all of them can be told, it shows nothing.
    fn load<B: Positioned>(&mut self, file: &mut B, number: u64) -> Result<bool, Failed>
        requires { number < 15888 }
        ensures keeps { KeepsBytes (B.state file.old) (B.state file.new) }
        ensures number { IfOk result (λ all. IsTrue all → self.new.number ≡ Some number) }
        ensures shown { IsTrue (B.state file.old).tells → IsShown (B.state file.old).bytes self.new }
        ensures cause { OnErr result (Rose (B.state file.old).faults (B.state file.new).faults) }
        ensures no_fault { OnOk result ((B.state file.new).faults ≡ (B.state file.old).faults) }
    {
        self.number = None;
        self.reads = 0;
        let all = read_window(file, number, &mut self.bytes)?;
        if all {
            self.number = Some(number);
        }
        Ok(all)
    }

    // Whether it has this number.
    fn has_number(&self, number: u64) -> bool
        ensures yes { IsTrue result → self.now.number ≡ Some number }
        ensures no { IsFalse result → self.now.number ≢ Some number }
    {
        match self.number {
            Some(own) => own == number,
            None => false,
        }
    }

    // Whether it shows a block.
    fn has(&self, block: u64) -> bool
        ensures yes { IsTrue result → self.now.number ≡ Some (block / 66) }
        ensures no { IsFalse result → self.now.number ≢ Some (block / 66) }
    {
        self.has_number(block / WINDOW_CELLS)
    }

    // The cell of a block that it shows.
    fn cell(&self, block: u64, into: &mut Cell)
        requires { self.now.number ≡ Some (block / 66) }
        ensures { (bytes : List ℕ) → IsShown bytes self.now → into.new ≡ cell_in bytes block }
    {
        copy_cell(self.bytes.as_slice(), place_of(block), into);
    }

    // A cell was read from it.
    fn count(&mut self)
        ensures { (self.new.number ≡ self.old.number) × (self.new.bytes ≡ self.old.bytes) }
    {
        self.reads = self.reads.saturating_add(1);
    }

    // Whether many cells were read of one that is beside the one with this number.
    fn leads_to(&self, number: u64) -> bool {
        match self.number {
            Some(own) => own.abs_diff(number) == 1 && self.reads >= MANY,
            None => false,
        }
    }

    // It shows nothing.
    fn clear(&mut self)
        ensures { self.new.number ≡ None }
    {
        self.number = None;
    }

    // Bytes of the file were written, those of a block first.
    fn put(&mut self, block: u64, part: &[u8])
        requires { 1056 * (block % 66) + length part.now ≤ 69696 }
        ensures { (old new : List ℕ) → IsPut (1056 * block) part.now old new → IsShown old self.old
            → IsShown new self.new }
    {
        if self.has(block) {
            put_part(&mut self.bytes, place_of(block), part);
        }
    }
}

impl Windows {
    ghost use Rattle.nofs_filedisk.specs.Windows.{HasNumber, IsShown, ShowsFile};

    /// Windows that show nothing.
    pub fn new(alloc: Global) -> Result<Windows, AllocError>
        ensures { IfOk result (λ windows. (file : HostFileState) → ShowsFile file windows) }
    {
        let mut windows = Vec::with_capacity(alloc, WINDOWS)?;
        for _ in 0..WINDOWS {
            windows.push(Window::new(alloc)?)?;
        }
        Ok(Windows {
            windows,
            next: 0,
            lone: Lone::NONE,
        })
    }

    /// The cell of a block.
    pub fn read<B: Positioned>(
        &mut self,
        file: &mut B,
        block: u64,
        into: &mut Cell,
    ) -> Result<(), Failed>
        requires block { block < 1048576 }
        requires shows { ShowsFile (B.state file.old) self.old }
        ensures keeps { KeepsBytes (B.state file.old) (B.state file.new) }
        ensures shows { ShowsFile (B.state file.new) self.new }
        ensures cell { OnOk result
            (IsTrue (B.state file.old).tells → into.new ≡ cell_in (B.state file.old).bytes block) }
        ensures cause { OnErr result (Rose (B.state file.old).faults (B.state file.new).faults) }
        ensures no_fault { OnOk result ((B.state file.new).faults ≡ (B.state file.old).faults) }
    {
        let number = block / WINDOW_CELLS;
        match self.showing(file, number)? {
            Some(at) => {
                self.windows[at].count();
                self.windows[at].cell(block, into);
                Ok(())
            }
            None => {
                self.lone.keep(number);
                read_alone(file, block, into)
            }
        }
    }

    // The place of the window with a number. Where there is none, it is read, or it is not, where no other of its cells
    // is likely to be asked for.
    fn showing<B: Positioned>(&mut self, file: &mut B, number: u64) -> Result<Option<usize>, Failed>
        requires number { number < 15888 }
        requires shows { ShowsFile (B.state file.old) self.old }
        ensures keeps { KeepsBytes (B.state file.old) (B.state file.new) }
        ensures shows { ShowsFile (B.state file.new) self.new }
        ensures at { IfOk result (λ found. IfSome found (λ at. HasNumber self.new.windows.items at number)) }
        ensures cause { OnErr result (Rose (B.state file.old).faults (B.state file.new).faults) }
        ensures no_fault { OnOk result ((B.state file.new).faults ≡ (B.state file.old).faults) }
    {
        match self.find(number) {
            Some(at) => Ok(Some(at)),
            None => {
                if !self.is_likely(number) {
                    return Ok(None);
                }
                self.load(file, number)
            }
        }
    }

    // Whether other cells of a window are likely to be asked for.
    fn is_likely(&self, number: u64) -> bool {
        self.lone.has_some(number)
            || self.windows.iter().any(|window| window.leads_to(number))
            || self.windows.iter().all(|window| window.number.is_none())
    }

    // The place of the window with a number.
    fn find(&self, number: u64) -> Option<usize>
        ensures { IfSome result (λ at. HasNumber self.now.windows.items at number) }
    {
        self.windows
            .iter()
            .position(|window| window.has_number(number))
    }

    // Reads the window with a number in place of another. Where not all of it can be told there is none.
    fn load<B: Positioned>(&mut self, file: &mut B, number: u64) -> Result<Option<usize>, Failed>
        requires number { number < 15888 }
        requires shows { ShowsFile (B.state file.old) self.old }
        ensures keeps { KeepsBytes (B.state file.old) (B.state file.new) }
        ensures shows { ShowsFile (B.state file.new) self.new }
        ensures at { IfOk result (λ found. IfSome found (λ at. HasNumber self.new.windows.items at number)) }
        ensures cause { OnErr result (Rose (B.state file.old).faults (B.state file.new).faults) }
        ensures no_fault { OnOk result ((B.state file.new).faults ≡ (B.state file.old).faults) }
    {
        let at = self.next;
        self.next = (at + 1) % WINDOWS;
        if self.windows[at].number.is_some() {
            self.lone.weigh(self.windows[at].reads);
        }
        if self.windows[at].load(file, number)? {
            Ok(Some(at))
        } else {
            Ok(None)
        }
    }

    /// Bytes of the file were written, those of a block first, and all within a window.
    pub fn put(&mut self, block: u64, part: &[u8])
        requires { 1056 * (block % 66) + length part.now ≤ 69696 }
        ensures { (old new : List ℕ) → IsPut (1056 * block) part.now old new
            → All (IsShown old) self.old.windows.items → All (IsShown new) self.new.windows.items }
    {
        for at in 0..WINDOWS {
            self.windows[at].put(block, part);
        }
    }

    /// The file was written, no matter where: they show nothing.
    pub fn forget_all(&mut self)
        ensures { (file : HostFileState) → ShowsFile file self.new }
    {
        for at in 0..WINDOWS {
            self.windows[at].clear();
        }
    }
}
