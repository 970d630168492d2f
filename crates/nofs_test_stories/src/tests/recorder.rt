//! A file in memory that keeps its writes and syncs, and draws what a crash in any of them may leave.
//!
//! Promise: it is the file below it. Of each unit of so many bytes an image has what stood there at the last sync
//! before the crash, or after a write since.

ghost use Rattle.std.specs.Prelude.{◌≡◌, ℕ, IfOk};
ghost use Rattle.nofs_filedisk.specs.Bytes.{IsSynced};
ghost use Rattle.nofs_pages.specs.Singles.{SingleRests};
ghost use Rattle.nofs_pages.specs.Twins.{TwinRests};

use nofs_disk::{Failed, write_bytes_at};
use nofs_filedisk::{MemFile, Positioned};
use nofs_test_disks::draw;
use std::alloc::{AllocError, Global};

/// At most so many bytes are moved by a call. A window of the disk in a file has less.
const PIECE: usize = 1_048_576;

/// A call that changes the file, or makes it durable.
#[derive(Drop)]
pub enum RecordedCall {
    Write { at: u64, bytes: Vec<u8> },
    Sync,
}

/// A file over one in memory.
#[derive(Drop)]
pub struct Recorder {
    under: MemFile,
    alloc: Global,
    /// How many bytes at a multiple of so many a crash leaves together.
    unit: usize,
    /// The bytes at first, all of which are durable.
    first: Vec<u8>,
    /// The writes and syncs since, in order.
    calls: Vec<RecordedCall>,
    /// Whether each of them was kept.
    is_kept: bool,
}

impl Recorder {
    /// A file with these bytes, of which a crash leaves units of so many together.
    pub fn new(alloc: Global, bytes: &[u8], unit: usize) -> Result<Recorder, AllocError>
        ensures synced { IfOk result (λ file. IsSynced (⟦<Recorder as Positioned>⟧.state file)) }
        ensures rests { IfOk result (λ file. (p : ℕ) → SingleRests (⟦<Recorder as Positioned>⟧.state file) p) }
        ensures twins { IfOk result (λ file. (p : ℕ) → TwinRests (⟦<Recorder as Positioned>⟧.state file) p) }
    {
        Ok(Recorder {
            under: MemFile::new(alloc, bytes, PIECE, &[])?,
            alloc,
            unit,
            first: bytes.to_vec(alloc)?,
            calls: Vec::new(alloc),
            is_kept: true,
        })
    }

    /// How many writes and syncs were made.
    pub fn calls(&self) -> usize {
        self.calls.len()
    }

    /// How many bytes the writes have.
    pub fn written(&self) -> usize {
        let mut bytes: usize = 0;
        for call in &self.calls {
            bytes = bytes.saturating_add(bytes_of_call(call));
        }
        bytes
    }

    /// Whether the calls tell all: each was kept and moved whole units, all of them lead to the bytes
    /// of the file, and those up to the last sync to what is durable.
    pub fn tells_all(&self) -> Result<bool, AllocError> {
        let all = self.replay(&self.calls)?;
        let durable = self.replay(up_to_sync(&self.calls))?;
        Ok(
            self.is_kept
                && self
                    .calls
                    .iter()
                    .all(|call| has_whole_units(call, self.unit))
                && all.as_slice() == self.under.bytes()
                && durable.as_slice() == self.under.durable(),
        )
    }

    /// Whether no unit was written twice between two syncs.
    pub fn writes_once(&self) -> Result<bool, AllocError> {
        let mut drawn = DrawnImage::new(self.alloc, &self.first, self.unit)?;
        let mut is_once = true;
        for call in &self.calls {
            drawn.offer(call, &mut 0);
            is_once = is_once && drawn.versions.iter().all(|versions| *versions <= 2);
            if is_sync(call) {
                drawn.versions.as_mut_slice().fill(1);
            }
        }
        Ok(is_once)
    }

    /// Whether the last calls of this file are all those of another one.
    pub fn ends_like(&self, other: &Recorder) -> bool {
        let behind = self.calls.len().saturating_sub(other.calls.len());
        let mut is_like = true;
        for (at, call) in other.calls.iter().enumerate() {
            is_like = is_like && is_same(self.calls.get(behind.saturating_add(at)), call);
        }
        is_like
    }

    // The bytes at first, after these calls.
    fn replay(&self, calls: &[RecordedCall]) -> Result<Vec<u8>, AllocError> {
        let mut bytes = self.first.to_vec(self.alloc)?;
        for call in calls {
            if let RecordedCall::Write { at, bytes: part } = call {
                put(&mut bytes, *at as usize, part);
            }
        }
        Ok(bytes)
    }

    /// Bytes that a crash may leave where so many calls had ended, and so many had begun, drawn by chance. Of a write
    /// since the last sync all units are left, or none, or some of them.
    pub fn image(
        &self,
        ended: usize,
        begun: usize,
        state: &mut u64,
    ) -> Result<Vec<u8>, AllocError> {
        let durable = up_to_sync(first_calls(&self.calls, ended));
        let mut drawn = DrawnImage::new(self.alloc, &self.replay(durable)?, self.unit)?;
        for call in first_calls(&self.calls, begun).iter().skip(durable.len()) {
            drawn.offer(call, state);
        }
        Ok(drawn.bytes)
    }

    // Keeps a call, where there is memory.
    fn keep(&mut self, call: Option<RecordedCall>)
        ensures { self.new.under ≡ self.old.under }
    {
        let kept = match call {
            Some(call) => self.calls.push(call).is_ok(),
            None => false,
        };
        self.is_kept = self.is_kept && kept;
    }
}

impl Positioned for Recorder {
    ghost use Rattle.nofs_filedisk.specs.Memory.{telling_file-is};

    ghost state = { λ f. ⟦<MemFile as Positioned>⟧.state f.under };

    ghost is_file = { λ f.
        telling_file-is f.under.bytes.items f.under.durable.items f.under.faults f.under.counted f.under.small };

    fn read_at(&mut self, at: u64, into: &mut [u8]) -> Result<usize, Failed> {
        self.under.read_at(at, into)
    }

    fn read_ahead(&mut self, at: u64, into: &mut [u8]) -> Result<Option<usize>, Failed> {
        self.under.read_ahead(at, into)
    }

    fn write_at(&mut self, at: u64, from: &[u8]) -> Result<usize, Failed> {
        let count = self.under.write_at(at, from)?;
        self.keep(write_call(self.alloc, at, from, count));
        Ok(count)
    }

    fn sync(&mut self) -> Result<(), Failed> {
        self.under.sync()?;
        self.keep(Some(RecordedCall::Sync));
        Ok(())
    }
}

// The write of the first bytes of these; `None` where there is no memory.
fn write_call(alloc: Global, at: u64, from: &[u8], count: usize) -> Option<RecordedCall> {
    let part = from.get(..count)?;
    match part.to_vec(alloc) {
        Ok(bytes) => Some(RecordedCall::Write { at, bytes }),
        Err(_) => None,
    }
}

// How many bytes a call writes.
fn bytes_of_call(call: &RecordedCall) -> usize {
    match call {
        RecordedCall::Write { bytes, .. } => bytes.len(),
        RecordedCall::Sync => 0,
    }
}

// Whether a call writes whole units, if it writes.
fn has_whole_units(call: &RecordedCall, unit: usize) -> bool {
    match call {
        RecordedCall::Write { at, bytes } => {
            (*at as usize).checked_rem(unit) == Some(0) && bytes.len().checked_rem(unit) == Some(0)
        }
        RecordedCall::Sync => true,
    }
}

// The first so many calls, or all of them.
fn first_calls(calls: &[RecordedCall], count: usize) -> &[RecordedCall] {
    calls.get(..count).unwrap_or(calls)
}

// The calls up to the last sync.
fn up_to_sync(calls: &[RecordedCall]) -> &[RecordedCall] {
    match calls.iter().rev().position(is_sync) {
        Some(behind) => first_calls(calls, calls.len().saturating_sub(behind)),
        None => &[],
    }
}

fn is_sync(call: &RecordedCall) -> bool {
    match call {
        RecordedCall::Write { .. } => false,
        RecordedCall::Sync => true,
    }
}

// Whether there is a call, and it is this one.
fn is_same(own: Option<&RecordedCall>, call: &RecordedCall) -> bool {
    match own {
        Some(RecordedCall::Write { at, bytes }) => is_write_of(call, *at, bytes),
        Some(RecordedCall::Sync) => is_sync(call),
        None => false,
    }
}

// Whether a call writes these bytes to this place.
fn is_write_of(call: &RecordedCall, place: u64, part: &[u8]) -> bool {
    match call {
        RecordedCall::Write { at, bytes } => *at == place && bytes.as_slice() == part,
        RecordedCall::Sync => false,
    }
}

// Puts a part at its place, if it ends inside.
fn put(bytes: &mut [u8], at: usize, part: &[u8]) {
    if at <= bytes.len() && part.len() <= bytes.len() - at {
        write_bytes_at(bytes, at, part);
    }
}

/// Bytes of which each unit is one of its versions so far.
#[derive(Drop)]
struct DrawnImage {
    unit: usize,
    bytes: Vec<u8>,
    /// What the calls so far lead to.
    now: Vec<u8>,
    /// How many versions each unit had.
    versions: Vec<u64>,
}

impl DrawnImage {
    // Bytes of one version.
    fn new(alloc: Global, bytes: &[u8], unit: usize) -> Result<DrawnImage, AllocError> {
        let units = bytes.len().checked_div(unit).unwrap_or(0);
        Ok(DrawnImage {
            unit,
            bytes: bytes.to_vec(alloc)?,
            now: bytes.to_vec(alloc)?,
            versions: vec![in alloc; 1u64; units]?,
        })
    }

    // Takes or leaves each unit that a call writes.
    fn offer(&mut self, call: &RecordedCall, state: &mut u64) {
        if let RecordedCall::Write { at, bytes } = call {
            put(&mut self.now, *at as usize, bytes);
            self.offer_units(*at as usize, bytes.len(), state);
        }
    }

    fn offer_units(&mut self, at: usize, count: usize, state: &mut u64) {
        let first = at.checked_div(self.unit).unwrap_or(0);
        let units = count.checked_div(self.unit).unwrap_or(0);
        let taking = draw(state, 3);
        for number in 0..units {
            self.offer_unit(first.saturating_add(number), taking, state);
        }
    }

    // Takes a further version: always, never, or in one of as many cases as there are now.
    fn offer_unit(&mut self, number: usize, taking: u64, state: &mut u64) {
        if let Some(versions) = self.versions.get_mut(number) {
            *versions = versions.saturating_add(1);
            if taking == 0 || (taking == 1 && draw(state, *versions) == 0) {
                self.take(number.saturating_mul(self.unit));
            }
        }
    }

    // Takes the unit at a place as it is now.
    fn take(&mut self, at: usize) {
        let end = at.saturating_add(self.unit);
        if let Some(part) = self.now.get(at..end) {
            put(&mut self.bytes, at, part);
        }
    }
}
