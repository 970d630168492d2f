//! A file as far as its steps were replayed.
//!
//! Promise: each step changes the file as the definition says.
ghost use Rattle.std.specs.Prelude.{◌≡◌, ◌<◌, ◌≤◌, ◌+◌, ◌/◌, IfOk, OnOk, length, map, slice_set};
ghost use Rattle.nofs_history.specs.Machine as machine;
ghost use Rattle.nofs_model.specs.declared.image.value.Value.TheVariants as value;
ghost use Rattle.nofs_gen.specs.Replay.{ended, empty_file, is_put as is_put_in, replayed_file, kept_value, padded};
ghost use Rattle.nofs_gen.specs.Replay.{put_file, resized_content, slot_value};

use nofs_dirent::Content;
use nofs_disk::{clear, write_bytes_at};
use nofs_model::Value;
use std::alloc::{AllocError, Global};

// How many slots are replayed.
const SLOTS: usize = 72;

/// The value of a slot, in a form that is changed in place.
#[derive(Drop)]
pub enum KeptValue {
    Hole,
    Bytes(Box<[u8; 1024]>),
}

/// A file: its size in bytes, and the values of its slots.
#[derive(Drop)]
pub struct Replayed {
    pub size: u64,
    pub values: Vec<KeptValue>,
}

// A cell of zeros.
#[tactic(auto, unfolding(nofs_disk::specs::Number::zeros))]
fn zero_cell(alloc: Global) -> Result<Box<[u8; 1024]>, AllocError>
    ensures { IfOk result (λ cell. cell.value ≡ machine.bytes_in value.Hole) }
{
    let mut cell = Box::new(alloc, [0; 1024])?;
    clear(&mut *cell);
    Ok(cell)
}

// A second cell with the same bytes.
fn copied(alloc: Global, bytes: &[u8; 1024]) -> Result<Box<[u8; 1024]>, AllocError>
    ensures { IfOk result (λ cell. cell.value ≡ bytes.now) }
{
    Ok(Box::new(alloc, *bytes)?)
}

fn copy_of(alloc: Global, kept: &KeptValue) -> Result<KeptValue, AllocError>
    ensures { IfOk result (λ copy. kept_value copy ≡ kept_value kept.now) }
{
    match kept {
        KeptValue::Hole => Ok(KeptValue::Hole),
        KeptValue::Bytes(bytes) => Ok(KeptValue::Bytes(copied(alloc, bytes)?)),
    }
}

// A copy of what a slot has, which is a hole where there is none.
fn kept_at(alloc: Global, values: &[KeptValue], slot: usize) -> Result<KeptValue, AllocError>
    ensures { IfOk result (λ kept. kept_value kept ≡ slot_value (map kept_value values.now) slot) }
{
    match values.get(slot) {
        Some(kept) => copy_of(alloc, kept),
        None => Ok(KeptValue::Hole),
    }
}

// Its bytes, zeros where it has none.
fn bytes_of(alloc: Global, kept: KeptValue) -> Result<Box<[u8; 1024]>, AllocError>
    ensures { IfOk result (λ cell. cell.value ≡ machine.bytes_in (kept_value kept)) }
{
    match kept {
        KeptValue::Hole => zero_cell(alloc),
        KeptValue::Bytes(bytes) => Ok(bytes),
    }
}

// Makes the bytes of a cell from a place on zeros.
#[tactic(auto, unfolding(nofs_disk::specs::Number::zeros, nofs_history::specs::Machine::trimmed))]
fn trim(cell: &mut [u8; 1024], cut: usize)
    requires { cut ≤ 1024 }
    ensures { cell.new ≡ machine.trimmed cut cell.old }
{
    clear(&mut cell[cut..1024]);
}

fn trimmed(kept: KeptValue, cut: usize) -> KeptValue
    requires { cut ≤ 1024 }
    ensures { kept_value result ≡ machine.trimmed_value cut (kept_value kept) }
{
    match kept {
        KeptValue::Hole => KeptValue::Hole,
        KeptValue::Bytes(bytes) => {
            let mut cell = bytes;
            trim(&mut cell, cut);
            KeptValue::Bytes(cell)
        }
    }
}

// Gives a slot a value, where there is the slot.
fn set_slot(values: &mut Vec<KeptValue>, slot: usize, kept: KeptValue)
    ensures { map kept_value values.new.items ≡ slice_set (map kept_value values.old.items) slot (kept_value kept) }
{
    if slot < values.len() {
        values[slot] = kept;
    }
}

// Adds holes up to 72 slots.
fn pad(values: &mut Vec<KeptValue>) -> Result<(), AllocError>
    ensures { OnOk result (map kept_value values.new.items ≡ padded (map kept_value values.old.items)) }
{
    while values.len() < SLOTS {
        values.push(KeptValue::Hole)?;
    }
    Ok(())
}

// How many slots a size reaches into.
fn slots_in(size: u64) -> u64
    ensures { result ≡ machine.slots_in size }
{
    size / 1024 + u64::from(size % 1024 != 0)
}

// Whether bytes lie in one of the 72 slots.
fn is_put(slot: u64, at: u32, bytes: &[u8]) -> bool
    ensures { result ≡ is_put_in slot at bytes.now }
{
    let count = bytes.len() as u64;
    slot < SLOTS as u64 && 0 < count && at <= 1024 && count <= 1024 - u64::from(at)
}

impl Replayed {
    /// A file on which no step was made.
    pub fn empty(alloc: Global) -> Result<Self, AllocError>
        ensures { IfOk result (λ file. replayed_file file ≡ empty_file) }
    {
        let mut values = Vec::new(alloc);
        pad(&mut values)?;
        Ok(Replayed { size: 0, values })
    }

    // The content of a slot with these bytes in it: zeros past the size.
    #[tactic(auto, unfolding(nofs_history::specs::Machine::put_content))]
    fn put_content(
        &self,
        alloc: Global,
        slot: u64,
        at: u32,
        bytes: &[u8],
    ) -> Result<Box<[u8; 1024]>, AllocError>
        requires slot { slot < 72 }
        requires range { at + length bytes.now ≤ 1024 }
        ensures { IfOk result (λ cell. cell.value ≡ machine.put_content
            (slot_value (replayed_file self.now).values slot) self.now.size slot at bytes.now) }
    {
        let kept = kept_at(alloc, &self.values, slot as usize)?;
        let mut cell = bytes_of(alloc, kept)?;
        let cut = self.size.saturating_sub(1024 * slot).min(1024);
        trim(&mut cell, cut as usize);
        write_bytes_at(&mut *cell, at as usize, bytes);
        Ok(cell)
    }

    /// The file with these bytes in a slot, from byte `at` on; as it is where they don't lie in one slot.
    pub fn with_put(
        self,
        alloc: Global,
        slot: u64,
        at: u32,
        bytes: &[u8],
    ) -> Result<Self, AllocError>
        ensures { IfOk result (λ file. replayed_file file ≡ put_file (replayed_file self) slot at bytes.now) }
    {
        if !is_put(slot, at, bytes) {
            return Ok(self);
        }
        let cell = self.put_content(alloc, slot, at, bytes)?;
        let end = 1024 * slot + u64::from(at) + bytes.len() as u64;
        let mut file = self;
        set_slot(&mut file.values, slot as usize, KeptValue::Bytes(cell));
        file.size = file.size.max(end);
        Ok(file)
    }

    // Makes the bytes past the end zeros, where the file does not shrink.
    fn trim_end(&mut self, alloc: Global, size: u64) -> Result<(), AllocError>
        ensures values { OnOk result ((replayed_file self.new).values ≡ ended (replayed_file self.old) size) }
        ensures size { self.new.size ≡ self.old.size }
    {
        if self.size <= size && self.size % 1024 != 0 {
            let slot = (self.size / 1024) as usize;
            let kept = kept_at(alloc, &self.values, slot)?;
            let cut = self.size as usize % 1024;
            set_slot(&mut self.values, slot, trimmed(kept, cut));
        }
        Ok(())
    }

    /// The file with another size.
    pub fn resized(self, alloc: Global, size: u64) -> Result<Self, AllocError>
        ensures { IfOk result (λ file. replayed_file file ≡ resized_content (replayed_file self) size) }
    {
        let mut file = self;
        file.trim_end(alloc, size)?;
        let slots = slots_in(file.size).min(slots_in(size));
        file.values.truncate(slots as usize);
        pad(&mut file.values)?;
        file.size = size;
        Ok(file)
    }

    /// The values of its slots.
    pub fn into_values(self, alloc: Global) -> Result<Vec<Value>, AllocError>
        ensures { IfOk result (λ values. values.items ≡ (replayed_file self).values) }
    {
        let mut values = Vec::new(alloc);
        for kept in &self.values {
            values.push(value_of(alloc, kept)?)?;
        }
        Ok(values)
    }
}

// The value of a slot.
fn value_of(alloc: Global, kept: &KeptValue) -> Result<Value, AllocError>
    ensures { IfOk result (λ value. value ≡ kept_value kept.now) }
{
    match kept {
        KeptValue::Hole => Ok(Value::Hole),
        KeptValue::Bytes(bytes) => Ok(Value::Bytes(Content::from_slice(alloc, &**bytes)?)),
    }
}
