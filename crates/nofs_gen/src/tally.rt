//! The line of a drill (docs/FORMAT.md, "Other lines of the program").
//!
//! Promise: its numbers are those of the definition, for what was read and a plain replay of the history. A number that
//! 64 bits can't hold is told as want of memory: no file system is that large.

ghost use Rattle.std.specs.Fmt.{decimal};
ghost use Rattle.std.specs.Prelude.{◌≡◌, ◌≤◌, ◌<◌, ◌+◌, ◌*◌, ◌++◌, IfOk, OnOk, codes, take, if◌then◌else◌, sum, sum_by};
ghost use Rattle.std.specs.Prelude.{count_by};
ghost use Rattle.nofs_history.specs.Machine.{cut_of};
ghost use Rattle.nofs_gen.specs.Replay.{slot_value};
ghost use Rattle.nofs_gen.specs.Tally.{drill_line, is_bytes_read as is_bytes_in, is_hole_read as is_hole_in};
ghost use Rattle.nofs_gen.specs.Tally.{is_refused_line};
ghost use Rattle.nofs_gen.specs.Tally.{is_value_read as is_value_in, size_told as size_of, slot_sum as slot_sum_of};
ghost use Rattle.nofs_gen.specs.Tally.{slots_sum as slots_sum_of};
ghost use Rattle.nofs_gen.specs.Tally.{slots_wrong as slots_wrong_of, sum_told as sum_of, wrong_told as wrong_of};

use crate::replays::{ValueList, replay};
use nofs_client::{Line, LineList};
use nofs_dirent::Content;
use nofs_history::{Found, History, Reply};
use nofs_model::Value;
use nofs_script::push_number;
use std::alloc::{AllocError, Global};

/// A file of a drill as it was read: what led to it, its size in bytes, and what was got of each slot below its size.
#[derive(Drop)]
pub struct FileRead {
    pub found: Found,
    pub size: u64,
    pub slots: Vec<Reply>,
}

/// The numbers of a drill's line.
#[derive(Clone, Copy)]
pub struct DrillNumbers {
    /// How many lines tell of a refusal.
    pub refused: u64,
    /// The sizes of the files, in bytes.
    pub bytes: u64,
    /// The sum of all their bytes.
    pub sum: u64,
    /// How many slots differ from the replay.
    pub wrong: u64,
}

fn added(total: u64, more: u64) -> Result<u64, AllocError>
    ensures { IfOk result (λ all. all ≡ total + more) }
{
    match total.checked_add(more) {
        Some(all) => Ok(all),
        None => Err(AllocError),
    }
}

fn bytes_sum(bytes: &[u8]) -> Result<u64, AllocError>
    ensures { IfOk result (λ total. total ≡ sum bytes.now) }
{
    let mut total = 0;
    for byte in bytes {
        total = added(total, u64::from(*byte))?;
    }
    Ok(total)
}

// The first bytes of a slot.
fn first_bytes(bytes: &[u8], count: u64) -> &[u8]
    ensures { result.now ≡ take count bytes.now }
{
    if count < bytes.len() as u64 {
        &bytes[..count as usize]
    } else {
        bytes
    }
}

// How many bytes of a slot lie below a size.
fn cut_at(size: u64, slot: usize) -> u64
    ensures { result ≡ cut_of size slot }
{
    match (slot as u64).checked_mul(1024) {
        Some(from) => size.saturating_sub(from).min(1024),
        None => 0,
    }
}

fn slot_sum(cut: u64, reply: &Reply) -> Result<u64, AllocError>
    ensures { IfOk result (λ total. total ≡ slot_sum_of cut reply.now) }
{
    match reply {
        Reply::Bytes(bytes) => bytes_sum(first_bytes(bytes.as_slice(), cut)),
        _ => Ok(0),
    }
}

fn slots_sum(size: u64, replies: &[Reply]) -> Result<u64, AllocError>
    ensures { IfOk result (λ total. total ≡ slots_sum_of size 0 replies.now) }
{
    let mut total = 0;
    for slot in 0..replies.len() {
        let more = slot_sum(cut_at(size, slot), &replies[slot])?;
        total = added(total, more)?;
    }
    Ok(total)
}

fn is_hole_read(reply: &Reply) -> bool
    ensures { result ≡ is_hole_in reply.now }
{
    matches!(reply, Reply::Hole)
}

fn is_bytes_read(bytes: &[u8], reply: &Reply) -> bool
    ensures { result ≡ is_bytes_in bytes.now reply.now }
{
    match reply {
        Reply::Bytes(found) => bytes == found.as_slice(),
        _ => false,
    }
}

fn is_value_read(value: &Value, reply: &Reply) -> bool
    ensures { result ≡ is_value_in value.now reply.now }
{
    match value {
        Value::Hole => is_hole_read(reply),
        Value::Bytes(bytes) => is_bytes_read(bytes.as_slice(), reply),
        Value::Lost => false,
    }
}

// 1 where a slot differs from its value.
fn wrong_at(values: &ValueList, slot: usize, reply: &Reply) -> u64
    ensures { result ≡ (if is_value_in (slot_value values.now slot) reply.now then 0 else 1) }
{
    let is_right = match values.item(slot as u64) {
        Some(value) => is_value_read(value, reply),
        None => is_hole_read(reply),
    };
    u64::from(!is_right)
}

fn slots_wrong(values: &ValueList, replies: &[Reply]) -> Result<u64, AllocError>
    ensures { IfOk result (λ total. total ≡ slots_wrong_of values.now 0 replies.now) }
{
    let mut total = 0;
    for slot in 0..replies.len() {
        let more = wrong_at(values, slot, &replies[slot]);
        total = added(total, more)?;
    }
    Ok(total)
}

fn size_told(read: &Option<FileRead>) -> u64
    ensures { result ≡ size_of read.now }
{
    match read {
        None => 0,
        Some(file) => file.size,
    }
}

fn sum_told(read: &Option<FileRead>) -> Result<u64, AllocError>
    ensures { IfOk result (λ total. total ≡ sum_of read.now) }
{
    match read {
        None => Ok(0),
        Some(file) => slots_sum(file.size, &file.slots),
    }
}

fn wrong_told(alloc: Global, history: &History, read: &Option<FileRead>) -> Result<u64, AllocError>
    ensures { IfOk result (λ total. total ≡ wrong_of history.now.entries read.now) }
{
    match read {
        None => Ok(1),
        Some(file) => {
            let values = replay(alloc, history, file.found.inode, file.found.generation)?;
            slots_wrong(&values, &file.slots)
        }
    }
}

fn sizes(reads: &[Option<FileRead>]) -> Result<u64, AllocError>
    ensures { IfOk result (λ total. total ≡ sum_by size_of reads.now) }
{
    let mut total = 0;
    for read in reads {
        total = added(total, size_told(read))?;
    }
    Ok(total)
}

fn sums(reads: &[Option<FileRead>]) -> Result<u64, AllocError>
    ensures { IfOk result (λ total. total ≡ sum_by sum_of reads.now) }
{
    let mut total = 0;
    for read in reads {
        total = added(total, sum_told(read)?)?;
    }
    Ok(total)
}

fn wrongs(alloc: Global, history: &History, reads: &[Option<FileRead>]) -> Result<u64, AllocError>
    ensures { IfOk result (λ total. total ≡ sum_by (wrong_of history.now.entries) reads.now) }
{
    let mut total = 0;
    for read in reads {
        total = added(total, wrong_told(alloc, history, read)?)?;
    }
    Ok(total)
}

fn is_refused(line: &Line) -> bool
    ensures { result ≡ is_refused_line line.now }
{
    match line {
        Line::Refused(_) => true,
        Line::RefusedPut { .. } => true,
        Line::Made
        | Line::Put(_)
        | Line::Got(_)
        | Line::Sized(_)
        | Line::Stat(_)
        | Line::Names(_)
        | Line::Linked
        | Line::Dropped
        | Line::Renamed
        | Line::Synced
        | Line::Moved => false,
    }
}

fn refused_in(lines: &[Line]) -> Result<u64, AllocError>
    ensures { IfOk result (λ total. total ≡ count_by is_refused_line lines.now) }
{
    let mut total = 0;
    for line in lines {
        total = added(total, u64::from(is_refused(line)))?;
    }
    Ok(total)
}

fn refused(users: &[LineList]) -> Result<u64, AllocError>
    ensures { IfOk result (λ total. total ≡ sum_by (count_by is_refused_line) users.now) }
{
    let mut total = 0;
    for lines in users {
        total = added(total, refused_in(lines.as_slice())?)?;
    }
    Ok(total)
}

/// The numbers of a drill, by the lines of its users, what was read of their files, and the history.
pub fn numbers_of(
    alloc: Global,
    users: &[LineList],
    reads: &[Option<FileRead>],
    history: &History,
) -> Result<DrillNumbers, AllocError>
    ensures refused { IfOk result (λ t. t.refused ≡ sum_by (count_by is_refused_line) users.now) }
    ensures bytes { IfOk result (λ t. t.bytes ≡ sum_by size_of reads.now) }
    ensures total { IfOk result (λ t. t.sum ≡ sum_by sum_of reads.now) }
    ensures wrong { IfOk result (λ t. t.wrong ≡ sum_by (wrong_of history.now.entries) reads.now) }
{
    Ok(DrillNumbers {
        refused: refused(users)?,
        bytes: sizes(reads)?,
        sum: sums(reads)?,
        wrong: wrongs(alloc, history, reads)?,
    })
}

// Adds the numbers of a drill to its line.
fn push_numbers(alloc: Global, text: &mut Vec<u8>, told: &DrillNumbers) -> Result<(), AllocError>
    ensures { OnOk result (text.new.items ≡ text.old.items ++ codes ", refused " ++ decimal told.now.refused
        ++ codes ", bytes " ++ decimal told.now.bytes ++ codes ", sum " ++ decimal told.now.sum
        ++ codes ", wrong " ++ decimal told.now.wrong) }
{
    push_number(alloc, text, ", refused ", told.refused)?;
    push_number(alloc, text, ", bytes ", told.bytes)?;
    push_number(alloc, text, ", sum ", told.sum)?;
    push_number(alloc, text, ", wrong ", told.wrong)?;
    Ok(())
}

/// The line of a drill.
#[tactic(auto, unfolding(crate::specs::Tally::drill_line))]
pub fn drill_text(
    alloc: Global,
    start: u64,
    steps: u64,
    told: &DrillNumbers,
) -> Result<Content, AllocError>
    requires { steps ≤ 4000 }
    ensures { IfOk result
        (λ text. text ≡ drill_line start steps told.now.refused told.now.bytes told.now.sum told.now.wrong) }
{
    let mut text = Vec::new(alloc);
    push_number(alloc, &mut text, "drill ", start)?;
    push_number(alloc, &mut text, " ", steps)?;
    push_number(alloc, &mut text, ": commands ", 4 * (steps + 3))?;
    push_numbers(alloc, &mut text, told)?;
    text.push(b'\n')?;
    Ok(Content::from_vec(text))
}
