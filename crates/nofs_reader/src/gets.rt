//! What the slots of a file hold.
ghost use Rattle.std.specs.Prelude.{◌≡◌, ◌+◌, ◌*◌, ◌<◌, ◌≤◌, ◌||◌, IfErr, IfOk, IsTrue, OnErr, OnOk, drop, false};
ghost use Rattle.std.specs.Prelude.{length};
ghost use Rattle.std.specs.Prelude.{not, slice_range, take, true};
ghost use Rattle.nofs_agree.specs.Reads.{IsLast};
ghost use Rattle.nofs_model.specs.Slots.{value};
ghost use Rattle.nofs_ptrs.specs.Paths.{slot_limit};
ghost use Rattle.nofs_reader.specs.Answers.{IsAnswered, IsKnown};
ghost use Rattle.nofs_reader.specs.Gets.{IsRun, RestKept, get_unread, is_bytes, value_as};
ghost use Rattle.nofs_reader.specs.Image.{disk_of, image_of};
ghost use Rattle.nofs_reader.specs.Layouts.{IsBadPage};

use crate::layout::BadPage;
use crate::opened::{Opened, Unread, Wanted, open, slot};
use nofs_agree::{LastRead, PathAnswer};
use nofs_disk::write_bytes_at;
use nofs_model::place_of;
use nofs_ptrs::SLOT_LIMIT;

/// What each slot of a run is.
#[derive(Clone, Copy, Debug, PartialEq, Eq)]
pub enum RunKind {
    /// It has bytes, 1,024 of them.
    Bytes,
    /// Nothing was ever put there. It reads as zeros.
    Holes,
    /// A crash or damage took the content.
    Lost,
}

/// Some slots of a file, one after the other.
#[derive(Clone, Copy, Debug, PartialEq, Eq)]
pub struct Run {
    pub kind: RunKind,
    /// How many there are, at least 1.
    pub slots: u64,
}

/// Reads a run of slots of a file from one on, whatever the size: the first, and those behind it that are of its kind,
/// as far as there is room for their bytes and their pages can be told. Where they have bytes, `into` has them, one
/// slot after the other. Behind them, and for other runs, it is as it was: no bytes of a block that is lost come there.
///
/// # Errors
///
/// `NoRoom` where `into` has fewer than 1,024 bytes; `TooLarge` where no file has such a slot; `NoImage` with the first
/// fault of the superblock; `NoInode` where no inode of this number is agreed; `IsDirectory`; `BadPage` where a page
/// can't be told that shows this, or what the first slot is.
pub fn get(bytes: &[u8], inode: u32, from: u64, into: &mut [u8]) -> Result<Run, Unread>
    ensures unread { IsAnswered bytes.now (get_unread (image_of bytes.now) inode from (length into.old)) result }
    ensures len { length into.new ≡ length into.old }
    ensures run { IfOk result (IsRun (image_of bytes.now) inode from into.new) }
    ensures rest { IfOk result (RestKept into.old into.new) }
    ensures unchanged { OnErr result (into.new ≡ into.old) }
{
    if into.len() < 1024 {
        return Err(Unread::NoRoom);
    }
    if from >= SLOT_LIMIT {
        return Err(Unread::TooLarge);
    }
    match open(bytes, Wanted::Files, inode) {
        Ok(it) => match read_run(bytes, &it, from, into) {
            Ok(run) => Ok(run),
            Err(bad) => Err(Unread::BadPage(bad)),
        },
        Err(why) => Err(why),
    }
}

// Reads the run of slots from one on.
fn read_run(bytes: &[u8], it: &Opened, from: u64, into: &mut [u8]) -> Result<Run, BadPage>
    requires known { IsKnown bytes.now it.now }
    requires from { from < slot_limit }
    requires room { 1024 ≤ length into.old }
    ensures len { length into.new ≡ length into.old }
    ensures run { IfOk result (IsRun (image_of bytes.now) it.now.inode from into.new) }
    ensures rest { IfOk result (RestKept into.old into.new) }
    ensures unchanged { OnErr result (into.new ≡ into.old) }
    ensures bad { IfErr result (IsBadPage bytes.now) }
{
    let most = (into.len() as u64 / 1024).min(SLOT_LIMIT - from);
    let mut last = LastRead::NONE;
    let kind = read_slot(bytes, it, from, 0, true, into, &mut last)?;
    let wants = has_bytes(kind);
    for slots in 1..most {
        let place = 1024 * slots as usize;
        match read_slot(bytes, it, from + slots, place, wants, into, &mut last) {
            Ok(next) => {
                if !is_same(next, kind) {
                    return Ok(Run { kind, slots });
                }
            }
            Err(_) => return Ok(Run { kind, slots }),
        }
    }
    Ok(Run { kind, slots: most })
}

fn is_same(a: RunKind, b: RunKind) -> bool
    ensures same { IsTrue result → a ≡ b }
    ensures other { result ≡ false → a ≡ b → ⊥ }
{
    a == b
}

fn has_bytes(kind: RunKind) -> bool
    ensures { result ≡ is_bytes kind }
{
    match kind {
        RunKind::Bytes => true,
        RunKind::Holes => false,
        RunKind::Lost => false,
    }
}

// Reads a slot: where it has bytes, and they are wanted, they go to a place. All else stays.
fn read_slot(
    bytes: &[u8],
    it: &Opened,
    number: u64,
    place: usize,
    wants: bool,
    into: &mut [u8],
    last: &mut LastRead,
) -> Result<RunKind, BadPage>
    requires known { IsKnown bytes.now it.now }
    requires slot { number < slot_limit }
    requires room { place + 1024 ≤ length into.old }
    requires last { IsLast (disk_of bytes.now) last.old }
    ensures len { length into.new ≡ length into.old }
    ensures before { take place into.new ≡ take place into.old }
    ensures behind { drop (place + 1024) into.new ≡ drop (place + 1024) into.old }
    ensures value { IfOk result (λ kind. (wants || not (is_bytes kind)) ≡ true
        → value (image_of bytes.now) it.now.inode number ≡ value_as kind (slice_range into.new place (place + 1024))) }
    ensures unwanted { wants ≡ false → into.new ≡ into.old }
    ensures kept { IfOk result (λ kind. is_bytes kind ≡ false → into.new ≡ into.old) }
    ensures unchanged { OnErr result (into.new ≡ into.old) }
    ensures last { OnOk result (IsLast (disk_of bytes.now) last.new) }
    ensures bad { IfErr result (IsBadPage bytes.now) }
{
    match slot(bytes, it, place_of(number), last)? {
        PathAnswer::Hole => Ok(RunKind::Holes),
        PathAnswer::Lost => Ok(RunKind::Lost),
        PathAnswer::Holds(_) => {
            if wants {
                last.cell.note_sizes();
                write_bytes_at(into, place, &last.cell.payload);
            }
            Ok(RunKind::Bytes)
        }
    }
}
