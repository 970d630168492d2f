//! One call of one side, and what two answers make together.
//!
//! Promise: a side that is out is never called.
ghost use Rattle.std.specs.Prelude.{◌≡◌, ◌<◌, ◌≤◌, true, IsFalse};
ghost use Rattle.nofs_mirror.specs.Sides.Calls.{SideFlushes, SideReads, SideWrites, any_done, is_asked, is_done};
ghost use Rattle.nofs_mirror.specs.Sides.Calls.{lead_stays, other_stays};

use nofs_disk::{Cell, Disk};

/// What a side answered.
#[derive(Clone, Copy, Debug, PartialEq, Eq)]
pub enum SideAnswer {
    /// The side is out, and wasn't called.
    Out,
    /// The call succeeded.
    Done,
    /// The call failed.
    Fault,
}

/// What a side answered, and its moments at the call's start and end.
#[derive(Clone, Copy)]
pub struct SideCall {
    pub answer: SideAnswer,
    pub began: u64,
    pub ended: u64,
}

/// Whether the call succeeded.
pub(crate) fn is_done(answer: SideAnswer) -> bool
    ensures { result ≡ is_done answer }
{
    match answer {
        SideAnswer::Out => false,
        SideAnswer::Done => true,
        SideAnswer::Fault => false,
    }
}

/// Whether the call succeeded on some side.
pub(crate) fn any_done(lead: SideAnswer, other: SideAnswer) -> bool
    ensures { result ≡ any_done lead other }
{
    is_done(lead) || is_done(other)
}

/// Whether the lead stays in: where it succeeded, and where it failed and the other did not succeed.
pub(crate) fn lead_stays(lead: SideAnswer, other: SideAnswer) -> bool
    ensures { result ≡ lead_stays lead other }
{
    match lead {
        SideAnswer::Out => false,
        SideAnswer::Done => true,
        SideAnswer::Fault => !is_done(other),
    }
}

/// Whether the other stays in: where it succeeded, and where it failed and the lead is out.
pub(crate) fn other_stays(lead: SideAnswer, other: SideAnswer) -> bool
    ensures { result ≡ other_stays lead other }
{
    match lead {
        SideAnswer::Out => is_asked(other),
        SideAnswer::Done => is_done(other),
        SideAnswer::Fault => is_done(other),
    }
}

// Whether the side was called.
fn is_asked(answer: SideAnswer) -> bool
    ensures { result ≡ is_asked answer }
{
    match answer {
        SideAnswer::Out => false,
        SideAnswer::Done => true,
        SideAnswer::Fault => true,
    }
}

/// Reads from a side that is in.
pub(crate) fn read_side<D: Disk>(
    disk: &mut D,
    is_in: bool,
    block: u64,
    into: &mut Cell,
) -> SideAnswer
    requires { block < (D.state disk.old).blocks }
    ensures reads { SideReads (D.state disk.old) (D.state disk.new) block into.new result }
    ensures asked { is_asked result ≡ is_in }
    ensures untouched { IsFalse is_in → disk.new ≡ disk.old }
{
    if !is_in {
        return SideAnswer::Out;
    }
    match disk.read(block, into) {
        Ok(()) => SideAnswer::Done,
        Err(_) => SideAnswer::Fault,
    }
}

/// Writes to a side that is in.
pub(crate) fn write_side<D: Disk>(disk: &mut D, is_in: bool, block: u64, cell: &Cell) -> SideCall
    requires block { block < (D.state disk.old).blocks }
    requires spare { 1 ≤ (D.state disk.old).spare }
    ensures writes { SideWrites (D.state disk.old) (D.state disk.new) block cell.now result.answer }
    ensures asked { is_asked result.answer ≡ is_in }
    ensures began { result.began ≡ (D.state disk.old).moment }
    ensures ended { result.ended ≡ (D.state disk.new).moment }
    ensures untouched { IsFalse is_in → disk.new ≡ disk.old }
{
    let began = disk.moment();
    if !is_in {
        return SideCall {
            answer: SideAnswer::Out,
            began,
            ended: began,
        };
    }
    let answer = written(disk, block, cell);
    let ended = disk.moment();
    SideCall {
        answer,
        began,
        ended,
    }
}

fn written<D: Disk>(disk: &mut D, block: u64, cell: &Cell) -> SideAnswer
    requires block { block < (D.state disk.old).blocks }
    requires spare { 1 ≤ (D.state disk.old).spare }
    ensures writes { SideWrites (D.state disk.old) (D.state disk.new) block cell.now result }
    ensures asked { is_asked result ≡ true }
{
    match disk.write(block, cell) {
        Ok(()) => SideAnswer::Done,
        Err(_) => SideAnswer::Fault,
    }
}

/// Flushes a side that is in.
pub(crate) fn flush_side<D: Disk>(disk: &mut D, is_in: bool) -> SideCall
    requires { 1 ≤ (D.state disk.old).spare }
    ensures flushes { SideFlushes (D.state disk.old) (D.state disk.new) result.answer }
    ensures asked { is_asked result.answer ≡ is_in }
    ensures began { result.began ≡ (D.state disk.old).moment }
    ensures ended { result.ended ≡ (D.state disk.new).moment }
    ensures untouched { IsFalse is_in → disk.new ≡ disk.old }
{
    let began = disk.moment();
    let answer = ask_flush(disk, is_in);
    let ended = disk.moment();
    SideCall {
        answer,
        began,
        ended,
    }
}

fn ask_flush<D: Disk>(disk: &mut D, is_in: bool) -> SideAnswer
    requires { 1 ≤ (D.state disk.old).spare }
    ensures flushes { SideFlushes (D.state disk.old) (D.state disk.new) result }
    ensures asked { is_asked result ≡ is_in }
    ensures untouched { IsFalse is_in → disk.new ≡ disk.old }
{
    if !is_in {
        return SideAnswer::Out;
    }
    match disk.flush() {
        Ok(()) => SideAnswer::Done,
        Err(_) => SideAnswer::Fault,
    }
}
