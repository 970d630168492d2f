//! All bytes of a part are read, or written, in as many calls as the file takes.
//!
//! Promise: a part is read or written whole, or the call fails; then its first bytes may stand.
ghost use Rattle.std.specs.Prelude.{◌≡◌, ◌+◌, ◌^◌, ◌<◌, ◌≤◌, ℕ, IsTrue, OnErr, OnOk, length, slice_index, take};
ghost use Rattle.nofs_disk.specs.Disk.{Rose};
ghost use Rattle.nofs_filedisk.specs.Bytes.{IsPart, IsPartlyPut, IsPut, KeepsBytes, KeepsDurable, ReadsBehind};

use crate::positioned::Positioned;
use nofs_disk::{Failed, clear};

/// Reads all bytes from a place on, with zeros past the end of the file.
pub fn read_part<B: Positioned>(file: &mut B, at: u64, into: &mut [u8]) -> Result<(), Failed>
    requires { at + length into.old < 2 ^ 63 }
    ensures keeps { KeepsBytes (B.state file.old) (B.state file.new) }
    ensures len { length into.new ≡ length into.old }
    ensures part { OnOk result (IsTrue (B.state file.old).tells → IsPart (B.state file.old).bytes at into.new) }
    ensures cause { OnErr result (Rose (B.state file.old).faults (B.state file.new).faults) }
    ensures no_fault { OnOk result ((B.state file.new).faults ≡ (B.state file.old).faults) }
{
    let mut done = 0;
    while done < into.len() {
        let count = read_on(file, at, into, done)?;
        if count == 0 {
            clear_on(into, done);
            return Ok(());
        }
        done += count;
    }
    Ok(())
}

/// Reads all bytes behind the first ones, which are read.
pub fn read_behind<B: Positioned>(
    file: &mut B,
    at: u64,
    into: &mut [u8],
    done: usize,
) -> Result<(), Failed>
    requires place { at + length into.old < 2 ^ 63 }
    requires done { done ≤ length into.old }
    ensures keeps { KeepsBytes (B.state file.old) (B.state file.new) }
    ensures len { length into.new ≡ length into.old }
    ensures part { OnOk result (IsTrue (B.state file.old).tells
        → IsPart (B.state file.old).bytes at (take done into.old) → IsPart (B.state file.old).bytes at into.new) }
    ensures cause { OnErr result (Rose (B.state file.old).faults (B.state file.new).faults) }
    ensures no_fault { OnOk result ((B.state file.new).faults ≡ (B.state file.old).faults) }
{
    let end = into.len();
    read_part(file, at + done as u64, &mut into[done..end])
}

// Reads some bytes behind those that are done.
fn read_on<B: Positioned>(
    file: &mut B,
    at: u64,
    into: &mut [u8],
    done: usize,
) -> Result<usize, Failed>
    requires place { at + length into.old < 2 ^ 63 }
    requires done { done < length into.old }
    ensures { ReadsBehind (B.state file.old) (B.state file.new) at done into.old into.new result }
{
    let end = into.len();
    file.read_at(at + done as u64, &mut into[done..end])
}

// Clears the bytes behind those that are done.
fn clear_on(into: &mut [u8], done: usize)
    requires { done ≤ length into.old }
    ensures len { length into.new ≡ length into.old }
    ensures done { take done into.new ≡ take done into.old }
    ensures zero { (k : ℕ) → done ≤ k → slice_index into.new k ≡ 0 }
{
    let end = into.len();
    clear(&mut into[done..end]);
}

/// Writes all bytes of a part to a place; where that fails, perhaps the first of them.
pub fn write_part<B: Positioned>(file: &mut B, at: u64, part: &[u8]) -> Result<(), Failed>
    requires { at + length part.now < 2 ^ 63 }
    ensures keeps { KeepsDurable (B.state file.old) (B.state file.new) }
    ensures put { OnOk result
        (IsTrue (B.state file.old).tells → IsPut at part.now (B.state file.old).bytes (B.state file.new).bytes) }
    ensures err { OnErr result
        (IsTrue (B.state file.old).tells → IsPartlyPut at part.now (B.state file.old).bytes (B.state file.new).bytes) }
    ensures cause { OnErr result (Rose (B.state file.old).faults (B.state file.new).faults) }
    ensures no_fault { OnOk result ((B.state file.new).faults ≡ (B.state file.old).faults) }
{
    let mut done = 0;
    while done < part.len() {
        done += file.write_at(at + done as u64, &part[done..])?;
    }
    Ok(())
}
