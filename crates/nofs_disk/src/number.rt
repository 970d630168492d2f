//! Numbers in bytes, the lowest byte first, by `byteorder`.
//!
//! Promise: what was put is read, and every other byte stays.
ghost use Rattle.std.specs.Prelude.{◌≡◌, ◌+◌, ◌≤◌, length};
ghost use Rattle.nofs_disk.specs.Number.{number_at, put_bytes, put_number, zeros};

use byteorder::{ByteOrder, LittleEndian};

/// The number in the four bytes from a place on.
#[tactic(auto, unfolding(crate::specs::Number::number_at))]
pub fn read_u32_at(bytes: &[u8], at: usize) -> u32
    requires { at + 4 ≤ length bytes.now }
    ensures { result ≡ number_at 4 at bytes.now }
{
    LittleEndian::read_u32(&bytes[at..])
}

/// The number in the eight bytes from a place on.
#[tactic(auto, unfolding(crate::specs::Number::number_at))]
pub fn read_u64_at(bytes: &[u8], at: usize) -> u64
    requires { at + 8 ≤ length bytes.now }
    ensures { result ≡ number_at 8 at bytes.now }
{
    LittleEndian::read_u64(&bytes[at..])
}

/// Puts a number into the four bytes from a place on. The other bytes stay.
pub fn write_u32_at(bytes: &mut [u8], at: usize, number: u32)
    requires { at + 4 ≤ length bytes.old }
    ensures put { bytes.new ≡ put_number 4 at number bytes.old }
    ensures value { number_at 4 at bytes.new ≡ number }
{
    LittleEndian::write_u32(&mut bytes[at..], number);
}

/// Puts a number into the eight bytes from a place on. The other bytes stay.
pub fn write_u64_at(bytes: &mut [u8], at: usize, number: u64)
    requires { at + 8 ≤ length bytes.old }
    ensures put { bytes.new ≡ put_number 8 at number bytes.old }
    ensures value { number_at 8 at bytes.new ≡ number }
{
    LittleEndian::write_u64(&mut bytes[at..], number);
}

/// Makes each byte zero.
#[tactic(auto, unfolding(crate::specs::Number::zeros))]
pub fn clear(bytes: &mut [u8])
    ensures { bytes.new ≡ zeros (length bytes.old) }
{
    bytes.fill(0);
}

/// Puts bytes from a place on. The other bytes stay.
#[tactic(auto, unfolding(crate::specs::Number::put_bytes))]
pub fn write_bytes_at(bytes: &mut [u8], at: usize, part: &[u8])
    requires { at + length part.now ≤ length bytes.old }
    ensures { bytes.new ≡ put_bytes at part.now bytes.old }
{
    bytes[at..at + part.len()].copy_from_slice(part);
}
