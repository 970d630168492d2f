//! Hexadecimal digits: bytes read from them, and written as them.
//!
//! Promise: what a word of digits spells and what digits a byte has is what the crate `hex` says of them. Most of a
//! text is digits, so each loop here is one that LLVM turns into one over vectors: it has no early exit, and what it
//! does at a place is arithmetic. That is why all digits are judged before the first one is read.

ghost use Rattle.std.specs.Prelude.{◌≡◌, ◌*◌, ◌<◌, ◌++◌, ℕ, OnOk, Ok, length, nat_eq, slice_index, true};
ghost use Rattle.std.specs.List.{list_all};
ghost use Rattle.hex.specs.Hex.{decode_of, encode_lower, is_hex_digit, lower_digits};
ghost use Rattle.hex.specs.Hex.{pair_value as pair_value_at};
ghost use Rattle.nofs_script.specs.Grammar.{MatchesReading, hex_digits};

use crate::faults::{LineFault, ScriptKind};
use nofs_dirent::Content;
use std::alloc::{AllocError, Global};

fn are_hex_digits(word: &[u8]) -> bool
    ensures { result ≡ list_all is_hex_digit word.now }
{
    let mut beside = 0u8;
    for byte in word {
        beside |= beside_digits(*byte);
    }
    beside == 0
}

// How far a byte is beside the digits, and 0 for a digit. Subtractions that stop at 0 are few instructions on vectors,
// which comparisons are not.
fn beside_digits(byte: u8) -> u8
    ensures { nat_eq result 0 ≡ is_hex_digit byte }
{
    let number = byte.wrapping_sub(b'0').saturating_sub(9);
    let letter = (byte | 32).wrapping_sub(b'a').saturating_sub(5);
    number.min(letter)
}

// The byte that two digits spell. The codes of `0`, `A` and `a` are 48, 65 and 97: the low half of a code, and 9 more
// of a letter, which has the bit 64. Both digits are taken as one number, so that LLVM reads a text in whole vectors,
// where it would gather bytes at every second place one by one.
fn pair_value(high: u8, low: u8) -> u8
    requires high { is_hex_digit high ≡ true }
    requires low { is_hex_digit low ≡ true }
    ensures { (i : ℕ) → pair_value_at high low i ≡ Ok result }
{
    let pair = u16::from(high) | u16::from(low) << 8;
    let values = (pair & 0x0f0f) + 9 * (pair >> 6 & 0x0101);
    ((values & 15) << 4 | values >> 8) as u8
}

// The bytes that the digits spell.
fn put_values(digits: &[u8], into: &mut [u8])
    requires twice { length digits.now ≡ 2 * length into.old }
    requires all { list_all is_hex_digit digits.now ≡ true }
    ensures { decode_of digits.now ≡ Ok into.new }
{
    'bytes: for at in 0..into.len() {
        into[at] = pair_value(digits[2 * at], digits[2 * at + 1]);
    }
}

/// The bytes that a word of digits spells. An odd number of digits, or another byte among them, is a fault.
pub(crate) fn spelled_bytes(alloc: Global, word: &[u8]) -> Result<Content, LineFault>
    ensures { MatchesReading (λ bytes. bytes) result (hex_digits (decode_of word.now)) }
{
    if word.len() % 2 != 0 || !are_hex_digits(word) {
        return Err(LineFault::Wrong(ScriptKind::BadHex));
    }
    let mut bytes = vec![in alloc; 0u8; word.len() / 2]?;
    put_values(word, bytes.as_mut_slice());
    Ok(Content::from_vec(bytes))
}

fn digit_of(value: u8) -> u8
    requires { value < 16 }
    ensures { result ≡ slice_index lower_digits value }
{
    if value < 10 {
        value + b'0'
    } else {
        value - 10 + b'a'
    }
}

/// Writes two digits a byte, small ones.
pub(crate) fn put_digits(bytes: &[u8], into: &mut [u8])
    requires { length into.old ≡ 2 * length bytes.now }
    ensures { into.new ≡ encode_lower bytes.now }
{
    'bytes: for at in 0..bytes.len() {
        into[2 * at] = digit_of(bytes[at] / 16);
        into[2 * at + 1] = digit_of(bytes[at] % 16);
    }
}

/// Adds two digits a byte to a text, small ones.
pub(crate) fn push_digits(text: &mut Vec<u8>, bytes: &[u8]) -> Result<(), AllocError>
    ensures { OnOk result (text.new.items ≡ text.old.items ++ encode_lower bytes.now) }
{
    let from = text.len();
    let Some(length) = from.checked_add(2 * bytes.len()) else {
        return Err(AllocError);
    };
    text.resize(length, 0)?;
    put_digits(bytes, &mut text.as_mut_slice()[from..]);
    Ok(())
}
