//! Maps of bits: one truth value for each place below a number, one bit each in memory.
//!
//! Promise: a map is the list of its truth values. Setting one changes no other, the count of
//! those that are set stays exact, and the next one that is set is found.
//!
//! The count and the least place that is set are kept, not searched for, and a search goes by words:
//! a loop that clears the least place again and again passes each word once. Speed is not promised.
#![tactic(auto)]

ghost use Rattle.std.specs.Prelude.{◌≡◌, ◌≢◌, ◌+◌, ◌*◌, ◌^◌, ◌<◌, ◌≤◌, ℕ, Bool, List, None, IfOk, IfSome, cond, eqb};
ghost use Rattle.std.specs.Prelude.{false, true, length, replicate, slice_set};
ghost use Rattle.std.specs.Int.{bit_at};
ghost use Rattle.nofs_bits.specs.Bits.{IsFirst, NoneInWords, NoneSet, bit_of, count_set, is_set, truths};

use std::alloc::{AllocError, Global};
use std::marker::Model;

/// How many places a word has.
const WORD: u64 = 64;

/// A truth value for each place, counted from 0. No call but `new` takes memory.
#[derive(Drop)]
pub struct Bits {
    words: Vec<u64>,
    places: u64,
    set_places: u64,
    /// The least place that is set; `places` where none is.
    first: u64,
}

impl Model for Bits {
    ghost use Rattle.std.specs.Prelude.{◌≡◌, ◌+◌, ◌/◌, Bool, List, vec_len};
    ghost use Rattle.nofs_bits.specs.Bits.{IsFirst, count_set, truths};

    ghost Value = { List Bool };

    ghost view = { λ bits. truths bits.words.items bits.places };

    ghost invariant = { λ bits. (vec_len bits.words ≡ (bits.places + 63) / 64)
        × (bits.set_places ≡ count_set (truths bits.words.items bits.places))
        × IsFirst (truths bits.words.items bits.places) bits.first };
}

impl Bits {
    /// A map of `n` places, none of them set.
    pub fn new(alloc: Global, n: u64) -> Result<Self, AllocError>
        ensures { IfOk result (λ bits. bits ≡ replicate n false) }
    {
        Ok(Bits {
            words: vec![in alloc; 0u64; n.div_ceil(WORD) as usize]?,
            places: n,
            set_places: 0,
            first: n,
        })
    }

    /// Whether a place is set.
    pub fn get(&self, at: u64) -> bool
        requires { at < length self.now }
        ensures { result ≡ is_set self.now at }
    {
        has_bit(self.words[(at / WORD) as usize], at % WORD)
    }

    /// Sets a place or clears it, and changes no other.
    pub fn set(&mut self, at: u64, value: bool)
        requires { at < length self.old }
        ensures { self.new ≡ slice_set self.old at value }
    {
        let was = self.get(at);
        let index = (at / WORD) as usize;
        self.words[index] = with_bit(self.words[index], at % WORD, value);
        self.set_places = self.set_places - was as u64 + value as u64;
        self.first = first_after(&self.words, self.places, self.first, at, value);
    }

    /// How many places are set. It is kept, not counted.
    pub fn count(&self) -> u64
        ensures { result ≡ count_set self.now }
    {
        self.set_places
    }

    /// The least place at or after `from` that is set, and `None` exactly where there is none.
    pub fn next_set(&self, from: u64) -> Option<u64>
        ensures found { IfSome result (λ at. (from ≤ at) × (at < length self.now) × (is_set self.now at ≡ true)) }
        ensures least { IfSome result (λ at. NoneSet self.now from at) }
        ensures none { result ≡ None → NoneSet self.now from (length self.now) }
    {
        if self.first < from {
            return next_within(&self.words, self.places, from);
        }
        if self.first < self.places {
            Some(self.first)
        } else {
            None
        }
    }
}

/// The least place that is set once a place was changed, where `first` was the least before.
fn first_after(words: &[u64], places: u64, first: u64, at: u64, value: bool) -> u64
    requires long { length words.now ≤ 2 ^ 58 }
    requires whole { places ≤ length words.now * 64 }
    requires at { at < places }
    ensures { (bits : List Bool) → truths words.now places ≡ slice_set bits at value → IsFirst bits first
        → IsFirst (slice_set bits at value) result }
{
    if value {
        return if at < first { at } else { first };
    }
    if at != first {
        return first;
    }
    match next_within(words, places, at + 1) {
        Some(next) => next,
        None => places,
    }
}

/// The least place of a map at or after `from` that is set, where it lies in these words.
fn next_within(words: &[u64], places: u64, from: u64) -> Option<u64>
    requires long { length words.now ≤ 2 ^ 58 }
    requires whole { places ≤ length words.now * 64 }
    ensures found { IfSome result (λ at. (from ≤ at) × (at < places) × (is_set (truths words.now places) at ≡ true)) }
    ensures least { IfSome result (NoneSet (truths words.now places) from) }
    ensures none { result ≡ None → NoneSet (truths words.now places) from places }
{
    match next_in_words(words, from) {
        Some(at) if at < places => Some(at),
        _ => None,
    }
}

/// The least place of these words at or after `from` that is set.
fn next_in_words(words: &[u64], from: u64) -> Option<u64>
    requires { length words.now ≤ 2 ^ 58 }
    ensures found { IfSome result (λ at. (from ≤ at) × (bit_of words.now at ≡ true)) }
    ensures least { IfSome result (λ at. NoneInWords words.now from at) }
    ensures none { result ≡ None → NoneInWords words.now from (length words.now * 64) }
{
    let mut first = from % WORD;
    for index in (from / WORD) as usize..words.len() {
        match next_bit(words[index], first) {
            Some(bit) => return Some(index as u64 * WORD + bit),
            None => first = 0,
        }
    }
    None
}

/// Whether a bit of a word is set.
fn has_bit(word: u64, bit: u64) -> bool
    requires { bit < 64 }
    ensures { result ≡ eqb (bit_at word bit) 1 }
{
    (word >> bit) & 1 == 1
}

/// A word with one of its bits set or cleared.
fn with_bit(word: u64, bit: u64, value: bool) -> u64
    requires { bit < 64 }
    ensures there { bit_at result bit ≡ cond value 1 0 }
    ensures others { (i : ℕ) → i < 64 → i ≢ bit → bit_at result i ≡ bit_at word i }
{
    if value {
        word | (1 << bit)
    } else {
        word & !(1 << bit)
    }
}

/// The least bit of a word at or above `first` that is set.
fn next_bit(word: u64, first: u64) -> Option<u64>
    requires { first < 64 }
    ensures found { IfSome result (λ bit. (first ≤ bit) × (bit < 64) × (bit_at word bit ≡ 1)) }
    ensures least { IfSome result (λ bit. (i : ℕ) → first ≤ i → i < bit → bit_at word i ≡ 0) }
    ensures none { result ≡ None → (i : ℕ) → first ≤ i → i < 64 → bit_at word i ≡ 0 }
{
    let rest = word >> first;
    if rest == 0 {
        return None;
    }
    Some(first + rest.trailing_zeros() as u64)
}
