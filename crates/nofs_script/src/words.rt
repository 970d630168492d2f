//! The words of a line, and the numbers among them.

ghost use Rattle.std.specs.Prelude.{◌≡◌, ◌≢◌, ◌+◌, ◌<◌, ◌≤◌, ◌*◌, ◌^◌, ◌==◌, ◌∷◌, ◌++◌, [], All, IfOk, IfSome};
ghost use Rattle.std.specs.Prelude.{MatchOption, OnOk, Some, drop, filter, length, map, slice_get, take, true};
ghost use Rattle.std.specs.List.{list_all};
ghost use Rattle.std.specs.Char.{is_ascii_digit};
ghost use Rattle.std.specs.Str.{bytes_eq};
ghost use Rattle.std.specs.Option.{SomeIff};
ghost use Rattle.nofs_script.specs.Words.{words_of, number_of as number_in, piece_of, is_word};
ghost use Rattle.nofs_script.specs.Words.{is_number as is_number_word, digits_value as value_in};

use memchr::memchr;
use std::alloc::{AllocError, Global};

// No command has more words than 4, so a fifth one tells enough.
const MOST_WORDS: usize = 5;

/// The first place of a byte. The lines of puts are long, so the search is one by vectors.
pub(crate) fn place_of(byte: u8, text: &[u8]) -> Option<usize>
    ensures first { MatchOption result (All (λ other. other ≢ byte) text.now)
        (λ end. (slice_get text.now end ≡ Some byte) × All (λ other. other ≢ byte) (take end text.now)) }
    ensures within { IfSome result (λ end. end < length text.now) }
{
    memchr(byte, text)
}

/// The text behind a place.
pub(crate) fn text_after(text: &[u8], end: usize) -> &[u8]
    requires { end < length text.now }
    ensures { result.now ≡ drop (end + 1) text.now }
{
    &text[end + 1..]
}

// Adds a piece, if it is a word.
fn push_word<'a>(words: &mut Vec<&'a [u8]>, piece: &'a [u8]) -> Result<(), AllocError>
    ensures words { OnOk result
        (map piece_of words.new.items ≡ map piece_of words.old.items ++ filter is_word (piece.now ∷ [])) }
    ensures one { OnOk result (length words.new.items ≤ length words.old.items + 1) }
{
    if !piece.is_empty() {
        words.push(piece)?;
    }
    Ok(())
}

/// The first five words of a line: no command has as many.
pub(crate) fn words<'a>(alloc: Global, line: &'a [u8]) -> Result<Vec<&'a [u8]>, AllocError>
    ensures { IfOk result (λ words. map piece_of words.items ≡ take 5 (words_of line.now)) }
{
    let mut words = Vec::new(alloc);
    let mut rest = line;
    'spaces: while words.len() < MOST_WORDS {
        match place_of(b' ', rest) {
            None => {
                push_word(&mut words, rest)?;
                return Ok(words);
            }
            Some(end) => {
                push_word(&mut words, &rest[..end])?;
                rest = text_after(rest, end);
            }
        }
    }
    Ok(words)
}

/// Whether a word is spelled so.
pub(crate) fn is_spelled(word: &[u8], so: &str) -> bool
    ensures { result ≡ bytes_eq word.now so.now }
{
    word == so.as_bytes()
}

fn all_digits(word: &[u8]) -> bool
    ensures { result ≡ list_all is_ascii_digit word.now }
{
    let mut all = true;
    for byte in word {
        all &= byte.is_ascii_digit();
    }
    all
}

fn is_number(word: &[u8]) -> bool
    ensures { result ≡ is_number_word word.now }
{
    !word.is_empty() && word.len() <= 20 && (word.len() == 1 || word[0] != b'0') && all_digits(word)
}

fn value_of(digits: &[u8]) -> Option<u64>
    requires { list_all is_ascii_digit digits.now ≡ true }
    ensures { SomeIff result (value_in digits.now < 2 ^ 64) (value_in digits.now) }
{
    let mut value: u64 = 0;
    for b in digits {
        value = value.checked_mul(10)?.checked_add(u64::from(*b - b'0'))?;
    }
    Some(value)
}

/// The number that a word spells.
pub fn number_of(word: &[u8]) -> Option<u64>
    ensures { result ≡ number_in word.now }
{
    if is_number(word) {
        value_of(word)
    } else {
        None
    }
}
