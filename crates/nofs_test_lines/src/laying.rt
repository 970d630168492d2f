//! Lays an image down cell by cell: each number where `docs/FORMAT.md` puts it.
//!
//! Promise: what does not fit into its cell is told, and not laid.

use crate::failure::Failure;
use crate::lines::{hex_bytes, number_of, words_of};
use nofs_disk::{Cell, write_bytes_at};
use std::alloc::{AllocError, Global};

// The most blocks that a disk of a case has.
const MOST_BLOCKS: u64 = 1_048_576;

// How many bytes each number has of a pointer, of a link, of a record of the inode table, and of a tag.
const POINTER: &[u64] = &[8, 8];

const LINK: &[u64] = &[4, 4, 8];

const RECORD: &[u64] = &[8, 4, 4, 8];

const TAG: &[u64] = &[4, 4, 8, 8, 8];

/// A block, and a place in its cell, whose tag follows the payload.
type Place = (u64, u64);

// A place of a record of the inode table, behind so many bytes of it.
fn in_record(inode: &str, at: Option<u64>) -> Option<Place> {
    let before = number_of(inode)?.checked_sub(1)?;
    let at = (before % 4 * 256).checked_add(at?)?;
    Some((before / 4 + 1, at))
}

fn in_block(block: &str, at: Option<u64>) -> Option<Place> {
    Some((number_of(block)?, at?))
}

// The place behind so many others of this size, of which the first stands there.
fn behind(count: &str, size: u64, first: u64) -> Option<u64> {
    number_of(count)?.checked_mul(size)?.checked_add(first)
}

// Where the numbers of a line begin, how many bytes each of them has, and the words that write them.
fn form_of<'a, 'b>(words: &'a [&'b str]) -> Option<(Option<Place>, &'static [u64], &'a [&'b str])> {
    match words {
        ["super", numbers @ ..] => Some((Some((0, 8)), TAG, numbers)),
        ["record", inode, numbers @ ..] => Some((in_record(inode, Some(0)), RECORD, numbers)),
        ["link", inode, count, numbers @ ..] => {
            Some((in_record(inode, behind(count, 16, 32)), LINK, numbers))
        }
        ["direct", inode, count, numbers @ ..] => {
            Some((in_record(inode, behind(count, 16, 96)), POINTER, numbers))
        }
        ["leaf", inode, numbers @ ..] => Some((in_record(inode, Some(224)), POINTER, numbers)),
        ["top", inode, numbers @ ..] => Some((in_record(inode, Some(240)), POINTER, numbers)),
        ["pointer", block, count, numbers @ ..] => {
            Some((in_block(block, behind(count, 16, 0)), POINTER, numbers))
        }
        ["tag", block, numbers @ ..] => Some((in_block(block, Some(1024)), TAG, numbers)),
        _ => None,
    }
}

/// Lays the images of these names down, one over the other.
pub fn lay_images(
    alloc: Global,
    cells: &mut Vec<Cell>,
    images: &[&str],
    names: &[&str],
) -> Result<(), Failure> {
    for name in names {
        lay_image(alloc, cells, images, name)?;
    }
    Ok(())
}

fn lay_image(
    alloc: Global,
    cells: &mut Vec<Cell>,
    images: &[&str],
    name: &str,
) -> Result<(), Failure> {
    let (mut current, mut any) = ("", false);
    for line in images {
        match line.strip_prefix("image ") {
            Some(found) => current = found,
            None if current == name => {
                any = true;
                lay(alloc, cells, &words_of(alloc, line)?)?;
            }
            None => {}
        }
    }
    if any {
        Ok(())
    } else {
        Err(Failure::Case("no image of this name"))
    }
}

/// Lays a line of an image down.
pub fn lay(alloc: Global, cells: &mut Vec<Cell>, words: &[&str]) -> Result<(), Failure> {
    match laid(alloc, cells, words)? {
        Some(()) => Ok(()),
        None => Err(Failure::Case("what does this line say?")),
    }
}

// Lays a line down: `None` where it is no line of an image.
fn laid(alloc: Global, cells: &mut Vec<Cell>, words: &[&str]) -> Result<Option<()>, Failure> {
    match words {
        [] => Ok(Some(())),
        ["disk", blocks] => Ok(lay_zeros(alloc, cells, number_of(blocks))?),
        ["bytes", block, at, digits] => {
            let bytes = hex_bytes(alloc, digits)?;
            Ok(put(cells, in_block(block, number_of(at)), &bytes))
        }
        ["text", block, at, text] => Ok(put(
            cells,
            in_block(block, number_of(at)),
            text.as_bytes(),
        )),
        ["entry", block, count, name, numbers @ ..] => {
            let place = in_block(block, behind(count, 64, 0));
            Ok(lay_entry(alloc, cells, place, name, numbers)?)
        }
        ["magic"] => Ok(put(cells, Some((0, 0)), b"NoFSv001".as_slice())),
        ["fill", byte] => Ok(fill(cells, number_of(byte))),
        _ => Ok(lay_form(alloc, cells, form_of(words))?),
    }
}

// So many cells of zeros, and no others.
fn lay_zeros(
    alloc: Global,
    cells: &mut Vec<Cell>,
    blocks: Option<u64>,
) -> Result<Option<()>, AllocError> {
    match blocks {
        Some(blocks) if blocks <= MOST_BLOCKS => {
            *cells = vec![in alloc; Cell::ZERO; blocks as usize]?;
            Ok(Some(()))
        }
        _ => Ok(None),
    }
}

// An entry of a directory's block: the inode, the length of the name, the generation and the name.
fn lay_entry(
    alloc: Global,
    cells: &mut [Cell],
    place: Option<Place>,
    name: &str,
    numbers: &[&str],
) -> Result<Option<()>, AllocError> {
    let [inode, generation] = numbers else {
        return Ok(None);
    };
    let (Some(inode), Some(generation)) = (number_of(inode), number_of(generation)) else {
        return Ok(None);
    };
    let mut bytes = Vec::new(alloc);
    push_number(&mut bytes, inode, 4)?;
    push_number(&mut bytes, name.len() as u64, 4)?;
    push_number(&mut bytes, generation, 8)?;
    bytes.extend_from_slice(name.as_bytes())?;
    Ok(put(cells, place, &bytes))
}

fn fill(cells: &mut [Cell], byte: Option<u64>) -> Option<()> {
    let byte = u8::try_from(byte?).ok()?;
    for cell in cells {
        *cell = Cell {
            payload: [byte; 1024],
            tag: [byte; 32],
        };
    }
    Some(())
}

fn lay_form(
    alloc: Global,
    cells: &mut [Cell],
    form: Option<(Option<Place>, &[u64], &[&str])>,
) -> Result<Option<()>, AllocError> {
    let Some((place, widths, numbers)) = form else {
        return Ok(None);
    };
    if numbers.len() != widths.len() {
        return Ok(None);
    }
    let mut bytes = Vec::new(alloc);
    for (word, width) in numbers.iter().zip(widths) {
        match number_of(word) {
            Some(number) => push_number(&mut bytes, number, *width)?,
            None => return Ok(None),
        }
    }
    Ok(put(cells, place, &bytes))
}

// Adds a number, its low byte first.
fn push_number(bytes: &mut Vec<u8>, value: u64, width: u64) -> Result<(), AllocError> {
    let mut left = value;
    for _ in 0..width {
        bytes.push((left % 256) as u8)?;
        left /= 256;
    }
    Ok(())
}

// Puts bytes at their place, if they fit.
fn put(cells: &mut [Cell], place: Option<Place>, bytes: &[u8]) -> Option<()> {
    let (block, at) = place?;
    let cell = cells.get_mut(block as usize)?;
    if at < 1024 {
        put_in(&mut cell.payload, at as usize, bytes)
    } else {
        put_in(&mut cell.tag, at as usize - 1024, bytes)
    }
}

fn put_in(all: &mut [u8], at: usize, bytes: &[u8]) -> Option<()> {
    if at > all.len() || bytes.len() > all.len() - at {
        return None;
    }
    write_bytes_at(all, at, bytes);
    Some(())
}
