//! Bytes of an image from a place on, with zeros past its end.
ghost use Rattle.std.specs.Prelude.{◌≡◌, ◌+◌, ◌^◌, ◌<◌, length};
ghost use Rattle.nofs_disk.specs.CellsOfBytes.{part_of};
ghost use Rattle.nofs_reader.specs.Layouts.{blank_cell, cell_from};

use nofs_disk::{Cell, clear, write_bytes_at};

/// Reads the cell that stands from a place on.
pub(crate) fn read_cell(bytes: &[u8], at: usize, into: &mut Cell)
    requires { at + 1056 < 2 ^ 63 }
    ensures { into.new ≡ cell_from bytes.now at }
{
    read_bytes(bytes, at, &mut into.payload);
    read_bytes(bytes, at + 1024, &mut into.tag);
}

/// A cell of zeros.
pub(crate) fn clear_cell(into: &mut Cell)
    ensures { into.new ≡ blank_cell }
{
    into.note_sizes();
    clear(&mut into.payload);
    clear(&mut into.tag);
}

/// Copies the bytes from a place on, with zeros past the end.
pub(crate) fn read_bytes(bytes: &[u8], at: usize, into: &mut [u8])
    requires { at + length into.old < 2 ^ 63 }
    ensures { into.new ≡ part_of bytes.now at (length into.old) }
{
    let end = at + into.len();
    if end <= bytes.len() {
        into.copy_from_slice(&bytes[at..end]);
    } else {
        read_end(bytes, at, into);
    }
}

// Copies what there is from a place on, which is less than is asked for, and zeros behind it.
fn read_end(bytes: &[u8], at: usize, into: &mut [u8])
    requires { length bytes.now < at + length into.old }
    ensures { into.new ≡ part_of bytes.now at (length into.old) }
{
    clear(into);
    if at < bytes.len() {
        write_bytes_at(into, 0, &bytes[at..]);
    }
}
