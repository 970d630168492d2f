//! The functions that C calls.
//!
//! Promise: the number that is returned is 0 where the call has an answer, and else says why it has none, as
//! `specs/Codes.antt` numbers the causes; then what `out` points to is unchanged. It is that of the definitions, but
//! where it is 15: then a page of the image can't be told.
ghost use Rattle.std.specs.Prelude.{◌≡◌, ◌≤◌, None, length};
ghost use Rattle.nofs_reader.specs.Answers.{any_unread, directory_unread, image_unread, superblock_of};
ghost use Rattle.nofs_reader.specs.Counts.{IsUsed, counts_unread};
ghost use Rattle.nofs_reader.specs.Gets.{get_unread};
ghost use Rattle.nofs_reader.specs.Image.{image_of};
ghost use Rattle.nofs_reader_c.specs.Codes.{IsCode};
ghost use Rattle.nofs_reader_c.specs.Gives.{GivesLooked, GivesNext, GivesRun, GivesStat, GivesSuperblock};

use crate::codes::unread_code;
use crate::outs::{
    CLine, CRun, CStat, CSuperblock, looked_of, next_of, run_of, stat_of, superblock_of,
};
use nofs_reader::{Used, counts, get, look, next_line, stat, superblock};

/// The numbers of the superblock of an image.
#[unsafe(no_mangle)]
#[tactic(auto, using(crate::proofs::OnCodes::coded, crate::proofs::OnCodes::coded_ok))]
pub extern "C" fn nofs_reader_superblock(image: &[u8], out: &mut CSuperblock) -> u32
    ensures code { IsCode image.now (image_unread (superblock_of (image_of image.now)) None) result }
    ensures unchanged { 1 ≤ result → out.new ≡ out.old }
    ensures given { result ≡ 0 → GivesSuperblock (image_of image.now) out.new }
{
    match superblock(image) {
        Ok(it) => {
            *out = superblock_of(&it);
            0
        }
        Err(why) => unread_code(why),
    }
}

/// How many inodes and blocks of an image are used. `marks` has room for a byte an inode.
#[unsafe(no_mangle)]
#[tactic(auto, using(crate::proofs::OnCodes::coded, crate::proofs::OnCodes::coded_ok))]
pub extern "C" fn nofs_reader_counts(image: &[u8], marks: &mut [u8], out: &mut Used) -> u32
    ensures code { IsCode image.now (counts_unread (image_of image.now) (length marks.old)) result }
    ensures len { length marks.new ≡ length marks.old }
    ensures given { result ≡ 0 → IsUsed (image_of image.now) out.new }
    ensures unchanged { 1 ≤ result → out.new ≡ out.old }
{
    match counts(image, marks) {
        Ok(it) => {
            *out = it;
            0
        }
        Err(why) => unread_code(why),
    }
}

/// What an agreed inode is.
#[unsafe(no_mangle)]
#[tactic(auto, using(crate::proofs::OnCodes::coded, crate::proofs::OnCodes::coded_ok))]
pub extern "C" fn nofs_reader_stat(image: &[u8], inode: u32, out: &mut CStat) -> u32
    ensures code { IsCode image.now (any_unread (image_of image.now) inode) result }
    ensures given { result ≡ 0 → GivesStat (image_of image.now) inode out.new }
    ensures unchanged { 1 ≤ result → out.new ≡ out.old }
{
    match stat(image, inode) {
        Ok(it) => {
            *out = stat_of(&it);
            0
        }
        Err(why) => unread_code(why),
    }
}

/// What the slots of a file from one on hold.
#[unsafe(no_mangle)]
#[tactic(auto, using(crate::proofs::OnCodes::coded, crate::proofs::OnCodes::coded_ok))]
pub extern "C" fn nofs_reader_get(
    image: &[u8],
    inode: u32,
    slot: u64,
    into: &mut [u8],
    out: &mut CRun,
) -> u32
    ensures code { IsCode image.now (get_unread (image_of image.now) inode slot (length into.old)) result }
    ensures len { length into.new ≡ length into.old }
    ensures given { result ≡ 0 → GivesRun (image_of image.now) inode slot into.old into.new out.new }
    ensures unread { 1 ≤ result → into.new ≡ into.old }
    ensures unchanged { 1 ≤ result → out.new ≡ out.old }
{
    match get(image, inode, slot, into) {
        Ok(it) => {
            *out = run_of(&it);
            0
        }
        Err(why) => unread_code(why),
    }
}

/// What a directory has at the first place from one on at which something stands.
#[unsafe(no_mangle)]
#[tactic(auto, using(crate::proofs::OnCodes::coded, crate::proofs::OnCodes::coded_ok))]
pub extern "C" fn nofs_reader_next(image: &[u8], directory: u32, place: u32, out: &mut CLine) -> u32
    ensures code { IsCode image.now (directory_unread (image_of image.now) directory) result }
    ensures given { result ≡ 0 → GivesNext (image_of image.now) directory place out.new }
    ensures unchanged { 1 ≤ result → out.new ≡ out.old }
{
    match next_line(image, directory, place) {
        Ok(it) => {
            *out = next_of(&it);
            0
        }
        Err(why) => unread_code(why),
    }
}

/// What a name finds in a directory.
#[unsafe(no_mangle)]
#[tactic(auto, using(crate::proofs::OnCodes::coded, crate::proofs::OnCodes::coded_ok))]
pub extern "C" fn nofs_reader_look(
    image: &[u8],
    directory: u32,
    name: &[u8],
    out: &mut CLine,
) -> u32
    ensures code { IsCode image.now (directory_unread (image_of image.now) directory) result }
    ensures given { result ≡ 0 → GivesLooked (image_of image.now) directory name.now out.new }
    ensures unchanged { 1 ≤ result → out.new ≡ out.old }
{
    match look(image, directory, name) {
        Ok(it) => {
            *out = looked_of(&it);
            0
        }
        Err(why) => unread_code(why),
    }
}
