//! Frames at the front of the bytes that came so far (docs/FORMAT.md, "Frames").
//!
//! Promise: a frame counts only where it is whole, and its length is judged as soon as it is there.
ghost use Rattle.std.specs.Prelude.{◌≡◌, ◌+◌, ◌≤◌, length};
ghost use Rattle.nofs_wire.specs.Frames.Split.{FitsFront, body_of, front_of as front_in, sized_front};

use nofs_disk::read_u32_at;

/// How many bytes the length of a frame takes.
pub(crate) const LENGTH_BYTES: usize = 4;

/// How many bytes the body of a frame has at most.
pub(crate) const BODY_LIMIT: usize = 1100;

/// How many bytes a frame has at most.
pub(crate) const FRAME_LIMIT: usize = 1104;

/// What stands in front of some bytes.
#[derive(Clone, Copy)]
pub enum Front {
    /// A frame that isn't whole: so many bytes are wanted to know more of it.
    Short { wanted: usize },
    /// A frame whose length is out of range.
    Bad,
    /// A whole frame, whose body has so many bytes.
    Whole { size: usize },
}

/// What stands in front.
#[tactic(auto, unfolding(crate::specs::Frames::Split::front_of))]
pub(crate) fn front_of(bytes: &[u8]) -> Front
    ensures is { result ≡ front_in bytes.now }
    ensures fits { FitsFront result (length bytes.now) }
{
    if bytes.len() < LENGTH_BYTES {
        return Front::Short {
            wanted: LENGTH_BYTES,
        };
    }
    let size = read_u32_at(bytes, 0);
    sized_front(size as usize, bytes.len())
}

/// The body of a whole frame in front, by its size.
pub(crate) fn front_body(bytes: &[u8], size: usize) -> &[u8]
    requires { 4 + size ≤ length bytes.now }
    ensures { result.now ≡ body_of size bytes.now }
{
    let (_, behind) = bytes.split_at(LENGTH_BYTES);
    let (body, _) = behind.split_at(size);
    body
}

#[tactic(auto, unfolding(crate::specs::Frames::Split::sized_front))]
fn sized_front(size: usize, here: usize) -> Front
    requires { 4 ≤ here }
    ensures is { result ≡ sized_front size here }
    ensures fits { FitsFront result here }
{
    if size < 1 || size > BODY_LIMIT {
        return Front::Bad;
    }
    if here < LENGTH_BYTES + size {
        Front::Short {
            wanted: LENGTH_BYTES + size,
        }
    } else {
        Front::Whole { size }
    }
}
