//! The words of the program.
//!
//! Promise: words are a command exactly where they have a shape of one.

ghost use Rattle.std.specs.Prelude.{◌≡◌, ◌∷◌, [], map, string_bytes};
ghost use Rattle.nofs_tool.specs.Begin.Words.{drill_in, is_dashed as is_dashed_in, new_in, plain_in, prefixed_in};
ghost use Rattle.nofs_tool.specs.Begin.Words.{task_in};

use nofs_gen::MOST_STEPS;
use nofs_script::number_of;

/// What the program is asked for.
#[derive(Clone, Copy, Debug, PartialEq, Eq)]
pub enum Request {
    /// Formats the device, mounts it and serves a session.
    New { blocks: u64, inodes: u64 },
    /// Mounts the device and serves a session.
    Run,
    /// Mounts the device, examines all of it, and prints what is used.
    Scan,
    /// Formats the device, mounts it, serves four users with drawn scripts, and tells whether their files have what was
    /// accepted.
    Drill { start: u64, steps: u64 },
    /// Raises an image of version 1 to version 2.
    Upgrade,
    /// Mounts the device and tells what is lost, of all names, or of those that begin with the word behind.
    Salvage,
    /// Mounts the device, and serves the frames of the source.
    Wire,
}

fn new_task(blocks: &str, inodes: &str) -> Option<Request>
    ensures { result ≡ new_in blocks.now inodes.now }
{
    let blocks = number_of(blocks.as_bytes())?;
    let inodes = number_of(inodes.as_bytes())?;
    Some(Request::New { blocks, inodes })
}

// At most 4,000 commands are drawn for a user.
fn drill_task(start: &str, steps: &str) -> Option<Request>
    ensures { result ≡ drill_in start.now steps.now }
{
    let start = number_of(start.as_bytes())?;
    let steps = number_of(steps.as_bytes())?;
    if steps <= MOST_STEPS {
        Some(Request::Drill { start, steps })
    } else {
        None
    }
}

fn plain_task(word: &str) -> Option<Request>
    ensures { result ≡ plain_in word.now }
{
    if word.as_bytes() == b"run".as_slice() {
        Some(Request::Run)
    } else if word.as_bytes() == b"scan".as_slice() {
        Some(Request::Scan)
    } else if word.as_bytes() == b"upgrade".as_slice() {
        Some(Request::Upgrade)
    } else if word.as_bytes() == b"salvage".as_slice() {
        Some(Request::Salvage)
    } else if word.as_bytes() == b"wire".as_slice() {
        Some(Request::Wire)
    } else {
        None
    }
}

// Whether a word begins with a dash. No word of a command does.
fn is_dashed(word: &[u8]) -> bool
    ensures { result ≡ is_dashed_in word.now }
{
    match word {
        [first, ..] => *first == b'-',
        [] => false,
    }
}

// A prefix has as many bytes as a name can have, and at least one.
fn prefixed_task(word: &str, prefix: &str) -> Option<Request>
    ensures { result ≡ prefixed_in word.now prefix.now }
{
    let count = prefix.len();
    if word.as_bytes() == b"salvage".as_slice()
        && 1 <= count
        && count <= 48
        && !is_dashed(prefix.as_bytes())
    {
        Some(Request::Salvage)
    } else {
        None
    }
}

// Of three words the last two are numbers.
fn numbers_task(first: &str, one: &str, two: &str) -> Option<Request>
    ensures { result ≡ task_in (first.now ∷ one.now ∷ two.now ∷ []) }
{
    if first.as_bytes() == b"new".as_slice() {
        new_task(one, two)
    } else if first.as_bytes() == b"drill".as_slice() {
        drill_task(one, two)
    } else {
        None
    }
}

/// The task that the words behind the image's path ask for.
pub fn task_of(words: &[String]) -> Option<Request>
    ensures { result ≡ task_in (map string_bytes words.now) }
{
    match words {
        [word] => plain_task(word),
        [word, prefix] => prefixed_task(word, prefix),
        [first, one, two] => numbers_task(first, one, two),
        _ => None,
    }
}
