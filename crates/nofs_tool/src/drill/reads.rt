//! What the program itself, caller `PROGRAM`, reads of the files of a drill.
//!
//! Promise: it looks up each file in its directory, asks for its size, and gets each slot below it, in order. A refused
//! look or stat ends that file. Where memory is wanting it ends there: what it has made is a beginning of these steps.

ghost use Rattle.std.specs.Prelude.{◌≡◌, ◌≤◌, ◌∷◌, ◌++◌, [], List, length, true};
ghost use Rattle.std.specs.declared.option.Option.{Option};
ghost use Rattle.nofs_history.specs.Machine as machine;
ghost use Rattle.nofs_history.specs.declared.machine.replies.Reply.{Reply as Answer};
ghost use Rattle.nofs_history.specs.declared.machine.steps.Step.TheVariants as step;
ghost use Rattle.nofs_gen.specs.declared.tally.FileRead.{FileRead as ReadOf};
ghost use Rattle.nofs_tool.specs.Drill.{AreFourBegun, AreFourRead, AreSlotsBegun, IsFileBegun, IsFileRead, IsLookedUp};
ghost use Rattle.nofs_tool.specs.Drill.{IsNotBegun, IsOneStep, IsReadAt, IsReadAtBegun, IsReadIn, IsReadInBegun};
ghost use Rattle.nofs_tool.specs.Drill.{IsWholeRead, ReadsBy, found_in as found_by, gets_from, is_reading};
ghost use Rattle.nofs_tool.specs.Drill.{stat_in as stat_by};

use nofs_dirent::Name;
use nofs_disk::Disk;
use nofs_gen::FileRead;
use nofs_history::{Found, PROGRAM, Reply, Stat, Step};
use nofs_shared::Mount;
use std::alloc::{AllocError, Global};

// One step of the program itself. Where memory was wanting for it, none was made.
fn ask<D: Disk + Drop>(
    alloc: Global,
    mount: &mut Mount<D>,
    asked: Step,
) -> Result<Reply, AllocError>
    requires { is_reading asked ≡ true }
    ensures reads { ReadsBy (IsOneStep asked) IsNotBegun result mount.old.core.books.history.entries
        mount.new.core.books.history.entries }
    ensures same { (mount.new.found ≡ mount.old.found) × (mount.new.first ≡ mount.old.first) }
{
    let reply = mount.step(alloc, PROGRAM, asked);
    if reply.is_out_of_memory() {
        return Err(AllocError);
    }
    Ok(reply)
}

fn found_in(reply: &Reply) -> Option<Found>
    ensures { result ≡ found_by reply.now }
{
    match reply {
        Reply::Found(found) => Some(*found),
        _ => None,
    }
}

fn stat_in(reply: &Reply) -> Option<Stat>
    ensures { result ≡ stat_by reply.now }
{
    match reply {
        Reply::Stat(stat) => Some(*stat),
        _ => None,
    }
}

// How many slots a size reaches into.
fn slots_in(size: u64) -> u64
    ensures { result ≡ machine.slots_in size }
{
    size.div_ceil(1024)
}

// Gets every slot of a file.
fn read_slots<D: Disk + Drop>(
    alloc: Global,
    mount: &mut Mount<D>,
    found: Found,
    count: u64,
) -> Result<Vec<Reply>, AllocError>
    ensures reads { ReadsBy
        (λ replies made. (length replies.items ≡ count) × (made ≡ gets_from found 0 replies.items))
        (λ made. (rs : List Answer) × (made ≡ gets_from found 0 rs) × (length rs ≤ count)) result
        mount.old.core.books.history.entries mount.new.core.books.history.entries }
    ensures same { (mount.new.found ≡ mount.old.found) × (mount.new.first ≡ mount.old.first) }
{
    let mut replies = Vec::new(alloc);
    for slot in 0..count {
        let get = Step::Get {
            inode: found.inode,
            generation: found.generation,
            slot,
        };
        replies.push(ask(alloc, mount, get)?)?;
    }
    Ok(replies)
}

// What comes of reading a file: none where a look or the stat was refused.
type MaybeRead = Result<Option<FileRead>, AllocError>;

// Reads the file, whose size was told.
fn read_whole<D: Disk + Drop>(
    alloc: Global,
    mount: &mut Mount<D>,
    found: Found,
    stat: Stat,
) -> MaybeRead
    ensures reads { ReadsBy (IsWholeRead found stat) (AreSlotsBegun found stat) result
        mount.old.core.books.history.entries mount.new.core.books.history.entries }
    ensures same { (mount.new.found ≡ mount.old.found) × (mount.new.first ≡ mount.old.first) }
{
    let slots = read_slots(alloc, mount, found, slots_in(stat.size))?;
    Ok(Some(FileRead {
        found,
        size: stat.size,
        slots,
    }))
}

// Reads the file that was found.
fn read_found<D: Disk + Drop>(alloc: Global, mount: &mut Mount<D>, found: Found) -> MaybeRead
    ensures reads { ReadsBy (IsReadAt found) (IsReadAtBegun found) result
        mount.old.core.books.history.entries mount.new.core.books.history.entries }
    ensures same { (mount.new.found ≡ mount.old.found) × (mount.new.first ≡ mount.old.first) }
{
    let stat = Step::Stat {
        inode: found.inode,
        generation: found.generation,
    };
    let reply = ask(alloc, mount, stat)?;
    match stat_in(&reply) {
        None => Ok(None),
        Some(stat) => read_whole(alloc, mount, found, stat),
    }
}

// Looks up a name in a directory.
fn look_up<D: Disk + Drop>(
    alloc: Global,
    mount: &mut Mount<D>,
    name: &[u8],
    directory: u32,
    generation: u64,
) -> Result<Option<Found>, AllocError>
    ensures reads { ReadsBy (IsLookedUp directory generation name.now) IsNotBegun result
        mount.old.core.books.history.entries mount.new.core.books.history.entries }
    ensures same { (mount.new.found ≡ mount.old.found) × (mount.new.first ≡ mount.old.first) }
{
    let look = Step::Look {
        directory,
        generation,
        name: Name::from_slice(alloc, name)?,
    };
    let reply = ask(alloc, mount, look)?;
    Ok(found_in(&reply))
}

// Looks up the file in its directory and reads it.
fn read_in<D: Disk + Drop>(alloc: Global, mount: &mut Mount<D>, directory: Found) -> MaybeRead
    ensures reads { ReadsBy (IsReadIn directory) (IsReadInBegun directory) result
        mount.old.core.books.history.entries mount.new.core.books.history.entries }
    ensures same { (mount.new.found ≡ mount.old.found) × (mount.new.first ≡ mount.old.first) }
{
    match look_up(alloc, mount, b"f", directory.inode, directory.generation)? {
        None => Ok(None),
        Some(found) => read_found(alloc, mount, found),
    }
}

// Looks up the directory of a user and reads the file in it.
fn read_file<D: Disk + Drop>(alloc: Global, mount: &mut Mount<D>, user: u32) -> MaybeRead
    requires { user ≤ 4 }
    ensures reads { ReadsBy (IsFileRead user) (IsFileBegun user) result
        mount.old.core.books.history.entries mount.new.core.books.history.entries }
    ensures same { (mount.new.found ≡ mount.old.found) × (mount.new.first ≡ mount.old.first) }
{
    match look_up(alloc, mount, &[b'0' + user as u8], 1, 1)? {
        None => Ok(None),
        Some(directory) => read_in(alloc, mount, directory),
    }
}

// Reads the file of a user and keeps what was read.
fn push_read<D: Disk + Drop>(
    alloc: Global,
    mount: &mut Mount<D>,
    user: u32,
    reads: &mut Vec<Option<FileRead>>,
) -> Result<(), AllocError>
    requires { user ≤ 4 }
    ensures reads { ReadsBy (λ _ made. (read : Option ReadOf) × (reads.new.items ≡ reads.old.items ++ read ∷ [])
        × IsFileRead user read made)
        (IsFileBegun user) result mount.old.core.books.history.entries mount.new.core.books.history.entries }
    ensures same { (mount.new.found ≡ mount.old.found) × (mount.new.first ≡ mount.old.first) }
{
    reads.push(read_file(alloc, mount, user)?)?;
    Ok(())
}

/// Reads the files of the four users, one after the other. None stands for a file of which a look or the stat was
/// refused. Where memory is wanting, what was asked for is a beginning of what a whole reading asks for.
pub(crate) fn read_files<D: Disk + Drop>(
    alloc: Global,
    mount: &mut Mount<D>,
) -> Result<Vec<Option<FileRead>>, AllocError>
    ensures reads { ReadsBy (λ reads made. AreFourRead reads.items made) AreFourBegun result
        mount.old.core.books.history.entries mount.new.core.books.history.entries }
    ensures same { (mount.new.found ≡ mount.old.found) × (mount.new.first ≡ mount.old.first) }
{
    let mut reads = Vec::new(alloc);
    push_read(alloc, mount, 1, &mut reads)?;
    push_read(alloc, mount, 2, &mut reads)?;
    push_read(alloc, mount, 3, &mut reads)?;
    push_read(alloc, mount, 4, &mut reads)?;
    Ok(reads)
}
