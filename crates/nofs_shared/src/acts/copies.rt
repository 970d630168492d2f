//! A second reply: the caller gets one, and the history keeps the other.
ghost use Rattle.std.specs.Prelude.{◌≡◌, ◌⊎◌, true, false, IfOk, OnErr};
ghost use Rattle.nofs_history.specs.Faults.{is_fault};
ghost use Rattle.nofs_history.specs.Steps.{Fits, is_out_of_memory};
ghost use Rattle.nofs_history.specs.declared.machine.steps.Step.{Step};
ghost use Rattle.nofs_shared.specs.Acts.Contents.{reads_content};

use nofs_history::{NameLine, NameList, Reply};
use std::alloc::{AllocError, Global};

// A second line.
fn copy_line(alloc: Global, line: &NameLine) -> Result<NameLine, AllocError>
    ensures { IfOk result (λ copy. copy ≡ line.now) }
{
    let name = line.name.copy(alloc)?;
    let NameLine { kind, dead, .. } = *line;
    Ok(NameLine { name, kind, dead })
}

// A second list of the same lines.
fn copy_lines(alloc: Global, lines: &[NameLine]) -> Result<NameList, AllocError>
    ensures { IfOk result (λ copy. copy ≡ lines.now) }
{
    let mut copy = NameList::new(alloc);
    for place in 0..lines.len() {
        copy.push(copy_line(alloc, &lines[place])?)?;
    }
    Ok(copy)
}

// The same reply once more. It takes memory only where the reply has the content of a slot.
fn copy_reply(alloc: Global, reply: &Reply) -> Result<Reply, AllocError>
    ensures same { IfOk result (λ copy. copy ≡ reply.now) }
    ensures memory { OnErr result ((s : Step) → Fits s reply.now
        → (reads_content s ≡ true) × (is_fault reply.now ≡ false)) }
{
    match reply {
        Reply::Found(it) => Ok(Reply::Found(*it)),
        Reply::Made { inode, generation } => Ok(Reply::Made {
            inode: *inode,
            generation: *generation,
        }),
        Reply::Linked => Ok(Reply::Linked),
        Reply::Dropped { removed } => Ok(Reply::Dropped { removed: *removed }),
        Reply::Renamed => Ok(Reply::Renamed),
        Reply::Names(slot, lines) => match copy_lines(alloc, lines.as_slice()) {
            Ok(lines) => Ok(Reply::Names(*slot, lines)),
            Err(wanting) => Err(wanting),
        },
        Reply::LostNames(slot) => Ok(Reply::LostNames(*slot)),
        Reply::NoMore => Ok(Reply::NoMore),
        Reply::Bytes(bytes) => match bytes.copy(alloc) {
            Ok(bytes) => Ok(Reply::Bytes(bytes)),
            Err(wanting) => Err(wanting),
        },
        Reply::Hole => Ok(Reply::Hole),
        Reply::Lost => Ok(Reply::Lost),
        Reply::Stored => Ok(Reply::Stored),
        Reply::Resized => Ok(Reply::Resized),
        Reply::Stat(it) => Ok(Reply::Stat(*it)),
        Reply::Flushed => Ok(Reply::Flushed),
        Reply::Seen { used } => Ok(Reply::Seen { used: *used }),
        Reply::Refused(why) => Ok(Reply::Refused(*why)),
    }
}

/// The reply once more, for its entry. There is none where memory was wanting, for the step or for this reply.
pub(crate) fn kept_reply(alloc: Global, reply: &Reply) -> Result<Reply, AllocError>
    ensures same { IfOk result (λ kept. kept ≡ reply.now) }
    ensures made { IfOk result (λ kept. is_out_of_memory reply.now ≡ false) }
    ensures memory { OnErr result ((s : Step) → Fits s reply.now
        → ((reads_content s ≡ true) × (is_fault reply.now ≡ false)) ⊎ (is_out_of_memory reply.now ≡ true)) }
{
    if reply.is_out_of_memory() {
        return Err(AllocError);
    }
    copy_reply(alloc, reply)
}
