//! Kind, size and number of names of a file or directory.
ghost use Rattle.std.specs.Prelude.{◌≡◌, false, length};
ghost use Rattle.nofs_history.specs.Claims.{no_claims};
ghost use Rattle.nofs_history.specs.Steps.{is_out_of_memory};
ghost use Rattle.nofs_history.specs.declared.machine.steps.Step.TheVariants as step;
ghost use Rattle.nofs_agree.specs.Reads.{IsLast, KnowsInode};
ghost use Rattle.nofs_state.specs.Books.Maps.{IsSafe};
ghost use Rattle.nofs_state.specs.Cores.Steps.{Goes};
ghost use Rattle.nofs_files.specs.Reads.{CountsLinks, stat_answer};

use nofs_agree::{LastRead, is_agreed_link};
use nofs_disk::{Disk, Failed};
use nofs_history::{Refusal, Stat};
use nofs_inode::Record;
use nofs_state::{Books, Core, open_inode};

/// The kind, the size and the number of names of a file or directory. It takes no memory.
pub fn stat<D: Disk + Drop>(
    core: &mut Core<D>,
    inode: u32,
    generation: u64,
) -> Result<Stat, Refusal>
    requires { IsSafe (D.state core.old.disk) core.old.books }
    ensures goes { Goes (D.state core.old.disk) core.old.books (D.state core.new.disk) core.new.books
        (step.Stat inode generation) no_claims (stat_answer result) }
    ensures no_memory { is_out_of_memory (stat_answer result) ≡ false }
{
    if core.books.stopped {
        return Err(Refusal::Stopped);
    }
    let mut last = LastRead::NONE;
    let it = match open_inode(&mut core.disk, &core.books, inode, generation, &mut last) {
        Ok(it) => it,
        Err(why) => return Err(why),
    };
    match count_links(&mut core.disk, &core.books, inode, &it.found, &mut last) {
        Ok(links) => Ok(Stat {
            kind: it.kind,
            size: it.found.size,
            links,
        }),
        Err(_) => Err(Refusal::ReadFault),
    }
}

// How many back links of an inode are pairs with agreed directories.
fn count_links<D: Disk>(
    disk: &mut D,
    books: &Books,
    inode: u32,
    it: &Record,
    last: &mut LastRead,
) -> Result<u32, Failed>
    requires known { KnowsInode (D.state disk.old) books.now.at inode it.now }
    requires agreed { length books.now.agreement ≡ books.now.at.inodes }
    requires last { IsLast (D.state disk.old) last.old }
    ensures { CountsLinks (D.state disk.old) (D.state disk.new) books.now.agreement inode it.now result }
{
    let mut links = 0;
    for place in 0..4 {
        let is_pair = is_agreed_link(
            disk,
            &books.at,
            &books.agreement,
            inode,
            it,
            &it.links[place],
            last,
        )?;
        links += u32::from(is_pair);
    }
    Ok(links)
}
