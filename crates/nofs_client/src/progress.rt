//! Where a command stands, with the steps that make room: a step that was answered Full or InodesFull
//! is repeated as long as the disk has unexamined elements and ever fewer of them.
ghost use Rattle.std.specs.Prelude.{◌≡◌, ◌&&◌, IfOk};
ghost use Rattle.nofs_history.specs.declared.machine.replies.Reply.TheVariants.{Refused};
ghost use Rattle.nofs_client.specs.Task.Commands.{IsWellFormed};
ghost use Rattle.nofs_client.specs.Task.State.{TaskStands};
ghost use Rattle.nofs_client.specs.Task.Steps.{IsAsked, Answers, IsAnsweredTask};
ghost use Rattle.nofs_client.specs.Progress.{StandsAs, goes_on as is_going_on, start_of, fresh_progress as fresh_of};
ghost use Rattle.nofs_client.specs.Progress.{step_answered as ended_by, examines_block as block_seen};
ghost use Rattle.nofs_client.specs.Progress.{examines_inode as inode_seen, asks as asks_of, stored_by};
ghost use Rattle.nofs_client.specs.Progress.{after_step as step_after, after_refused as refused_after};
ghost use Rattle.nofs_client.specs.Progress.{after_see as see_after, progress_after as after_of};

use crate::task::answers::task_after;
use crate::task::commands::Command;
use crate::task::state::{Task, first_task, refused};
use crate::task::steps::task_step;
use nofs_history::{Refusal, Reply, Step};
use std::alloc::{AllocError, Global};

/// What is examined before a step is repeated.
#[derive(Clone, Copy, Debug, PartialEq, Eq)]
pub enum See {
    Block(u64),
    Inode(u32),
}

/// Where a command stands.
#[derive(Drop)]
pub struct Progress {
    pub task: Task,
    /// How many blocks were unexamined at the last reply Full to the task's step.
    pub full: Option<u64>,
    /// How many inodes were unexamined at the last reply InodesFull to the task's step.
    pub inodes: Option<u64>,
    /// What comes before the task's step.
    pub see: Option<See>,
}

fn fresh(task: Task) -> Progress
    ensures { result ≡ fresh_of task }
{
    Progress {
        task,
        full: None,
        inodes: None,
        see: None,
    }
}

/// Where a command stands before its first step.
pub(crate) fn start(alloc: Global, command: &Command) -> Progress
    requires { IsWellFormed command.now }
    ensures is { result ≡ start_of command.now }
    ensures stands { TaskStands command.now result.task }
{
    fresh(first_task(alloc, command))
}

/// The next step of a command; none where it has its line.
pub(crate) fn next_step(
    alloc: Global,
    command: &Command,
    progress: &Progress,
) -> Result<Option<Step>, AllocError>
    requires { TaskStands command.now progress.now.task }
    ensures { IfOk result (λ step. IsAsked (asks_of command.now progress.now) step) }
{
    match progress.see {
        Some(See::Block(block)) => Ok(Some(Step::SeeBlock { block })),
        Some(See::Inode(inode)) => Ok(Some(Step::SeeInode { inode })),
        None => task_step(alloc, command, &progress.task),
    }
}

fn goes_on(unverified: u64, last: Option<u64>) -> bool
    ensures { result ≡ is_going_on unverified last }
{
    match last {
        None => unverified > 0,
        Some(last) => unverified > 0 && unverified < last,
    }
}

fn sees_block(progress: Progress, unverified: u64, next: u64) -> Progress
    ensures { result ≡ block_seen progress unverified next }
{
    Progress {
        task: progress.task,
        full: Some(unverified),
        inodes: progress.inodes,
        see: Some(See::Block(next)),
    }
}

fn sees_inode(progress: Progress, unverified: u64, next: u32) -> Progress
    ensures { result ≡ inode_seen progress unverified next }
{
    Progress {
        task: progress.task,
        full: progress.full,
        inodes: Some(unverified),
        see: Some(See::Inode(next)),
    }
}

/// A command and what its steps are made with.
#[derive(Clone, Copy)]
struct Asker<'a> {
    alloc: Global,
    command: &'a Command,
}

impl Asker<'_> {
    // The step of the task was answered for good.
    fn ended(&self, progress: Progress, reply: &Reply) -> Result<Progress, AllocError>
        requires { IsAnsweredTask self.now.command.now progress.task reply.now }
        ensures { IfOk result (StandsAs self.now.command.now (ended_by self.now.command.now progress reply.now)) }
    {
        Ok(fresh(task_after(self.alloc, self.command, progress.task, reply)?))
    }

    // A refusal for good, or for want of room that may be found yet.
    fn after_refused(&self, progress: Progress, refusal: &Refusal) -> Result<Progress, AllocError>
        requires { IsAnsweredTask self.now.command.now progress.task (Refused refusal.now) }
        ensures { IfOk result
            (StandsAs self.now.command.now (refused_after self.now.command.now progress refusal.now)) }
    {
        match *refusal {
            Refusal::Full {
                needed: _,
                free: _,
                unverified,
                next,
            } if goes_on(unverified, progress.full) => Ok(sees_block(progress, unverified, next)),
            Refusal::InodesFull { unverified, next } if goes_on(unverified, progress.inodes) => {
                Ok(sees_inode(progress, unverified, next as u32))
            }
            _ => self.ended(progress, &Reply::Refused(*refusal)),
        }
    }

    fn after_step(&self, progress: Progress, reply: &Reply) -> Result<Progress, AllocError>
        requires { IsAnsweredTask self.now.command.now progress.task reply.now }
        ensures { IfOk result (StandsAs self.now.command.now (step_after self.now.command.now progress reply.now)) }
    {
        match reply {
            Reply::Refused(refusal) => self.after_refused(progress, refusal),
            _ => self.ended(progress, reply),
        }
    }
}

fn stored(task: &Task) -> u64
    ensures { result ≡ stored_by task.now }
{
    match task {
        Task::Putting { at: _, done } => *done,
        Task::Looking { .. }
        | Task::LookingNew { .. }
        | Task::Acting { .. }
        | Task::Linking { .. }
        | Task::Getting { .. }
        | Task::Listing { .. }
        | Task::Ended(_) => 0,
    }
}

fn after_see(command: &Command, progress: Progress, reply: &Reply) -> Progress
    requires { TaskStands command.now progress.task }
    ensures is { result ≡ see_after command.now progress reply.now }
    ensures stands { TaskStands command.now result.task }
{
    match reply {
        Reply::Refused(refusal) => fresh(refused(command, stored(&progress.task), *refusal)),
        _ => {
            let Progress {
                task,
                full,
                inodes,
                see: _,
            } = progress;
            Progress {
                task,
                full,
                inodes,
                see: None,
            }
        }
    }
}

/// Where a command stands after a reply.
pub(crate) fn after(
    alloc: Global,
    command: &Command,
    progress: Progress,
    reply: &Reply,
) -> Result<Progress, AllocError>
    requires formed { IsWellFormed command.now }
    requires stands { TaskStands command.now progress.task }
    requires fits { Answers (asks_of command.now progress) reply.now }
    ensures is { IfOk result (λ next. next ≡ after_of command.now progress reply.now) }
    ensures stands { IfOk result (λ next. TaskStands command.now next.task) }
{
    match progress.see {
        None => Asker { alloc, command }.after_step(progress, reply),
        Some(_) => Ok(after_see(command, progress, reply)),
    }
}
