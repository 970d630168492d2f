//! What workers are given to do, with the facts that their work rests on.
ghost use Rattle.std.specs.Prelude.{◌≡◌, ◌^◌, ◌<◌};
ghost use Rattle.nofs_client.specs.Task.Commands.{AreWellFormed};

use crate::course::Course;
use nofs_client::CommandList;

/// The commands of one user, each well formed.
#[derive(Drop)]
pub struct Script {
    /// The commands, in order.
    pub commands: CommandList,
    ghost formed: { ∥ AreWellFormed commands ∥₁ },
}

impl Script {
    /// A script of these commands.
    pub fn new(commands: CommandList) -> Self
        requires { AreWellFormed commands }
        ensures { result.commands ≡ commands }
    {
        Script { commands }
    }
}

/// Inodes in an order: item `n` is inode `n + 1`, so that there are fewer than 2^32 of them.
#[derive(Drop)]
pub struct Inodes<O: Course> {
    /// The order of the items.
    pub order: O,
    ghost small: { O.count_of order < 2 ^ 32 },
}

impl<O: Course> Inodes<O> {
    /// The inodes of an order.
    pub fn new(order: O) -> Self
        requires { O.count_of order < 2 ^ 32 }
        ensures { result.order ≡ order }
    {
        Inodes { order }
    }
}
