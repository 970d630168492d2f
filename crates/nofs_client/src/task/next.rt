//! What a command does next.
//!
//! Promise: plain data: a step, or the line that the command ends with.
use crate::task::lines::Line;
use nofs_history::Step;

/// What a command does next.
#[derive(Drop)]
pub enum Next {
    /// It makes this step.
    Do(Step),
    /// It ends with this line.
    Say(Line),
}
