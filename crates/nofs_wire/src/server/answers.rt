//! One frame's step, made and answered.
//!
//! Promise: a body that spells a step has it made once, and its reply spelled whole; of any other nothing is made.
ghost use Rattle.std.specs.Prelude.{Some};
ghost use Rattle.nofs_history.specs.declared.machine.steps.Step.{Step};
ghost use Rattle.nofs_wire.specs.Frames.Requests.{step_of};
ghost use Rattle.nofs_wire.specs.Server.Turns.{AnswersSo};

use crate::frames::replies::write_reply;
use crate::frames::requests::read_step;
use nofs_history::{Step, Steps};
use std::alloc::Global;

/// How far the step of a body was answered.
#[derive(Clone, Copy)]
pub enum Answered {
    /// The step was made, and its reply is there whole.
    Whole,
    /// The body spells no step.
    Bad,
    /// Memory was wanting for the step, in it, or for its reply.
    OutOfMemory,
}

/// Makes the step that a body spells, and makes `frame` the frame of its reply.
pub(crate) fn answer<S: Steps>(
    alloc: Global,
    steps: &mut S,
    body: &[u8],
    frame: &mut Vec<u8>,
) -> Answered
    ensures so { AnswersSo result (step_of body.now) (S.made steps.old) (S.made steps.new) frame.new.items }
    ensures goes { S.goes steps.old steps.new }
{
    match read_step(alloc, body) {
        Err(_) => Answered::OutOfMemory,
        Ok(None) => Answered::Bad,
        Ok(Some(step)) => make(steps, step, frame),
    }
}

fn make<S: Steps>(steps: &mut S, step: Step, frame: &mut Vec<u8>) -> Answered
    ensures so { AnswersSo result (Some step) (S.made steps.old) (S.made steps.new) frame.new.items }
    ensures goes { S.goes steps.old steps.new }
{
    let reply = steps.step(step);
    if reply.is_out_of_memory() {
        return Answered::OutOfMemory;
    }
    match write_reply(frame, &reply) {
        Ok(()) => Answered::Whole,
        Err(_) => Answered::OutOfMemory,
    }
}
