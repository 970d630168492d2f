//! The stand-in itself.
ghost use Rattle.std.specs.Prelude.{◌≡◌};
ghost use Rattle.nofs_history.specs.Steps.{Fits};

use crate::fitting::fits;
use crate::made::MadeSteps;
use nofs_history::{Refusal, Reply, Step, Steps};

/// What a stand-in replies, and what it remembers of the steps that it was asked for.
pub trait Answers {
    /// The reply to a step. Where it does not fit, the stand-in replies `Stopped`.
    fn answer(&mut self, step: &Step) -> Reply;
}

/// A stand-in for a mount.
#[derive(Drop)]
pub struct Told<A: Answers> {
    /// Whoever decides its replies.
    pub answers: A,
    made: MadeSteps,
}

fn fitting(step: &Step, reply: Reply) -> Reply
    ensures { Fits step.now result }
{
    if fits(step, &reply) {
        reply
    } else {
        Reply::Refused(Refusal::Stopped)
    }
}

impl<A: Answers> Told<A> {
    /// A stand-in that has made no step.
    pub fn new(answers: A) -> Self
        ensures { result.answers ≡ answers }
    {
        Told {
            answers,
            made: MadeSteps::new(),
        }
    }
}

impl<A: Answers> Steps for Told<A> {
    ghost made = { λ told. told.made };

    ghost goes = { λ old new. Unit {0} };

    fn step(&mut self, step: Step) -> Reply {
        let reply = fitting(&step, self.answers.answer(&step));
        self.made.add(&step, &reply);
        reply
    }

    ghost goes_none = { λ steps. tt };

    ghost goes_on = { λ a b c first second. tt };
}
