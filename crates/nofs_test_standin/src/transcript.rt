//! A stand-in that replies what the lines of a case tell, and writes down what it was asked for.
//!
//! A line is a step, `->` and the reply to it.

use crate::mount::Answers;
use crate::replies::reply_of;
use crate::spelling::step_text;
use nofs_history::{Refusal, Reply, Step};
use std::alloc::{AllocError, Global};

/// Replies from the lines of a case, in turn; without one, `Stopped`.
#[derive(Drop)]
pub struct Transcript<'a> {
    alloc: Global,
    told: &'a str,
    /// The steps so far with the replies that were told, each on its line.
    pub text: String,
}

impl<'a> Transcript<'a> {
    /// A stand-in that was asked for no step.
    pub fn new(alloc: Global, told: &'a str) -> Self {
        Transcript {
            alloc,
            told,
            text: String::new(alloc),
        }
    }

    fn note(&mut self, step: &Step) -> Result<Reply, AllocError> {
        let (line, rest) = self.told.split_once('\n').unwrap_or((self.told, ""));
        let (_, reply) = line.split_once(" -> ").unwrap_or(("", "refused Stopped"));
        self.told = rest;
        self.text.push_str(step_text(self.alloc, step)?.as_str())?;
        self.text.push_str(" -> ")?;
        self.text.push_str(reply)?;
        self.text.push_str("\n")?;
        reply_of(self.alloc, reply)
    }
}

impl Answers for Transcript<'_> {
    fn answer(&mut self, step: &Step) -> Reply {
        match self.note(step) {
            Ok(reply) => reply,
            Err(_) => Reply::Refused(Refusal::OutOfMemory),
        }
    }
}
