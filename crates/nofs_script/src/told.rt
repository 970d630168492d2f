//! What a run has to tell at its end.
//!
//! Promise: it is known whole before any of it is told, and telling it takes no memory.

ghost use Rattle.std.specs.Prelude.{◌≡◌, OnErr, OnOk, flat_map};
ghost use Rattle.nofs_script.specs.Text.{text_of};
ghost use Rattle.nofs_io.specs.Calls.{HasCause};
ghost use Rattle.nofs_io.specs.Texts.{AppendsAll, AppendsPart};

use crate::tell::tell_all;
use nofs_client::LineList;
use nofs_io::{Failed, Sink};
use std::alloc::Global;
use std::marker::Model;

/// A text, and lines of users behind it. What is seen of it is the text of both.
#[derive(Drop)]
pub struct Told {
    text: Vec<u8>,
    users: Vec<LineList>,
}

impl Model for Told {
    ghost use Rattle.std.specs.Prelude.{ℕ, List, ◌++◌, flat_map};
    ghost use Rattle.nofs_script.specs.Text.{text_of};

    ghost Value = { List ℕ };

    ghost view = { λ told. told.text.items ++ flat_map (λ lines. flat_map text_of lines) told.users.items };
}

impl Told {
    /// A text alone.
    pub fn of_text(alloc: Global, text: Vec<u8>) -> Told
        ensures { result ≡ text.items }
    {
        Told {
            text,
            users: Vec::new(alloc),
        }
    }

    /// The lines of all users, in order.
    pub fn of_lines(alloc: Global, users: Vec<LineList>) -> Told
        ensures { result ≡ flat_map (λ lines. flat_map text_of lines) users.items }
    {
        Told {
            text: Vec::new(alloc),
            users,
        }
    }

    /// Tells it to a sink.
    pub fn tell<K: Sink>(&self, sink: &mut K) -> Result<(), Failed>
        ensures whole { OnOk result (AppendsAll (K.state sink.old) (K.state sink.new) self.now) }
        ensures part { OnErr result (AppendsPart (K.state sink.old) (K.state sink.new) self.now) }
        ensures cause { HasCause (K.state sink.old).faults (K.state sink.new).faults result }
    {
        tell_all(sink, self.text.as_slice(), self.users.as_slice())
    }
}
