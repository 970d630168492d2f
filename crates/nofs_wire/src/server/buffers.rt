//! The bytes that came and weren't used yet, and the replies that weren't given yet.
//!
//! Promise: bytes are kept in the order in which they came, and replies in that of their steps, none lost and none
//! twice. No further bytes are taken while a reply is kept.
ghost use Rattle.std.specs.Prelude.{◌≡◌, ◌+◌, ◌-◌, ◌<◌, ◌≤◌, ◌^◌, ◌++◌, [], IfOk, OnErr, OnOk, drop, length, take};
ghost use Rattle.std.specs.Prelude.{vec_len};
ghost use Rattle.nofs_io.specs.Calls.{HasCause};
ghost use Rattle.nofs_wire.specs.Server.Buffers.{BuffersState, GivesKept, TakesInto, TakesMore};

use nofs_io::{Failed, Sink, Source, write_all};
use std::alloc::{AllocError, Global};
use std::marker::Model;

/// How many bytes either buffer has room for, 64 KiB. No more are there before they are used, and replies that have as
/// many together are given though more frames are here.
const ROOM: usize = 65_536;

/// The bytes that weren't used yet, and the replies that weren't given yet. Contracts see both, and how many bytes came
/// in all.
#[derive(Drop)]
pub struct Buffers {
    bytes: Vec<u8>,
    from: usize,
    here: usize,
    taken: u64,
    kept: Vec<u8>,
}

impl Model for Buffers {
    ghost use Rattle.std.specs.Prelude.{◌≡◌, ◌≤◌, drop, take, vec_len};
    ghost use Rattle.nofs_wire.specs.Server.Buffers.{BuffersState};

    ghost Value = { BuffersState };

    ghost view = { λ b. record {
      window = drop b.from (take b.here b.bytes.items);
      taken = b.taken;
      kept = b.kept.items;
    } };

    ghost invariant = { λ b. (vec_len b.bytes ≡ 65536) × (b.from ≤ b.here) × (b.here ≤ 65536) };
}

impl Buffers {
    /// No bytes and no replies, with room for many of both.
    pub fn new(alloc: Global) -> Result<Self, AllocError>
        ensures { IfOk result (λ b. b ≡ record { window = []; taken = 0; kept = [] }) }
    {
        Ok(Buffers {
            bytes: cleared(alloc, ROOM)?,
            from: 0,
            here: 0,
            taken: 0,
            kept: Vec::with_capacity(alloc, ROOM)?,
        })
    }

    /// The bytes that weren't used yet.
    pub fn window(&self) -> &[u8]
        ensures bytes { result.now ≡ self.now.window }
        ensures short { length self.now.window ≤ 65536 }
    {
        &self.bytes[self.from..self.here]
    }

    /// How many bytes came in all.
    pub fn taken(&self) -> u64
        ensures { result ≡ self.now.taken }
    {
        self.taken
    }

    /// Uses so many bytes from the front.
    pub fn pass(&mut self, count: usize)
        requires { count ≤ length self.old.window }
        ensures { self.new
            ≡ record { window = drop count self.old.window; taken = self.old.taken; kept = self.old.kept } }
    {
        self.from += count;
    }

    /// Takes at most so many further bytes, and answers how many; 0 only at the end. There has to be room for one.
    ///
    /// No reply may be kept: whoever sent the frames has all replies to them before the program waits for further ones.
    /// No other function calls a source.
    pub fn fill<Q: Source>(&mut self, source: &mut Q, most: usize) -> Result<usize, Failed>
        requires none_kept { self.old.kept ≡ [] }
        requires some { 0 < most }
        requires room { length self.old.window < 65536 }
        requires few { self.old.taken + 65536 < 2 ^ 64 }
        ensures more { TakesMore result most self.old self.new (Q.state source.old).left (Q.state source.new).left }
        ensures cause { HasCause (Q.state source.old).faults (Q.state source.new).faults result }
    {
        shift(&mut self.bytes, self.from, self.here);
        self.here -= self.from;
        self.from = 0;
        let room = most.min(ROOM - self.here);
        let count = take_into(source, &mut self.bytes, self.here, self.here + room)?;
        self.here += count;
        self.taken += count as u64;
        Ok(count)
    }

    /// Keeps a reply behind the others. Where it fails, all is as it was.
    pub fn keep(&mut self, reply: &[u8]) -> Result<(), AllocError>
        ensures kept { OnOk result (self.new
            ≡ record { window = self.old.window; taken = self.old.taken; kept = self.old.kept ++ reply.now }) }
        ensures same { OnErr result (self.new ≡ self.old) }
    {
        self.kept.extend_from_slice(reply)
    }

    /// Gives all replies that are kept to a sink, in one call where it takes them so. Where it fails, it gave the first
    /// bytes of them.
    pub fn give<K: Sink>(&mut self, sink: &mut K) -> Result<(), Failed>
        ensures given { GivesKept result self.old self.new (K.state sink.old).given (K.state sink.new).given }
        ensures none_kept { OnOk result (self.new.kept ≡ []) }
        ensures cause { HasCause (K.state sink.old).faults (K.state sink.new).faults result }
    {
        write_all(sink, &self.kept)?;
        self.kept.clear();
        Ok(())
    }

    /// The same where they are many, so that the memory for them is bounded.
    pub fn give_many<K: Sink>(&mut self, sink: &mut K) -> Result<(), Failed>
        ensures given { GivesKept result self.old self.new (K.state sink.old).given (K.state sink.new).given }
        ensures cause { HasCause (K.state sink.old).faults (K.state sink.new).faults result }
    {
        if self.kept.len() < ROOM {
            return Ok(());
        }
        self.give(sink)
    }
}

// So many zeros.
fn cleared(alloc: Global, len: usize) -> Result<Vec<u8>, AllocError>
    ensures { IfOk result (λ bytes. vec_len bytes ≡ len) }
{
    vec![in alloc; 0u8; len]
}

// Moves the bytes from `from` up to `to` to the front.
fn shift(bytes: &mut Vec<u8>, from: usize, to: usize)
    requires order { from ≤ to }
    requires within { to ≤ vec_len bytes.old }
    ensures moved { take (to - from) bytes.new.items ≡ drop from (take to bytes.old.items) }
    ensures len { vec_len bytes.new ≡ vec_len bytes.old }
{
    shift_part(bytes, from, to);
}

fn shift_part(bytes: &mut [u8], from: usize, to: usize)
    requires order { from ≤ to }
    requires within { to ≤ length bytes.old }
    ensures moved { take (to - from) bytes.new ≡ drop from (take to bytes.old) }
    ensures len { length bytes.new ≡ length bytes.old }
{
    bytes.copy_within(from..to, 0);
}

// Takes bytes into the places from `from` up to `to`.
fn take_into<Q: Source>(
    source: &mut Q,
    bytes: &mut Vec<u8>,
    from: usize,
    to: usize,
) -> Result<usize, Failed>
    requires some { from < to }
    requires within { to ≤ vec_len bytes.old }
    ensures into { TakesInto result from to bytes.old.items bytes.new.items
        (Q.state source.old).left (Q.state source.new).left }
    ensures len { vec_len bytes.new ≡ vec_len bytes.old }
    ensures cause { HasCause (Q.state source.old).faults (Q.state source.new).faults result }
{
    take_part(source, bytes, from, to)
}

fn take_part<Q: Source>(
    source: &mut Q,
    bytes: &mut [u8],
    from: usize,
    to: usize,
) -> Result<usize, Failed>
    requires some { from < to }
    requires within { to ≤ length bytes.old }
    ensures into { TakesInto result from to bytes.old bytes.new (Q.state source.old).left (Q.state source.new).left }
    ensures len { length bytes.new ≡ length bytes.old }
    ensures cause { HasCause (Q.state source.old).faults (Q.state source.new).faults result }
{
    source.take(&mut bytes[from..to])
}
