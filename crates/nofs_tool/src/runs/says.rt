//! What a sink is told.
//!
//! Promise: a sink takes a text whole, or, where it fails, a part of it from its front. A line is told part by part
//! and takes no memory.

ghost use Rattle.std.specs.Prelude.{◌≡◌};
ghost use Rattle.hex.specs.Hex.{encode_lower};
ghost use Rattle.std.specs.Fmt.{decimal};
ghost use Rattle.nofs_tool.specs.Begin.Lines.{part_text, parts_text};
ghost use Rattle.nofs_tool.specs.Runs.Says.{Tells};

use crate::begin::lines::Part;
use itoa::Buffer;
use nofs_io::{Failed, Sink, write_all};
use nofs_script::Told;

/// Tells a sink a text.
pub(crate) fn say<K: Sink>(sink: &mut K, text: &[u8]) -> Result<(), Failed>
    ensures { Tells (K.state sink.old) (K.state sink.new) result text.now }
{
    write_all(sink, text)
}

fn say_number<K: Sink>(sink: &mut K, number: u64) -> Result<(), Failed>
    ensures { Tells (K.state sink.old) (K.state sink.new) result (decimal number) }
{
    let mut digits = Buffer::new();
    say(sink, digits.format(number).as_bytes())
}

// The digits of eight bytes, two a byte.
fn digits_of(bytes: [u8; 8]) -> [u8; 16]
    ensures { result ≡ encode_lower bytes }
{
    let mut digits = [0; 16];
    match hex::encode_to_slice(bytes, &mut digits) {
        Ok(()) => digits,
        Err(_) => unreachable!(),
    }
}

fn say_part<K: Sink>(sink: &mut K, part: Part) -> Result<(), Failed>
    ensures { Tells (K.state sink.old) (K.state sink.new) result (part_text part) }
{
    match part {
        Part::Words(words) => say(sink, words.as_bytes()),
        Part::Number(number) => say_number(sink, number),
        Part::Bytes(bytes) => say(sink, digits_of(bytes).as_slice()),
    }
}

/// Tells a sink what a run has to tell at its end.
pub(crate) fn say_told<K: Sink>(sink: &mut K, told: &Told) -> Result<(), Failed>
    ensures { Tells (K.state sink.old) (K.state sink.new) result told.now }
{
    told.tell(sink)
}

/// Tells a sink the parts of a line, in order.
pub(crate) fn say_parts<K: Sink>(sink: &mut K, parts: &[Part]) -> Result<(), Failed>
    ensures { Tells (K.state sink.old) (K.state sink.new) result (parts_text parts.now) }
{
    for part in parts {
        say_part(sink, *part)?;
    }
    Ok(())
}
