//! Texts in pieces, calls that fail by number, and std's readers and writers.
use nofs_io::{Failed, MemSink, MemSource, ReadSource, Source, WriteSink, read_all, write_all};
use std::alloc::{AllocError, Global};
use std::io;
use std::io::{ErrorKind, Read, Write};
use std::test::Fail;

/// The text that a source gives, or why it gives none.
fn reading<S: Source>(alloc: Global, source: &mut S, limit: u32) -> Result<String, AllocError> {
    match read_all(alloc, source, limit as usize) {
        Ok(bytes) => String::from_str(alloc, std::str::from_utf8(&bytes).unwrap_or("?")),
        Err(fault) => format!(in alloc; "{fault:?}"),
    }
}

/// The numbers from 0 to 9,999, each with seven digits: a text longer than the largest piece.
fn numbers_text(alloc: Global) -> Result<String, AllocError> {
    let mut text = String::new(alloc);
    for number in 0..10_000u32 {
        text.push_str(format!(in alloc; "{number:07}")?.as_str())?;
    }
    Ok(text)
}

#[test]
fn a_text_is_the_same_in_pieces_of_every_size(rt: HostRuntime) -> Result<(), Fail> {
    let alloc = rt.alloc();
    let text = numbers_text(alloc)?;
    for piece in [1, 7, 65_536] {
        for (limit, want) in [
            (70_001, text.as_str()),
            (70_000, &text),
            (69_999, "TooLong"),
        ] {
            let mut source = MemSource::new(alloc, text.as_bytes(), piece, &[])?;
            let came = reading(alloc, &mut source, limit)?;
            assert_eq!(rt; came.as_str(), want, "{piece} {limit}");
        }
    }
    Ok(())
}

#[test]
fn a_call_that_fails_leaves_a_prefix(rt: HostRuntime) -> Result<(), Fail> {
    let alloc = rt.alloc();
    for (number, rest) in [
        (1, "0123456789"),
        (2, "3456789"),
        (3, "6789"),
        (4, "9"),
        (5, ""),
    ] {
        let mut source = MemSource::new(alloc, b"0123456789", 3, &[number])?;
        assert_eq!(rt;
            reading(alloc, &mut source, 10)?.as_str(),
            "Source",
            "call {number}"
        );
        assert_eq!(rt;
            reading(alloc, &mut source, 10)?.as_str(),
            rest,
            "call {number}"
        );
    }
    Ok(())
}

#[test]
fn a_sink_takes_as_much_as_it_has_room_for(rt: HostRuntime) -> Result<(), Fail> {
    let alloc = rt.alloc();
    for (room, fails, ends, taken) in [
        (10, 3, Ok(()), "0123456789"),
        (4, 3, Err(Failed), "0123"),
        (10, 1, Err(Failed), ""),
        (4, 2, Err(Failed), "0123"),
        (0, 3, Err(Failed), ""),
    ] {
        let mut sink = MemSink::new(alloc, room, &[fails])?;
        assert_eq!(rt; write_all(&mut sink, b"0123456789"), ends, "{room} {fails}");
        assert_eq!(rt; sink.bytes(), taken.as_bytes(), "{room} {fails}");
    }
    Ok(())
}

/// A reader and writer of one byte a call, which is interrupted at each odd call and fails at the eighth.
#[derive(Drop)]
struct Stumbling {
    calls: u64,
    bytes: Vec<u8>,
}

impl Stumbling {
    fn new(alloc: Global) -> Self {
        Stumbling {
            calls: 0,
            bytes: Vec::new(alloc),
        }
    }

    fn stumble(&mut self) -> io::Result<()> {
        self.calls = self.calls.saturating_add(1);
        if self.calls % 2 == 1 {
            return Err(io::Error::from(ErrorKind::Interrupted));
        }
        if self.calls == 8 {
            return Err(io::Error::from(ErrorKind::BrokenPipe));
        }
        Ok(())
    }
}

impl Read for Stumbling {
    fn read(&mut self, buf: &mut [u8]) -> io::Result<usize> {
        self.stumble()?;
        match buf.first_mut() {
            Some(byte) => {
                *byte = b'a';
                Ok(1)
            }
            None => Ok(0),
        }
    }
}

impl Write for Stumbling {
    fn write(&mut self, buf: &[u8]) -> io::Result<usize> {
        self.stumble()?;
        match buf.first() {
            Some(byte) => {
                self.bytes.push(*byte)?;
                Ok(1)
            }
            None => Ok(0),
        }
    }

    fn flush(&mut self) -> io::Result<()> {
        Ok(())
    }
}

#[test]
fn a_reader_of_std_is_a_source(rt: HostRuntime) -> Result<(), Fail> {
    let alloc = rt.alloc();
    let mut text = ReadSource::new(b"text".as_slice());
    assert_eq!(rt; reading(alloc, &mut text, 4)?.as_str(), "text");
    for (limit, fault) in [(2, "TooLong"), (3, "Source")] {
        let mut stumbling = ReadSource::new(Stumbling::new(alloc));
        assert_eq!(rt; reading(alloc, &mut stumbling, limit)?.as_str(), fault);
    }
    Ok(())
}

#[test]
fn a_writer_of_std_is_a_sink(rt: HostRuntime) -> Result<(), Fail> {
    let alloc = rt.alloc();
    for (text, ends) in [("abc", Ok(())), ("abcd", Err(Failed))] {
        let mut writer = Stumbling::new(alloc);
        let end = write_all(&mut WriteSink::new(&mut writer), text.as_bytes());
        assert_eq!(rt; end, ends);
        assert_eq!(rt; writer.bytes.as_slice(), b"abc".as_slice());
    }
    Ok(())
}
