//! The sessions of lives: files that are made, sized, filled and dropped, as they are drawn.

use nofs_test_disks::draw;
use nofs_test_sessions::push_bytes;
use std::alloc::{AllocError, Global};
use std::test::Fail;

/// How many changes of files a session draws.
const DRAWS: u64 = 6;

/// How many slots of a file are used. Those from the ninth on need a leaf.
pub(crate) const SLOTS: u64 = 10;

/// A file: its path, the lines that make it, the lines that end it, and the byte to which each life adds its number
/// where it puts bytes.
pub type File = (&'static str, &'static str, &'static str, u8);

pub(crate) const FILES: [File; 4] = [
    ("/a", "make /a\n", "drop /a\n", 16),
    ("/b", "make /b\n", "drop /b\n", 32),
    ("/d/e", "mkdir /d\nmake /d/e\n", "drop /d/e\ndrop /d\n", 48),
    ("@", "", "fsync @\n", 64),
];

/// The session of a life, and the bytes that it puts.
#[derive(Drop)]
pub struct LifeScript {
    pub text: Vec<u8>,
    pub given: Vec<u8>,
}

impl LifeScript {
    fn push(&mut self, text: &str) -> Result<(), AllocError> {
        self.text.extend_from_slice(text.as_bytes())
    }

    // Makes a file if it is missing, sizes it, and puts a few bytes at the beginning of most of its slots.
    fn push_fill(
        &mut self,
        alloc: Global,
        file: File,
        state: &mut u64,
        life: u8,
    ) -> Result<(), Fail> {
        let (path, make, _, first) = file;
        let last = draw(state, SLOTS).saturating_mul(1_024);
        let size = last.saturating_add(4).saturating_add(draw(state, 1_000));
        let byte = first.saturating_add(life);
        self.push(make)?;
        self.push(format!(in alloc; "size {path} {size}\n")?.as_str())?;
        for slot in 0..SLOTS {
            let offset = slot * 1_024;
            if offset <= last && draw(state, 4) > 0 {
                self.push(format!(in alloc; "put {path} {offset} ")?.as_str())?;
                push_bytes(alloc, &mut self.text, byte, 4)?;
                self.push("\n")?;
            }
        }
        self.given.push(byte)?;
        Ok(())
    }
}

pub(crate) fn drawn_script(alloc: Global, state: &mut u64, life: u8) -> Result<LifeScript, Fail> {
    let mut script = LifeScript {
        text: Vec::new(alloc),
        given: Vec::new(alloc),
    };
    for _ in 0..DRAWS {
        if let Some(file) = FILES.get(draw(state, 4) as usize) {
            if draw(state, 3) == 0 {
                script.push(file.2)?;
            } else {
                script.push_fill(alloc, *file, state, life)?;
            }
        }
    }
    Ok(script)
}

// Gets the beginning of each slot of each file, in order.
pub(crate) fn all_gets(alloc: Global) -> Result<Vec<u8>, AllocError> {
    let mut text = Vec::new(alloc);
    for file in FILES {
        for slot in 0..SLOTS {
            let offset = slot * 1_024;
            let line = format!(in alloc; "get {} {offset} 4\n", file.0)?;
            text.extend_from_slice(line.as_bytes())?;
        }
    }
    Ok(text)
}
