//! A gate that holds its worker until another worker's gate has counted a reply.
use nofs_workers::Gate;
use std::hint::spin_loop;
use std::sync::atomic::{AtomicU64, Ordering};

/// What the gates of one run tell each other.
#[derive(Drop)]
pub struct Marks {
    /// How many replies were counted.
    pub replies: AtomicU64,
    /// How many workers gave up waiting for one.
    pub late: AtomicU64,
}

impl Marks {
    pub fn new() -> Marks {
        Marks {
            replies: AtomicU64::new(0),
            late: AtomicU64::new(0),
        }
    }
}

/// Holds a worker before its first step, and counts replies.
#[derive(Drop)]
pub struct Hold<'a> {
    pub marks: &'a Marks,
    /// How many turns the worker waits at most.
    pub turns: u64,
    /// Whether the worker's replies are counted.
    pub counts: bool,
}

impl<'a> Hold<'a> {
    /// A gate that holds nobody and counts nothing.
    pub fn open(marks: &'a Marks) -> Self {
        Hold {
            marks,
            turns: 0,
            counts: false,
        }
    }
}

impl Gate for Hold<'_> {
    fn before(&mut self) {
        if self.turns > 0 && !is_counted(self.marks, self.turns) {
            self.marks.late.fetch_add(1, Ordering::SeqCst);
        }
        self.turns = 0;
    }

    fn after(&mut self) {
        if self.counts {
            self.marks.replies.fetch_add(1, Ordering::SeqCst);
        }
    }
}

// Looks so many times whether a reply was counted.
fn is_counted(marks: &Marks, turns: u64) -> bool {
    for _ in 0..turns {
        if marks.replies.load(Ordering::SeqCst) > 0 {
            return true;
        }
        spin_loop();
    }
    false
}
