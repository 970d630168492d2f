//! A gate that counts.

use nofs_workers::Gate;
use std::sync::atomic::{AtomicU64, Ordering};

/// How often a gate was passed.
#[derive(Drop)]
pub struct Calls {
    pub before: AtomicU64,
    pub after: AtomicU64,
}

pub fn no_calls() -> Calls {
    Calls {
        before: AtomicU64::new(0),
        after: AtomicU64::new(0),
    }
}

#[derive(Drop)]
pub struct CountGate<'a> {
    pub calls: &'a Calls,
}

impl Gate for CountGate<'_> {
    fn before(&mut self) {
        self.calls.before.fetch_add(1, Ordering::SeqCst);
    }

    fn after(&mut self) {
        self.calls.after.fetch_add(1, Ordering::SeqCst);
    }
}
