//! Who goes first at a process's lock.

use std::sync::atomic::{AtomicU64, Ordering};

/// The threads that wait for a process's lock and run no instruction under it. Whoever runs instructions lets them go first: else a hart that goes
/// round would take the lock again before a thread that sleeps is awake.
#[derive(Drop)]
pub struct Callers {
    waiting: AtomicU64,
}

impl Callers {
    pub(crate) fn new() -> Self {
        Callers {
            waiting: AtomicU64::new(0),
        }
    }

    /// A thread waits for the lock.
    pub fn enter(&self) {
        self.waiting.fetch_add(1, Ordering::SeqCst);
    }

    /// A thread that waited has the lock.
    pub fn leave(&self) {
        self.waiting.fetch_sub(1, Ordering::SeqCst);
        self.waiting.wake_all();
    }

    /// How many threads wait.
    pub fn waiting(&self) -> u64 {
        self.waiting.load(Ordering::SeqCst)
    }

    /// Who lets them go first sleeps on this.
    pub fn word(&self) -> &AtomicU64 {
        &self.waiting
    }
}
