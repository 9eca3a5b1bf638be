//! How a thread that sleeps is woken when something has come for which it may wait.

use std::sync::atomic::{AtomicU64, Ordering};

/// The bell of one thread.
#[derive(Drop)]
pub struct Bell {
    count: AtomicU64,
    /// Above 0 while the thread sleeps, or is about to.
    sleeps: AtomicU64,
}

impl Bell {
    pub(crate) fn new() -> Self {
        Bell {
            count: AtomicU64::new(0),
            sleeps: AtomicU64::new(0),
        }
    }

    /// How often it has rung. The thread reads it before it looks for what there is to do.
    pub fn rings(&self) -> u64 {
        self.count.load(Ordering::SeqCst)
    }

    /// Wakes the thread, or keeps it from falling asleep.
    pub fn ring(&self) {
        self.count.fetch_add(1, Ordering::SeqCst);
        if self.sleeps.load(Ordering::SeqCst) != 0 {
            self.count.wake_all();
        }
    }

    /// The thread falls asleep, or is awake again. It sleeps on what this answers.
    pub fn set_asleep(&self, asleep: bool) -> &AtomicU64 {
        self.sleeps.store(u64::from(asleep), Ordering::SeqCst);
        &self.count
    }
}
