//! What is known of each process and each worker.

use crate::bell::Bell;
use crate::callers::Callers;
use crate::harts::Harts;
use std::sync::atomic::{AtomicU64, Ordering};

/// What is known of a process.
#[derive(Drop)]
pub(crate) struct Signs {
    pub(crate) harts: Harts,
    pub(crate) callers: Callers,
    /// Above 0 where the process has ended since this was asked last.
    pub(crate) ended: AtomicU64,
    /// The number, and one more, of the hart that is pressed, or 0: as the process's lock has it.
    pub(crate) pressed: AtomicU64,
    /// The number, and one more, of the worker that waits until an instruction of the process has run, or 0.
    pub(crate) watcher: AtomicU64,
    /// How often a page of the process could not leave since an instruction of it has run.
    pub(crate) stuck: AtomicU64,
}

impl Signs {
    /// Whether a hart may run: where the process is pressed it is the one hart that may, and waits for no turn of another one.
    pub(crate) fn may_run(&self, hart: u32) -> bool {
        match self.pressed.load(Ordering::SeqCst) {
            0 => self.harts.may_run(hart),
            pressed => pressed == u64::from(hart).wrapping_add(1) && self.harts.is_live(hart),
        }
    }

    /// Whether a hart may run and waits for no page and no frame.
    pub(crate) fn may_go_on(&self, hart: u32) -> bool {
        self.may_run(hart) && !self.harts.lacks_page(hart)
    }
}

/// A worker's bell, and whether it waits for a frame.
#[derive(Drop)]
pub(crate) struct Station {
    pub(crate) bell: Bell,
    /// Above 0 where a hart waits for a frame.
    hungry: AtomicU64,
    /// Above 0 where a frame was offered to the worker since it has looked.
    offered: AtomicU64,
}

impl Station {
    pub(crate) fn new() -> Self {
        Station {
            bell: Bell::new(),
            hungry: AtomicU64::new(0),
            offered: AtomicU64::new(0),
        }
    }

    /// Whether a hart waits for a frame.
    pub(crate) fn is_hungry(&self) -> bool {
        self.hungry.load(Ordering::SeqCst) != 0
    }

    pub(crate) fn set_hungry(&self, is_hungry: bool) {
        self.hungry.store(u64::from(is_hungry), Ordering::SeqCst);
    }

    pub(crate) fn set_offered(&self) {
        self.offered.store(1, Ordering::SeqCst);
    }

    /// Whether a frame was offered since this was asked last.
    pub(crate) fn take_offer(&self) -> bool {
        self.offered.load(Ordering::SeqCst) != 0 && self.offered.swap(0, Ordering::SeqCst) != 0
    }
}
