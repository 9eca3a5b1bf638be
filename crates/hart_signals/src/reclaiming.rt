//! Which worker makes room.

use std::sync::atomic::{AtomicU64, Ordering};

/// How many pages come in for one hart, at most, before another worker that waits for a frame makes room. One instruction may need three.
const MOST_PAGES: u64 = 64;

/// The turn to make room. While a hart waits for a frame one worker has the turn: it makes room for its own harts and brings their pages in, one hart
/// after another, so that a page which has come in for an instruction does not leave for another hart's before that instruction has run.
#[derive(Drop)]
pub(crate) struct ReclaimTurn {
    /// The number of the worker that has the turn, and one more, or 0.
    holder: AtomicU64,
    /// Above 0 where that worker was given the turn and has not begun it.
    given: AtomicU64,
    /// The worker that had the turn last in the order of their numbers.
    last: AtomicU64,
    /// The number, and one more, of the process for which the worker has the turn out of that order, or 0.
    lent_for: AtomicU64,
    /// How many pages have come in for the hart that is served in the turn. Only the worker that has it writes this.
    pages: AtomicU64,
    /// How many tries in a row have made no room, whosever turn it was.
    failed: AtomicU64,
    /// Above 0 while no hart may run.
    resting: AtomicU64,
}

impl ReclaimTurn {
    pub(crate) fn new() -> Self {
        ReclaimTurn {
            holder: AtomicU64::new(0),
            given: AtomicU64::new(0),
            last: AtomicU64::new(0),
            lent_for: AtomicU64::new(0),
            pages: AtomicU64::new(0),
            failed: AtomicU64::new(0),
            resting: AtomicU64::new(0),
        }
    }

    /// Whether a worker has the turn.
    pub(crate) fn is_taken(&self) -> bool {
        self.holder.load(Ordering::SeqCst) != 0
    }

    /// Whether this worker has the turn.
    pub(crate) fn is_of(&self, worker: u64) -> bool {
        self.holder.load(Ordering::SeqCst) == worker.wrapping_add(1)
    }

    /// The worker takes the turn, unless another one has it. Answers whether the worker has it now.
    pub(crate) fn take(&self, worker: u64) -> bool {
        if self.is_of(worker) {
            return true;
        }
        let named = worker.wrapping_add(1);
        let is_taken = self
            .holder
            .compare_exchange(0, named, Ordering::SeqCst, Ordering::SeqCst)
            .is_ok();
        if is_taken {
            self.given.store(0, Ordering::SeqCst);
            self.begin_serving();
        }
        is_taken
    }

    /// The same for a worker that waits, by another one.
    pub(crate) fn take_for(&self, worker: u64) -> bool {
        let is_taken = !self.is_taken() && self.take(worker);
        if is_taken {
            self.given.store(1, Ordering::SeqCst);
        }
        is_taken
    }

    /// Whether the turn was given to who has it, and is not begun.
    pub(crate) fn is_given(&self) -> bool {
        self.given.load(Ordering::SeqCst) != 0
    }

    /// Who has the turn begins it.
    pub(crate) fn begin(&self) {
        self.given.store(0, Ordering::SeqCst);
    }

    /// This worker's turn ends. Answers the worker after which the next one is looked for: itself, but where it had the turn out of their order.
    pub(crate) fn end(&self, worker: u64) -> u64 {
        if self.lent_for.swap(0, Ordering::SeqCst) != 0 {
            return self.last.load(Ordering::SeqCst);
        }
        self.last.store(worker, Ordering::SeqCst);
        worker
    }

    /// Gives the turn to a worker, or to nobody.
    pub(crate) fn give(&self, worker: Option<u64>) {
        self.begin_serving();
        let named = match worker {
            Some(number) => number.wrapping_add(1),
            None => 0,
        };
        self.given
            .store(u64::from(worker.is_some()), Ordering::SeqCst);
        self.holder.store(named, Ordering::SeqCst);
    }

    /// Gives the turn to a worker out of order, for this process.
    pub(crate) fn lend(&self, worker: u64, process: u32) {
        let named = u64::from(process).wrapping_add(1);
        self.lent_for.store(named, Ordering::SeqCst);
        self.give(Some(worker));
    }

    /// The process for which a worker has the turn out of order, if one has.
    pub(crate) fn lent_for(&self) -> Option<u64> {
        self.lent_for.load(Ordering::SeqCst).checked_sub(1)
    }

    /// The next hart is served in the turn.
    pub(crate) fn begin_serving(&self) {
        self.pages.store(0, Ordering::SeqCst);
    }

    /// One more page has come in for the hart that is served.
    pub(crate) fn count_page(&self) {
        let pages = self.pages.load(Ordering::SeqCst);
        self.pages.store(pages.wrapping_add(1), Ordering::SeqCst);
    }

    /// Whether the hart that is served has had its pages, where another worker waits.
    pub(crate) fn is_served(&self) -> bool {
        self.pages.load(Ordering::SeqCst) >= MOST_PAGES
    }

    /// A try to make room is over.
    pub(crate) fn count_try(&self, has_made_room: bool) {
        if has_made_room {
            self.forget_tries();
        } else {
            self.failed.fetch_add(1, Ordering::SeqCst);
        }
    }

    pub(crate) fn failed(&self) -> u64 {
        self.failed.load(Ordering::SeqCst)
    }

    /// Room was made, or slots and frames have come free.
    pub(crate) fn forget_tries(&self) {
        self.failed.store(0, Ordering::SeqCst);
    }

    /// Whether no hart may run.
    pub(crate) fn is_resting(&self) -> bool {
        self.resting.load(Ordering::SeqCst) != 0
    }

    pub(crate) fn set_resting(&self, resting: bool) {
        self.resting.store(u64::from(resting), Ordering::SeqCst);
    }
}
