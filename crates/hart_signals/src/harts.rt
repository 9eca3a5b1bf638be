//! Which harts of a process may run.

use machine_limits::MOST_HARTS;
use std::sync::atomic::{AtomicU64, Ordering};

/// What a hart waits for that lacks a page.
#[derive(Clone, Copy, Debug, PartialEq, Eq)]
pub enum PageWait {
    /// It lacks none.
    Nothing,
    /// That its page has come or gone.
    Page,
    /// A free frame.
    Frame,
}

/// What is added to a hart's word where its last turn ended by a yield, where it waits for its page to come or go, and for a frame.
const YIELDED: u64 = 1;

const PAGE: u64 = 2;

const FRAME: u64 = 4;

/// What is added to a word for each turn.
const TURN: u64 = 8;

/// The harts of a process.
#[derive(Drop)]
pub(crate) struct Harts {
    /// Bit `h` is set where hart `h` is live, and its process goes on.
    live: AtomicU64,
    /// How many turns have ended, each counted by `TURN`.
    turns: AtomicU64,
    /// For each hart: when its last turn ended, whether that was by a yield, and what the hart waits for. Only its own carrier writes it.
    words: [AtomicU64; MOST_HARTS],
}

impl Harts {
    /// Those of a process that begins: hart 0 is live.
    pub(crate) fn new() -> Self {
        Harts {
            live: AtomicU64::new(1),
            turns: AtomicU64::new(0),
            words: [
                AtomicU64::new(0),
                AtomicU64::new(0),
                AtomicU64::new(0),
                AtomicU64::new(0),
                AtomicU64::new(0),
                AtomicU64::new(0),
                AtomicU64::new(0),
                AtomicU64::new(0),
            ],
        }
    }

    /// Which harts are live by now. Answers whether they are others than before.
    pub(crate) fn set_live(&self, live: &[bool; MOST_HARTS]) -> bool {
        let mut bits = 0;
        for (number, is_live) in live.iter().enumerate() {
            if *is_live {
                bits |= bit(number as u32);
            }
        }
        let has_changed = self.live.load(Ordering::SeqCst) != bits;
        if has_changed {
            self.live.store(bits, Ordering::SeqCst);
        }
        has_changed
    }

    /// Whether a hart is live.
    pub(crate) fn is_live(&self, number: u32) -> bool {
        self.live.load(Ordering::SeqCst) & bit(number) != 0
    }

    /// Whether any hart is live.
    pub(crate) fn has_live(&self) -> bool {
        self.live.load(Ordering::SeqCst) != 0
    }

    /// Whether a hart may be carried: it is live, and where it yielded each other live hart has had a turn since. So harts that wait for one
    /// another by yielding take turns, and none goes round while another one is held up.
    pub(crate) fn may_run(&self, number: u32) -> bool {
        if !self.is_live(number) {
            return false;
        }
        let word = self.word(number);
        if word & YIELDED == 0 {
            return true;
        }
        for other in 0..MOST_HARTS as u32 {
            // The hart's own word is not below itself.
            if self.is_live(other) && self.word(other) < word {
                return false;
            }
        }
        true
    }

    /// Whether a hart waits for its page to come or go, or for a frame.
    pub(crate) fn lacks_page(&self, number: u32) -> bool {
        self.word(number) & (PAGE | FRAME) != 0
    }

    /// Whether a hart is live and waits for a frame.
    pub(crate) fn waits_for_frame(&self, number: u32) -> bool {
        self.is_live(number) && self.word(number) & FRAME != 0
    }

    /// Whether a hart is live and waits, for the others to have their turns or for its page to come or go.
    pub(crate) fn waits(&self, number: u32) -> bool {
        self.is_live(number) && self.word(number) & (YIELDED | PAGE) != 0
    }

    /// A hart's turn is over, by a yield or otherwise.
    pub(crate) fn end_turn(&self, number: u32, yielded: bool) {
        let turn = self.turns.fetch_add(TURN, Ordering::SeqCst);
        let word = turn.wrapping_add(TURN);
        self.set_word(number, if yielded { word | YIELDED } else { word });
    }

    /// What a hart waits for by now.
    pub(crate) fn set_wait(&self, number: u32, wait: PageWait) {
        let word = self.word(number);
        let rest = word & !(PAGE | FRAME);
        let now = match wait {
            PageWait::Nothing => rest,
            PageWait::Page => rest | PAGE,
            PageWait::Frame => rest | FRAME,
        };
        if now != word {
            self.set_word(number, now);
        }
    }

    fn word(&self, number: u32) -> u64 {
        match self.words.get(number as usize) {
            Some(word) => word.load(Ordering::SeqCst),
            None => 0,
        }
    }

    fn set_word(&self, number: u32, value: u64) {
        if let Some(word) = self.words.get(number as usize) {
            word.store(value, Ordering::SeqCst);
        }
    }
}

/// The bit of a hart among those of all harts, or none.
fn bit(number: u32) -> u64 {
    if number < MOST_HARTS as u32 {
        1 << number
    } else {
        0
    }
}
