//! Who waits for a frame, and whose turn it is to make room.

use crate::signals::Signals;
use machine_limits::MOST_HARTS;

impl Signals {
    /// Whether a worker has a hart that waits for a frame.
    pub fn set_hungry(&self, worker: u32, is_hungry: bool) {
        if let Some(station) = self.workers.get(worker as usize) {
            station.set_hungry(is_hungry);
        }
    }

    /// Slots and frames have come free.
    pub fn loosen(&self) {
        self.turn.forget_tries();
        self.end_rest();
    }

    /// Whether a worker makes room.
    pub fn is_reclaiming(&self) -> bool {
        self.turn.is_taken()
    }

    /// Whether it is this worker's turn to make room.
    pub fn has_turn(&self, worker: u32) -> bool {
        self.turn.is_of(u64::from(worker))
    }

    /// A worker takes the turn to make room, unless another one has it. Answers whether the worker has it now. Call it once the worker is known to be
    /// hungry: whoever has the turn gives it to a hungry worker.
    pub fn take_turn(&self, worker: u32) -> bool {
        self.turn.take(u64::from(worker))
    }

    /// Whether this worker was given the turn and has not begun it: then it begins.
    pub fn begin_turn(&self, worker: u32) -> bool {
        let begins = self.has_turn(worker) && self.turn.is_given();
        if begins {
            self.turn.begin();
        }
        begins
    }

    /// Whether this worker has begun the turn that it has.
    pub fn has_begun(&self, worker: u32) -> bool {
        self.has_turn(worker) && !self.turn.is_given()
    }

    /// The next hart of the worker whose turn it is gets frames.
    pub fn begin_serving(&self) {
        self.turn.begin_serving();
    }

    /// A page has come in for a hart of the worker whose turn it is.
    pub fn count_page(&self) {
        self.turn.count_page();
    }

    /// Whether many pages have come in for the hart that is served, and another worker waits for a frame.
    pub fn is_served(&self, worker: u32) -> bool {
        self.turn.is_served() && self.others_wait(worker)
    }

    /// The turn to make room goes from this worker to the next one that waits for a frame, which is rung, or to nobody.
    pub fn pass_turn(&self, worker: u32) {
        if !self.has_turn(worker) {
            return;
        }
        let last = self.turn.end(u64::from(worker));
        if self.hand_to_next(worker, last) {
            return;
        }
        self.turn.give(None);
        self.end_rest();
        // A worker that was hungry before it saw that the turn is free is seen here, or has taken the turn.
        if let Some(next) = self.next_hungry(worker, last) {
            if self.turn.take_for(next) {
                self.ring_worker(next);
            }
        }
    }

    /// The worker whose turn it is gives it to another one that carries a hart of this process which waits for a frame, and rings it. The order of the
    /// turns goes on after this worker. Answers whether it was given: it is not where no other worker carries such a hart, or it was given so before.
    pub fn lend_turn(&self, worker: u32, process: u32) -> bool {
        if !self.has_turn(worker) || self.turn.lent_for().is_some() {
            return false;
        }
        for hart in 0..MOST_HARTS as u32 {
            if self.waits_for_frame(process, hart) {
                if let Some(other) = self.carrier(process, hart) {
                    if other != u64::from(worker) {
                        let _ = self.turn.end(u64::from(worker));
                        self.turn.lend(other, process);
                        self.ring_worker(other);
                        return true;
                    }
                }
            }
        }
        false
    }

    /// The process for which this worker has the turn out of order, if it has.
    pub fn lent_for(&self, worker: u32) -> Option<u32> {
        if !self.has_turn(worker) {
            return None;
        }
        let process = self.turn.lent_for()?;
        u32::try_from(process).ok()
    }

    /// A try to make room is over.
    pub fn count_try(&self, has_made_room: bool) {
        self.turn.count_try(has_made_room);
    }

    /// How many tries in a row have made no room.
    pub fn failed_tries(&self) -> u64 {
        self.turn.failed()
    }

    /// Whether another worker waits for a frame.
    pub fn others_wait(&self, worker: u32) -> bool {
        self.next_hungry(worker, u64::from(worker)).is_some()
    }

    /// So many frames have come free that nobody made room for: rings for as many workers that wait for one.
    pub fn offer(&self, frames: usize) {
        let mut left = frames;
        for station in self.workers.iter() {
            if left == 0 {
                return;
            }
            if station.is_hungry() {
                station.set_offered();
                station.bell.ring();
                left -= 1;
            }
        }
    }

    /// Whether a frame was offered to a worker since this was asked last.
    pub fn take_offer(&self, worker: u32) -> bool {
        match self.workers.get(worker as usize) {
            Some(station) => station.take_offer(),
            None => false,
        }
    }

    /// Gives the turn to the next worker that waits for a frame, if there is one besides this one.
    fn hand_to_next(&self, worker: u32, last: u64) -> bool {
        match self.next_hungry(worker, last) {
            Some(next) => {
                self.turn.give(Some(next));
                self.ring_worker(next);
                true
            }
            None => false,
        }
    }

    /// The next worker that waits for a frame, in a round from the one after `last` on, but not this one.
    fn next_hungry(&self, worker: u32, last: u64) -> Option<u64> {
        let workers = self.workers.len() as u64;
        for step in 1..workers.saturating_add(1) {
            let number = last.wrapping_add(step) % workers;
            if number != u64::from(worker) {
                if let Some(station) = self.workers.get(number as usize) {
                    if station.is_hungry() {
                        return Some(number);
                    }
                }
            }
        }
        None
    }

    /// Rings for a worker.
    pub fn ring_worker(&self, number: u64) {
        if let Some(station) = self.workers.get(number as usize) {
            station.bell.ring();
        }
    }
}
