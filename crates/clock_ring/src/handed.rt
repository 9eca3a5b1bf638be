//! The single moves of the policy's calls.

use crate::body::{Body, after};
use clock_moves::{Found, HandedList};
use clock_policy::{Bit, Entry, EntryKind, Key};

impl HandedList for Body {
    ghost use Rattle.clock_ring.specs.BodyState.{state_of, HoldsEntry};

    ghost state = { state_of };

    ghost holds = { HoldsEntry };

    #[inline(always)]
    fn frames(&self) -> usize {
        self.frames
    }

    #[inline(always)]
    fn asked(&self) -> usize {
        self.asked
    }

    #[inline(always)]
    fn set_asked(&mut self, asked: usize) {
        self.asked = asked;
    }

    #[inline(always)]
    fn resident_count(&self) -> usize {
        self.counts.hot + self.counts.cold
    }

    fn asked_entry(&self) -> Option<Found> {
        self.asked_entry()
    }

    #[inline(always)]
    fn find(&self, key: Key) -> Option<Found> {
        let at = self.ring.find(key)?;
        Some(Found {
            at,
            entry: self.ring.node(at).entry,
        })
    }

    #[inline(always)]
    fn append(&mut self, entry: Entry) {
        self.append(entry);
    }

    fn remove(&mut self, found: Found) {
        self.remove(found);
    }

    fn mark(&mut self, found: Found, kind: EntryKind) {
        self.mark(found, kind);
    }

    fn send_to_end(&mut self, found: Found, kind: EntryKind) {
        let next = self.ring.node(found.at).next;
        self.ring.send_to_end(found.at, kind);
        self.counts.take(found.entry.kind);
        self.counts.put(kind);
        self.cold_hand = after(self.cold_hand, found.at, next);
        self.test_hand = after(self.test_hand, found.at, next);
    }

    fn shadow(&mut self, found: Found) {
        let next = self.ring.node(found.at).next;
        self.ring.mark(found.at, EntryKind::Shadow);
        self.counts.take(found.entry.kind);
        self.counts.put(EntryKind::Shadow);
        self.cold_hand = next;
    }

    fn set_cold_hand(&mut self, found: Found) {
        self.cold_hand = found.at;
    }

    fn turn_to(&mut self, bit: Bit, hot: Found) {
        self.pass_fronts(hot);
        match bit {
            Bit::Zero => {
                self.mark(hot, EntryKind::Cold);
                self.turn();
            }
            Bit::One => self.turn(),
            Bit::Gone => self.remove(hot),
        }
    }

    #[tactic(auto, unfolding(clock_policy::specs::ClockPro::grown))]
    #[inline(always)]
    fn grow(&mut self) {
        self.share = (self.share + 1).min(self.frames - 1);
    }

    #[tactic(auto, unfolding(clock_policy::specs::ClockPro::trimmed))]
    fn trim(&mut self) {
        if self.counts.shadows > self.frames {
            self.trim_once();
        }
    }
}
