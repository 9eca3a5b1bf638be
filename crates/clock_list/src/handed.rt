//! The single moves of the policy's calls.

ghost use Rattle.clock_policy.specs.ClockPro.{ClockState};

use crate::body::Body;
use crate::rebuild::rebuild_turned;
use crate::scan::{cold_count, entry_of, first_key_from, hot_count, shadow_count, test_count};
use clock_moves::{Found, HandedList};
use clock_policy::{Bit, Entry, EntryKind, Key};

impl HandedList for Body {
    ghost use Rattle.clock_list.specs.BodyState.{state_of, HoldsEntry};

    ghost state = { state_of };

    ghost holds = { HoldsEntry };

    fn frames(&self) -> usize {
        self.frames
    }

    fn asked(&self) -> usize {
        self.asked
    }

    fn set_asked(&mut self, asked: usize) {
        self.asked = asked;
    }

    #[tactic(auto, using(clock_policy::proofs::LookupLaws::length_is))]
    fn resident_count(&self) -> usize {
        hot_count(&self.entries) + cold_count(&self.entries)
    }

    fn asked_entry(&self) -> Option<Found> {
        let Some(entry) = self.entry_asked() else {
            return None;
        };
        Some(self.found(entry))
    }

    fn find(&self, key: Key) -> Option<Found> {
        let Some(entry) = entry_of(&self.entries, key) else {
            return None;
        };
        Some(self.found(entry))
    }

    fn append(&mut self, entry: Entry) {
        self.push(entry);
    }

    fn remove(&mut self, found: Found) {
        self.take_out(found);
    }

    fn mark(&mut self, found: Found, kind: EntryKind) {
        self.set_kind(found, kind);
    }

    #[tactic(auto, unfolding(clock_policy::specs::ClockPro::sent_to_end))]
    fn send_to_end(&mut self, found: Found, kind: EntryKind) {
        self.take_out(found);
        let key = found.entry.key;
        self.push(Entry { key, kind });
    }

    #[tactic(auto, unfolding(clock_policy::specs::ClockPro::shadowed))]
    fn shadow(&mut self, found: Found) {
        self.set_kind(found, EntryKind::Shadow);
        self.cold_hand = first_key_from(&self.entries, found.at + 1);
    }

    #[tactic(auto, unfolding(clock_policy::specs::ClockPro::cold_hand_on))]
    fn set_cold_hand(&mut self, found: Found) {
        self.cold_hand = Some(found.entry.key);
    }

    #[tactic(auto, unfolding(clock_policy::specs::ClockPro::turned_to))]
    fn turn_to(&mut self, bit: Bit, hot: Found) {
        let tests = test_count(&self.entries[..hot.at]);
        rebuild_turned(&mut self.spare, &self.entries, hot.at, bit, hot.entry);
        self.relist();
        self.fall(tests);
    }

    #[tactic(auto, unfolding(clock_policy::specs::ClockPro::grown))]
    fn grow(&mut self) {
        self.share = (self.share + 1).min(self.frames - 1);
    }

    #[tactic(auto, unfolding(clock_policy::specs::ClockPro::trimmed))]
    fn trim(&mut self) {
        if shadow_count(&self.entries) > self.frames {
            self.trim_once();
        }
    }
}
