//! The list with its hands, and what its moves are made of.

ghost use Rattle.std.specs.Prelude.{◌≡◌, ◌≤◌, ◌<◌, ◌+◌, ◌*◌, IfOk, length, vec_len, vec_capacity};
ghost use Rattle.clock_policy.specs.ClockPro.{place, relisted, removed, appended, marked};
ghost use Rattle.clock_policy.specs.ClockPro.{fallen, trimmed_once, purged, asked_entry, asks_hot};
ghost use Rattle.clock_policy.specs.ClockPro.{opening_state};
ghost use Rattle.clock_policy.specs.FrameCounts.{least_frames, most_frames};

use crate::rebuild::{rebuild_trimmed, rebuild_without, rebuild_without_process};
use crate::scan::{
    cold_count, first_cold_from, first_hot, first_shadow_from, hot_count, place, place_of, settled,
};
use clock_moves::Found;
use clock_policy::{Entry, EntryKind, Key};
use std::alloc::{AllocError, Global};
use std::mem;

/// A move makes the new list in `spare`, where the hands are settled, and then the two vectors change places.
#[derive(Debug, Drop)]
pub(crate) struct Body {
    pub(crate) frames: usize,
    pub(crate) share: usize,
    pub(crate) asked: usize,
    pub(crate) entries: Vec<Entry>,
    pub(crate) spare: Vec<Entry>,
    pub(crate) cold_hand: Option<Key>,
    pub(crate) test_hand: Option<Key>,
    ghost least: { least_frames ≤ frames },
    ghost most: { frames ≤ most_frames },
    ghost shared: { share < frames },
    ghost counted: { asked ≤ 3 * frames },
    ghost within: { vec_len entries ≤ 2 * frames },
    ghost room: { 2 * frames ≤ vec_capacity entries },
    ghost spare_room: { 2 * frames ≤ vec_capacity spare },
}

impl Body {
    ghost use Rattle.clock_list.specs.BodyState.{state_of, HoldsEntry};

    /// An empty list, with room for two entries a frame.
    #[tactic(auto, unfolding(clock_policy::specs::ClockPro::opening_state))]
    pub(crate) fn new(alloc: Global, frames: usize) -> Result<Self, AllocError>
        requires least { least_frames ≤ frames }
        requires most { frames ≤ most_frames }
        ensures { IfOk result (λ body. state_of body ≡ opening_state frames) }
    {
        let entries = Vec::with_capacity(alloc, 2 * frames)?;
        let spare = Vec::with_capacity(alloc, 2 * frames)?;
        Ok(Body {
            frames,
            share: 1,
            asked: 0,
            entries,
            spare,
            cold_hand: None,
            test_hand: None,
        })
    }

    /// Takes the list in `spare` for the old one, and settles the hands.
    #[tactic(auto, unfolding(clock_policy::specs::ClockPro::relisted))]
    pub(crate) fn relist(&mut self)
        requires { vec_len self.old.spare ≤ 2 * self.old.frames }
        ensures moved { state_of self.new ≡ relisted self.old.spare.items (state_of self.old) }
        ensures len { vec_len self.new.entries ≡ vec_len self.old.spare }
        ensures frames { self.new.frames ≡ self.old.frames }
    {
        self.cold_hand = settled(&self.entries, &self.spare, self.cold_hand);
        self.test_hand = settled(&self.entries, &self.spare, self.test_hand);
        mem::swap(&mut self.entries, &mut self.spare);
    }

    /// An entry of the list, with its place.
    pub(crate) fn found(&self, entry: Entry) -> Found
        requires { place entry.key self.now.entries.items < length self.now.entries.items }
        ensures entry { result.entry ≡ entry }
        ensures there { HoldsEntry self.now result }
    {
        let at = place(&self.entries, entry.key);
        Found { at, entry }
    }

    #[tactic(auto, unfolding(clock_policy::specs::ClockPro::removed))]
    pub(crate) fn take_out(&mut self, found: Found)
        requires { HoldsEntry self.old found }
        ensures moved { state_of self.new ≡ removed found.entry.key (state_of self.old) }
        ensures len { vec_len self.new.entries + 1 ≡ vec_len self.old.entries }
        ensures frames { self.new.frames ≡ self.old.frames }
    {
        rebuild_without(&mut self.spare, &self.entries, found.at);
        self.relist();
    }

    #[tactic(auto, unfolding(clock_policy::specs::ClockPro::appended))]
    pub(crate) fn push(&mut self, entry: Entry)
        requires { vec_len self.old.entries < 2 * self.old.frames }
        ensures moved { state_of self.new ≡ appended entry (state_of self.old) }
    {
        self.entries.push_reserved(entry);
        self.cold_hand = Some(self.cold_hand.unwrap_or(entry.key));
        self.test_hand = Some(self.test_hand.unwrap_or(entry.key));
    }

    #[tactic(auto, unfolding(clock_policy::specs::ClockPro::marked))]
    pub(crate) fn set_kind(&mut self, found: Found, kind: EntryKind)
        requires { HoldsEntry self.old found }
        ensures moved { state_of self.new ≡ marked found.entry.key kind (state_of self.old) }
        ensures len { vec_len self.new.entries ≡ vec_len self.old.entries }
    {
        let key = found.entry.key;
        self.entries[found.at] = Entry { key, kind };
    }

    #[tactic(auto, unfolding(clock_policy::specs::ClockPro::fallen))]
    pub(crate) fn fall(&mut self, tests: usize)
        ensures moved { state_of self.new ≡ fallen tests (state_of self.old) }
    {
        self.share = self.share.saturating_sub(tests).max(1);
    }

    #[tactic(auto, unfolding(clock_policy::specs::ClockPro::trimmed_once))]
    pub(crate) fn trim_once(&mut self)
        ensures moved { state_of self.new ≡ trimmed_once (state_of self.old) }
    {
        let i = place_of(&self.entries, self.test_hand);
        self.test_hand = first_shadow_from(&self.entries, i);
        let tests = rebuild_trimmed(&mut self.spare, &self.entries, i);
        self.relist();
        self.fall(tests);
    }

    #[tactic(auto, unfolding(clock_policy::specs::ClockPro::purged))]
    pub(crate) fn purge(&mut self, process: u32)
        ensures moved { state_of self.new ≡ purged process (state_of self.old) }
    {
        rebuild_without_process(&mut self.spare, &self.entries, process);
        self.relist();
    }

    fn asks_hot(&self) -> bool
        ensures { result ≡ asks_hot (state_of self.now) }
    {
        hot_count(&self.entries) > self.frames - self.share || cold_count(&self.entries) == 0
    }

    /// The entry that the question names.
    #[tactic(auto, unfolding(clock_policy::specs::ClockPro::asked_entry))]
    pub(crate) fn entry_asked(&self) -> Option<Entry>
        ensures { result ≡ asked_entry (state_of self.now) }
    {
        if self.asks_hot() {
            first_hot(&self.entries)
        } else {
            first_cold_from(&self.entries, self.cold_hand)
        }
    }
}
