//! The list as a vector.

ghost use Rattle.std.specs.Prelude.{◌≡◌, ◌≢◌, ◌≤◌, ◌<◌, ◌*◌, ◌↔◌, ◌⊎◌, ℕ, IfOk, IfErr, OnOk, OnErr};
ghost use Rattle.std.specs.Prelude.{IsOk, Ok, Err, slice_get, option_map};
ghost use Rattle.clock_policy.specs.ClockPro.{opening_state, question_of, answered, admitted};
ghost use Rattle.clock_policy.specs.ClockPro.{restored, withdrawn, purged, purge_count};
ghost use Rattle.clock_policy.specs.Lawful.{Lawful};
ghost use Rattle.clock_policy.specs.Bound.{answers_left, NothingResident};

use crate::body::Body;
use crate::scan::{kind_of, process_count};
use clock_moves::{admit, answer, is_full, question, restore, withdraw};
use clock_policy::{Bit, Clock, Entry, EntryKind, Key, Kind, NewRefusal, Refusal, Verdict};
use machine_limits::{FEWEST_FRAMES, MOST_FRAMES};
use std::alloc::{AllocError, Global};
use std::marker::Model;

/// CLOCK-Pro over a vector of entries. All its memory is taken by `new`.
///
/// A call takes time in the order of the list's length, and as much again for each shadow under a hand that it takes out of the list.
#[derive(Debug, Drop)]
pub struct ClockList {
    body: Body,
}

impl Model for ClockList {
    ghost use Rattle.clock_policy.specs.ClockPro.{ClockState};

    ghost Value = { ClockState };

    ghost use Rattle.clock_list.specs.BodyState.{state_of};
    ghost use Rattle.clock_policy.specs.Lawful.{Lawful};

    ghost view = { λ c. state_of c.body };

    ghost invariant = { λ c. Lawful (state_of c.body) };
}

impl Clock for ClockList {
    ghost state = { λ c. c };

    fn new(alloc: Global, frames: usize) -> Result<Self, NewRefusal> {
        if !(FEWEST_FRAMES as usize..=MOST_FRAMES as usize).contains(&frames) {
            return Err(NewRefusal::BadSize);
        }
        match Body::new(alloc, frames) {
            Ok(body) => Ok(ClockList { body }),
            Err(_) => Err(NewRefusal::NoMemory),
        }
    }

    fn frames(&self) -> usize {
        self.body.frames
    }

    fn question(&self) -> Option<Key> {
        question(&self.body)
    }

    fn answer(&mut self, bit: Bit) -> Result<Verdict, Refusal> {
        answer(&mut self.body, bit)
    }

    /// Never answers `NoMemory`.
    fn admit(&mut self, key: Key) -> Result<Kind, Refusal>
        ensures moved { self.new ≡ (admitted key self.old).0 }
        ensures exact { result ≡ (admitted key self.old).1 }
        ensures memory { result ≢ Err Refusal.NoMemory }
        ensures err { OnErr result (self.new ≡ self.old) }
        ensures frames { self.new.frames ≡ self.old.frames }
        ensures lawful { Lawful self.new }
    {
        admit(&mut self.body, key)
    }

    fn is_full(&self) -> bool {
        is_full(&self.body)
    }

    fn restore(&mut self, key: Key) -> Result<(), Refusal> {
        restore(&mut self.body, key)
    }

    fn withdraw(&mut self, key: Key) -> Result<(), Refusal> {
        withdraw(&mut self.body, key)
    }

    fn purge(&mut self, process: u32) -> u32 {
        let count = process_count(&self.body.entries, process);
        self.body.purge(process);
        count as u32
    }

    fn share(&self) -> usize {
        self.body.share
    }

    fn asked(&self) -> usize {
        self.body.asked
    }

    fn cold_hand(&self) -> Option<Key> {
        self.body.cold_hand
    }

    fn test_hand(&self) -> Option<Key> {
        self.body.test_hand
    }

    fn entry(&self, i: usize) -> Option<(Key, EntryKind)> {
        self.body.entries.get(i).map(|e| (e.key, e.kind))
    }

    fn kind_of(&self, key: Key) -> Option<EntryKind> {
        kind_of(&self.body.entries, key)
    }

    fn copy_entries(&self, to: &mut Vec<Entry>) -> Result<(), AllocError> {
        to.extend_from_slice(&self.body.entries)
    }
}
