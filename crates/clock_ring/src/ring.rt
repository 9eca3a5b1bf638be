//! The list as a circle of links.

ghost use Rattle.std.specs.Prelude.{◌≡◌, ◌≢◌, OnErr, Err};
ghost use Rattle.clock_policy.specs.ClockPro.{admitted};
ghost use Rattle.clock_policy.specs.Lawful.{Lawful};

use crate::body::Body;
use clock_moves::{HandedList, admit, answer, is_full, question, restore, withdraw};
use clock_policy::{Bit, Clock, Entry, EntryKind, Key, Kind, NewRefusal, Refusal, Verdict};
use machine_limits::{FEWEST_FRAMES, MOST_FRAMES};
use std::alloc::{AllocError, Global};
use std::marker::Model;

/// CLOCK-Pro over a circle of links, with an index from a page to its entry and a count of each kind.
///
/// A call takes constant time beside what its hands pass; `purge`, `entry` and `copy_entries` take time in the order of the list's
/// length. Memory is taken by `new`, which reserves what the list needs.
#[derive(Drop)]
pub struct ClockRing {
    body: Body,
}

impl Model for ClockRing {
    ghost use Rattle.clock_policy.specs.ClockPro.{ClockState};

    ghost Value = { ClockState };

    ghost use Rattle.clock_ring.specs.BodyState.{state_of};
    ghost use Rattle.clock_policy.specs.Lawful.{Lawful};

    ghost view = { λ c. state_of c.body };

    ghost invariant = { λ c. Lawful (state_of c.body) };
}

impl Clock for ClockRing {
    ghost state = { λ c. c };

    fn new(alloc: Global, frames: usize) -> Result<Self, NewRefusal> {
        if !(FEWEST_FRAMES as usize..=MOST_FRAMES as usize).contains(&frames) {
            return Err(NewRefusal::BadSize);
        }
        match Body::new(alloc, frames) {
            Ok(body) => Ok(ClockRing { body }),
            Err(_) => Err(NewRefusal::NoMemory),
        }
    }

    fn frames(&self) -> usize {
        self.body.frames
    }

    fn question(&self) -> Option<Key> {
        question(&self.body)
    }

    fn answer(&mut self, bit: Bit) -> Result<Verdict, Refusal> {
        answer(&mut self.body, bit)
    }

    /// Never answers `NoMemory`.
    #[inline(always)]
    fn admit(&mut self, key: Key) -> Result<Kind, Refusal>
        ensures moved { self.new ≡ (admitted key self.old).0 }
        ensures exact { result ≡ (admitted key self.old).1 }
        ensures memory { result ≢ Err Refusal.NoMemory }
        ensures err { OnErr result (self.new ≡ self.old) }
        ensures frames { self.new.frames ≡ self.old.frames }
        ensures lawful { Lawful self.new }
    {
        admit(&mut self.body, key)
    }

    fn is_full(&self) -> bool {
        is_full(&self.body)
    }

    fn restore(&mut self, key: Key) -> Result<(), Refusal> {
        restore(&mut self.body, key)
    }

    fn withdraw(&mut self, key: Key) -> Result<(), Refusal> {
        withdraw(&mut self.body, key)
    }

    fn purge(&mut self, process: u32) -> u32 {
        let before = self.body.len();
        self.body.purge(process);
        (before - self.body.len()) as u32
    }

    fn share(&self) -> usize {
        self.body.share
    }

    fn asked(&self) -> usize {
        self.body.asked
    }

    fn cold_hand(&self) -> Option<Key> {
        self.body.cold_key()
    }

    fn test_hand(&self) -> Option<Key> {
        self.body.test_key()
    }

    fn entry(&self, i: usize) -> Option<(Key, EntryKind)> {
        self.body.entry(i).map(|e| (e.key, e.kind))
    }

    fn kind_of(&self, key: Key) -> Option<EntryKind> {
        self.body.find(key).map(|found| found.entry.kind)
    }

    fn copy_entries(&self, to: &mut Vec<Entry>) -> Result<(), AllocError> {
        self.body.copy_entries(to)
    }
}
