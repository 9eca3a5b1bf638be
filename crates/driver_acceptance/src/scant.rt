//! A list that finds no memory once.

ghost use Rattle.std.specs.Prelude.{◌≡◌, None};
ghost use Rattle.std.specs.Bool.{OnTrue};
ghost use Rattle.clock_policy.specs.ClockPro.{kind_of};
ghost use Rattle.clock_policy.specs.Bound.{NothingResident};
ghost use Rattle.clock_policy.specs.Lawful.{Lawful};

use clock_policy::{Bit, Clock, Entry, EntryKind, Key, Kind, NewRefusal, Refusal, Verdict};
use clock_ring::ClockRing;
use std::alloc::{AllocError, Global};

/// The policy on a ring, which finds no memory for the first entry that it is to take.
#[derive(Drop)]
pub(crate) struct ScantList {
    ring: ClockRing,
    refuses: bool,
}

/// Whether a page has no entry in a list in which nothing is resident.
fn is_first(ring: &ClockRing, key: Key) -> bool
    ensures first { OnTrue result (NothingResident ring.now) }
    ensures none { OnTrue result (kind_of key ring.now.entries ≡ None) }
    ensures lawful { Lawful ring.now }
{
    if ring.question().is_some() {
        return false;
    }
    ring.kind_of(key).is_none()
}

impl Clock for ScantList {
    ghost state = { λ list. list.ring };

    fn new(alloc: Global, frames: usize) -> Result<Self, NewRefusal> {
        match ClockRing::new(alloc, frames) {
            Ok(ring) => Ok(ScantList {
                ring,
                refuses: true,
            }),
            Err(refusal) => Err(refusal),
        }
    }

    fn frames(&self) -> usize {
        self.ring.frames()
    }

    fn question(&self) -> Option<Key> {
        self.ring.question()
    }

    fn answer(&mut self, bit: Bit) -> Result<Verdict, Refusal> {
        self.ring.answer(bit)
    }

    #[tactic(auto, using(crate::proofs::FirstEntry::first_admitted))]
    fn admit(&mut self, key: Key) -> Result<Kind, Refusal> {
        if self.refuses && is_first(&self.ring, key) {
            self.refuses = false;
            return Err(Refusal::NoMemory);
        }
        self.ring.admit(key)
    }

    fn is_full(&self) -> bool {
        self.ring.is_full()
    }

    fn restore(&mut self, key: Key) -> Result<(), Refusal> {
        self.ring.restore(key)
    }

    fn withdraw(&mut self, key: Key) -> Result<(), Refusal> {
        self.ring.withdraw(key)
    }

    fn purge(&mut self, process: u32) -> u32 {
        self.ring.purge(process)
    }

    fn share(&self) -> usize {
        self.ring.share()
    }

    fn asked(&self) -> usize {
        self.ring.asked()
    }

    fn cold_hand(&self) -> Option<Key> {
        self.ring.cold_hand()
    }

    fn test_hand(&self) -> Option<Key> {
        self.ring.test_hand()
    }

    fn entry(&self, i: usize) -> Option<(Key, EntryKind)> {
        self.ring.entry(i)
    }

    fn kind_of(&self, key: Key) -> Option<EntryKind> {
        self.ring.kind_of(key)
    }

    fn copy_entries(&self, to: &mut Vec<Entry>) -> Result<(), AllocError> {
        self.ring.copy_entries(to)
    }
}
