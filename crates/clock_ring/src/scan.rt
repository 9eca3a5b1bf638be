//! What is read from the circle: the entry that the question names, and the entries from the front.

ghost use Rattle.std.specs.Prelude.{◌≡◌, ◌≤◌, ◌+◌, ◌++◌, Some, None, true, length, find, slice_get};
ghost use Rattle.std.specs.Prelude.{option_map, IfSome, OnOk, OnErr, IsOk, vec_len, vec_capacity};
ghost use Rattle.clock_policy.specs.ClockPro.{asked_entry, asks_hot, is_hot, is_cold, hot_count};
ghost use Rattle.clock_policy.specs.ClockPro.{cold_count};
ghost use Rattle.page_ring.specs.Linked.{is_at};
ghost use Rattle.page_ring.specs.Index.{entries_of};
ghost use Rattle.clock_ring.specs.RingState.{entry_at_node, around};

use crate::body::Body;
use clock_moves::Found;
use clock_policy::Entry;
use page_ring::IndexedRing;
use std::alloc::AllocError;

/// The first hot entry from a node on, of which there is one.
fn first_hot(ring: &IndexedRing, start: usize) -> Found
    requires there { is_at ring.now.cells start ≡ true }
    requires some { 1 ≤ hot_count (entries_of ring.now.cells) }
    ensures holds { entry_at_node ring.now.cells result.at ≡ Some result.entry }
    ensures first { find (λ e. is_hot e.kind) (entries_of (around ring.now.cells start)) ≡
        Some result.entry }
{
    // For the proof only: a read shows that what is read is lawful.
    let _ = ring.len();
    let mut at = start;
    'to_hot: loop {
        let node = ring.node(at);
        if node.entry.kind.is_hot() {
            return Found {
                at,
                entry: node.entry,
            };
        }
        at = node.next;
    }
}

/// The first cold entry from a node on, of which there is one.
fn first_cold(ring: &IndexedRing, start: usize) -> Found
    requires there { is_at ring.now.cells start ≡ true }
    requires some { 1 ≤ cold_count (entries_of ring.now.cells) }
    ensures holds { entry_at_node ring.now.cells result.at ≡ Some result.entry }
    ensures first { find (λ e. is_cold e.kind) (entries_of (around ring.now.cells start)) ≡
        Some result.entry }
{
    // For the proof only: a read shows that what is read is lawful.
    let _ = ring.len();
    let mut at = start;
    'to_cold: loop {
        let node = ring.node(at);
        if node.entry.kind.is_cold() {
            return Found {
                at,
                entry: node.entry,
            };
        }
        at = node.next;
    }
}

impl Body {
    ghost use Rattle.clock_ring.specs.BodyState.{state_of, HoldsEntry};

    fn asks_hot(&self) -> bool
        ensures { result ≡ asks_hot (state_of self.now) }
    {
        self.counts.hot > self.frames - self.share || self.counts.cold == 0
    }

    /// The entry that the question names.
    pub(crate) fn asked_entry(&self) -> Option<Found>
        ensures exact { asked_entry (state_of self.now) ≡ option_map (λ x. x.entry) result }
        ensures holds { IfSome result (HoldsEntry self.now) }
    {
        if self.asks_hot() {
            if self.counts.hot == 0 {
                return None;
            }
            Some(first_hot(&self.ring, self.ring.front()))
        } else {
            Some(first_cold(&self.ring, self.cold_hand))
        }
    }

    /// How many entries there are, two a frame at most.
    pub(crate) fn len(&self) -> usize
        ensures len { result ≡ length (state_of self.now).entries }
        ensures few { result ≤ 8192 }
    {
        self.ring.len()
    }

    /// The entry at a place, counted from the front.
    pub(crate) fn entry(&self, i: usize) -> Option<Entry>
        ensures { result ≡ slice_get (state_of self.now).entries i }
    {
        if i >= self.ring.len() {
            return None;
        }
        let mut at = self.ring.front();
        for _passed in 0..i {
            at = self.ring.node(at).next;
        }
        Some(self.ring.node(at).entry)
    }

    /// Adds all entries to a vector, from the front. It takes memory only where the vector has not the room.
    pub(crate) fn copy_entries(&self, to: &mut Vec<Entry>) -> Result<(), AllocError>
        ensures items { OnOk result (to.new.items ≡ to.old.items ++ (state_of self.now).entries) }
        ensures err { OnErr result (to.new.items ≡ to.old.items) }
        ensures room { vec_len to.old + length (state_of self.now).entries ≤ vec_capacity to.old →
            IsOk result }
    {
        let len = self.ring.len();
        to.reserve(len)?;
        let mut at = self.ring.front();
        for _copied in 0..len {
            let node = self.ring.node(at);
            to.push_reserved(node.entry);
            at = node.next;
        }
        Ok(())
    }
}
