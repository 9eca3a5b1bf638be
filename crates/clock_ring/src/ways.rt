//! The ways of the hands: loops of single moves.

ghost use Rattle.std.specs.Prelude.{◌≡◌, ◌≤◌, ◌++◌, List, ◌∷◌, false, length};
ghost use Rattle.clock_policy.specs.ClockPro.{ClockState, place, is_shadow, shadow_count};
ghost use Rattle.clock_policy.specs.ClockPro.{trimmed_once, purged};
ghost use Rattle.clock_policy.specs.SingleMoves.{front_passed, fronts_passed, kind_ended};
ghost use Rattle.clock_policy.specs.Lawful.{Lawful};
ghost use Rattle.page_ring.specs.Linked.{Cell};
ghost use Rattle.page_ring.specs.Chain.{of_kind};
ghost use Rattle.clock_ring.specs.RingState.{passed_list, ended_kind};

use crate::body::Body;
use clock_moves::Found;
use clock_policy::EntryKind;

impl Body {
    ghost use Rattle.clock_ring.specs.BodyState.{state_of, HoldsEntry};

    /// The hot hand passes the front, whose test ends.
    fn pass_front(&mut self)
        requires { 1 ≤ length self.old.ring.cells }
        ensures moved { state_of self.new ≡ front_passed (state_of self.old) }
        ensures cells { self.new.ring.cells ≡ passed_list self.old.ring.cells }
    {
        let at = self.ring.front();
        let front = Found {
            at,
            entry: self.ring.node(at).entry,
        };
        match front.entry.kind {
            EntryKind::Hot => self.turn(),
            EntryKind::Test => {
                self.mark(front, EntryKind::Cold);
                self.turn();
                self.fall();
            }
            EntryKind::Cold => self.turn(),
            EntryKind::Shadow => {
                self.remove(front);
                self.fall();
            }
        }
    }

    /// The hot hand goes to an entry.
    pub(crate) fn pass_fronts(&mut self, found: Found)
        requires { HoldsEntry self.old found }
        ensures moved { state_of self.new ≡ fronts_passed (place found.entry.key
            (state_of self.old).entries) (state_of self.old) }
        ensures holds { HoldsEntry self.new found }
    {
        'to_front: loop {
            let front = self.ring.front();
            if front == found.at {
                return;
            }
            self.pass_front();
        }
    }

    /// Ends the test of an entry that the test hand passes.
    fn end_test(&mut self, passed: Found)
        requires holds { HoldsEntry self.old passed }
        requires resident { is_shadow passed.entry.kind ≡ false }
        ensures moved { (more : ClockState → ClockState) →
            kind_ended passed.entry.kind passed.entry.key more (state_of self.old) ≡
            more (state_of self.new) }
        ensures cells { (u v : List Cell) → (c : Cell) → self.old.ring.cells ≡ u ++ c ∷ v →
            c.at ≡ passed.at → self.new.ring.cells ≡ u ++ of_kind (ended_kind c.entry.kind) c ∷ v }
    {
        if passed.entry.kind.is_in_test() {
            self.mark(passed, EntryKind::Cold);
            self.fall();
        }
    }

    /// From the test hand on each test ends, up to the first shadow, which goes.
    pub(crate) fn trim_once(&mut self)
        requires { 1 ≤ shadow_count (state_of self.old).entries }
        ensures moved { state_of self.new ≡ trimmed_once (state_of self.old) }
    {
        let mut at = self.test_hand;
        'to_shadow: loop {
            let node = self.ring.node(at);
            let passed = Found {
                at,
                entry: node.entry,
            };
            if node.entry.kind.is_shadow() {
                self.set_test_hand(passed);
                self.remove(passed);
                self.fall();
                return;
            }
            self.end_test(passed);
            at = node.next;
        }
    }

    /// Takes the entries of a process out, one after another.
    pub(crate) fn purge(&mut self, process: u32)
        requires { Lawful (state_of self.old) }
        ensures moved { state_of self.new ≡ purged process (state_of self.old) }
    {
        let mut at = self.ring.front();
        for _passed in 0..self.ring.len() {
            let node = self.ring.node(at);
            if node.entry.key.process == process {
                self.remove(Found {
                    at,
                    entry: node.entry,
                });
            }
            at = node.next;
        }
    }
}
