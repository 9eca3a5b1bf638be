//! The circle with its other two hands, and the policy's single moves on it.

ghost use Rattle.std.specs.Prelude.{◌≡◌, ◌≤◌, ◌<◌, ◌*◌, ◌++◌, List, [], ◌∷◌, None, cond, ◌==◌};
ghost use Rattle.std.specs.Prelude.{length, IfOk};
ghost use Rattle.clock_policy.specs.ClockPro.{opening_state, removed, appended, marked, fallen};
ghost use Rattle.clock_policy.specs.FrameCounts.{least_frames, most_frames};
ghost use Rattle.clock_policy.specs.SingleMoves.{front_turned, test_hand_on};
ghost use Rattle.page_ring.specs.Linked.{Cell};
ghost use Rattle.page_ring.specs.Chain.{of_kind};
ghost use Rattle.page_ring.specs.Index.{at_of};
ghost use Rattle.clock_ring.specs.RingState.{hand_at, Rests, Kept, Kept-prop};

use crate::counts::Counts;
use clock_moves::Found;
use clock_policy::{Entry, EntryKind, Key};
use page_ring::IndexedRing;
use std::alloc::{AllocError, Global};

/// The hot hand is the circle's front. The other two are nodes, and where there is no entry any numbers.
#[derive(Drop)]
pub(crate) struct Body {
    pub(crate) frames: usize,
    pub(crate) share: usize,
    pub(crate) asked: usize,
    pub(crate) ring: IndexedRing,
    pub(crate) cold_hand: usize,
    pub(crate) test_hand: usize,
    pub(crate) counts: Counts,
    ghost least: { least_frames ≤ frames },
    ghost most: { frames ≤ most_frames },
    ghost share_low: { 1 ≤ share },
    ghost share_high: { share < frames },
    ghost few_asked: { asked ≤ 3 * frames },
    ghost room: { 2 * frames ≤ ring.room },
    ghost kept: { Kept ring.cells cold_hand test_hand counts frames } by { Kept-prop ring.cells cold_hand test_hand counts frames },
}

/// The node of a hand after a node is removed: the next node, if the hand pointed to the removed one.
pub(crate) fn after(hand: usize, at: usize, next: usize) -> usize
    ensures { result ≡ cond (hand == at) next hand }
{
    if hand == at { next } else { hand }
}

impl Body {
    ghost use Rattle.clock_ring.specs.BodyState.{state_of, HoldsEntry};

    /// An empty circle, with room for two entries a frame.
    #[tactic(auto, unfolding(clock_policy::specs::ClockPro::opening_state))]
    pub(crate) fn new(alloc: Global, frames: usize) -> Result<Self, AllocError>
        requires least { least_frames ≤ frames }
        requires most { frames ≤ most_frames }
        ensures { IfOk result (λ body. state_of body ≡ opening_state frames) }
    {
        let ring = IndexedRing::new(alloc, 2 * frames)?;
        Ok(Body {
            frames,
            share: 1,
            asked: 0,
            ring,
            cold_hand: 0,
            test_hand: 0,
            counts: Counts {
                hot: 0,
                cold: 0,
                shadows: 0,
            },
        })
    }

    /// The front becomes the last, and hands on it stay on it.
    pub(crate) fn turn(&mut self)
        requires { 1 ≤ length self.old.ring.cells }
        ensures moved { state_of self.new ≡ front_turned (state_of self.old) }
        ensures cells { (c : Cell) → (cs : List Cell) → self.old.ring.cells ≡ c ∷ cs →
            self.new.ring.cells ≡ cs ++ c ∷ [] }
    {
        self.ring.turn();
    }

    pub(crate) fn mark(&mut self, found: Found, kind: EntryKind)
        requires { HoldsEntry self.old found }
        ensures moved { state_of self.new ≡ marked found.entry.key kind (state_of self.old) }
        ensures cells { (u v : List Cell) → (c : Cell) → self.old.ring.cells ≡ u ++ c ∷ v →
            c.at ≡ found.at → self.new.ring.cells ≡ u ++ of_kind kind c ∷ v }
    {
        self.ring.mark(found.at, kind);
        self.counts.take(found.entry.kind);
        self.counts.put(kind);
    }

    /// Takes an entry out. A hand on it goes on to its next.
    pub(crate) fn remove(&mut self, found: Found)
        requires { HoldsEntry self.old found }
        ensures moved { state_of self.new ≡ removed found.entry.key (state_of self.old) }
        ensures cells { (u v : List Cell) → (c : Cell) → self.old.ring.cells ≡ u ++ c ∷ v →
            c.at ≡ found.at → self.new.ring.cells ≡ u ++ v }
    {
        let at = found.at;
        let next = self.ring.node(at).next;
        self.ring.remove(at);
        self.counts.take(found.entry.kind);
        self.cold_hand = after(self.cold_hand, at, next);
        self.test_hand = after(self.test_hand, at, next);
    }

    /// Adds an entry of a new page as the last. Hands that point to no node then point to it.
    #[inline(always)]
    pub(crate) fn append(&mut self, entry: Entry)
        requires new { at_of entry.key self.old.ring.cells ≡ None }
        requires room { length self.old.ring.cells < 2 * self.old.frames }
        ensures moved { state_of self.new ≡ appended entry (state_of self.old) }
    {
        let empty = self.ring.len() == 0;
        let at = self.ring.append(entry);
        self.counts.put(entry.kind);
        if empty {
            self.cold_hand = at;
            self.test_hand = at;
        }
    }

    #[tactic(auto, unfolding(clock_policy::specs::ClockPro::fallen))]
    pub(crate) fn fall(&mut self)
        ensures moved { state_of self.new ≡ fallen 1 (state_of self.old) }
        ensures same { self.new.ring ≡ self.old.ring }
    {
        self.share = self.share.saturating_sub(1).max(1);
    }

    pub(crate) fn set_test_hand(&mut self, found: Found)
        requires { HoldsEntry self.old found }
        ensures moved { state_of self.new ≡ test_hand_on found.entry.key (state_of self.old) }
        ensures same { self.new.ring ≡ self.old.ring }
    {
        self.test_hand = found.at;
    }

    /// The page that a hand points to.
    fn key_at(&self, hand: usize) -> Option<Key>
        requires { Rests self.now.ring.cells hand }
        ensures { result ≡ hand_at self.now.ring.cells hand }
    {
        if self.ring.len() == 0 {
            return None;
        }
        Some(self.ring.node(hand).entry.key)
    }

    pub(crate) fn cold_key(&self) -> Option<Key>
        ensures { result ≡ (state_of self.now).cold_hand }
    {
        self.key_at(self.cold_hand)
    }

    pub(crate) fn test_key(&self) -> Option<Key>
        ensures { result ≡ (state_of self.now).test_hand }
    {
        self.key_at(self.test_hand)
    }
}
