//! CLOCK.

ghost use Rattle.std.specs.Prelude.{◌≡◌, ◌≤◌, ◌<◌, ◌++◌, ◌∷◌, [], refl, drop, length, IfOk, None};
ghost use Rattle.std.specs.Prelude.{true, false};
ghost use Rattle.page_ring.specs.Index.{at_of};
ghost use Rattle.page_policies.specs.Strings.{misses as misses_by};
ghost use Rattle.page_policies.specs.SecondChance.{in_slots, touched, front_used, turned, one_gone};
ghost use Rattle.page_policies.specs.SecondChance.{room_made, second_chance, clock_misses, slots_of};

use crate::frames::Frames;
use crate::policy::{HitOrMiss, Policy};
use crate::refusal::PolicyRefusal;
use clock_policy::{Entry, EntryKind, Key};
use page_ring::IndexedRing;
use std::alloc::{AllocError, Global};

/// CLOCK, or second chance: the hand passes pages that were used, and the first that was not leaves.
///
/// The hand is at the circle's front. An entry is hot where its page was used since the hand last passed it, else cold.
#[derive(Drop)]
pub struct SecondChance {
    frames: usize,
    ring: IndexedRing,
    ghost some: { 1 ≤ frames },
    ghost room: { frames ≤ ring.room },
    ghost few: { length ring.cells ≤ frames },
}

/// Whether the page at the hand was used.
fn is_front_used(ring: &IndexedRing) -> bool
    ensures { result ≡ front_used (slots_of ring.now.cells) }
{
    if ring.len() == 0 {
        return false;
    }
    ring.node(ring.front()).entry.kind.is_hot()
}

/// The hand passes a page, which loses its mark.
fn turn(ring: &mut IndexedRing)
    requires { 1 ≤ length ring.old.cells }
    ensures slots { slots_of ring.new.cells ≡ turned (slots_of ring.old.cells) }
    ensures room { ring.new.room ≡ ring.old.room }
{
    let at = ring.front();
    ring.mark(at, EntryKind::Cold);
    ring.turn();
}

/// The page at the hand leaves, if there is one.
fn remove_front(ring: &mut IndexedRing)
    ensures slots { slots_of ring.new.cells ≡ drop 1 (slots_of ring.old.cells) }
    ensures room { ring.new.room ≡ ring.old.room }
{
    if ring.len() == 0 {
        return;
    }
    let at = ring.front();
    ring.remove(at);
}

/// Used pages are passed, so many at most, and then the page at the hand leaves.
fn remove_one(ring: &mut IndexedRing, turns: usize)
    ensures slots { slots_of ring.new.cells ≡ one_gone turns (slots_of ring.old.cells) }
    ensures room { ring.new.room ≡ ring.old.room }
{
    for _turn in 0..turns {
        if !is_front_used(ring) {
            return remove_front(ring);
        }
        turn(ring);
    }
    remove_front(ring);
}

/// Marks a page as used, if it is there.
fn touch(ring: &mut IndexedRing, page: Key) -> bool
    ensures found { result ≡ in_slots page (slots_of ring.old.cells) }
    ensures slots { result ≡ true → slots_of ring.new.cells ≡ touched page
        (slots_of ring.old.cells) }
    ensures nowhere { result ≡ false → at_of page ring.old.cells ≡ None }
    ensures same { result ≡ false → ring.new ≡ ring.old }
    ensures len { length ring.new.cells ≡ length ring.old.cells }
    ensures room { ring.new.room ≡ ring.old.room }
{
    match ring.find(page) {
        Some(at) => {
            ring.mark(at, EntryKind::Hot);
            true
        }
        None => false,
    }
}

/// Room for one page.
fn make_room(ring: &mut IndexedRing, frames: usize)
    ensures slots { slots_of ring.new.cells ≡ room_made frames (slots_of ring.old.cells) }
    ensures room { ring.new.room ≡ ring.old.room }
{
    let len = ring.len();
    if frames <= len {
        remove_one(ring, len);
    }
}

/// A page comes in that is nowhere.
fn bring_in(ring: &mut IndexedRing, frames: usize, page: Key)
    requires some { 1 ≤ frames }
    requires few { length ring.old.cells ≤ frames }
    requires room { frames ≤ ring.old.room }
    requires new { at_of page ring.old.cells ≡ None }
    ensures slots { slots_of ring.new.cells ≡ room_made frames (slots_of ring.old.cells) ++
        record { page = page; used = true } ∷ [] }
    ensures few { length ring.new.cells ≤ frames }
    ensures room { ring.new.room ≡ ring.old.room }
{
    make_room(ring, frames);
    ring.append(Entry {
        key: page,
        kind: EntryKind::Hot,
    });
}

impl Policy for SecondChance {
    ghost misses = { clock_misses };

    ghost to_miss = { λ policy string. misses_by in_slots (second_chance policy.frames)
        (slots_of policy.ring.cells) string };

    ghost refuses = { λ number. ⊥ };

    ghost grows = { λ policy page. ⊥ };

    ghost none_to_miss = { λ policy. refl };

    #[tactic(auto, unfolding(crate::specs::SecondChance::clock_misses))]
    fn new(alloc: Global, frames: Frames) -> Result<Self, PolicyRefusal> {
        let frames = frames.number();
        let ring = IndexedRing::new(alloc, frames)?;
        Ok(SecondChance { frames, ring })
    }

    fn refer(&mut self, page: Key) -> Result<HitOrMiss, AllocError> {
        if touch(&mut self.ring, page) {
            return Ok(HitOrMiss::Hit);
        }
        bring_in(&mut self.ring, self.frames, page);
        Ok(HitOrMiss::Miss)
    }
}
