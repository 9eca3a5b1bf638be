//! The pager with its counts of saves and drops, and the room in which pages are copied.

ghost use Rattle.std.specs.Prelude.{◌≡◌, ◌⊎◌, ◌+◌, ◌↔◌, ◌*◌, ◌≤◌, ◌<◌, IsNone, IfOk, IsErrOf};
ghost use Rattle.std.specs.Prelude.{option_map, slice_get, length};
ghost use Rattle.clock_policy.specs.ClockPro.{question_of};
ghost use Rattle.clock_policy.specs.Lawful.{Lawful};
ghost use Rattle.clock_policy.specs.Bound.{answers_left, NothingResident};
ghost use Rattle.pager_core.specs.Pager.{full_pager, takes_back, tallied};

use clock_policy::{Clock, EntryKind, Key};
use frame_pool::PoolError;
use pager_core::{Counts, Pager};
use std::alloc::{AllocError, Global};
use std::marker::Model;
use std::sync::ledger::{Blank, Ledger, Share};

/// The pager, with the counts of the pages that left their frames.
#[derive(Drop)]
pub struct PagerSide<L: Ledger, C: Clock> {
    pub(crate) pager: Pager<L, C>,
    pub(crate) saves: u64,
    pub(crate) drops: u64,
    /// What copies of pages are made in, whichever process's, one after another: a frame that is copied leaves its own
    /// room here meanwhile.
    pub(crate) room: Box<[u8; 4096]>,
}

impl<L: Ledger, C: Clock> Model for PagerSide<L, C> {
    ghost use Rattle.machine_sides.specs.Sides.{PagerSideValue};

    ghost Value = { PagerSideValue };

    ghost view = { λ p. record { pager = p.pager; saves = p.saves; drops = p.drops } };
}

/// How many frames are free, and what was counted. Each count stays at its type's largest number.
#[derive(Clone, Copy, Debug, PartialEq, Eq)]
pub struct SideCounts {
    pub pager: Counts,
    /// Pages whose frame was freed once they were saved.
    pub saves: u64,
    /// Unchanged pages whose frame was freed with no save.
    pub drops: u64,
}

impl<L: Ledger, C: Clock> PagerSide<L, C> {
    /// A pager of 4 to 4096 frames of zero bytes, all free, and an empty list. The ledger has one part for each frame, and
    /// one for the pager itself.
    pub fn new(alloc: Global, frames: u32, blank: Blank) -> Result<Self, PoolError>
        requires name { blank.name ≡ L.name }
        requires parts { blank.parts ≡ L.parts }
        requires one_each { L.parts ≡ frames + 1 }
        ensures made { IfOk result (λ side. side ≡
            record { pager = full_pager frames; saves = 0; drops = 0 }) }
        ensures bad_size { IsErrOf result PoolError.BadSize ↔ ((frames < 4) ⊎ (4096 < frames)) }
    {
        Ok(PagerSide {
            pager: Pager::new(alloc, frames, blank)?,
            saves: 0,
            drops: 0,
            room: room_for_copy(alloc)?,
        })
    }

    /// The page whose accessed bit is the next answer, if any page is resident.
    pub fn question(&self) -> Option<Key>
        ensures exact { result ≡ question_of self.now.pager.list }
        ensures none { IsNone result ↔ NothingResident self.now.pager.list }
        ensures lawful { Lawful self.now.pager.list }
        ensures bound { answers_left self.now.pager.list ≤ 5 * self.now.pager.list.frames }
        ensures end { answers_left self.now.pager.list ≡ 0 → NothingResident self.now.pager.list }
        ensures size { self.now.pager.list.frames ≡ self.now.pager.size }
    {
        self.pager.question()
    }

    /// Whether the list would take a page back that could not leave its frame.
    pub fn takes_back(&self, key: Key) -> bool
        ensures { result ≡ takes_back key self.now.pager.list }
    {
        self.pager.takes_back(key)
    }

    /// The entry of the list at a place, counted from the front.
    pub fn entry(&self, i: usize) -> Option<(Key, EntryKind)>
        ensures { result ≡ option_map (λ e. (e.key, e.kind))
            (slice_get self.now.pager.list.entries i) }
    {
        self.pager.entry(i)
    }

    /// How many frames are free, and what was counted.
    pub fn counts(&self) -> SideCounts
        ensures free { result.pager.free ≡ length self.now.pager.free }
        ensures tallies { result.pager.tallies ≡ self.now.pager.tallies }
        ensures saves { result.saves ≡ self.now.saves }
        ensures drops { result.drops ≡ self.now.drops }
    {
        SideCounts {
            pager: self.pager.counts(),
            saves: self.saves,
            drops: self.drops,
        }
    }

    /// Of how many frames the pager was made.
    pub fn size(&self) -> u32
        ensures { result ≡ self.now.pager.size }
    {
        self.pager.size()
    }

    /// Gives up the pager and its free frames. Its share has one part for each, and the pager's own.
    pub fn give_up(self) -> Share<L>
        ensures { result.parts ≡ length self.pager.free + 1 }
    {
        let PagerSide {
            pager,
            saves: _,
            drops: _,
            room: _,
        } = self;
        pager.give_up()
    }
}

/// Room for a copy of a page.
fn room_for_copy(alloc: Global) -> Result<Box<[u8; 4096]>, AllocError> {
    Ok(Box::new(alloc, [0; 4096])?)
}
