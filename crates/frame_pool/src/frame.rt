//! A data frame: the bytes of one page, its number, and room for one copy of the bytes.

ghost use Rattle.std.specs.Prelude.{◌≡◌, ◌+◌, ◌<◌, ◌≤◌, length, vec_len};
ghost use Rattle.std.specs.Borrow.{sem};

use crate::bare::{BareFrame, FreeBytes};
use std::alloc::{AllocError, Global};
use std::marker::Model;
use std::mem;
use std::sync::ledger::{Ledger, Share};

/// The bytes of one page, and the number by which page tables name them, with room for one copy of the bytes.
///
/// It is moved and never copied: it holds one share of its pool's count, and only `FramePool::new` cuts such shares. A
/// copy of its bytes takes the frame's own room along, so that none has to be found when the page is to be saved.
#[derive(Drop)]
pub struct Frame<L: Ledger> {
    bare: BareFrame<L>,
    room: Box<[u8; 4096]>,
}

impl<L: Ledger> Model for Frame<L> {
    ghost use Rattle.frame_pool.specs.FrameValue.{FrameValue};

    ghost Value = { FrameValue };

    ghost view = { λ f. f.bare };
}

/// What a frame is while it is free: its bytes, and the room for a copy. Its pool has its share.
#[derive(Drop)]
pub(crate) struct FreeFrame {
    free: FreeBytes,
    room: Box<[u8; 4096]>,
}

impl Model for FreeFrame {
    ghost use Rattle.frame_pool.specs.FrameValue.{FrameValue};

    ghost Value = { FrameValue };

    ghost view = { λ f. f.free };
}

impl FreeFrame {
    ghost use Rattle.std.specs.Prelude.{IfOk};
    ghost use Rattle.frame_pool.specs.FrameValue.{zero_frame};

    /// Zero bytes.
    pub(crate) fn zeroed(alloc: Global, number: u32) -> Result<Self, AllocError>
        requires number { number < 4096 }
        ensures { IfOk result (λ frame. frame ≡ zero_frame number) }
    {
        let free = FreeBytes::zeroed(alloc, number)?;
        let room = Box::new(alloc, [0; 4096])?;
        Ok(FreeFrame { free, room })
    }
}

impl<L: Ledger> Frame<L> {
    ghost use Rattle.frame_pool.specs.Lending.{LendsBytes};

    /// The frame of these bytes, which stands for the share.
    pub(crate) fn of(free: FreeFrame, share: Share<L>) -> Self
        requires share { share.parts ≡ 1 }
        requires amount { share.amount ≡ 1 }
        ensures { result ≡ free }
    {
        let FreeFrame { free, room } = free;
        Frame {
            bare: BareFrame::of(free, share),
            room,
        }
    }

    /// The frame's bytes and its room, whose share is merged into one.
    pub(crate) fn into_free(self, all: &mut Share<L>) -> FreeFrame
        ensures same { result ≡ self }
        ensures parts { all.new.parts ≡ all.old.parts + 1 }
        ensures amount { all.new.amount ≡ all.old.amount + 1 }
        ensures within { all.new.parts ≤ L.parts }
    {
        let Frame { bare, room } = self;
        FreeFrame {
            free: bare.into_free(all),
            room,
        }
    }

    /// The frame, of which only a copy asks for the room.
    #[inline]
    pub fn bare(&self) -> &BareFrame<L>
        ensures { result.now ≡ self.now }
    {
        &self.bare
    }

    /// The number by which page tables name the frame. It is below `MOST_FRAMES`.
    #[inline]
    pub fn number(&self) -> u32
        ensures number { result ≡ self.now.number }
        ensures number_small { result < 4096 }
    {
        self.bare.number()
    }

    /// The bytes of the page.
    #[inline]
    pub fn bytes(&self) -> &[u8; 4096]
        ensures bytes { result.now ≡ self.now.bytes }
        ensures whole { length self.now.bytes ≡ 4096 }
    {
        self.bare.bytes()
    }

    /// Lends the bytes of the page to be written.
    #[inline]
    pub fn bytes_mut(&mut self) -> &mut [u8; 4096]
        ensures* writes_back { sem 𝓛 (LendsBytes L.row L.Ledger self.entry result) }
        ensures bytes { result.now ≡ self.old.bytes }
    {
        self.bare.bytes_mut()
    }

    /// Writes all bytes of the page.
    pub fn copy_from(&mut self, bytes: &[u8; 4096])
        ensures { self.new ≡ record self.old { bytes = bytes.now } }
    {
        *self.bytes_mut() = *bytes;
    }

    /// Exchanges the frame's room for another, whatever is in either.
    pub fn swap_room(&mut self, room: &mut Box<[u8; 4096]>)
        ensures { self.new ≡ self.old }
    {
        mem::swap(&mut self.room, room);
    }

    /// Copies the bytes to the frame's room, and parts the two. Takes no memory.
    pub fn copied(self) -> (BareFrame<L>, Box<[u8; 4096]>)
        ensures frame { result.0 ≡ self }
        ensures copy { result.1.value ≡ self.bytes }
    {
        let Frame { bare, mut room } = self;
        *room = *bare.bytes();
        (bare, room)
    }

    /// A frame that has room for a copy again, whatever is in it.
    pub fn with_room(bare: BareFrame<L>, room: Box<[u8; 4096]>) -> Self
        ensures { result ≡ bare }
    {
        Frame { bare, room }
    }

    /// Gives up the frame, and merges its share into one. The share cannot have more parts than the ledger: where it has
    /// them all, every frame of the pool was given up.
    pub fn give_up(self, all: &mut Share<L>)
        ensures parts { all.new.parts ≡ all.old.parts + 1 }
        ensures within { all.new.parts ≤ L.parts }
    {
        let _free = self.into_free(all);
    }
}

/// Gives up frames, and merges their shares into one.
///
/// A ledger's shares never have more parts than the ledger, so a share that has them all shows that every frame of the
/// pool was given up.
pub fn gather<L: Ledger>(frames: Vec<Frame<L>>, all: &mut Share<L>)
    ensures parts { all.new.parts ≡ all.old.parts + vec_len frames }
    ensures within { all.new.parts ≤ L.parts }
{
    // Merging a share of no part changes nothing, and shows that all parts are within the ledger's.
    let none = all.empty();
    all.merge(none);
    for frame in frames {
        frame.give_up(all);
    }
}
