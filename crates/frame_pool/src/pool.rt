//! The pool of free frames, of 4 to 4096 in all, each with a share of the ledger that counts them.

ghost use Rattle.std.specs.Prelude.{ℕ, ◌≡◌, ◌<◌, ◌≤◌, ◌+◌, ◌↔◌, ◌⊎◌, [], ◌∷◌, ◌++◌, length, IfOk, OnOk, OnErr, IfErr, IsErr, IsErrOf, IsTrue, IsNone, IfNone, IfSome};

use crate::frame::{Frame, FreeFrame};
use machine_limits::{FEWEST_FRAMES, MOST_FRAMES};
use std::alloc::{AllocError, AllocFailed, Global};
use std::marker::Model;
use std::sync::ledger::{Blank, Ledger, Share, Total};
use thiserror::Error;

/// Why no pool was made, in the order in which the reasons are tested.
#[derive(Clone, Copy, PartialEq, Eq, Debug, Error)]
pub enum PoolError {
    #[error("the number of frames is not between 4 and 4096")]
    BadSize,
    #[error("out of memory")]
    NoMemory,
}

impl From<AllocError> for PoolError {
    ghost use Rattle.frame_pool.specs.declared.pool.PoolError.TheVariants.{NoMemory};

    ghost from_gives = { λ _ e. e ≡ NoMemory };

    fn from(_: AllocError) -> PoolError {
        PoolError::NoMemory
    }
}

/// The frames that are free, of the fixed number that the pool was made of.
#[derive(Drop)]
pub struct FramePool<L: Ledger> {
    free: Vec<FreeFrame>,
    size: u32,
    rest: Share<L>,
    total: Total<L>,
}

impl<L: Ledger> Model for FramePool<L> {
    ghost use Rattle.std.specs.Prelude.{◌≡◌, ◌≤◌, ◌+◌, vec_len, vec_capacity};
    ghost use Rattle.frame_pool.specs.FramePoolValue.{FramePoolValue};

    ghost Value = { FramePoolValue };

    ghost view = { λ p. record { free = p.free.items; size = p.size } };

    ghost invariant = { λ p. (p.rest.parts ≡ vec_len p.free + 1) × (p.rest.amount ≡ vec_len p.free) × (p.total.amount ≡ p.size) × (vec_len p.free ≤ p.size) × (p.size ≤ vec_capacity p.free) };
}

impl<L: Ledger> FramePool<L> {
    ghost use Rattle.frame_pool.specs.FramePoolValue.{FramePoolValue, full_pool};

    /// A pool of `size` frames of zero bytes, all free, with the numbers 0 to `size - 1`. The ledger has one part for
    /// each frame, and one for the pool itself.
    pub fn new(alloc: Global, size: u32, blank: Blank) -> Result<FramePool<L>, PoolError>
        requires name { blank.name ≡ L.name }
        requires parts { blank.parts ≡ L.parts }
        requires one_each { L.parts ≡ size + 1 }
        ensures made { IfOk result (λ pool. pool ≡ full_pool size) }
        ensures bad_size { IsErrOf result PoolError.BadSize ↔ ((size < 4) ⊎ (4096 < size)) }
    {
        if size < FEWEST_FRAMES || size > MOST_FRAMES {
            return Err(PoolError::BadSize);
        }
        let (mut book, mut rest) = blank.open::<L>();
        book.add(&mut rest, u64::from(size));
        let mut free = Vec::with_capacity(alloc, size as usize)?;
        for number in 0..size {
            free.push_reserved(FreeFrame::zeroed(alloc, number)?);
        }
        Ok(FramePool {
            free,
            size,
            rest,
            total: book.close(),
        })
    }

    /// How many frames are free.
    pub fn len(&self) -> usize
        ensures free { result ≡ length self.now.free }
        ensures within { result ≤ self.now.size }
    {
        self.free.len()
    }

    /// Whether no frame is free.
    pub fn is_empty(&self) -> bool
        ensures { IsTrue result ↔ (self.now.free ≡ []) }
    {
        self.free.is_empty()
    }

    /// Of how many frames the pool was made.
    pub fn size(&self) -> u32
        ensures { result ≡ self.now.size }
    {
        self.size
    }

    /// A free frame, whole, with the bytes that it had when it was given back. Takes constant time.
    pub fn take(&mut self) -> Option<Frame<L>>
        ensures empty { IsNone result ↔ (self.old.free ≡ []) }
        ensures taken { IfSome result (λ frame. self.old.free ≡ self.new.free ++ frame ∷ []) }
        ensures whole { IfSome result (λ frame. length frame.bytes ≡ 4096) }
        ensures none { IfNone result (self.new.free ≡ self.old.free) }
        ensures size { self.new.size ≡ self.old.size }
    {
        let free = self.free.pop()?;
        let frame = Frame::of(free, self.rest.split_off(1, 1));
        // For the proof only: a read shows that what is read is lawful.
        let _bytes = frame.bytes();
        Some(frame)
    }

    /// Gives a frame back. Where all are there it is another pool's, and is handed back. Takes constant time.
    pub fn give(&mut self, frame: Frame<L>) -> Result<(), Frame<L>>
        ensures full { IsErr result ↔ (length self.old.free ≡ self.old.size) }
        ensures ok { OnOk result (self.new.free ≡ self.old.free ++ frame ∷ []) }
        ensures handed_back { IfErr result (λ back. back ≡ frame) }
        ensures err { OnErr result (self.new.free ≡ self.old.free) }
        ensures size { self.new.size ≡ self.old.size }
    {
        if self.free.len() == self.size as usize {
            return Err(frame);
        }
        self.put_back(frame);
        Ok(())
    }

    /// Gives a frame back, which always has its place: its share shows that it is one of this pool's. Takes constant time.
    pub fn put_back(&mut self, frame: Frame<L>)
        ensures { self.new ≡ record self.old { free = self.old.free ++ frame ∷ [] } }
    {
        let free = frame.into_free(&mut self.rest);
        // For the proof only: a share never has more than the total, so one more fits.
        self.total.audit(&mut self.rest);
        self.free.push_reserved(free);
    }

    /// Gives up the pool and the frames that are free. Its share has one part for each, and the pool's own.
    pub fn give_up(self) -> Share<L>
        ensures { result.parts ≡ length self.free + 1 }
    {
        let FramePool {
            free: _,
            size: _,
            rest,
            total: _,
        } = self;
        rest
    }
}
