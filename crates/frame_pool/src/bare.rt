//! A data frame without its room for a copy: bytes, number, and its share of the pool's ledger.

ghost use Rattle.std.specs.Prelude.{◌≡◌, ◌+◌, ◌<◌, ◌≤◌, length};
ghost use Rattle.std.specs.Borrow.{sem};

use std::alloc::{AllocError, Global};
use std::marker::Model;
use std::sync::ledger::{Ledger, Share};

/// A frame whose room for a copy is elsewhere: its bytes, and the number by which page tables name them.
///
/// It is moved and never copied: it holds one share of its pool's count, and only `FramePool::new` cuts such shares.
#[derive(Drop)]
pub struct BareFrame<L: Ledger> {
    number: u32,
    bytes: Box<[u8; 4096]>,
    share: Share<L>,
}

impl<L: Ledger> Model for BareFrame<L> {
    ghost use Rattle.std.specs.Prelude.{◌≡◌, ◌<◌};
    ghost use Rattle.frame_pool.specs.FrameValue.{FrameValue};

    ghost Value = { FrameValue };

    ghost view = { λ f. record { number = f.number; bytes = f.bytes.value } };

    ghost invariant = { λ f. (f.share.parts ≡ 1) × (f.share.amount ≡ 1) × (f.number < 4096) };
}

/// The bytes of a frame that is free: its pool has its share.
#[derive(Drop)]
pub(crate) struct FreeBytes {
    number: u32,
    bytes: Box<[u8; 4096]>,
}

impl Model for FreeBytes {
    ghost use Rattle.std.specs.Prelude.{◌<◌};
    ghost use Rattle.frame_pool.specs.FrameValue.{FrameValue};

    ghost Value = { FrameValue };

    ghost view = { λ f. record { number = f.number; bytes = f.bytes.value } };

    ghost invariant = { λ f. f.number < 4096 };
}

impl FreeBytes {
    ghost use Rattle.std.specs.Prelude.{IfOk};
    ghost use Rattle.frame_pool.specs.FrameValue.{zero_frame};

    /// Zero bytes.
    pub(crate) fn zeroed(alloc: Global, number: u32) -> Result<Self, AllocError>
        requires number { number < 4096 }
        ensures { IfOk result (λ frame. frame ≡ zero_frame number) }
    {
        Ok(FreeBytes {
            number,
            bytes: Box::new(alloc, [0; 4096])?,
        })
    }
}

impl<L: Ledger> BareFrame<L> {
    ghost use Rattle.frame_pool.specs.BareLending.{LendsBareBytes};

    /// The number by which page tables name the frame. It is below `MOST_FRAMES`.
    #[inline]
    pub fn number(&self) -> u32
        ensures number { result ≡ self.now.number }
        ensures number_small { result < 4096 }
    {
        self.number
    }

    /// The bytes of the page.
    #[inline]
    pub fn bytes(&self) -> &[u8; 4096]
        ensures bytes { result.now ≡ self.now.bytes }
        ensures whole { length self.now.bytes ≡ 4096 }
    {
        as_page(&self.bytes)
    }

    /// Lends the bytes of the page to be written.
    #[inline]
    pub fn bytes_mut(&mut self) -> &mut [u8; 4096]
        ensures* writes_back { sem 𝓛 (LendsBareBytes L.row L.Ledger self.entry result) }
        ensures bytes { result.now ≡ self.old.bytes }
    {
        &mut self.bytes
    }

    /// The frame of these bytes, which stands for the share.
    pub(crate) fn of(free: FreeBytes, share: Share<L>) -> Self
        requires share { share.parts ≡ 1 }
        requires amount { share.amount ≡ 1 }
        ensures { result ≡ free }
    {
        let FreeBytes { number, bytes } = free;
        BareFrame {
            number,
            bytes,
            share,
        }
    }

    /// The frame's bytes, whose share is merged into one.
    pub(crate) fn into_free(self, all: &mut Share<L>) -> FreeBytes
        ensures same { result ≡ self }
        ensures parts { all.new.parts ≡ all.old.parts + 1 }
        ensures amount { all.new.amount ≡ all.old.amount + 1 }
        ensures within { all.new.parts ≤ L.parts }
    {
        let BareFrame {
            number,
            bytes,
            share,
        } = self;
        all.merge(share);
        FreeBytes { number, bytes }
    }
}

/// The same bytes, with their number in the contract: what holds an array does not show it.
#[inline]
fn as_page(bytes: &[u8; 4096]) -> &[u8; 4096]
    ensures same { result.now ≡ bytes.now }
    ensures whole { length bytes.now ≡ 4096 }
{
    bytes
}
