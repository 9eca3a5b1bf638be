//! Reads bytes of a process wherever its pages are, without a page-in and without setting A.

ghost use Rattle.std.specs.Prelude.{◌≡◌, ◌+◌, ◌<◌, ◌≤◌, ◌^◌, Some, IfErr, OnErr, OnOk, length};
ghost use Rattle.page_memory.specs.Words.{page_number, page_offset};
ghost use Rattle.paged_memory.specs.moves.Filling.{PageCalledOnce, failures_of};
ghost use Rattle.paged_memory.specs.moves.Moving.{CallsOnce, DoesNotShow, LeavesLookedAt, OnlyPages};
ghost use Rattle.paged_memory.specs.moves.Moving.{SameFailures, ShowsIn};
ghost use Rattle.page_memory.specs.ReadOnly.{KeepsReadOnly};
ghost use Rattle.paged_memory.specs.Paged.{page_at, memory_of};
ghost use Rattle.paged_memory.specs.Peeking.{bytes_of, ShowsBytes, LeavesPage, RefusesPeek};

use crate::memory::PagedMemory;
use page_memory::{PageMap, offset_in_page, page_of};
use page_store::{ReadFault, StoredPage};
use std::sync::ledger::Ledger;
use swap_slots::SwapSlot;
use thiserror::Error;

/// Why bytes can't be shown, in the order of their numbers.
#[derive(Clone, Copy, PartialEq, Eq, Debug, Error)]
pub enum PeekFault {
    #[error("the page is not mapped")]
    NotMapped,
    #[error("the page was given back")]
    Purged,
    #[error("the device failed")]
    Device,
}

impl<L: Ledger, S: SwapSlot> PagedMemory<L, S> {
    /// Reads the bytes that the memory shows from an address on, as many as there is room for, all in one page, wherever it
    /// is. No page is brought in, and no hart's use of it is marked. A refusal leaves the room as it was.
    pub fn peek(&mut self, address: u32, bytes: &mut [Option<u8>]) -> Result<(), PeekFault>
        requires { page_offset address + length bytes.old ≤ 4096 }
        ensures bytes { OnOk result (ShowsIn S.content S.honest self.old address
            (length bytes.old) bytes.new) }
        ensures shown { S.honest → OnOk result (bytes_of (memory_of S.content self.old) address
            (length bytes.old) ≡ Some bytes.new) }
        ensures passed { OnOk result (SameFailures S.failures
            (page_number address) self.old self.new) }
        ensures called { CallsOnce S.called (page_number address) self.old self.new }
        ensures unread { OnErr result (bytes.new ≡ bytes.old) }
        ensures refused { IfErr result (DoesNotShow S.content S.honest S.failures address self.old
            self.new) }
        ensures left { LeavesLookedAt S.content S.honest address self.old self.new }
        ensures memory { S.honest → memory_of S.content self.new ≡ memory_of S.content self.old }
        ensures read_only { KeepsReadOnly (memory_of S.content self.old)
            (memory_of S.content self.new) }
        ensures stays { OnlyPages self.old self.new }
    {
        read_page(
            &mut self.pages,
            page_of(address),
            offset_in_page(address),
            bytes,
        )
    }
}

/// Reads the bytes that a page shows from an offset on.
fn read_page<L: Ledger, S: SwapSlot>(
    pages: &mut PageMap<StoredPage<L, S>>,
    vpn: u32,
    offset: usize,
    bytes: &mut [Option<u8>],
) -> Result<(), PeekFault>
    requires vpn { vpn < 2 ^ 20 }
    requires within { offset + length bytes.old ≤ 4096 }
    ensures bytes { OnOk result (ShowsBytes S.content S.honest (page_at pages.old vpn) offset
        (length bytes.old) bytes.new) }
    ensures passed { OnOk result (failures_of S.failures (page_at pages.new vpn) ≡
        failures_of S.failures (page_at pages.old vpn)) }
    ensures called { PageCalledOnce S.called (page_at pages.old vpn) (page_at pages.new vpn) }
    ensures unread { OnErr result (bytes.new ≡ bytes.old) }
    ensures refused { IfErr result (RefusesPeek S.content S.honest S.failures pages.old pages.new
        vpn) }
    ensures left { LeavesPage S.content S.honest pages.old pages.new vpn (page_at pages.old vpn) }
{
    let Some(place) = pages.place(vpn) else {
        return Err(PeekFault::NotMapped);
    };
    match pages.at_mut(place).read(offset, bytes) {
        Ok(()) => Ok(()),
        Err(ReadFault::Purged) => Err(PeekFault::Purged),
        Err(ReadFault::Device) => Err(PeekFault::Device),
    }
}
