//! Reads of the memory that a machine shows.

ghost use Rattle.std.specs.Prelude.{◌≡◌, ◌+◌, ◌^◌, ◌≤◌, ◌<◌, IsSome, length, slice_get};
ghost use Rattle.page_memory.specs.Words.{page_offset};
ghost use Rattle.debug_core.specs.Points.{bytes_from};
ghost use Rattle.debug_core.specs.Limits.{KeepsRoom};
ghost use Rattle.paged_target.specs.Intact.{IsIntact};
ghost use Rattle.paged_target.specs.Lacks.{LacksOn};
ghost use Rattle.paged_target.specs.Reads.{KeepsShown};
ghost use Rattle.paged_target.specs.Shown.{flat_at};

use clock_policy::Clock;
use machine_core::Core;
use page_memory::{PAGE_SIZE, offset_in_page};
use paged_memory::PeekFault;
use std::sync::ledger::Ledger;
use swap_slots::MemorySlot;

/// Reads the bytes of process 0 from an address on; `None` where no page is mapped.
pub(crate) fn read<L: Ledger, C: Clock>(
    core: &mut Core<L, MemorySlot, C>,
    address: u32,
    bytes: &mut [Option<u8>],
)
    requires range { address + length bytes.old ≤ 2 ^ 32 }
    requires there { IsSome (slice_get core.old.processes 0) }
    requires intact { IsIntact core.old }
    ensures bytes { bytes.new ≡ bytes_from (flat_at core.old).memory address (length bytes.old) }
    ensures kept { KeepsShown core.old core.new }
    ensures room { KeepsRoom (LacksOn core.old) (LacksOn core.new) }
{
    let mut done = 0;
    'pages: while done < bytes.len() {
        let here = address + done as u32;
        let count = (PAGE_SIZE - offset_in_page(here)).min(bytes.len() - done);
        read_page(core, here, &mut bytes[done..done + count]);
        done += count;
    }
}

/// Reads bytes of one page.
fn read_page<L: Ledger, C: Clock>(
    core: &mut Core<L, MemorySlot, C>,
    address: u32,
    bytes: &mut [Option<u8>],
)
    requires within { page_offset address + length bytes.old ≤ 4096 }
    requires there { IsSome (slice_get core.old.processes 0) }
    requires intact { IsIntact core.old }
    ensures bytes { bytes.new ≡ bytes_from (flat_at core.old).memory address (length bytes.old) }
    ensures kept { KeepsShown core.old core.new }
{
    core.faithful();
    match core.peek(0, address, bytes) {
        Some(Ok(())) => {}
        Some(Err(PeekFault::NotMapped)) => bytes.fill(None),
        // No page was given back, and a slot in memory does not fail.
        Some(Err(PeekFault::Purged)) => unreachable!(),
        Some(Err(PeekFault::Device)) | None => unreachable!(),
    }
}
