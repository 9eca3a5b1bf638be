//! Whether a page that is leaving can let its frame go: only when no cache holds a translation of it.

ghost use Rattle.std.specs.Prelude.{◌≡◌, ◌<◌, ◌^◌, false};
ghost use Rattle.paged_memory.specs.moves.Leaving.{CollectsAt, lets_go};
ghost use Rattle.page_memory.specs.ReadOnly.{KeepsReadOnly};
ghost use Rattle.paged_memory.specs.Paged.{page_at, memory_of};
ghost use Rattle.paged_memory.specs.moves.Moving.{LooksAt, OnlyPages};

use crate::memory::PagedMemory;
use page_memory::PageMap;
use page_store::{Collected, StoredPage};
use std::sync::ledger::Ledger;
use swap_slots::SwapSlot;

impl<L: Ledger, S: SwapSlot> PagedMemory<L, S> {
    /// Looks whether a page that is leaving can let its frame go: no cache may hold a translation of it. An unchanged
    /// page goes to its backing, and a changed one to be saved, to its slot or to the spare one. Its copy is made in the
    /// room, and its frame's own is left there.
    pub fn collect(
        &mut self,
        vpn: u32,
        spare: &mut Option<S>,
        room: &mut Box<[u8; 4096]>,
    ) -> Collected<L, S>
        requires { vpn < 2 ^ 20 }
        ensures answer { LooksAt vpn spare.old spare.new result self.old self.new }
        ensures stays { OnlyPages self.old self.new }
        ensures same { lets_go result ≡ false → self.new ≡ self.old }
        ensures memory { S.honest → memory_of S.content self.new ≡ memory_of S.content self.old }
        ensures read_only { KeepsReadOnly (memory_of S.content self.old)
            (memory_of S.content self.new) }
    {
        let cached = self.caches.is_held(vpn);
        collect_page(&mut self.pages, self.process, vpn, cached, spare, room)
    }
}

/// A look at the page that is mapped at a number, if one is.
fn collect_page<L: Ledger, S: SwapSlot>(
    pages: &mut PageMap<StoredPage<L, S>>,
    process: u32,
    vpn: u32,
    cached: bool,
    spare: &mut Option<S>,
    room: &mut Box<[u8; 4096]>,
) -> Collected<L, S>
    requires { vpn < 2 ^ 20 }
    ensures answer { CollectsAt process vpn cached spare.old spare.new result pages.old pages.new
        (page_at pages.old vpn) }
    ensures same { lets_go result ≡ false → pages.new ≡ pages.old }
{
    let Some(place) = pages.place(vpn) else {
        return Collected::NotLeaving;
    };
    pages
        .at_mut(place)
        .collect_in(process, vpn, cached, spare, room)
}
