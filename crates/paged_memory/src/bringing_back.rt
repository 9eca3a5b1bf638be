//! A page that is leaving is resident again: mapped in its frame, as not yet used.

ghost use Rattle.std.specs.Prelude.{◌≡◌, ◌<◌, ◌^◌, ◌↔◌, true, false, option_map, OnOk, OnErr};
ghost use Rattle.std.specs.Prelude.{IsErr};
ghost use Rattle.page_store.specs.PageValue.{page_state_of};
ghost use Rattle.paged_memory.specs.Calls.{ChangesBy};
ghost use Rattle.paged_memory.specs.moves.Leaving.{ReturnsAs, is_leaving};
ghost use Rattle.paged_memory.specs.moves.Moving.{MapsAgain, SameCaches};
ghost use Rattle.paged_memory.specs.Paged.{page_at, memory_of};
ghost use Rattle.paged_memory.specs.moves.Stages.{is_leaving_stage};
ghost use Rattle.paged_memory.specs.Whole.{stage_in};

use crate::eviction::state_in;
use crate::memory::PagedMemory;
use crate::placing::place_there;
use page_memory::{PageMap, Rights};
use page_store::{NotLeaving, PageState, StoredPage};
use std::sync::ledger::Ledger;
use swap_slots::SwapSlot;

impl<L: Ledger, S: SwapSlot> PagedMemory<L, S> {
    /// Maps a page that is leaving again, in its frame, as one that was not used yet. Takes no memory.
    pub fn bring_back(&mut self, vpn: u32) -> Result<(), NotLeaving>
        requires { vpn < 2 ^ 20 }
        ensures ok { OnOk result (MapsAgain vpn self.old self.new) }
        ensures refused { IsErr result ↔ (is_leaving_stage (stage_in self.old vpn) ≡ false) }
        ensures err { OnErr result (self.new ≡ self.old) }
        ensures process { self.new.process ≡ self.old.process }
        ensures caches { SameCaches self.old self.new }
        ensures memory { memory_of S.content self.new ≡ memory_of S.content self.old }
    {
        if !leaves(&self.pages, vpn) {
            return Err(NotLeaving);
        }
        let Mapping {
            frame,
            rights,
            changed,
        } = bring_back_page(&mut self.pages, vpn);
        self.tables.remap(vpn, frame, rights, false, changed);
        Ok(())
    }
}

fn leaves<L: Ledger, S: SwapSlot>(pages: &PageMap<StoredPage<L, S>>, vpn: u32) -> bool
    requires { vpn < 2 ^ 20 }
    ensures leaving { result ≡ is_leaving (page_at pages.now vpn) }
    ensures stage { result ≡ is_leaving_stage (option_map (λ page. page_state_of page.place)
        (page_at pages.now vpn)) }
{
    matches!(state_in(pages, vpn), Some(PageState::Leaving))
}

/// What a page is mapped with.
struct Mapping {
    frame: u32,
    rights: Rights,
    changed: bool,
}

/// A page that is leaving is resident again.
fn bring_back_page<L: Ledger, S: SwapSlot>(
    pages: &mut PageMap<StoredPage<L, S>>,
    vpn: u32,
) -> Mapping
    requires vpn { vpn < 2 ^ 20 }
    requires leaving { is_leaving (page_at pages.old vpn) ≡ true }
    ensures back { ChangesBy (ReturnsAs result.frame result.rights result.changed) pages.old
        pages.new vpn }
    ensures frame { result.frame < 2 ^ 22 }
{
    let place = place_there(&*pages, vpn);
    let page = pages.at_mut(place);
    let changed = page.bring_back().unwrap_or(false);
    let Some(frame) = page.frame() else {
        unreachable!()
    };
    Mapping {
        frame: frame.number(),
        rights: page.rights(),
        changed,
    }
}
