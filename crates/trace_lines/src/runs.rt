//! Pages one after another.

ghost use Rattle.std.specs.Prelude.{◌≡◌};
ghost use Rattle.trace_lines.specs.PageIds.{more_pages, next_page};

use clock_policy::Key;

/// The most pages that a line may refer to.
const MOST_PAGES: u64 = 1 << 20;

/// How many pages come after the first one up to the last.
#[tactic(auto, unfolding(crate::specs::PageIds::more_pages))]
pub(crate) fn more_pages(first: u64, last: u64) -> Option<u32>
    ensures { result ≡ more_pages first last }
{
    let more = last.checked_sub(first)?;
    if more >= MOST_PAGES {
        return None;
    }
    Some(more as u32)
}

/// The page of the next id.
#[inline(always)]
#[tactic(auto, unfolding(crate::specs::PageIds::next_page))]
pub fn next_page(page: Key) -> Key
    ensures { result ≡ next_page page }
{
    if page.vpn == u32::MAX {
        return Key {
            process: page.process.saturating_add(1),
            vpn: 0,
        };
    }
    Key {
        process: page.process,
        vpn: page.vpn + 1,
    }
}
