//! The place of a page, if its rights allow an access; else a page fault.

ghost use Rattle.std.specs.Prelude.{◌≡◌, ◌<◌, ◌^◌, Err, IfOk, IfErr, IsTrue, Some, length};
ghost use Rattle.std.specs.FinMap as map;
ghost use Rattle.std.specs.Ordering.{nat_cmp};
ghost use Rattle.std.specs.Option.{IsSomeAnd};
ghost use Rattle.page_memory.specs.Rights.{may};
ghost use Rattle.page_memory.specs.Pages.{with_right};
ghost use Rattle.page_memory.specs.Entries.{place_of, value_at};

use crate::fault::MemoryFault;
use crate::page_row::PageRow;
use crate::words::Access;

/// The place of a page that an access may use.
#[inline]
#[tactic(auto, using(crate::proofs::EntriesLaws::value_by_place))]
pub(crate) fn place_allowed(
    pages: &PageRow,
    number: u32,
    access: Access,
) -> Result<usize, MemoryFault>
    requires { number < 2 ^ 20 }
    ensures place { IfOk result (λ place. place_of number pages.now ≡ Some place) }
    ensures within { IfOk result (λ place. place < length pages.now) }
    ensures allowed { IfOk result (λ place. IsSomeAnd (value_at place pages.now) (λ page.
        IsTrue (may access page.rights))) }
    ensures fault { IfErr result (λ fault. with_right access
        (map.get (map.from_entries {R = nat_cmp} pages.now) number) ≡ Err fault) }
{
    let Some(place) = pages.place(number) else {
        return Err(MemoryFault::PageFault);
    };
    if pages.rights(place).allow(access) {
        Ok(place)
    } else {
        Err(MemoryFault::PageFault)
    }
}
