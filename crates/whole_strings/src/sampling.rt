//! A sample of a string's pages.

ghost use Rattle.std.specs.Prelude.{◌≡◌};
ghost use Rattle.whole_strings.specs.Sampling.{is_sampled};

use clock_policy::Key;
use page_policies::spread;
use std::num::NonZeroU32;

/// Odd, with bits of no order.
const MULTIPLIER: u64 = 11400714819323198485;

/// Whether the page is in a sample of one page in so many.
#[tactic(auto, unfolding(crate::specs::Sampling::is_sampled))]
pub fn is_sampled(page: Key, one_in: NonZeroU32) -> bool
    ensures { result ≡ is_sampled one_in.value page }
{
    spread(MULTIPLIER, page) % u64::from(one_in.get()) == 0
}
