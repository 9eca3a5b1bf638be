//! Pages by numbers of no order.

ghost use Rattle.std.specs.Prelude.{◌≡◌};
ghost use Rattle.page_policies.specs.Spread.{spread};

use clock_policy::Key;

/// The upper half of the product of the page's number, the process's above the page's, and a multiplier: for an odd one whose bits have
/// no order, neighbours are far apart.
#[tactic(auto, unfolding(crate::specs::Spread::spread))]
pub fn spread(multiplier: u64, page: Key) -> u64
    ensures { result ≡ spread multiplier page }
{
    let number = u64::from(page.process) * (1 << 32) + u64::from(page.vpn);
    number.wrapping_mul(multiplier) / (1 << 32)
}
