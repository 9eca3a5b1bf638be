//! Whose turn it is.

ghost use Rattle.std.specs.Prelude.{◌≡◌, ◌≤◌, length};
ghost use Rattle.env_calls.specs.Environment.{least_live_from, most_harts, next_live};
ghost use Rattle.paged_target.specs.Marks.{marks_at};

use clock_policy::Clock;
use machine_core::Core;
use machine_limits::MOST_HARTS;
use std::sync::ledger::Ledger;
use swap_slots::SwapSlot;

/// The least live hart of process 0 above one, else its least live one.
#[tactic(auto, unfolding(env_calls::specs::Environment::next_live))]
pub(crate) fn next_live<L: Ledger, S: SwapSlot, C: Clock>(
    core: &Core<L, S, C>,
    hart: u32,
) -> Option<u32>
    requires few { length (marks_at core.now) ≤ most_harts }
    ensures turn { result ≡ next_live hart (marks_at core.now) }
{
    match least_live_from(core, hart as usize + 1) {
        Some(above) => Some(above),
        None => least_live_from(core, 0),
    }
}

/// Its least live hart from a number on.
fn least_live_from<L: Ledger, S: SwapSlot, C: Clock>(
    core: &Core<L, S, C>,
    number: usize,
) -> Option<u32>
    requires few { length (marks_at core.now) ≤ most_harts }
    ensures least { result ≡ least_live_from number (marks_at core.now) }
{
    'harts: for hart in number..MOST_HARTS {
        if core.is_live(0, hart as u32) {
            return Some(hart as u32);
        }
    }
    None
}
