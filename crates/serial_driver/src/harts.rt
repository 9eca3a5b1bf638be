//! Which hart is next.

ghost use Rattle.std.specs.Prelude.{◌≡◌, ◌<◌, ◌≤◌, ℕ, true, false, IfNone, IfSome, slice_get};
ghost use Rattle.serial_driver.specs.Closing.{goes_on};
ghost use Rattle.serial_driver.specs.Endings.{HasEnded};
ghost use Rattle.serial_driver.specs.Rounds.{GoesOnFirst, IsAbove, IsFirst, IsLeastAbove};
ghost use Rattle.serial_driver.specs.Rounds.{IsNextHart, IsNextProcess, NoneAbove, lives_in};

use clock_policy::Clock;
use machine_core::Core;
use machine_limits::MOST_HARTS;
use std::sync::ledger::Ledger;
use swap_slots::SwapSlot;

/// A hart of a process.
#[derive(Clone, Copy)]
pub(crate) struct HartOf {
    pub(crate) process: u32,
    pub(crate) hart: u32,
}

/// Whether a process is there and has not ended.
#[tactic(auto, using(crate::proofs::Endings::is_going_on))]
pub(crate) fn is_running<L: Ledger, S: SwapSlot, C: Clock>(
    core: &Core<L, S, C>,
    process: u32,
) -> bool
    ensures { result ≡ goes_on (slice_get core.now.processes process) }
{
    match core.end(process) {
        Some(None) => true,
        Some(Some(_)) => false,
        None => false,
    }
}

/// The least live hart of a process that has not ended, above the last one, if there was one.
pub(crate) fn live_hart_above<L: Ledger, S: SwapSlot, C: Clock>(
    core: &Core<L, S, C>,
    process: u32,
    last: Option<u32>,
) -> Option<u32>
    ensures some { IfSome result (IsLeastAbove core.now process last) }
    ensures none { IfNone result (NoneAbove core.now process last) }
{
    'harts: for hart in 0..MOST_HARTS as u32 {
        if lives_above(core, process, last, hart) {
            return Some(hart);
        }
    }
    None
}

/// Whether a hart is above the last one and live, and its process has not ended.
fn lives_above<L: Ledger, S: SwapSlot, C: Clock>(
    core: &Core<L, S, C>,
    process: u32,
    last: Option<u32>,
    hart: u32,
) -> bool
    ensures above { result ≡ true → IsAbove last hart }
    ensures live { result ≡ true → lives_in core.now process hart ≡ true }
    ensures not { result ≡ false → IsAbove last hart → lives_in core.now process hart ≡ false }
{
    if !is_above(last, hart) {
        return false;
    }
    if !is_running(core, process) {
        return false;
    }
    core.is_live(process, hart)
}

/// Whether a number is above the last one, if there was one.
fn is_above(last: Option<u32>, number: u32) -> bool
    ensures yes { result ≡ true → IsAbove last number }
    ensures no { result ≡ false → IsAbove last number → ⊥ }
{
    match last {
        None => true,
        Some(last) => last < number,
    }
}

/// The hart whose turn is next after the last one of a process, if there was one. It is the least live one above it there, else the
/// least of the next process that goes on, among those above and then among those from the first on. There is none once each process
/// has ended.
pub(crate) fn next_hart<L: Ledger, S: SwapSlot, C: Clock>(
    core: &Core<L, S, C>,
    process: u32,
    last: Option<u32>,
) -> Option<HartOf>
    ensures some { IfSome result (λ of. IsNextHart S.honest core.now process last of.process
        of.hart) }
    ensures none { IfNone result ((number : ℕ) → HasEnded core.now number) }
{
    match live_hart_above(core, process, last) {
        Some(hart) => Some(HartOf { process, hart }),
        None => first_of_next(core, process),
    }
}

/// The least live hart of the next process that goes on.
#[tactic(auto, using(crate::proofs::LiveHarts::next_goes))]
fn first_of_next<L: Ledger, S: SwapSlot, C: Clock>(
    core: &Core<L, S, C>,
    process: u32,
) -> Option<HartOf>
    ensures some { IfSome result (λ of. IsNextProcess core.now process of.process ×
        IsFirst S.honest core.now of.process of.hart) }
    ensures none { IfNone result ((number : ℕ) → HasEnded core.now number) }
{
    let next = next_running(core, process)?;
    Some(HartOf {
        process: next,
        hart: first_hart(core, next),
    })
}

/// The least live hart of a process that goes on. Where slots are not honest the process may have none: then the first.
#[tactic(auto, using(crate::proofs::LiveHarts::first_of_none))]
fn first_hart<L: Ledger, S: SwapSlot, C: Clock>(core: &Core<L, S, C>, process: u32) -> u32
    requires goes { goes_on (slice_get core.now.processes process) ≡ true }
    ensures { IsFirst S.honest core.now process result }
{
    core.coherent();
    match live_hart_above(core, process, None) {
        Some(hart) => hart,
        None => 0,
    }
}

/// The next process that goes on: above this one, and then from the first on.
fn next_running<L: Ledger, S: SwapSlot, C: Clock>(core: &Core<L, S, C>, process: u32) -> Option<u32>
    ensures some { IfSome result (IsNextProcess core.now process) }
    ensures none { IfNone result ((number : ℕ) → HasEnded core.now number) }
{
    let count = core.processes() as u32;
    let above = process.saturating_add(1);
    match first_running(core, above, count) {
        Some(next) => Some(next),
        None => first_running(core, 0, count.min(above)),
    }
}

/// The first process that goes on, from one number on and below another.
fn first_running<L: Ledger, S: SwapSlot, C: Clock>(
    core: &Core<L, S, C>,
    from: u32,
    below: u32,
) -> Option<u32>
    ensures some { IfSome result (λ process. (from ≤ process) × ((process < below) ×
        GoesOnFirst core.now from process)) }
    ensures none { IfNone result ((number : ℕ) → from ≤ number → number < below →
        HasEnded core.now number) }
{
    'processes: for process in from..below {
        if is_running(core, process) {
            return Some(process);
        }
    }
    None
}
