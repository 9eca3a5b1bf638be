//! The calls of all harts.

ghost use Rattle.std.specs.Prelude.{◌≡◌, OnOk, IfOk, map, replicate, slice_get};
ghost use Rattle.guest_profile.specs.declared.call_site.CallSite.{CallSite};
ghost use Rattle.guest_profile.specs.Calls.{all_ended, calls_of, followed, hart_call_after, hart_calls, hart_depth, hart_level, no_calls, none_pending};

use crate::call_counts::CallCounts;
use crate::call_site::Jump;
use crate::call_stack::CallStack;
use guest_steps::Flow;
use machine_limits::MOST_HARTS;
use std::alloc::{AllocError, Global};

/// Harts that have called nothing.
pub(crate) fn no_stacks(alloc: Global) -> Result<Vec<CallStack>, AllocError>
    ensures { IfOk result (λ stacks. map hart_calls stacks.items ≡ replicate 8 no_calls) }
{
    let mut stacks = Vec::new(alloc);
    'harts: while stacks.len() < MOST_HARTS {
        stacks.push(CallStack::new(alloc))?;
    }
    Ok(stacks)
}

/// A hart does a step.
#[tactic(auto, using(crate::proofs::FollowedHarts::harts_followed, crate::proofs::FollowedHarts::hart_there, crate::proofs::FollowedHarts::no_hart))]
pub(crate) fn follow(
    stacks: &mut Vec<CallStack>,
    hart: u32,
    flow: Flow,
    jump: Jump,
    counts: &mut CallCounts,
) -> Result<(), AllocError>
    ensures harts { OnOk result (map hart_calls stacks.new.items ≡
        followed hart flow jump (map hart_calls stacks.old.items)) }
    ensures calls { OnOk result ((site : CallSite) → calls_of counts.new site ≡
        hart_call_after (slice_get (map hart_calls stacks.old.items) hart) flow jump site
        (calls_of counts.old site)) }
{
    let place = hart as usize;
    if place >= stacks.len() {
        return Ok(());
    }
    stacks[place].follow(flow, jump, counts)?;
    Ok(())
}

/// The level at which a hart's steps count.
#[tactic(auto, using(crate::proofs::FollowedHarts::hart_found))]
pub(crate) fn level(stacks: &[CallStack], hart: u32) -> u32
    ensures { result ≡ hart_level (slice_get (map hart_calls stacks.now) hart) }
{
    match stacks.get(hart as usize) {
        Some(stack) => stack.level(),
        None => 1,
    }
}

/// How many calls of a hart are pending.
#[tactic(auto, using(crate::proofs::FollowedHarts::hart_found))]
pub(crate) fn depth(stacks: &[CallStack], hart: u32) -> usize
    ensures { result ≡ hart_depth (slice_get (map hart_calls stacks.now) hart) }
{
    match stacks.get(hart as usize) {
        Some(stack) => stack.depth(),
        None => 0,
    }
}

/// All calls of all harts are over.
pub(crate) fn end_all(
    stacks: &mut Vec<CallStack>,
    counts: &mut CallCounts,
) -> Result<(), AllocError>
    ensures harts { OnOk result (map hart_calls stacks.new.items ≡
        map none_pending (map hart_calls stacks.old.items)) }
    ensures calls { OnOk result ((site : CallSite) → calls_of counts.new site ≡
        all_ended (map hart_calls stacks.old.items) site (calls_of counts.old site)) }
{
    'harts: for place in 0..stacks.len() {
        stacks[place].end(counts)?;
    }
    Ok(())
}
