//! How deep in calls harts are.

ghost use Rattle.std.specs.Prelude.{◌≡◌, IfOk, OnOk, slice_get};
ghost use Rattle.guest_profile.specs.Calls.{hart_depth};
ghost use Rattle.guest_profile.specs.Depths.{depths_after, harts_of, no_harts};

use crate::call_counts::CallCounts;
use crate::call_site::Jump;
use crate::call_stack::CallStack;
use crate::profile::SP;
use crate::stacks::{depth, follow, no_stacks};
use crate::sums::NOTHING;
use guest_steps::{Flow, ToldStep};
use std::alloc::{AllocError, Global};

/// The calls of each hart that have not returned.
#[derive(Drop)]
pub struct Depths {
    calls: CallCounts,
    stacks: Vec<CallStack>,
}

impl Depths {
    pub fn new(alloc: Global) -> Result<Self, AllocError>
        ensures { IfOk result (λ depths. harts_of depths ≡ no_harts) }
    {
        Ok(Depths {
            calls: CallCounts::new(alloc),
            stacks: no_stacks(alloc)?,
        })
    }

    /// A step of a hart, which calls, returns or does neither.
    pub fn follow(&mut self, told: &ToldStep, flow: Flow) -> Result<(), AllocError>
        ensures { OnOk result (harts_of self.new ≡
            depths_after flow told.now (harts_of self.old)) }
    {
        let jump = Jump {
            site: told.before.pc(),
            target: told.after.pc(),
            sp: told.after.x(SP),
            // The counts of calls are not asked for.
            step: NOTHING,
        };
        follow(&mut self.stacks, told.hart, flow, jump, &mut self.calls)
    }

    /// How many calls of a hart have not returned.
    pub fn depth(&self, hart: u32) -> usize
        ensures { result ≡ hart_depth (slice_get (harts_of self.now) hart) }
    {
        depth(self.stacks.as_slice(), hart)
    }
}
