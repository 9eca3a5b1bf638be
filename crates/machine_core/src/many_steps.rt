//! Steps of one hart in a row.

ghost use Rattle.std.specs.Prelude.{◌≡◌, ◌<◌, ◌≤◌, length, option_map, IfSome, IfNone};
ghost use Rattle.machine_core.specs.Applying.{Runs};
ghost use Rattle.machine_core.specs.Coherent.{EachCoherent};
ghost use Rattle.machine_core.specs.MachineRun.{ChangesOne, step_reply};
ghost use Rattle.machine_core.specs.ManySteps.{steps_of, replies_of};
ghost use Rattle.machine_sides.specs.ProcessCalls.{SlicesMany};

use crate::core_steps::{hart_refusal, step_reply};
use crate::event::Reply;
use crate::machine::Core;
use clock_policy::Clock;
use machine_sides::run_steps;
use space_core::{Slice, Space};
use std::sync::ledger::Ledger;
use swap_slots::SwapSlot;

/// What came of steps of a hart in a row.
#[derive(Clone, Copy, PartialEq, Eq, Debug)]
pub struct StepsReply {
    /// How many ran, and their hart went on.
    pub ran: u32,
    /// The reply to one more, after which the hart does not go on as it did.
    pub last: Option<Reply>,
}

impl<L: Ledger, S: SwapSlot, C: Clock> Core<L, S, C> {
    /// Steps of one hart, one after another, up to so many: they end with the first that is not answered with
    /// [`Reply::Ran`].
    pub fn steps(&mut self, process: u32, hart: u32, most: u32) -> StepsReply
        ensures runs { Runs S.content S.honest S.failures
            (steps_of process hart result.ran result.last)
            (replies_of result.ran result.last) self.old self.new }
        ensures within { result.ran ≤ most }
        ensures all { IfNone result.last (result.ran ≡ most) }
        ensures short { IfSome result.last (λ _. result.ran < most) }
        ensures coherent { EachCoherent S.content S.honest self.new.processes }
    {
        self.faithful();
        if most == 0 {
            return StepsReply { ran: 0, last: None };
        }
        let refusal = hart_refusal(self.processes.as_slice(), process, hart);
        if let Some(refusal) = refusal {
            return StepsReply {
                ran: 0,
                last: Some(Reply::Refused(refusal)),
            };
        }
        let slices = slices_at(self.processes.as_mut_slice(), process as usize, hart, most);
        StepsReply {
            ran: slices.ran,
            last: last_reply(slices.last),
        }
    }
}

fn last_reply(last: Option<Slice>) -> Option<Reply>
    ensures { result ≡ option_map step_reply (option_map (λ slice. slice.stop) last) }
{
    match last {
        None => None,
        Some(slice) => Some(step_reply(slice.stop)),
    }
}

fn slices_at<L: Ledger, S: SwapSlot>(
    processes: &mut [Space<L, S>],
    process: usize,
    hart: u32,
    most: u32,
) -> space_core::Steps
    requires { process < length processes.old }
    ensures changes { ChangesOne (SlicesMany S.content S.honest hart result.ran
        (option_map (λ slice. slice.stop) result.last)) process processes.old processes.new }
    ensures within { result.ran ≤ most }
    ensures all { IfNone result.last (result.ran ≡ most) }
    ensures short { IfSome result.last (λ _. result.ran < most) }
{
    run_steps(&mut processes[process], hart, most)
}
