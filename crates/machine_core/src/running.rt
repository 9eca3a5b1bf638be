//! Events one after another.

ghost use Rattle.std.specs.Prelude.{◌≡◌, ◌++◌, List, IfOk, OnErr};
ghost use Rattle.clock_policy.specs.declared.key.Key.{Key};
ghost use Rattle.machine_core.specs.Applying.{Runs};
ghost use Rattle.machine_core.specs.Applying.{CutRun};
ghost use Rattle.machine_core.specs.Coherent.{EachCoherent};
ghost use Rattle.machine_core.specs.Headline.{PagingIsInvisible};
ghost use Rattle.machine_core.specs.Machine.{CoreValue};
ghost use Rattle.machine_core.specs.WritingAhead.{StoresBetween};
ghost use Rattle.machine_core.specs.declared.event.Event as machine_event;
ghost use Rattle.machine_core.specs.declared.event.Reply as machine_reply;

use crate::event::{Event, Reply};
use crate::machine::Core;
use clock_policy::Clock;
use std::alloc::{AllocError, Global};
use std::sync::ledger::Ledger;
use swap_slots::SwapSlot;

impl<L: Ledger, S: SwapSlot, C: Clock> Core<L, S, C> {
    /// Applies events one after another, and gives their replies: whatever events come in whatever order, paging is invisible.
    /// Room for the replies is taken first; where it is refused, nothing has changed.
    pub fn run(&mut self, alloc: Global, events: &[Event]) -> Result<Vec<Reply>, AllocError>
        ensures runs { IfOk result (λ replies.
            Runs S.content S.honest S.failures events.now replies.items self.old self.new) }
        ensures invisible { IfOk result (λ replies.
            PagingIsInvisible S.content S.honest S.failures events.now replies.items self.old
            self.new) }
        ensures coherent { EachCoherent S.content S.honest self.new.processes }
        ensures refused { OnErr result (self.new ≡ self.old) }
    {
        self.coherent();
        let mut replies = Vec::with_capacity(alloc, events.len())?;
        for event in events {
            replies.push_reserved(self.apply(*event));
        }
        self.faithful();
        self.coherent();
        Ok(replies)
    }
}

/// Each prefix of a run is a run, and what is left goes on from the machine that it leaves. It does nothing.
#[tactic(auto, using(crate::proofs::ApplyingLaws::run_cut))]
pub fn cut_run<S: SwapSlot>()
    ensures { (first second : List machine_event.Event) → (replies : List machine_reply.Reply) →
        (old new : CoreValue S) → Runs S.content S.honest S.failures (first ++
        second) replies old new → CutRun S.content S.honest S.failures first second replies old
        new }
{}

/// No instruction stores to a page between the copy that is taken of it and the copy's return as one that backs the page. It
/// does nothing.
pub fn writes_ahead<S: SwapSlot>()
    ensures { (key : Key) → (before copied stepping stepped returning after : CoreValue S) →
        ¬ StoresBetween S.content S.honest S.failures key before copied stepping stepped returning
        after }
{}
