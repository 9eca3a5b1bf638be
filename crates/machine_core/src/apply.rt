//! Events, one at a time and one after another.

ghost use Rattle.std.specs.Prelude.{◌≡◌};
ghost use Rattle.machine_core.specs.Applying.{ServesEvent, Applies};
ghost use Rattle.machine_core.specs.Coherent.{EachCoherent};
ghost use Rattle.machine_core.specs.Faithful.{IsFaithful};
ghost use Rattle.machine_core.specs.Headline.{IsInvisible};

use crate::coherence::each_coheres;
use crate::event::{Event, Reply};
use crate::machine::Core;
use clock_policy::Clock;
use std::sync::ledger::Ledger;
use swap_slots::SwapSlot;

impl<L: Ledger, S: SwapSlot, C: Clock> Core<L, S, C> {
    /// What holds of it between any two calls. It does nothing.
    pub fn faithful(&self)
        ensures { IsFaithful S.content S.honest self.now }
    {
        // For the proof only: a read gives its invariant.
        let _ = &self.pager;
        each_coheres(self.processes.as_slice());
    }

    /// What an event does: it is refused, and then nothing has changed but for what want of memory leaves, or it is served.
    /// Paging stays invisible.
    #[tactic(auto, using(crate::proofs::InvisibleLaws::event_invisible))]
    pub fn apply(&mut self, event: Event) -> Reply
        ensures applies { Applies S.content S.honest S.failures event self.old self.new result }
        ensures invisible { IsInvisible S.content S.honest event result self.old self.new }
        ensures coherent { EachCoherent S.content S.honest self.new.processes }
    {
        let reply = self.serve(event);
        self.faithful();
        self.coherent();
        reply
    }

    fn serve(&mut self, event: Event) -> Reply
        ensures { ServesEvent S.content S.honest S.failures event self.old self.new result }
    {
        match event {
            Event::Step { process, hart } => self.step(process, hart),
            Event::Notice { process, hart } => self.notice(process, hart),
            Event::Sweep => self.sweep(),
            Event::Collect(key) => self.collect(key),
            Event::Saved(key) => self.saved(key),
            Event::PageIn(key) => self.page_in(key),
            Event::Kill { process, cause } => self.kill(process, cause),
            Event::Purge { process } => self.purge(process),
            Event::Clean(key) => self.clean(key),
            Event::Copy(key) => self.copy(key),
            Event::Cleaned(key) => self.cleaned(key),
        }
    }
}
