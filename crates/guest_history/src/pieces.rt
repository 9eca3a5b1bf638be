//! Runs in pieces, with checkpoints between them.

ghost use Rattle.std.specs.Prelude.{◌≡◌, ◌<◌, ◌≤◌, ◌+◌, ◌^◌, true, false, IfOk, OnOk};
ghost use Rattle.debug_core.specs.declared.point.Why.TheVariants as why;
ghost use Rattle.guest_history.specs.Histories.{IsNext, IsSameRun, Stands};
ghost use Rattle.guest_history.specs.Runs.{Runs};

use crate::history::History;
use crate::moving::{Run, run_on};
use debug_core::Why;
use run_paths::{RunFault, Whose};
use std::alloc::Global;

impl History {
    /// Takes such steps, up to so many, until there is a reason to stop. By a record they are its next ones.
    pub(crate) fn run(&mut self, alloc: Global, whose: Whose, limit: u64) -> Result<Run, RunFault>
        requires stands { Stands self.old }
        requires small { self.old.done + limit < 2 ^ 64 }
        requires next { self.old.is_recorded ≡ true →
            IsNext self.old.path self.old.done (record { whose = whose; count = limit }) }
        ensures stands { OnOk result (Stands self.new) }
        ensures same { OnOk result (IsSameRun self.old self.new) }
        ensures runs { IfOk result (λ run. Runs whose limit self.old run self.new) }
    {
        let mut left = limit;
        let mut taken: u64 = 0;
        let mut last = self.debugger.turn();
        'pieces: loop {
            let most = left.min(self.checkpoints.until_due(self.done));
            let piece = self.run_piece(alloc, whose, most)?;
            self.keep(alloc);
            taken += piece.steps;
            left -= piece.steps;
            last = last_hart(piece, last);
            if !goes_on(piece.why, left) {
                return Ok(Run {
                    why: piece.why,
                    steps: taken,
                    last,
                });
            }
        }
    }

    /// The same at once.
    fn run_piece(&mut self, alloc: Global, whose: Whose, limit: u64) -> Result<Run, RunFault>
        requires stands { Stands self.old }
        requires small { self.old.done + limit < 2 ^ 64 }
        requires next { self.old.is_recorded ≡ true →
            IsNext self.old.path self.old.done (record { whose = whose; count = limit }) }
        ensures stands { OnOk result (Stands self.new) }
        ensures same { OnOk result (IsSameRun self.old self.new) }
        ensures runs { IfOk result (λ run. Runs whose limit self.old run self.new) }
    {
        let run = run_on(&mut self.debugger, whose, limit)?;
        if self.is_recorded {
            self.done += run.steps;
        } else {
            self.note(alloc, whose, run.steps)?;
        }
        Ok(run)
    }
}

/// The hart of the last step after a piece; before it that was another one.
fn last_hart(piece: Run, before: u32) -> u32
    ensures some { 0 < piece.steps → result ≡ piece.last }
    ensures none { piece.steps ≡ 0 → result ≡ before }
{
    if piece.steps > 0 { piece.last } else { before }
}

/// Whether a run goes on after a piece of it that came to this, with so many steps left.
fn goes_on(reason: Why, left: u64) -> bool
    ensures yes { result ≡ true → (reason ≡ why.Limit) × (0 < left) }
    ensures no { result ≡ false → reason ≡ why.Limit → left ≡ 0 }
{
    match reason {
        Why::Limit => left > 0,
        _ => false,
    }
}
