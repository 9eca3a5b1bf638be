//! Steps forward.

ghost use Rattle.std.specs.Prelude.{◌≡◌, ◌<◌, ◌≤◌, ◌+◌, true, false, Ok, Some, None, IfOk, IfSome, OnOk};
ghost use Rattle.flat_machine.specs.Process.{is_live};
ghost use Rattle.guest_history.specs.Going.{next_hart, turn_of, why_last, EndsTurn, GoesAlone, GoesByRecord, GoesTurn, HasGone};
ghost use Rattle.guest_history.specs.Histories.{HasStepped, IsNext, IsSameRun, Stands};
ghost use Rattle.run_paths.specs.declared.path.Whose.TheVariants as whose;
ghost use Rattle.run_paths.specs.Paths.{hart_of};

use crate::history::History;
use crate::moving::step_once;
use debug_core::{DebugRefusal, Why};
use run_paths::{RunFault, Stretch, Whose, part_of, whose_at};
use std::alloc::Global;

/// How a run came to its end.
#[derive(Clone, Copy, Debug, PartialEq, Eq)]
pub(crate) struct Stop {
    /// Why it stopped; `None` where the record has no more steps.
    pub(crate) why: Option<Why>,
    pub(crate) last: u32,
    pub(crate) steps: u64,
}

/// What became of a step.
#[derive(Clone, Copy, Debug, PartialEq, Eq)]
pub(crate) enum Stepped {
    Ran,
    Refused(DebugRefusal),
    /// The record has no more steps.
    PastRecord,
    /// The record has another hart's step there.
    OtherHart,
}

impl History {
    /// Whose turn it is: by the record, where it has more steps.
    pub(crate) fn turn(&self) -> u32
        ensures { result ≡ turn_of self.now }
    {
        let turn = self.debugger.turn();
        if self.is_recorded {
            next_hart(whose_at(self.path.stretches.as_slice(), self.done), turn)
        } else {
            turn
        }
    }

    /// Takes a step of a hart, where the record has it next, if there is a record.
    pub(crate) fn step(&mut self, alloc: Global, hart: u32) -> Result<Stepped, RunFault>
        requires stands { Stands self.old }
        ensures stands { OnOk result (Stands self.new) }
        ensures same { OnOk result (IsSameRun self.old self.new) }
        ensures stepped { IfOk result (λ stepped. HasStepped hart self.old stepped self.new) }
    {
        if self.is_recorded {
            return Ok(self.step_by_record(alloc, hart));
        }
        if hart == self.debugger.turn() {
            self.step_on(alloc, hart, Whose::ByTurns)
        } else {
            self.step_on(alloc, hart, Whose::Hart(hart))
        }
    }

    /// Takes a step of a hart, and notes whose it was.
    #[tactic(auto, using(crate::proofs::GoneOn::moves_one, crate::proofs::GoneOn::stands_still, crate::proofs::SameRuns::same_free))]
    fn step_on(&mut self, alloc: Global, hart: u32, whose: Whose) -> Result<Stepped, RunFault>
        requires stands { Stands self.old }
        requires whose { hart_of whose self.old.debugger.turn ≡ hart }
        requires free { self.old.is_recorded ≡ false }
        ensures stands { OnOk result (Stands self.new) }
        ensures same { OnOk result (IsSameRun self.old self.new) }
        ensures stepped { IfOk result (λ stepped. HasStepped hart self.old stepped self.new) }
    {
        if self.done == u64::MAX {
            return Err(RunFault::OtherRun);
        }
        match step_once(&mut self.debugger, hart) {
            Ok(()) => {
                self.note(alloc, whose, 1)?;
                self.keep(alloc);
                Ok(Stepped::Ran)
            }
            Err(refusal) => Ok(Stepped::Refused(refusal)),
        }
    }

    /// Takes the next step of the record, if it is a hart's.
    #[tactic(auto, using(crate::proofs::GoneOn::stands_one, crate::proofs::GoneOn::stands_still))]
    fn step_by_record(&mut self, alloc: Global, hart: u32) -> Stepped
        requires stands { Stands self.old }
        requires recorded { self.old.is_recorded ≡ true }
        ensures stands { Stands self.new }
        ensures program { self.new.program ≡ self.old.program }
        ensures recorded { self.new.is_recorded ≡ self.old.is_recorded }
        ensures path { self.new.path ≡ self.old.path }
        ensures stepped { HasStepped hart self.old result self.new }
    {
        if self.done >= self.path.total {
            return Stepped::PastRecord;
        }
        if !is_of(whose_at(self.path.stretches.as_slice(), self.done), hart) {
            return Stepped::OtherHart;
        }
        match step_once(&mut self.debugger, hart) {
            Ok(()) => {
                self.done += 1;
                self.keep(alloc);
                Stepped::Ran
            }
            Err(refusal) => Stepped::Refused(refusal),
        }
    }

    /// Takes steps until there is a reason to stop.
    #[tactic(auto, using(crate::proofs::SameRuns::same_path, crate::proofs::Gone::by_turns))]
    pub(crate) fn go(&mut self, alloc: Global, limit: u64) -> Result<Stop, RunFault>
        requires stands { Stands self.old }
        ensures stands { OnOk result (Stands self.new) }
        ensures same { OnOk result (IsSameRun self.old self.new) }
        ensures gone { IfOk result (λ stop. HasGone limit self.old stop self.new) }
    {
        if self.is_recorded {
            return self.go_by_record(alloc, limit);
        }
        let most = limit.min(u64::MAX - self.done);
        let ran = self.run(alloc, Whose::ByTurns, most)?;
        Ok(Stop {
            why: Some(ran.why),
            last: ran.last,
            steps: ran.steps,
        })
    }

    /// Takes steps of a hart until there is a reason to stop; `None` where it is not live.
    #[tactic(auto, using(crate::proofs::Gone::alone))]
    pub(crate) fn go_hart(
        &mut self,
        alloc: Global,
        hart: u32,
        limit: u64,
    ) -> Result<Option<Stop>, RunFault>
        requires stands { Stands self.old }
        requires free { self.old.is_recorded ≡ false }
        ensures stands { OnOk result (Stands self.new) }
        ensures same { OnOk result (IsSameRun self.old self.new) }
        ensures live { IfOk result (λ stop. IfSome stop (λ stop.
            (is_live hart self.old.debugger.target ≡ true) × GoesAlone hart limit self.old stop self.new)) }
        ensures waits { result ≡ Ok None → (is_live hart self.old.debugger.target ≡ false) ×
            (self.new ≡ self.old) }
    {
        if !self.debugger.is_live(hart) {
            return Ok(None);
        }
        let most = limit.min(u64::MAX - self.done);
        let ran = self.run(alloc, Whose::Hart(hart), most)?;
        Ok(Some(Stop {
            why: Some(ran.why),
            last: hart,
            steps: ran.steps,
        }))
    }

    /// Takes steps of the record until there is a reason to stop.
    fn go_by_record(&mut self, alloc: Global, limit: u64) -> Result<Stop, RunFault>
        requires stands { Stands self.old }
        requires recorded { self.old.is_recorded ≡ true }
        ensures stands { OnOk result (Stands self.new) }
        ensures program { OnOk result (self.new.program ≡ self.old.program) }
        ensures recorded { OnOk result (self.new.is_recorded ≡ self.old.is_recorded) }
        ensures path { OnOk result (self.new.path ≡ self.old.path) }
        ensures gone { IfOk result (λ stop. GoesByRecord limit self.old stop self.new) }
    {
        let first = self.done;
        let path = self.path.stretches.as_slice();
        let ahead = part_of(alloc, path, first, self.path.total - first)?;
        let mut last = self.turn();
        let mut left = limit;
        let mut taken: u64 = 0;
        'stretches: for stretch in ahead.as_slice() {
            let (why, steps) = self.go_turn(alloc, *stretch, left)?;
            last = last_of(*stretch, steps, last);
            left -= steps;
            taken += steps;
            if stops(why, steps, *stretch) {
                return Ok(Stop {
                    why: Some(why),
                    last,
                    steps: taken,
                });
            }
        }
        let why = self.why_at_end(left);
        Ok(Stop {
            why,
            last,
            steps: taken,
        })
    }

    /// Why a run stops that has come to the end of the record, with so many steps left that were allowed.
    fn why_at_end(&self, left: u64) -> Option<Why>
        ensures { result ≡ why_last self.now.debugger.target left }
    {
        if self.debugger.end().is_some() {
            return Some(Why::Ended);
        }
        if left == 0 { Some(Why::Limit) } else { None }
    }

    /// Takes steps of a turn, up to so many, until there is a reason to stop.
    #[tactic(auto, using(crate::proofs::Gone::turn_gone))]
    fn go_turn(
        &mut self,
        alloc: Global,
        stretch: Stretch,
        limit: u64,
    ) -> Result<(Why, u64), RunFault>
        requires stands { Stands self.old }
        requires recorded { self.old.is_recorded ≡ true }
        requires next { IsNext self.old.path self.old.done stretch }
        ensures stands { OnOk result (Stands self.new) }
        ensures done { IfOk result (λ stop. self.new.done ≡ self.old.done + stop.1) }
        ensures path { OnOk result (self.new.path ≡ self.old.path) }
        ensures program { OnOk result (self.new.program ≡ self.old.program) }
        ensures recorded { OnOk result (self.new.is_recorded ≡ self.old.is_recorded) }
        ensures within { IfOk result (λ stop. stop.1 ≤ limit) }
        ensures few { IfOk result (λ stop. stop.1 ≤ stretch.count) }
        ensures points { OnOk result (self.new.debugger.points ≡ self.old.debugger.points) }
        ensures gone { IfOk result (λ stop. GoesTurn stretch limit self.old stop.0 stop.1 self.new) }
    {
        let hart = match stretch.whose {
            Whose::Hart(hart) => hart,
            Whose::ByTurns => return Err(RunFault::OtherRun),
        };
        let room = self.path.total - self.done;
        let most = limit.min(stretch.count).min(room);
        let ran = self.run(alloc, Whose::Hart(hart), most)?;
        Ok((ran.why, ran.steps))
    }
}

/// The hart that a record has next, else the one whose turn it is.
fn next_hart(next: Option<Whose>, turn: u32) -> u32
    ensures { result ≡ next_hart next turn }
{
    match next {
        Some(Whose::Hart(hart)) => hart,
        Some(Whose::ByTurns) | None => turn,
    }
}

/// Whether a step is this hart's, whosever turn it is.
fn is_of(step: Option<Whose>, hart: u32) -> bool
    ensures yes { result ≡ true → step ≡ Some (whose.Hart hart) }
    ensures no { result ≡ false → ¬ (step ≡ Some (whose.Hart hart)) }
{
    match step {
        Some(Whose::Hart(next)) => next == hart,
        _ => false,
    }
}

/// The hart of the last step after so many of a turn; before it that was another one.
fn last_of(stretch: Stretch, steps: u64, before: u32) -> u32
    ensures some { 0 < steps → result ≡ next_hart (Some stretch.whose) 0 }
    ensures none { steps ≡ 0 → result ≡ before }
{
    if steps == 0 {
        return before;
    }
    next_hart(Some(stretch.whose), 0)
}

/// Whether a run by a record stops, where one of its turns came to this. A break stops it only where the hart at it has the next step.
fn stops(why: Why, steps: u64, stretch: Stretch) -> bool
    ensures no { result ≡ false → EndsTurn why × (stretch.count ≤ steps) }
    ensures yes { result ≡ true → EndsTurn why → steps < stretch.count }
{
    match why {
        Why::Ended | Why::Watch(_) | Why::Absent => true,
        Why::Gone | Why::Break(_) | Why::Limit => steps < stretch.count,
    }
}
