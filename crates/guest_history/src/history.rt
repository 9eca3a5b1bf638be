//! A debugger that knows its steps.

ghost use Rattle.std.specs.Prelude.{◌≡◌, ◌≤◌, ◌<◌, ◌-◌, ◌+◌, ◌^◌, [], Some, None, true, false, replicate, IfErr, IfOk, IfSome, OnOk};
ghost use Rattle.run_paths.specs.Extending.{IsCounted};
ghost use Rattle.run_paths.specs.Meeting.{shifted, LastMet};
ghost use Rattle.run_paths.specs.Paths.{along, hart_of, path_of, step_of, HasTurn};
ghost use Rattle.run_paths.specs.declared.fault.RunFault.TheVariants as fault;
ghost use Rattle.guest_history.specs.Checkpoints.{beginning};
ghost use Rattle.guest_history.specs.Histories.{place_of, stops_at, Begins, IsNear, Keeps, Moves};
ghost use Rattle.guest_history.specs.Histories.{RefusesTurns};
ghost use Rattle.guest_history.specs.Histories.{ends_look, not_below, StopsWithin};
ghost use Rattle.guest_history.specs.Histories.{GoesBackBy, GoesBackTo, Stands, StopsBefore};

use crate::checkpoints::{Checkpoint, Checkpoints};
use crate::points::give_points;
use debug_core::{DebugStep, Debugger, MOST_POINTS, Why};
use flat_machine::{FlatProcess, Turn};
use run_paths::{
    Met, Path, Place, Points, Program, RunFault, Whose, count_of, hart_of, last_met, part_of,
    path_of, whose_at,
};
use std::alloc::{AllocError, Global};

/// How many steps `back_go` looks at first.
const FIRST_LOOK: u64 = 1 << 20;

/// Looks that are longer than this one grow no more.
const MOST_LOOKED: u64 = 1 << 56;

/// Where a bounded way back has led.
#[derive(Clone, Copy, Debug, PartialEq, Eq)]
pub enum Looked {
    /// To a point.
    Met(Why),
    /// Over as many steps as were allowed.
    Limit,
    /// To the beginning.
    Beginning,
}

/// A debugger of a program that knows its steps, so that it can go back.
#[derive(Drop)]
pub struct History {
    pub program: Program,
    /// All steps that are known.
    pub path: Path,
    /// Whether no other steps may be taken.
    pub is_recorded: bool,
    /// How many were taken.
    pub done: u64,
    /// Those of the debugger.
    pub points: Points,
    pub debugger: Debugger<FlatProcess>,
    pub checkpoints: Checkpoints,
}

impl History {
    /// A debugger of a program whose harts take turns.
    pub fn new(alloc: Global, program: Program) -> Result<Self, RunFault>
        ensures begins { IfOk result (Begins program [] false) }
        ensures refused { IfErr result (λ why. why ≡ fault.NoMemory) }
    {
        let path = Path {
            stretches: Vec::new(alloc),
            total: 0,
        };
        History::begin(alloc, program, path, false)
    }

    /// A debugger of a program whose harts take these turns. Their steps are another run's where they are 2^64 or more.
    pub fn recorded(alloc: Global, program: Program, turns: &[Turn]) -> Result<Self, RunFault>
        ensures begins { IfOk result (Begins program (path_of turns.now) true) }
        ensures refused { IfErr result (RefusesTurns turns.now) }
    {
        let stretches = path_of(alloc, turns)?;
        let Some(total) = count_of(stretches.as_slice()) else {
            return Err(RunFault::OtherRun);
        };
        History::begin(alloc, program, Path { stretches, total }, true)
    }

    /// A debugger of a program before its first step.
    fn begin(
        alloc: Global,
        program: Program,
        path: Path,
        is_recorded: bool,
    ) -> Result<Self, RunFault>
        requires counted { IsCounted path }
        ensures begins { IfOk result (Begins program path.stretches.items is_recorded) }
        ensures refused { IfErr result (λ why. why ≡ fault.NoMemory) }
    {
        let debugger = Debugger::new(program.begin(alloc)?);
        Ok(History {
            program,
            path,
            is_recorded,
            done: 0,
            points: [None; MOST_POINTS],
            debugger,
            checkpoints: Checkpoints::new(alloc),
        })
    }

    /// Goes so many steps back, if so many were taken. Answers whether they were.
    pub fn back(&mut self, alloc: Global, count: u64) -> Result<bool, RunFault>
        requires stands { Stands self.old }
        ensures back { IfOk result (λ is_back. GoesBackBy count self.old is_back self.new) }
    {
        if count > self.done {
            return Ok(false);
        }
        self.stand_at(alloc, self.done - count)?;
        Ok(true)
    }

    /// Goes back to the last place where a point would have stopped it, or to the beginning. Reports what was met.
    #[tactic(auto, using(crate::proofs::Stopping::stops_there, crate::proofs::Stopping::stops_nowhere))]
    pub fn back_go(&mut self, alloc: Global) -> Result<Option<Why>, RunFault>
        requires stands { Stands self.old }
        ensures back { OnOk result (GoesBackTo self.new.done self.old self.new) }
        ensures stop { IfOk result (λ why. StopsBefore self.old why self.new) }
    {
        match self.last_met(alloc)? {
            Some(met) => {
                self.stand_at(alloc, met.steps)?;
                Ok(Some(met.why))
            }
            None => {
                self.stand_at(alloc, 0)?;
                Ok(None)
            }
        }
    }

    /// The same, but no more than so many steps back.
    #[tactic(auto, using(crate::proofs::Stopping::stops_within, crate::proofs::Stopping::none_within))]
    pub fn back_go_within(&mut self, alloc: Global, count: u64) -> Result<Looked, RunFault>
        requires stands { Stands self.old }
        ensures back { OnOk result (GoesBackTo self.new.done self.old self.new) }
        ensures stop { IfOk result (λ looked. StopsWithin count self.old looked self.new) }
    {
        let low = self.done.saturating_sub(count);
        match self.last_met_from(alloc, low)? {
            Some(met) => {
                self.stand_at(alloc, met.steps)?;
                Ok(Looked::Met(met.why))
            }
            None => {
                self.stand_at(alloc, low)?;
                Ok(ends_look(low))
            }
        }
    }

    /// The last place before this one where a point would have stopped it, but for the beginning, and for those before so many steps.
    #[tactic(auto, using(crate::proofs::Stopping::low_met, crate::proofs::Stopping::low_above))]
    fn last_met_from(&self, alloc: Global, low: u64) -> Result<Option<Met>, RunFault>
        requires stands { Stands self.now }
        requires low { low ≤ self.now.done }
        ensures last { IfOk result (LastMet (stops_at self.now) (low - 1) self.now.done) }
        ensures above { IfOk result (λ met. IfSome met (λ met. low ≤ met.steps)) }
    {
        let from = low.saturating_sub(1);
        if from >= self.done {
            return Ok(None);
        }
        let met = self.last_met_between(alloc, from, self.done)?;
        Ok(not_below(met, low))
    }

    /// The last place before this one where a point would have stopped it, but for the beginning.
    fn last_met(&self, alloc: Global) -> Result<Option<Met>, RunFault>
        requires stands { Stands self.now }
        ensures last { IfOk result (LastMet (stops_at self.now) 0 self.now.done) }
    {
        let mut end = self.done;
        let mut width = FIRST_LOOK;
        'looks: while end > 1 {
            let from = end - width.min(end - 1) - 1;
            let met = self.last_met_between(alloc, from, end)?;
            if met.is_some() {
                return Ok(met);
            }
            end = from + 1;
            width = wider(width);
        }
        Ok(None)
    }

    /// The same after so many steps, and before so many.
    fn last_met_between(&self, alloc: Global, from: u64, end: u64) -> Result<Option<Met>, RunFault>
        requires stands { Stands self.now }
        requires within { end ≤ self.now.path.total }
        requires before { from < end }
        ensures last { IfOk result (LastMet (stops_at self.now) from end) }
    {
        let place = self.place_at(alloc, from)?;
        let path = self.path.stretches.as_slice();
        let part = part_of(alloc, path, from, end - from)?;
        let met = last_met(place, part.as_slice(), &self.points)?;
        Ok(behind(met, from))
    }

    /// Moves to the place after so many of the known steps.
    pub(crate) fn stand_at(&mut self, alloc: Global, step: u64) -> Result<(), RunFault>
        requires stands { Stands self.old }
        requires known { step ≤ self.old.path.total }
        ensures { OnOk result (GoesBackTo step self.old self.new) }
    {
        let mut debugger = self.debugger_at(alloc, step)?;
        give_points(&mut debugger, &self.points)?;
        self.debugger = debugger;
        self.done = step;
        Ok(())
    }

    /// A debugger with no points after so many of the known steps.
    fn debugger_at(&self, alloc: Global, step: u64) -> Result<Debugger<FlatProcess>, RunFault>
        requires stands { Stands self.now }
        requires known { step ≤ self.now.path.total }
        ensures led { IfOk result (λ debugger. along self.now.path.stretches.items step
            (beginning self.now.program) ≡ Some (place_of debugger)) }
        ensures points { IfOk result (λ debugger. debugger.points ≡ replicate 32 None) }
    {
        if step == 0 {
            return Ok(Debugger::new(self.program.begin(alloc)?));
        }
        let place = self.place_at(alloc, step - 1)?;
        let Some(whose) = whose_at(self.path.stretches.as_slice(), step - 1) else {
            return Err(RunFault::OtherRun);
        };
        let debugger = debugger_behind(place, whose)?;
        Ok(debugger)
    }

    /// The process after so many of the known steps.
    fn place_at(&self, alloc: Global, step: u64) -> Result<Place, RunFault>
        requires stands { Stands self.now }
        requires known { step ≤ self.now.path.total }
        ensures led { IfOk result (λ place. along self.now.path.stretches.items step
            (beginning self.now.program) ≡ Some place) }
        ensures live { IfOk result (λ place. HasTurn place) }
    {
        let near = self.near(alloc, step)?;
        let path = self.path.stretches.as_slice();
        let part = part_of(alloc, path, near.done, step - near.done)?;
        let mut place = near.place;
        place.go_along(alloc, part.as_slice())?;
        Ok(place)
    }

    /// The last checkpoint that is after no more steps, else the beginning.
    fn near(&self, alloc: Global, step: u64) -> Result<Checkpoint, RunFault>
        requires stands { Stands self.now }
        ensures near { IfOk result (λ near. IsNear self.now step near) }
    {
        match self.checkpoints.number_before(step) {
            Some(number) => Ok(self.checkpoints.copies[number].try_clone(alloc)?),
            None => Ok(Checkpoint {
                place: Place::first(self.program.begin(alloc)?),
                done: 0,
            }),
        }
    }

    /// Keeps a checkpoint here, if one is due. Where there is not enough memory, it keeps none.
    pub(crate) fn keep(&mut self, alloc: Global)
        requires stands { Stands self.old }
        ensures stands { Stands self.new }
        ensures keeps { Keeps self.old self.new }
    {
        if !self.checkpoints.is_due(self.done) {
            return;
        }
        if let Ok(place) = self.place_here(alloc) {
            let done = self.done;
            let _ = self.checkpoints.add(Checkpoint { place, done });
        }
    }

    /// A copy of the process that is shown.
    fn place_here(&self, alloc: Global) -> Result<Place, AllocError>
        ensures place { IfOk result (λ place. place ≡ place_of self.now.debugger) }
        ensures live { IfOk result (λ place. HasTurn place) }
    {
        Ok(Place {
            turn: self.debugger.turn(),
            process: self.debugger.target().try_clone(alloc)?,
        })
    }

    /// Notes that so many steps were taken. The debugger is at the place after them.
    pub(crate) fn note(&mut self, alloc: Global, whose: Whose, count: u64) -> Result<(), RunFault>
        requires moved { Moves self.old whose count }
        requires small { self.old.done + count < 2 ^ 64 }
        ensures stands { OnOk result (Stands self.new) }
        ensures done { OnOk result (self.new.done ≡ self.old.done + count) }
        ensures shown { self.new.debugger ≡ self.old.debugger }
        ensures points { self.new.points ≡ self.old.points }
        ensures program { self.new.program ≡ self.old.program }
        ensures recorded { self.new.is_recorded ≡ self.old.is_recorded }
    {
        let is_kept = self.path.extend(alloc, self.done, whose, count)?;
        self.checkpoints.follow(is_kept, self.done);
        self.done += count;
        Ok(())
    }
}

/// What was met, counted from so many steps before.
fn behind(met: Option<Met>, before: u64) -> Option<Met>
    requires small { IfSome met (λ found. before + found.steps < 2 ^ 64) }
    ensures { result ≡ shifted before met }
{
    match met {
        Some(met) => Some(Met {
            steps: before + met.steps,
            why: met.why,
        }),
        None => None,
    }
}

/// What was met, unless that was before so many steps.
fn not_below(met: Option<Met>, low: u64) -> Option<Met>
    ensures { result ≡ not_below low met }
{
    match met {
        Some(met) if met.steps >= low => Some(met),
        _ => None,
    }
}

/// What a look comes to that has met nothing after so many steps.
fn ends_look(low: u64) -> Looked
    ensures { result ≡ ends_look low }
{
    if low == 0 {
        Looked::Beginning
    } else {
        Looked::Limit
    }
}

/// How many steps are looked at next.
fn wider(width: u64) -> u64
    requires some { 0 < width }
    ensures some { 0 < result }
{
    if width >= MOST_LOOKED {
        width
    } else {
        width * 16
    }
}

/// The debugger of a process after the next step.
fn debugger_behind(place: Place, whose: Whose) -> Result<Debugger<FlatProcess>, RunFault>
    ensures led { IfOk result (λ debugger. step_of (hart_of whose place.turn) place ≡
        Some (place_of debugger)) }
    ensures points { IfOk result (λ debugger. debugger.points ≡ replicate 32 None) }
{
    let hart = hart_of(whose, place.turn);
    let mut debugger = Debugger::new(place.process);
    match debugger.step(hart) {
        Ok(DebugStep::Ran) => Ok(debugger),
        _ => Err(RunFault::OtherRun),
    }
}
