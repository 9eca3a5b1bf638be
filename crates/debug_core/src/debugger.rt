//! The debugger: adds and removes points, runs one step, or runs steps by turns until a reason to stop.

ghost use Rattle.std.specs.Prelude.{◌≡◌, ◌⊎◌, ℕ, ◌<◌, ◌≤◌, length, true, false, Some, None, IfSome, IfOk, IfErr, OnOk, OnErr, slice_set, replicate};
ghost use Rattle.flat_machine.specs.ByTurns.{first_turn};
ghost use Rattle.flat_machine.specs.Process.{hart_registers, is_live};
ghost use Rattle.debug_core.specs.Debugging.{first_moment, lone_moment, lowest_free, opening_moment, turn_left};
ghost use Rattle.debug_core.specs.Debugging.{AddsPoint, RefusesGo, RefusesStep, StepsOnce};
ghost use Rattle.debug_core.specs.Points.{point_at, ArePoints, IsRange};
ghost use Rattle.debug_core.specs.Stops.{last_hart, Stops, Wants, WantsAfter};
ghost use Rattle.debug_core.specs.declared.point.Point.TheVariants as point;
ghost use Rattle.debug_core.specs.declared.refusal.DebugRefusal.TheVariants as refusal;

use crate::point::{DebugStep, MOST_POINTS, MOST_WATCHED, Point, Why};
use crate::refusal::DebugRefusal;
use crate::running::{Ran, run};
use crate::target::{Target, TargetStep};
use flat_machine::End;
use rv_exec::Regs;
use std::alloc::AllocError;
use std::marker::Model;

/// A debugger: a target, the points at which it stops, and whose turn it is.
#[derive(Drop)]
pub struct Debugger<T: Target> {
    pub(crate) target: T,
    pub(crate) points: [Option<Point>; MOST_POINTS],
    pub(crate) turn: u32,
}

impl<T: Target> Model for Debugger<T> {
    ghost use Rattle.std.specs.Prelude.{◌≡◌, true};
    ghost use Rattle.flat_machine.specs.Process.{is_live};
    ghost use Rattle.debug_core.specs.Points.{ArePoints};
    ghost use Rattle.debug_core.specs.Debugging.{DebuggerValue};

    ghost Value = { DebuggerValue T };

    ghost view = { λ debugger. record { target = debugger.target; points = debugger.points; turn = debugger.turn } };

    ghost invariant = { λ debugger. record {
      points : ArePoints debugger.points;
      live : is_live debugger.turn (T.shown debugger.target) ≡ true;
    } };
}

impl<T: Target> Debugger<T> {
    /// A debugger with no point. It is the turn of hart 0.
    pub fn new(target: T) -> Self
        ensures { result ≡ record {
          target = target;
          points = replicate 32 None;
          turn = first_turn
              (T.shown target);
        } }
    {
        let turn = first_turn(&target);
        Debugger {
            target,
            points: [None; MOST_POINTS],
            turn,
        }
    }

    /// Stops before the instruction at an address. The answer is the point's number, the lowest that is free.
    #[tactic(auto, using(crate::proofs::Points::with_point))]
    pub fn add_break(&mut self, address: u32) -> Result<u32, DebugRefusal>
        ensures ok { IfOk result (λ number. AddsPoint (point.Break address) number self.old.points
            self.new.points) }
        ensures refused { IfErr result (λ why. (why ≡ refusal.Full) ×
            (lowest_free self.old.points ≡ None)) }
        ensures err { OnErr result (self.new ≡ self.old) }
        ensures stays { self.new ≡ record self.old { points = self.new.points } }
    {
        let number = self.lowest_free().ok_or(DebugRefusal::Full)?;
        self.points[number] = Some(Point::Break { address });
        Ok(number as u32)
    }

    /// Stops after a step that changes one of so many bytes, 1 to 16, from an address on. The answer is the point's number, the
    /// lowest that is free.
    #[tactic(auto, using(crate::proofs::Points::with_point))]
    pub fn add_watch(&mut self, address: u32, length: u32) -> Result<u32, DebugRefusal>
        ensures ok { IfOk result (λ number. IsRange 16 address length ×
            AddsPoint (point.Watch address length) number self.old.points self.new.points) }
        ensures refused { IfErr result (λ why. ((why ≡ refusal.Full) ×
            (lowest_free self.old.points ≡ None)) ⊎ ((why ≡ refusal.BadRange) ×
            ((¬ (lowest_free self.old.points ≡ None)) × (¬ IsRange 16 address length)))) }
        ensures err { OnErr result (self.new ≡ self.old) }
        ensures stays { self.new ≡ record self.old { points = self.new.points } }
    {
        let number = self.lowest_free().ok_or(DebugRefusal::Full)?;
        if !is_range(MOST_WATCHED, address, length) {
            return Err(DebugRefusal::BadRange);
        }
        self.points[number] = Some(Point::Watch { address, length });
        Ok(number as u32)
    }

    /// Removes a point.
    #[tactic(auto, using(crate::proofs::Points::with_point))]
    pub fn remove(&mut self, number: u32) -> Result<(), DebugRefusal>
        ensures ok { OnOk result ((¬ (point_at self.old.points number ≡ None)) ×
            (self.new.points ≡ slice_set self.old.points number None)) }
        ensures refused { IfErr result (λ why. (why ≡ refusal.NoPoint) ×
            (point_at self.old.points number ≡ None)) }
        ensures err { OnErr result (self.new ≡ self.old) }
        ensures stays { self.new ≡ record self.old { points = self.new.points } }
    {
        let place = number as usize;
        if place >= MOST_POINTS || self.points[place].is_none() {
            return Err(DebugRefusal::NoPoint);
        }
        self.points[place] = None;
        Ok(())
    }

    /// Runs one instruction of a hart.
    pub fn step(&mut self, hart: u32) -> Result<DebugStep, DebugRefusal>
        ensures ok { IfOk result (λ stepped. StepsOnce (T.limits self.old.target) stepped hart
            (T.shown self.old.target) self.old.turn (T.shown self.new.target) self.new.turn) }
        ensures refused { IfErr result (λ why. RefusesStep (T.limits self.old.target) why hart
            (T.shown self.old.target) (T.shown self.new.target)) }
        ensures turn { OnErr result (self.new.turn ≡ self.old.turn) }
        ensures points { self.new.points ≡ self.old.points }
    {
        if !self.target.is_live(hart) {
            return Err(DebugRefusal::NoHart);
        }
        if self.target.end().is_some() {
            return Err(DebugRefusal::Ended);
        }
        match self.target.step(hart) {
            Ok(TargetStep::Ran) => {
                self.turn = self.target.turn_after(hart);
                Ok(DebugStep::Ran)
            }
            Ok(TargetStep::Absent) => Ok(DebugStep::Absent),
            Ok(TargetStep::Full) => Err(DebugRefusal::Ended),
            Err(AllocError) => Err(DebugRefusal::NoMemory),
        }
    }

    /// Steps the hart whose turn it is, then the next, until there is a reason to stop: the process has ended, a byte that is
    /// watched was changed, the hart whose turn it is has come to a break, or so many steps were done. Reports the reason, with the
    /// point's number where there are several the lowest, how many steps were done, and the hart of the last one: of none the
    /// hart whose turn it was.
    ///
    /// # Errors
    ///
    /// Want of memory for a step; the steps before it remain.
    pub fn go(&mut self, limit: u64) -> Result<(Why, u64, u32), AllocError>
        ensures stops { IfOk result (λ stop. Stops T.shown T.limits self.old.target self.old.points
            limit stop.0 stop.1 (first_moment (T.shown self.old.target) self.old.turn)
            self.new.turn (T.shown self.new.target)) }
        ensures last { IfOk result (λ stop. last_hart stop.1
            (first_moment (T.shown self.old.target) self.old.turn) ≡ Some stop.2) }
        ensures wants { OnErr result (Wants T.limits self.old.target self.old.points limit
            (first_moment (T.shown self.old.target) self.old.turn) self.new.turn
            (T.shown self.new.target)) }
        ensures points { self.new.points ≡ self.old.points }
    {
        let points = self.points;
        let ran = run_with(&mut self.target, false, &mut self.turn, &points, limit);
        match ran.why {
            Ok(why) => Ok((why, ran.steps, ran.last)),
            Err(AllocError) => Err(AllocError),
        }
    }

    /// Steps only one hart, until there is a reason to stop, as [`Debugger::go`] has them, or that hart has ended. Returns the reason
    /// and how many steps were done. The turn goes on as after each of them.
    ///
    /// # Errors
    ///
    /// The hart is not live, or there is not enough memory for a step; the steps before it remain.
    pub fn go_hart(&mut self, hart: u32, limit: u64) -> Result<(Why, u64), DebugRefusal>
        ensures live { IfOk result (λ _. is_live hart (T.shown self.old.target) ≡ true) }
        ensures stops { IfOk result (λ stop. Stops T.shown T.limits self.old.target self.old.points
            limit stop.0 stop.1 (lone_moment (T.shown self.old.target) hart) hart
            (T.shown self.new.target)) }
        ensures turn { IfOk result (λ stop. self.new.turn ≡ turn_left stop.1 hart self.old.turn
            (T.shown self.new.target)) }
        ensures refused { IfErr result (λ why. RefusesGo T.limits why self.old.target
            self.old.points limit hart (T.shown self.old.target) self.old.turn
            (T.shown self.new.target) self.new.turn) }
        ensures points { self.new.points ≡ self.old.points }
    {
        if !self.target.is_live(hart) {
            return Err(DebugRefusal::NoHart);
        }
        let points = self.points;
        let mut at = hart;
        let ran = run_with(&mut self.target, true, &mut at, &points, limit);
        self.turn = turn_left(&self.target, ran.steps, hart, self.turn);
        match ran.why {
            Ok(why) => Ok((why, ran.steps)),
            Err(AllocError) => Err(DebugRefusal::NoMemory),
        }
    }

    /// What it looks at.
    pub fn target(&self) -> &T
        ensures { result.now ≡ self.now.target }
    {
        &self.target
    }

    /// Whose turn it is.
    pub fn turn(&self) -> u32
        ensures turn { result ≡ self.now.turn }
        ensures live { is_live result (T.shown self.now.target) ≡ true }
    {
        self.turn
    }

    /// Whether a hart was started and has not ended.
    pub fn is_live(&self, hart: u32) -> bool
        ensures { result ≡ is_live hart (T.shown self.now.target) }
    {
        self.target.is_live(hart)
    }

    /// How the process ended, if it did.
    pub fn end(&self) -> Option<End>
        ensures { result ≡ (T.shown self.now.target).ending }
    {
        self.target.end()
    }

    /// A hart's registers.
    pub fn regs(&self, hart: u32) -> Result<&Regs, DebugRefusal>
        ensures found { IfOk result (λ regs. hart_registers hart (T.shown self.now.target) ≡
            Some regs.now) }
        ensures refused { IfErr result (λ why. (why ≡ refusal.NoHart) ×
            (hart_registers hart (T.shown self.now.target) ≡ None)) }
    {
        self.target.regs(hart).ok_or(DebugRefusal::NoHart)
    }

    fn lowest_free(&self) -> Option<usize>
        ensures lowest { result ≡ lowest_free self.now.points }
        ensures within { IfSome result (λ number. number < 32) }
    {
        self.points.iter().position(|point| point.is_none())
    }
}

/// Whose turn it is at first: hart 0's, where it is live.
fn first_turn<T: Target>(target: &T) -> u32
    ensures turn { result ≡ first_turn (T.shown target.now) }
    ensures live { is_live result (T.shown target.now) ≡ true }
{
    if target.is_live(0) {
        return 0;
    }
    target.turn_after(0)
}

/// Whose turn it is after so many steps of one hart while the others wait.
fn turn_left<T: Target>(target: &T, steps: u64, hart: u32, turn: u32) -> u32
    requires { steps ≡ 0 → is_live turn (T.shown target.now) ≡ true }
    ensures left { result ≡ turn_left steps hart turn (T.shown target.now) }
    ensures live { is_live result (T.shown target.now) ≡ true }
{
    match steps {
        0 => turn,
        _ => target.turn_after(hart),
    }
}

/// Steps the harts by turns, or only one, as [`run`] does, with all points.
#[tactic(auto, using(crate::proofs::Trimmed::points_trimmed))]
fn run_with<T: Target>(
    target: &mut T,
    alone: bool,
    turn: &mut u32,
    points: &[Option<Point>; MOST_POINTS],
    limit: u64,
) -> Ran
    requires live { alone ≡ false → is_live turn.old (T.shown target.old) ≡ true }
    requires points { ArePoints points.now }
    ensures stops { IfOk result.why (λ why. Stops T.shown T.limits target.old points.now limit why
        result.steps (opening_moment alone (T.shown target.old) turn.old) turn.new
        (T.shown target.new)) }
    ensures last { OnOk result.why (last_hart result.steps (opening_moment alone
        (T.shown target.old) turn.old) ≡ Some result.last) }
    ensures wants { OnErr result.why (WantsAfter T.limits target.old points.now limit result.steps
        (opening_moment alone (T.shown target.old) turn.old) turn.new (T.shown target.new)) }
    ensures live { alone ≡ false → is_live turn.new (T.shown target.new) ≡ true }
    ensures alone { alone ≡ true → turn.new ≡ turn.old }
{
    let used = used(points);
    run(target, alone, turn, &points[..used], limit)
}

/// How many numbers there are up to the highest that has a point.
#[tactic(auto, using(crate::proofs::Trimmed::none_past, crate::proofs::Trimmed::none_more))]
fn used(points: &[Option<Point>]) -> usize
    ensures within { result ≤ length points.now }
    ensures none { (number : ℕ) → result ≤ number → point_at points.now number ≡ None }
{
    let mut used = points.len();
    'points: while used > 0 && points[used - 1].is_none() {
        used -= 1;
    }
    used
}

/// Whether so many bytes from an address on are one at least and so many at most, and stay below 2^32.
pub(crate) fn is_range(most: u32, address: u32, length: u32) -> bool
    ensures yes { result ≡ true → IsRange most address length }
    ensures no { result ≡ false → ¬ IsRange most address length }
{
    length >= 1 && length <= most && u64::from(address) + u64::from(length) <= 1 << 32
}
