//! Steps by turns, until there is a reason to stop.

ghost use Rattle.std.specs.Prelude.{◌≡◌, ◌≢◌, ◌⊎◌, ℕ, ◌<◌, ◌≤◌, [], true, false, None, Some, IfErr, IfOk, OnErr, OnOk, length};
ghost use Rattle.std.specs.List.{position_from};
ghost use Rattle.page_memory.specs.Memory.{Memory};
ghost use Rattle.flat_machine.specs.ByTurns.{turn_after};
ghost use Rattle.flat_machine.specs.Process.{Process, hart_registers, is_live, may_step};
ghost use Rattle.debug_core.specs.Debugging.{opening_moment};
ghost use Rattle.debug_core.specs.Limits.{CannotRecord, KeepsRoom, RecordsOne};
ghost use Rattle.debug_core.specs.Points.{is_break_at, ArePoints};
ghost use Rattle.debug_core.specs.Seen.{AreSeen, IsUnread};
ghost use Rattle.debug_core.specs.Stops.{break_at, last_hart, reason, turn_next};
ghost use Rattle.debug_core.specs.Stops.{Advances, PassesTo, RoomAfter, Stops, WantsAfter};
ghost use Rattle.debug_core.specs.declared.point.Why.TheVariants as why;

use crate::looking::{NOTHING, Window, look};
use crate::point::{MOST_POINTS, Point, Why};
use crate::target::{StepsTaken, Target, TargetFault, TargetStep};
use flat_machine::OutOfMemory;
use std::alloc::AllocError;

/// The number of the first break that a hart is at.
pub(crate) fn break_at<T: Target>(target: &T, turn: u32, points: &[Option<Point>]) -> Option<u32>
    requires few { length points.now ≤ 32 }
    ensures { result ≡ break_at points.now (hart_registers turn (T.shown target.now)) }
{
    let pc = target.regs(turn)?.pc();
    break_before(pc, points)
}

/// The number of the first break at an address.
pub fn break_before(pc: u32, points: &[Option<Point>]) -> Option<u32>
    requires few { length points.now ≤ 32 }
    ensures { result ≡ position_from (is_break_at pc) 0 points.now }
{
    'points: for number in 0..points.len() {
        if is_break_at(pc, points[number]) {
            return Some(number as u32);
        }
    }
    None
}

/// Whether a point is a break at an address.
fn is_break_at(pc: u32, point: Option<Point>) -> bool
    ensures { result ≡ is_break_at pc point }
{
    match point {
        Some(Point::Break { address }) => address == pc,
        _ => false,
    }
}

/// Why to stop before the next step, after so many of as many as are allowed; `None` to go on. A watched byte that can't be
/// read is reported as a fault.
fn reason_now<T: Target>(
    target: &mut T,
    alone: bool,
    turn: u32,
    points: &[Option<Point>],
    seen: &mut [Window],
    done: u64,
    limit: u64,
) -> Result<Option<Why>, TargetFault>
    requires live { alone ≡ false → is_live turn (T.shown target.old) ≡ true }
    requires points { ArePoints points.now }
    requires room { length points.now ≤ length seen.old }
    requires few { length points.now ≤ 32 }
    ensures why { IfOk result (λ why. (was : Memory) → AreSeen points.now seen.old was →
        why ≡ reason points.now limit done (record {
          process = T.shown target.old;
          turn = turn;
          was = was;
          alone = alone;
        })) }
    ensures seen { IfOk result (λ why. why ≡ None →
        AreSeen points.now seen.new (T.shown target.old).memory) }
    ensures goes_on { IfOk result (λ why. why ≡ None → ((T.shown target.old).ending ≡ None) ×
        (done ≢ limit)) }
    ensures lives { IfOk result (λ why. why ≡ None → is_live turn (T.shown target.old) ≡ true) }
    ensures unread { OnErr result ((was : Memory) → AreSeen points.now seen.old was →
        IsUnread T.shown T.limits points.now was (T.shown target.old)) }
    ensures not_ended { OnErr result ((T.shown target.old).ending ≡ None) }
    ensures room { length seen.new ≡ length seen.old }
    ensures shown { T.shown target.new ≡ T.shown target.old }
    ensures kept { KeepsRoom (T.limits target.old) (T.limits target.new) }
{
    if target.end().is_some() {
        return Ok(Some(Why::Ended));
    }
    if let Some(number) = look(target, points, seen)? {
        return Ok(Some(Why::Watch(number)));
    }
    if alone && !target.is_live(turn) {
        return Ok(Some(Why::Gone));
    }
    if let Some(number) = break_at(target, turn, points) {
        return Ok(Some(Why::Break(number)));
    }
    if done == limit {
        return Ok(Some(Why::Limit));
    }
    Ok(None)
}

/// Stops for a reason, or takes the step of the hart whose turn it is. The turn stays with that hart where only it runs.
///
/// # Errors
///
/// Want of memory for the step; nothing has changed then but what was seen.
#[tactic(auto, using(flat_machine::proofs::StepLaws::may_step_when_live))]
fn advance<T: Target>(
    target: &mut T,
    alone: bool,
    turn: &mut u32,
    points: &[Option<Point>],
    seen: &mut [Window],
    done: u64,
    limit: u64,
) -> Result<Option<Why>, AllocError>
    requires live { alone ≡ false → is_live turn.old (T.shown target.old) ≡ true }
    requires points { ArePoints points.now }
    requires room { length points.now ≤ length seen.old }
    requires few { length points.now ≤ 32 }
    ensures advances { IfOk result (λ why. (was : Memory) → AreSeen points.now seen.old was →
        Advances T.shown T.limits (T.limits target.old (CannotRecord [] turn.old)) why points.now
        limit done (record {
          process = T.shown target.old;
          turn = turn.old;
          was = was;
          alone = alone;
        }) turn.new (T.shown target.new)) }
    ensures seen { IfOk result (λ why. why ≡ None →
        AreSeen points.now seen.new (T.shown target.old).memory) }
    ensures goes_on { IfOk result (λ why. why ≡ None → done ≢ limit) }
    ensures wants { OnErr result ((was : Memory) → AreSeen points.now seen.old was →
        reason points.now limit done (record {
          process = T.shown target.old;
          turn = turn.old;
          was = was;
          alone = alone;
        }) ≡ None) }
    ensures err { OnErr result ((T.shown target.new ≡ T.shown target.old) ×
        ((turn.new ≡ turn.old) × (¬ T.limits target.old (CannotRecord [] turn.old)))) }
    ensures recorded { IfOk result (λ why. why ≡ None → RecordsOne turn.old (T.limits target.old)
        (T.limits target.new)) }
    ensures room { length seen.new ≡ length seen.old }
    ensures live { alone ≡ false → is_live turn.new (T.shown target.new) ≡ true }
    ensures alone { alone ≡ true → turn.new ≡ turn.old }
{
    match reason_now(target, alone, *turn, points, seen, done, limit) {
        Err(_) => return Ok(Some(Why::Absent)),
        Ok(Some(why)) => return Ok(Some(why)),
        Ok(None) => {}
    }
    match target.step(*turn) {
        Ok(TargetStep::Ran) => {
            *turn = turn_next(target, alone, *turn);
            Ok(None)
        }
        Ok(TargetStep::Absent) => Ok(Some(Why::Absent)),
        Ok(TargetStep::Full) => Ok(Some(Why::Ended)),
        Err(AllocError) => Err(AllocError),
    }
}

/// Whose turn it is after a step of a hart.
fn turn_next<T: Target>(target: &T, alone: bool, turn: u32) -> u32
    ensures next { result ≡ turn_next alone turn (T.shown target.now) }
    ensures live { alone ≡ false → is_live result (T.shown target.now) ≡ true }
{
    if alone { turn } else { target.turn_after(turn) }
}

/// Takes the steps that can be taken at once. There are none where there are points to look at, or where only one hart runs.
fn take_at_once<T: Target>(
    target: &mut T,
    alone: bool,
    turn: &mut u32,
    points: &[Option<Point>],
    limit: u64,
) -> Result<StepsTaken, OutOfMemory>
    requires live { alone ≡ false → is_live turn.old (T.shown target.old) ≡ true }
    ensures passed { IfOk result (λ taken. PassesTo (T.limits target.old) points.now limit
        taken.steps (opening_moment alone (T.shown target.old) turn.old) turn.new
        (T.shown target.new)) }
    ensures unseen { IfOk result (λ taken. (points.now ≡ []) ⊎ (taken.steps ≡ 0)) }
    ensures last { IfOk result (λ taken. last_hart taken.steps (opening_moment alone
        (T.shown target.old) turn.old) ≡ Some taken.last) }
    ensures recorded { IfOk result (λ taken. RoomAfter (T.limits target.old)
        (T.limits target.new) taken.steps (opening_moment alone (T.shown target.old)
        turn.old)) }
    ensures wants { IfErr result (λ stop. WantsAfter T.limits target.old points.now limit
        stop.steps (opening_moment alone (T.shown target.old) turn.old) turn.new
        (T.shown target.new)) }
    ensures live { alone ≡ false → is_live turn.new (T.shown target.new) ≡ true }
    ensures alone { alone ≡ true → turn.new ≡ turn.old }
{
    if alone || !points.is_empty() {
        return Ok(StepsTaken {
            steps: 0,
            last: *turn,
        });
    }
    target.take_turns(turn, limit)
}

/// How a run came to its end.
#[derive(Clone, Copy)]
pub(crate) struct Ran {
    /// Why it stopped, or that there was not enough memory for the next step.
    pub(crate) why: Result<Why, AllocError>,
    /// How many steps were done.
    pub(crate) steps: u64,
    /// Where it stopped for a reason, the hart of the last one: of none the hart whose turn it was.
    pub(crate) last: u32,
}

/// Steps the harts by turns, or only one, until there is a reason to stop or not enough memory for a step.
pub(crate) fn run<T: Target>(
    target: &mut T,
    alone: bool,
    turn: &mut u32,
    points: &[Option<Point>],
    limit: u64,
) -> Ran
    requires live { alone ≡ false → is_live turn.old (T.shown target.old) ≡ true }
    requires points { ArePoints points.now }
    requires few { length points.now ≤ 32 }
    ensures stops { IfOk result.why (λ why. Stops T.shown T.limits target.old points.now limit why
        result.steps (opening_moment alone (T.shown target.old) turn.old) turn.new
        (T.shown target.new)) }
    ensures last { OnOk result.why (last_hart result.steps (opening_moment alone
        (T.shown target.old) turn.old) ≡ Some result.last) }
    ensures wants { OnErr result.why (WantsAfter T.limits target.old points.now limit result.steps
        (opening_moment alone (T.shown target.old) turn.old) turn.new (T.shown target.new)) }
    ensures alone { alone ≡ true → turn.new ≡ turn.old }
    ensures live { alone ≡ false → is_live turn.new (T.shown target.new) ≡ true }
{
    let mut seen = [NOTHING; MOST_POINTS];
    let StepsTaken {
        mut steps,
        mut last,
    } = match take_at_once(target, alone, turn, points, limit) {
        Ok(taken) => taken,
        Err(stop) => {
            return Ran {
                why: Err(AllocError),
                steps: stop.steps,
                last: *turn,
            };
        }
    };
    'steps: loop {
        let now = *turn;
        match advance(target, alone, turn, points, &mut seen, steps, limit) {
            Ok(None) => {
                steps += 1;
                last = now;
            }
            Ok(Some(why)) => {
                return Ran {
                    why: Ok(why),
                    steps,
                    last,
                };
            }
            Err(AllocError) => {
                return Ran {
                    why: Err(AllocError),
                    steps,
                    last,
                };
            }
        }
    }
}
