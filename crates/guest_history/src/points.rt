//! The points of a debugger, given to another one.

ghost use Rattle.std.specs.Prelude.{◌≡◌, None, Some, IfOk, OnOk, map, replicate, slice_index_or, slice_set};
ghost use Rattle.debug_core.specs.Debugging.{lowest_free};
ghost use Rattle.guest_history.specs.Filling.{filled};

use debug_core::{DebugRefusal, Debugger, MOST_POINTS, Point};
use flat_machine::FlatProcess;
use run_paths::{Points, RunFault};

/// Gives a debugger that has none these points, under their numbers.
pub(crate) fn give_points(
    debugger: &mut Debugger<FlatProcess>,
    points: &Points,
) -> Result<(), RunFault>
    requires none { debugger.old.points ≡ replicate 32 None }
    ensures points { OnOk result (debugger.new.points ≡ points.now) }
    ensures target { debugger.new.target ≡ debugger.old.target }
    ensures turn { debugger.new.turn ≡ debugger.old.turn }
{
    fill(debugger, points)?;
    'numbers: for number in 0..MOST_POINTS {
        match clear(debugger, number as u32, points[number]) {
            Ok(()) => {}
            Err(_) => return Err(RunFault::OtherRun),
        }
    }
    Ok(())
}

/// Gives a debugger that has none these points, and one that is to be removed where there is none.
fn fill(debugger: &mut Debugger<FlatProcess>, points: &Points) -> Result<(), RunFault>
    requires none { debugger.old.points ≡ replicate 32 None }
    ensures points { OnOk result (debugger.new.points ≡ map filled points.now) }
    ensures target { debugger.new.target ≡ debugger.old.target }
    ensures turn { debugger.new.turn ≡ debugger.old.turn }
{
    'points: for number in 0..MOST_POINTS {
        match add(debugger, points[number]) {
            Ok(_) => {}
            Err(_) => return Err(RunFault::OtherRun),
        }
    }
    Ok(())
}

/// Adds a point; where there is none, one that is to be removed.
fn add(debugger: &mut Debugger<FlatProcess>, point: Option<Point>) -> Result<u32, DebugRefusal>
    ensures lowest { IfOk result (λ number. lowest_free debugger.old.points ≡ Some number) }
    ensures added { IfOk result (λ number. debugger.new.points ≡
        slice_set debugger.old.points number (filled point)) }
    ensures target { debugger.new.target ≡ debugger.old.target }
    ensures turn { debugger.new.turn ≡ debugger.old.turn }
{
    match point {
        None => debugger.add_break(0),
        Some(Point::Break { address }) => debugger.add_break(address),
        Some(Point::Watch { address, length }) => debugger.add_watch(address, length),
    }
}

/// Removes a point, where there is to be none.
fn clear(
    debugger: &mut Debugger<FlatProcess>,
    number: u32,
    point: Option<Point>,
) -> Result<(), DebugRefusal>
    requires filled { slice_index_or debugger.old.points number None ≡ filled point }
    ensures cleared { OnOk result (debugger.new.points ≡
        slice_set debugger.old.points number point) }
    ensures target { debugger.new.target ≡ debugger.old.target }
    ensures turn { debugger.new.turn ≡ debugger.old.turn }
{
    match point {
        None => debugger.remove(number),
        Some(_) => Ok(()),
    }
}
