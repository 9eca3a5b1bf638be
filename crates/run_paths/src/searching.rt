//! Where a run was last met by a point.

ghost use Rattle.std.specs.Prelude.{◌≡◌, ◌+◌, ◌≤◌, ◌<◌, ◌^◌, IfOk, None, OnOk, length};
ghost use Rattle.debug_core.specs.Points.{ArePoints};
ghost use Rattle.debug_core.specs.Seen.{AreSeen};
ghost use Rattle.flat_machine.specs.Process.{hart_registers};
ghost use Rattle.run_paths.specs.Meeting.{met_at, noted, why_before, why_noted, LastMet};
ghost use Rattle.run_paths.specs.Searches.{Advances};
ghost use Rattle.run_paths.specs.Paths.{hart_of, steps_of};

use crate::fault::RunFault;
use crate::path::{Stretch, Whose, hart_of};
use crate::running::Place;
use crate::watching::{NOTHING, Window, break_at, look};
use debug_core::{MOST_POINTS, Point, Why};

/// Points by their numbers.
pub type Points = [Option<Point>; MOST_POINTS];

/// A break or a watch that was met, after so many steps.
#[derive(Clone, Copy, Debug, PartialEq, Eq)]
pub struct Met {
    pub steps: u64,
    pub why: Why,
}

/// A run that is searched for points.
#[derive(Drop)]
pub(crate) struct Search {
    pub(crate) place: Place,
    /// How many steps were taken.
    pub(crate) steps: u64,
    /// The first watch that the last one has hit.
    pub(crate) hit: Option<u32>,
    /// What was met last.
    pub(crate) met: Option<Met>,
}

/// Where points were last met on a path: not at its beginning, and not at its end.
pub fn last_met(place: Place, path: &[Stretch], points: &Points) -> Result<Option<Met>, RunFault>
    requires small { steps_of path.now < 2 ^ 64 }
    requires points { ArePoints points.now }
    ensures { IfOk result (LastMet (met_at points.now path.now place) 0 (steps_of path.now)) }
{
    let mut seen = [NOTHING; MOST_POINTS];
    let _ = look(&place.process, points, &mut seen);
    let mut search = Search::new(place);
    'stretches: for stretch in path {
        let mut left = stretch.count;
        'steps: while left > 0 {
            search.advance(stretch.whose, points, &mut seen)?;
            left -= 1;
        }
    }
    Ok(search.met)
}

impl Search {
    /// A search that is at its first place.
    fn new(place: Place) -> Self
        ensures { result ≡ record { place = place; steps = 0; hit = None; met = None } }
    {
        Search {
            place,
            steps: 0,
            hit: None,
            met: None,
        }
    }

    /// Notes what is met here before the next step, and takes it. The bytes of the watches are then seen as they are now.
    #[tactic(auto, using(crate::proofs::Meets::advances))]
    fn advance(
        &mut self,
        whose: Whose,
        points: &Points,
        seen: &mut [Window],
    ) -> Result<(), RunFault>
        requires small { self.old.steps + 1 < 2 ^ 64 }
        requires points { ArePoints points.now }
        requires room { 32 ≤ length seen.old }
        requires seen { AreSeen points.now seen.old self.old.place.process.memory }
        ensures advances { OnOk result (Advances points.now whose self.old self.new) }
        ensures seen { OnOk result (AreSeen points.now seen.new self.new.place.process.memory) }
        ensures room { length seen.new ≡ length seen.old }
    {
        let why = self.why_here(whose, points);
        self.met = noted(self.met, self.steps, why);
        self.place.step(whose)?;
        self.hit = look(&self.place.process, points, seen);
        self.steps += 1;
        Ok(())
    }

    /// Why a debugger would stop here before the next step. At the first place it does not.
    fn why_here(&self, whose: Whose, points: &Points) -> Option<Why>
        ensures { result ≡ why_noted self.now.steps self.now.hit points.now
            (hart_registers (hart_of whose self.now.place.turn) self.now.place.process) }
    {
        if self.steps == 0 {
            return None;
        }
        let hart = hart_of(whose, self.place.turn);
        why_before(self.hit, break_at(&self.place.process, hart, points))
    }
}

/// Why a debugger stops that has hit this watch, or is at this break.
fn why_before(hit: Option<u32>, at: Option<u32>) -> Option<Why>
    ensures { result ≡ why_before hit at }
{
    if let Some(number) = hit {
        return Some(Why::Watch(number));
    }
    match at {
        Some(number) => Some(Why::Break(number)),
        None => None,
    }
}

/// What was met last: this, after so many steps, if it is something.
fn noted(met: Option<Met>, steps: u64, why: Option<Why>) -> Option<Met>
    ensures { result ≡ noted met steps why }
{
    match why {
        Some(why) => Some(Met { steps, why }),
        None => met,
    }
}
