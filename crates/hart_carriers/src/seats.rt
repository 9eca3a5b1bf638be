//! What a worker remembers of the harts that it carries.

ghost use Rattle.std.specs.Prelude.{◌≡◌, ◌+◌, ◌-◌, ◌^◌, min};
ghost use Rattle.hart_carriers.specs.Causes.{cause_of_failures};
ghost use Rattle.hart_carriers.specs.Turns.{turn_of};

use flat_machine::KillCause;
use machine_limits::{MOST_HARTS, MOST_LOAD_FAULTS, MOST_PROCESSES};

/// A page that a hart lacks.
#[derive(Clone, Copy)]
pub(crate) struct Lack {
    pub vpn: u32,
    /// How often it could not be loaded, in a row.
    pub faults: u32,
    /// Whether others know that the hart waits for it to come or go.
    pub told: bool,
    /// How often the worker's bell had rung before the page was tried for last, where that has to be done again.
    pub tried: Option<u64>,
}

impl Lack {
    /// The page could not be loaded once more. Returns that, and why the process is to be ended, if that was too often in a row.
    pub(crate) fn failed(self) -> (Lack, Option<KillCause>)
        ensures lack { result.0 ≡ record self { faults = min (self.faults + 1) (2 ^ 32 - 1) } }
        ensures cause { result.1 ≡ cause_of_failures result.0.faults }
    {
        let faults = self.faults.saturating_add(1);
        (Lack { faults, ..self }, cause_of_failures(faults))
    }
}

/// Why a process is ended for a page that could not be loaded so often in a row.
fn cause_of_failures(count: u32) -> Option<KillCause>
    ensures { result ≡ cause_of_failures count }
{
    if count >= MOST_LOAD_FAULTS {
        Some(KillCause::LoadFailed)
    } else {
        None
    }
}

/// A hart between two slices.
#[derive(Clone, Copy)]
pub(crate) struct Seat {
    /// How many instructions its turn has left, or 0 where a turn is to begin.
    pub left: u32,
    pub lack: Option<Lack>,
    /// Whether it waits for a frame.
    pub hungry: bool,
}

impl Seat {
    /// The hart goes on with its turn, or begins one of so many instructions, or of one, for none.
    pub(crate) fn begin_turn(&mut self, slice: u32)
        ensures { self.new ≡ record self.old { left = turn_of slice self.old.left } }
    {
        if self.left == 0 {
            self.left = slice.max(1);
        }
    }

    /// Others have their turn first: the hart takes no frame meanwhile, so that none is to be offered for it, and tries for its page again then.
    pub(crate) fn let_others_pass(&mut self) {
        self.hungry = false;
        if let Some(lack) = self.lack {
            self.lack = Some(Lack {
                tried: None,
                ..lack
            });
        }
    }
}

/// A worker's look at its harts.
#[derive(Clone, Copy)]
pub(crate) struct Look {
    /// How often its bell had rung before.
    pub rings: u64,
    /// Whether a frame was offered to it before.
    pub is_offered: bool,
    /// Whether only harts are carried that wait for a frame, since it is its turn to make room. Else each one is, and tries for its page once.
    pub is_serving: bool,
}

impl Look {
    /// The same, for harts that wait for a frame.
    pub(crate) fn serving(self) -> Look {
        Look {
            is_serving: true,
            ..self
        }
    }
}

/// The harts of a process.
pub(crate) type Row = [Seat; MOST_HARTS];

pub(crate) const EMPTY: Seat = Seat {
    left: 0,
    lack: None,
    hungry: false,
};

/// A seat for each hart that a machine may have.
pub(crate) fn seats() -> [Row; MOST_PROCESSES] {
    [[EMPTY; MOST_HARTS]; MOST_PROCESSES]
}
