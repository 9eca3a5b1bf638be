//! Turns that are chosen, one after another.

ghost use Rattle.std.specs.Prelude.{◌≡◌, ◌<◌, true};
ghost use Rattle.flat_machine.specs.Process.{is_live};

use crate::priorities::Priorities;
use crate::random_turns::RandomTurns;
use crate::way::Way;
use flat_machine::FlatProcess;
use std::alloc::{AllocError, Global};

/// A hart's turn.
#[derive(Clone, Copy, Debug)]
pub(crate) struct ChosenTurn {
    pub(crate) hart: u32,
    /// The most instructions of it.
    pub(crate) most: u32,
    /// Whether it ends before a yield, and after the start of a hart.
    pub(crate) is_cut: bool,
}

/// What chooses turns.
#[derive(Debug, Drop)]
pub(crate) enum Chooser {
    Turns(RandomTurns),
    Priorities(Priorities),
}

impl Chooser {
    /// What is chosen depends only on the way, the seed and the process.
    pub(crate) fn new(alloc: Global, way: Way, seed: u64) -> Result<Self, AllocError> {
        match way {
            Way::Turns => Ok(Chooser::Turns(RandomTurns::new(seed))),
            Way::Priorities {
                depth,
                steps,
                patience,
            } => {
                let made = Priorities::new(alloc, depth, steps, patience, seed)?;
                Ok(Chooser::Priorities(made))
            }
        }
    }

    /// The next turn of a process, of which so many steps are done.
    pub(crate) fn choose(&mut self, process: &mut FlatProcess, done: u64) -> ChosenTurn
        ensures same { process.new ≡ process.old }
        ensures live { is_live result.hart process.old ≡ true }
        ensures some { 0 < result.most }
    {
        match self {
            Chooser::Turns(turns) => turns.choose(process),
            Chooser::Priorities(priorities) => priorities.choose(process, done),
        }
    }

    /// Takes it that a hart waits, where so many steps are done.
    pub(crate) fn put_back(&mut self, hart: u32, done: u64) {
        match self {
            Chooser::Turns(_) => {}
            Chooser::Priorities(priorities) => priorities.put_back(hart, done),
        }
    }
}
