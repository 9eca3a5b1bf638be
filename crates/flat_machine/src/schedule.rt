//! Which hart ran each instruction, in order, as at most a million turns with counts.

ghost use Rattle.std.specs.Prelude.{◌≡◌, ◌<◌, ◌≤◌, ◌+◌, ◌*◌, ◌^◌, ◌-◌, [], ◌++◌, ◌∷◌, length};
ghost use Rattle.std.specs.Prelude.{replicate, is_ok, IfOk, OnOk, OnErr};
ghost use Rattle.flat_machine.specs.Schedule.{written_out, rest_in_last, room, fits, most_turns};
ghost use Rattle.flat_machine.specs.Schedule.{IsJoined};

use std::alloc::{AllocError, Global};
use std::marker::Model;
use thiserror::Error;

/// How many entries a schedule may have.
pub const MOST_TURNS: usize = 1_000_000;

/// A hart's turn: so many instructions in a row.
#[derive(Clone, Copy, PartialEq, Eq, Debug)]
pub struct Turn {
    pub hart: u32,
    pub count: u32,
}

/// The schedule has a million entries, and the instruction does not go on with the last of them.
#[derive(Clone, Copy, PartialEq, Eq, Debug, Error)]
#[error("the schedule has 1000000 entries")]
pub struct ScheduleFull;

/// The harts of completed instructions, in order: neighbours of one hart are one turn, until its count
/// is 4294967295.
///
/// The room for all its entries is taken at once, so that recording never wants memory.
#[derive(Debug, Drop)]
pub struct Schedule {
    turns: Vec<Turn>,
}

impl Model for Schedule {
    ghost use Rattle.std.specs.Prelude.{◌≤◌, List, vec_capacity};
    ghost use Rattle.flat_machine.specs.declared.schedule.Turn.{Turn};
    ghost use Rattle.flat_machine.specs.Schedule.{most_turns, IsJoined};

    ghost Value = { List Turn };

    ghost view = { λ schedule. schedule.turns.items };

    ghost invariant = { λ schedule. record {
      joined : IsJoined schedule.turns.items;
      roomy : most_turns ≤ vec_capacity schedule.turns;
    } };
}

impl Schedule {
    /// A schedule of no instruction.
    pub fn new(alloc: Global) -> Result<Self, AllocError>
        ensures { IfOk result (λ schedule. schedule ≡ []) }
    {
        Ok(Schedule {
            turns: Vec::with_capacity(alloc, MOST_TURNS)?,
        })
    }

    /// How many more instructions of a hart in a row fit.
    #[tactic(auto, unfolding(crate::specs::Schedule::room))]
    pub fn room(&self, hart: u32) -> u64
        ensures room { result ≡ room self.now hart }
    {
        let turns = self.turns();
        let left = (MOST_TURNS - turns.len()) as u64;
        u64::from(rest_in_last(turns, hart)) + u64::from(u32::MAX) * left
    }

    /// Whether one more instruction of a hart fits.
    pub fn fits(&self, hart: u32) -> bool
        ensures { result ≡ fits self.now hart }
    {
        self.room(hart) > 0
    }

    /// Adds so many instructions of a hart.
    #[tactic(auto, unfolding(crate::specs::Schedule::room))]
    pub fn record(&mut self, hart: u32, count: u32)
        requires fit { count ≤ room self.old hart }
        ensures recorded { written_out self.new ≡ written_out self.old ++ replicate count hart }
        ensures left { room self.new hart + count ≡ room self.old hart }
    {
        // For the proof only: a read shows its invariant.
        let _ = &self.turns;
        let rest = rest_in_last(self.turns(), hart);
        let more = count.min(rest);
        if more > 0 {
            self.lengthen(hart, more);
        }
        if count > more {
            self.begin(hart, count - more);
        }
    }

    /// Adds one instruction of a hart, where it fits.
    #[tactic(auto, unfolding(crate::specs::Schedule::room))]
    pub fn push(&mut self, hart: u32) -> Result<(), ScheduleFull>
        ensures exact { is_ok result ≡ fits self.old hart }
        ensures ok { OnOk result (written_out self.new ≡ written_out self.old ++ hart ∷ []) }
        ensures full { OnErr result ((length self.old ≡ most_turns) ×
            (rest_in_last self.old hart ≡ 0)) }
        ensures err { OnErr result (self.new ≡ self.old) }
    {
        // For the proof only: a read shows its invariant.
        let _ = &self.turns;
        if self.fits(hart) {
            self.record(hart, 1);
            Ok(())
        } else {
            Err(ScheduleFull)
        }
    }

    /// The turns, first to last.
    pub fn turns(&self) -> &[Turn]
        ensures turns { result.now ≡ self.now }
        ensures joined { IsJoined self.now }
    {
        self.turns.as_slice()
    }

    /// The turns, first to last, to be kept.
    pub fn into_turns(self) -> Vec<Turn>
        ensures turns { result.items ≡ self }
        ensures joined { IsJoined self }
    {
        self.turns
    }

    /// Makes the last turn, which is the hart's, so much longer.
    fn lengthen(&mut self, hart: u32, count: u32)
        requires fit { count ≤ rest_in_last self.old hart }
        requires some { 0 < count }
        ensures recorded { written_out self.new ≡ written_out self.old ++ replicate count hart }
        ensures rest { rest_in_last self.new hart + count ≡ rest_in_last self.old hart }
        ensures entries { length self.new ≡ length self.old }
    {
        let last = self.turns.len() - 1;
        self.turns[last].count += count;
    }

    /// Begins a turn after the last one, which takes no more of the hart.
    fn begin(&mut self, hart: u32, count: u32)
        requires some { 0 < count }
        requires none { rest_in_last self.old hart ≡ 0 }
        requires few { length self.old < most_turns }
        ensures recorded { written_out self.new ≡ written_out self.old ++ replicate count hart }
        ensures rest { rest_in_last self.new hart + count ≡ 2 ^ 32 - 1 }
        ensures entries { length self.new ≡ length self.old + 1 }
    {
        self.turns.push_reserved(Turn { hart, count });
    }
}

/// How many instructions of a hart the last turn still takes.
fn rest_in_last(turns: &[Turn], hart: u32) -> u32
    ensures { result ≡ rest_in_last turns.now hart }
{
    match turns.last() {
        Some(last) => {
            if last.hart == hart {
                u32::MAX - last.count
            } else {
                0
            }
        }
        None => 0,
    }
}
