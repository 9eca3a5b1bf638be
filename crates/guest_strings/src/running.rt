//! How processes run by slices, instruction by instruction.

ghost use Rattle.std.specs.Prelude.{◌≡◌, ◌<◌, ◌≤◌, ◌++◌, [], IfOk, IfSome, OnErr, None, length};
ghost use Rattle.guest_strings.specs.References.{used};
ghost use Rattle.guest_strings.specs.Slices.{by_slices, first_turn};
ghost use Rattle.guest_strings.specs.ToCome.{told_by, uses_to_come};
ghost use Rattle.guest_strings.specs.Wanting.{RoundWants};

use crate::access_kinds::AccessKinds;
use crate::round::Round;
use crate::step_use::StepUse;
use crate::stepping::step_at;
use crate::turns::{first_turn, turn_after};
use flat_machine::FlatProcess;
use machine_limits::MOST_PROCESSES;
use std::alloc::AllocError;

impl Round {
    pub(crate) fn new(
        processes: Vec<FlatProcess>,
        accesses: AccessKinds,
        slice: u32,
        limit: u64,
    ) -> Self
        requires { length processes.items ≤ MOST_PROCESSES }
        ensures { uses_to_come result ≡ used accesses (by_slices slice limit
            (first_turn slice processes.items) processes.items) processes.items }
    {
        let turn = first_turn(processes.as_slice(), slice);
        Round {
            processes,
            turn,
            accesses,
            slice,
            left: limit,
        }
    }

    /// Runs the next instruction, and returns what is kept of its references. There is none once no hart may step, or the limit is reached.
    pub(crate) fn step(&mut self) -> Result<Option<StepUse>, AllocError>
        ensures told { IfOk result (λ step. uses_to_come self.old ≡ told_by step ++
            uses_to_come self.new) }
        ensures done { IfOk result (λ step. step ≡ None → uses_to_come self.new ≡ []) }
        ensures fewer { IfOk result (λ step. IfSome step (λ _. self.new.left < self.old.left)) }
        ensures wants { OnErr result (RoundWants self.new) }
        ensures err { OnErr result (self.new ≡ self.old) }
    {
        let Some(turn) = self.turn else {
            return Ok(None);
        };
        if self.left == 0 {
            return Ok(None);
        }
        let step = step_at(self.processes.as_mut_slice(), self.accesses, turn.place)?;
        self.left -= 1;
        self.turn = turn_after(self.processes.as_slice(), self.slice, step.yields, turn);
        Ok(Some(step))
    }
}
