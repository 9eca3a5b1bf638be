//! One step.

ghost use Rattle.std.specs.Prelude.{◌≡◌, IfOk, IfErr, OnErr};
ghost use Rattle.flat_machine.specs.Refusals.{RefusesStep};
ghost use Rattle.guest_steps.specs.Telling.{IsHart, TellsStep};

use crate::told_step::ToldStep;
use flat_machine::{FlatProcess, StepRefusal};
use rv_exec::Regs;

/// Runs one instruction of a hart, and reports it. A trap is a step too; a refusal changes nothing.
pub(crate) fn step(process: &mut FlatProcess, hart: u32) -> Result<ToldStep, StepRefusal>
    ensures told { IfOk result (λ step. TellsStep step hart process.old process.new) }
    ensures refused { IfErr result (λ refusal. RefusesStep refusal hart process.old) }
    ensures same { OnErr result (process.new ≡ process.old) }
{
    let before = registers(process, hart);
    let word = process.fetch(before.pc());
    process.step(hart)?;
    let after = registers(process, hart);
    Ok(ToldStep {
        hart,
        before,
        word,
        after,
    })
}

/// A hart's registers; those of a hart that was never started are 0.
fn registers(process: &FlatProcess, hart: u32) -> Regs
    ensures { IsHart result hart process.now }
{
    match process.regs(hart) {
        Some(regs) => *regs,
        None => Regs::new(0),
    }
}
