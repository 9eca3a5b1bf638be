//! Steps, each with the pages that it uses.

ghost use Rattle.std.specs.Prelude.{◌≡◌, ◌<◌, ◌≤◌, length, map, IfOk, OnOk, OnErr, Some, None};
ghost use Rattle.flat_machine.specs.Refusals.{WantsMemory};
ghost use Rattle.guest_strings.specs.References.{after_step, kept, moved, references_at};
ghost use Rattle.guest_strings.specs.References.{references_of, referred};
ghost use Rattle.guest_strings.specs.Slices.{yields, yields_at};
ghost use Rattle.guest_strings.specs.ToCome.{told};
ghost use Rattle.guest_strings.specs.Told.{pages_told, stored_page, stores_told};
ghost use Rattle.guest_strings.specs.Wanting.{WantsAtPlace};

use crate::access_kinds::AccessKinds;
use crate::reference::Reference;
use crate::step_pages::{PageUse, StepPages, step_pages_of};
use crate::step_use::StepUse;
use clock_policy::Key;
use flat_machine::{FlatProcess, StepRefusal};
use machine_limits::{MOST_HARTS, MOST_PROCESSES};
use std::alloc::AllocError;

/// Nothing.
const NO_USE: StepUse = StepUse {
    fetched: None,
    data: None,
    yields: false,
};

/// Runs the next instruction of a place's hart, where it may step, and returns what is kept of its references. Where there is not
/// enough memory, nothing has changed.
#[tactic(auto, using(crate::proofs::Keeping::kept_none))]
pub(crate) fn step_at(
    processes: &mut [FlatProcess],
    accesses: AccessKinds,
    place: usize,
) -> Result<StepUse, AllocError>
    requires few { length processes.old ≤ MOST_PROCESSES }
    ensures used { IfOk result (λ step. told step ≡ kept accesses
        (references_at place processes.old)) }
    ensures yields { IfOk result (λ step. step.yields ≡ yields_at place processes.old) }
    ensures moved { OnOk result (processes.new ≡ moved place processes.old) }
    ensures wants { OnErr result (WantsAtPlace place processes.old) }
    ensures err { OnErr result (processes.new ≡ processes.old) }
{
    let number = place / MOST_HARTS;
    if number >= processes.len() {
        return Ok(NO_USE);
    }
    step_of(
        &mut processes[number],
        accesses,
        number as u32,
        (place % MOST_HARTS) as u32,
    )
}

/// Runs the next instruction of a hart of a process by its number, where it may step.
#[tactic(auto, using(crate::proofs::Keeping::kept_none))]
fn step_of(
    process: &mut FlatProcess,
    accesses: AccessKinds,
    number: u32,
    hart: u32,
) -> Result<StepUse, AllocError>
    ensures used { IfOk result (λ step. told step ≡
        kept accesses (references_of number hart process.old)) }
    ensures yields { IfOk result (λ step. step.yields ≡ yields hart process.old) }
    ensures moved { OnOk result (process.new ≡ after_step hart process.old) }
    ensures wants { OnErr result (WantsMemory hart process.old) }
    ensures err { OnErr result (process.new ≡ process.old) }
{
    let Some(pages) = step_pages_of(process, hart) else {
        return Ok(NO_USE);
    };
    step(process, hart)?;
    Ok(use_of(number, pages).kept(accesses))
}

/// Runs the next instruction of a hart, where it may step.
fn step(process: &mut FlatProcess, hart: u32) -> Result<(), AllocError>
    ensures moved { OnOk result (process.new ≡ after_step hart process.old) }
    ensures wants { OnErr result (WantsMemory hart process.old) }
    ensures err { OnErr result (process.new ≡ process.old) }
{
    match process.step(hart) {
        Ok(()) => Ok(()),
        Err(StepRefusal::NoMemory) => Err(AllocError),
        Err(StepRefusal::Ended) => Ok(()),
        Err(StepRefusal::NoHart) => Ok(()),
    }
}

/// The references of a step in a process, by the pages that it uses.
fn use_of(number: u32, pages: StepPages) -> StepUse
    requires behind { pages.fetched ≡ None → pages.data ≡ None }
    ensures used { told result ≡ map (referred number (stores_told pages)) (pages_told pages) }
    ensures yields { result.yields ≡ pages.yields }
    ensures behind { result.fetched ≡ None → result.data ≡ None }
{
    let data = match pages.data {
        Some(data) => Some(reference(number, data.page, pages.data)),
        None => None,
    };
    let fetched = match pages.fetched {
        Some(page) => Some(reference(number, page, pages.data)),
        None => None,
    };
    StepUse {
        fetched,
        data,
        yields: pages.yields,
    }
}

/// A page of a process, in a step with these data.
fn reference(number: u32, page: u32, used: Option<PageUse>) -> Reference
    ensures { result ≡ referred number (stored_page used) page }
{
    let is_written = match used {
        Some(used) => used.is_written && used.page == page,
        None => false,
    };
    Reference {
        page: Key {
            process: number,
            vpn: page,
        },
        is_written,
    }
}
