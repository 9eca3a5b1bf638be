//! How many harts a program starts, and how long its runs are.

ghost use Rattle.std.specs.Prelude.{◌≡◌, ◌≤◌, ◌⊎◌, IfOk, IfSome, IsSome, true, false};
ghost use Rattle.flat_machine.specs.Process.{opening};
ghost use Rattle.guest_records.specs.GoingOn.{EndsAfter};

use crate::chosen_run::run_chosen;
use crate::chosen_turn::Chooser;
use crate::live_harts::{HARTS, count_started};
use crate::way::Way;
use elf_image::Image;
use flat_machine::{FlatProcess, Schedule, StepRefusal};
use std::alloc::{AllocError, Global};
use std::collections::BTreeSet;

/// How many runs by chosen turns are tried where a run by turns of one instruction does not end.
const TRIED: u64 = 16;

/// How many times as long as a run a hart may go on, and by which part of all steps that are allowed.
const TIMES: u64 = 8;

/// What the runs of a program are like.
#[derive(Clone, Copy, Debug, PartialEq, Eq)]
pub struct RunSize {
    /// How many harts were started.
    pub harts: u32,
    pub steps: u64,
    /// Whether a run ended by itself with so many steps. Otherwise none was found that ends, and nothing new came after them.
    pub has_ended: bool,
}

impl RunSize {
    /// After how many steps in a row a hart is taken to wait, where so many steps are allowed: well more than a run has.
    pub fn patience(&self, limit: u64) -> u64
        ensures { self.now.steps ≤ result }
    {
        let most = (limit / TIMES).max(self.steps);
        self.steps.saturating_mul(TIMES).clamp(self.steps, most)
    }
}

/// The harts and the steps of a run that ends: the one by turns of one instruction, or the shortest of some by chosen turns. Where none ends within
/// so many steps, as many steps as it takes until nothing new comes.
pub fn measure_runs(
    alloc: Global,
    image: &Image,
    input: &[u8],
    limit: u64,
) -> Result<RunSize, AllocError>
    ensures within { IfOk result (λ size. size.steps ≤ limit) }
    ensures ended { IfOk result (λ size. size.has_ended ≡ true → EndsAfter size.steps (opening
        image.now input.now)) }
{
    let usual = measure_usual(alloc, image, input, limit)?;
    if usual.has_ended {
        return Ok(usual);
    }
    match measure_tried(alloc, image, input, limit)? {
        Some(size) => Ok(size),
        None => measure_new(alloc, image, input, limit),
    }
}

/// A run by turns of one instruction.
#[tactic(auto, using(crate::proofs::Going::ends_by_turns))]
fn measure_usual(
    alloc: Global,
    image: &Image,
    input: &[u8],
    limit: u64,
) -> Result<RunSize, AllocError>
    ensures within { IfOk result (λ size. size.steps ≤ limit) }
    ensures ended { IfOk result (λ size. size.has_ended ≡ true → EndsAfter size.steps (opening
        image.now input.now)) }
{
    let input = Vec::from_slice(alloc, input)?;
    let mut process = FlatProcess::new(alloc, image, input)?;
    match process.run_for(limit) {
        Ok(steps) => Ok(size_after(&process, steps)),
        Err(_) => Err(AllocError),
    }
}

/// What a run of so many steps has shown.
fn size_after(process: &FlatProcess, steps: u64) -> RunSize
    ensures steps { result.steps ≡ steps }
    ensures ended { result.has_ended ≡ true → IsSome process.now.ending }
{
    RunSize {
        harts: count_started(process),
        steps,
        has_ended: process.end().is_some(),
    }
}

/// The shortest of some runs by chosen turns that end.
fn measure_tried(
    alloc: Global,
    image: &Image,
    input: &[u8],
    limit: u64,
) -> Result<Option<RunSize>, AllocError>
    ensures within { IfOk result (λ found. IfSome found (λ size. size.steps ≤ limit)) }
    ensures ended { IfOk result (λ found. IfSome found (λ size. EndsAfter size.steps (opening
        image.now input.now))) }
{
    let mut shortest: Option<RunSize> = None;
    'seeds: for seed in 0..TRIED {
        let size = measure_seed(alloc, image, input, seed, limit)?;
        shortest = shorter(shortest, size);
    }
    Ok(shortest)
}

/// The shorter one of two runs, where there are both.
fn shorter(one: Option<RunSize>, other: Option<RunSize>) -> Option<RunSize>
    ensures { (result ≡ one) ⊎ (result ≡ other) }
{
    match (one, other) {
        (Some(a), Some(b)) => if a.steps <= b.steps { one } else { other },
        (Some(_), None) => one,
        _ => other,
    }
}

/// A run by turns that a seed chooses, where it ends.
#[tactic(auto, using(crate::proofs::Going::ends_by_run))]
fn measure_seed(
    alloc: Global,
    image: &Image,
    input: &[u8],
    seed: u64,
    limit: u64,
) -> Result<Option<RunSize>, AllocError>
    ensures within { IfOk result (λ found. IfSome found (λ size. size.steps ≤ limit)) }
    ensures ended { IfOk result (λ found. IfSome found (λ size. EndsAfter size.steps (opening
        image.now input.now))) }
{
    let input = Vec::from_slice(alloc, input)?;
    let mut process = FlatProcess::new(alloc, image, input)?;
    let mut schedule = Schedule::new(alloc)?;
    let mut turns = Chooser::new(alloc, Way::Turns, seed)?;
    let ran = run_chosen(&mut process, &mut schedule, &mut turns, limit)?;
    if process.end().is_none() {
        return Ok(None);
    }
    Ok(Some(RunSize {
        harts: count_started(&process),
        steps: ran.steps,
        has_ended: true,
    }))
}

/// A run by turns of one instruction, up to the last step that was new: of an instruction that its hart had not run before.
fn measure_new(
    alloc: Global,
    image: &Image,
    input: &[u8],
    limit: u64,
) -> Result<RunSize, AllocError>
    ensures within { IfOk result (λ size. size.steps ≤ limit) }
    ensures none { IfOk result (λ size. size.has_ended ≡ false) }
{
    let input = Vec::from_slice(alloc, input)?;
    let mut process = FlatProcess::new(alloc, image, input)?;
    let steps = count_to_last_new(alloc, &mut process, limit)?;
    Ok(RunSize {
        harts: count_started(&process),
        steps,
        has_ended: false,
    })
}

/// Runs a process by turns of one instruction, so many at most. Returns after how many steps the last new one was done.
fn count_to_last_new(
    alloc: Global,
    process: &mut FlatProcess,
    limit: u64,
) -> Result<u64, AllocError>
    ensures { IfOk result (λ steps. steps ≤ limit) }
{
    let mut seen = BTreeSet::new(alloc);
    let mut last = 0u64;
    let mut turn = HARTS - 1;
    'steps: for done in 0..limit {
        turn = process.turn_after(turn);
        if is_new(&mut seen, process, turn)? {
            last = done + 1;
        }
        match process.step(turn) {
            Ok(()) => {}
            Err(StepRefusal::NoMemory) => return Err(AllocError),
            Err(StepRefusal::Ended | StepRefusal::NoHart) => return Ok(last),
        }
    }
    Ok(last)
}

/// Whether a hart's next instruction is one that was not seen of it before. It is then.
fn is_new(seen: &mut BTreeSet<u64>, process: &FlatProcess, hart: u32) -> Result<bool, AllocError> {
    let Some(regs) = process.regs(hart) else {
        return Ok(false);
    };
    let place = u64::from(hart) * 4_294_967_296 + u64::from(regs.pc());
    match seen.insert(place) {
        Ok(is_new) => Ok(is_new),
        Err(_) => Err(AllocError),
    }
}
