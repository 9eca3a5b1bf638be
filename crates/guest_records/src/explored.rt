//! A run by a schedule that is chosen at random, reported as a record.

ghost use Rattle.std.specs.Prelude.{◌≡◌, None, Some, IfOk, IfSome};
ghost use Rattle.flat_machine.specs.Process.{Process, opening};
ghost use Rattle.flat_machine.specs.Schedule.{IsJoined};
ghost use Rattle.flat_machine.specs.declared.end.End.TheVariants.{Killed};
ghost use Rattle.run_records.specs.Fitting.{IsRecord};
ghost use Rattle.run_records.specs.Prints.{print_of};
ghost use Rattle.run_records.specs.Records.{value_of};
ghost use Rattle.run_records.specs.Replaying.{EndsLike, Replays};
ghost use Rattle.guest_records.specs.GoingOn.{EndsWithin};

use crate::chosen_run::{Ran, run_chosen};
use crate::chosen_turn::Chooser;
use crate::way::Way;
use elf_image::Image;
use flat_machine::{End, FlatProcess, Schedule};
use run_records::{Closing, Fingerprint, Record, know_fitting, take_fingerprint};
use std::alloc::{AllocError, Global};

/// Runs an image on an input, up to so many steps, and returns the run as a record. A seed chooses the turns in the given way.
/// The record names the image's file by its fingerprint, and replays. A run that lacks memory for a step has no record.
pub fn explore_run(
    alloc: Global,
    image: &Image,
    file: Fingerprint,
    input: Vec<u8>,
    seed: u64,
    way: Way,
    limit: u64,
) -> Result<Record, AllocError>
    ensures image { IfOk result (λ told. told.image ≡ file) }
    ensures input { IfOk result (λ told. told.input ≡ print_of input.items) }
    ensures replays { IfOk result (λ told. (after : Process) × (Replays (value_of told) (opening
        image.now input.items) after × EndsWithin limit (value_of told) after)) }
    ensures joined { IfOk result (λ told. IsJoined told.turns.items) }
    ensures fits { IfOk result (λ told. IsRecord (value_of told)) }
{
    let input_print = take_fingerprint(input.as_slice());
    let mut process = FlatProcess::new(alloc, image, input)?;
    let mut schedule = Schedule::new(alloc)?;
    let mut turns = Chooser::new(alloc, way, seed)?;
    let ran = run_chosen(&mut process, &mut schedule, &mut turns, limit)?;
    let kept = Vec::from_slice(alloc, schedule.turns())?;
    let told = Record {
        image: file,
        input: input_print,
        turns: kept,
        closing: closing(&process, ran),
    };
    know_fitting(&told);
    Ok(told)
}

/// What a process came to.
fn closing(process: &FlatProcess, ran: Ran) -> Closing
    ensures ended { EndsLike result.end process.now.ending }
    ensures own { IfSome process.now.ending (λ own. result.end ≡ own) }
    ensures killed { process.now.ending ≡ None → result.end ≡ Killed ran.cause }
    ensures steps { result.steps ≡ ran.steps }
    ensures output { result.output ≡ print_of process.now.environment.output }
{
    Closing {
        end: end_of(process.end(), ran),
        steps: ran.steps,
        output: take_fingerprint(process.output()),
    }
}

/// How a process ended: by its own ending, or as the machine stopped it.
fn end_of(own: Option<End>, ran: Ran) -> End
    ensures ended { EndsLike result own }
    ensures own { IfSome own (λ own. result ≡ own) }
    ensures killed { own ≡ None → result ≡ Killed ran.cause }
{
    match own {
        Some(end) => end,
        None => End::Killed(ran.cause),
    }
}
