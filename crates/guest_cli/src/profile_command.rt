//! `guest profile`: where a program spends its steps.

ghost use Rattle.std.specs.Prelude.{◌≡◌, ◌⊎◌, IfOk, IsSome};
ghost use Rattle.guest_cli.specs.CountedRuns.{AnswersProfile, CountsAll, CountsBegun, StopsSo};

use crate::begun_steps::begin_steps;
use crate::callgrind::write_callgrind;
use crate::function_names::FunctionNames;
use crate::profile_tables::Tables;
use crate::profile_text::write_profile;
use crate::request::ProfileRequest;
use elf_symbols::Symbols;
use flat_machine::{End, KillCause};
use guest_io::{status_of, tell_end};
use guest_profile::Profile;
use guest_steps::StepString;
use image_files::{Fault, Folder};
use std::alloc::Global;
use std::io::{Read, Write};

/// What was counted, and how the program ended.
#[derive(Drop)]
struct Counted {
    profile: Profile,
    end: End,
    steps: u64,
}

/// Counts the steps of an image on an input, on flat memory, writes where they are, and answers the exit status, as `guest run` does.
pub(crate) fn run_profile<'a, R, I, O, E>(
    rt: &R,
    request: ProfileRequest<'a>,
    input: I,
    out: &mut O,
    err: &mut E,
) -> Result<u8, Fault<'a>>
where
    R: Folder + AllocGlobal,
    I: Read + Drop,
    O: Write,
    E: Write,
    ensures { IfOk result (AnswersProfile R.gives request.entry.image.now request.entry.limit
        (I.remaining input)) }
{
    let (steps, file) = begin_steps(rt, request.image, input, request.limit)?;
    let counted = count(rt.alloc(), steps)?;
    write_counts(rt.alloc(), &counted.profile, file.as_slice(), &request, out)?;
    out.flush()?;
    tell_end(counted.end, counted.steps, err);
    Ok(status_of(counted.end))
}

/// Counts all steps of an image.
fn count<'a>(alloc: Global, mut steps: StepString) -> Result<Counted, Fault<'a>>
    ensures { IfOk result (λ counted. CountsBegun steps counted.profile counted.end
        counted.steps) }
{
    let mut profile = Profile::new(alloc)?;
    let end = count_steps(&mut steps, &mut profile)?;
    profile.end()?;
    Ok(Counted {
        profile,
        end,
        steps: steps.done(),
    })
}

/// Writes what was counted, by the symbols of the image's file.
fn write_counts<'a, O: Write>(
    alloc: Global,
    profile: &Profile,
    file: &[u8],
    request: &ProfileRequest<'a>,
    out: &mut O,
) -> Result<(), Fault<'a>> {
    let symbols = Symbols::read(alloc, file)?;
    let mut names = FunctionNames::of(alloc, profile, symbols)?;
    let tables = Tables::of(alloc, profile, &names)?;
    names.tell_apart(tables.function_starts(alloc)?.as_slice())?;
    write_tables(profile, &tables, &names, request, out)
}

fn write_tables<'a, O: Write>(
    profile: &Profile,
    tables: &Tables,
    names: &FunctionNames<'_>,
    request: &ProfileRequest<'a>,
    out: &mut O,
) -> Result<(), Fault<'a>> {
    if request.is_callgrind {
        write_callgrind(request.image, tables, names, out)?;
    } else {
        write_profile(profile, tables, names, request.rows as usize, out)?;
    }
    Ok(())
}

/// Counts all steps that are to come, and returns how the program ended.
fn count_steps<'a>(steps: &mut StepString, profile: &mut Profile) -> Result<End, Fault<'a>>
    ensures { IfOk result (CountsAll steps.old steps.new profile.old
        profile.new) }
{
    'steps: loop {
        let Ok(next) = steps.next() else {
            return Ok(End::Killed(KillCause::NoMemory));
        };
        let Some(told) = next else {
            return Ok(end_of(steps));
        };
        profile.count(&told)?;
    }
}

/// How a program ended that goes on no more: one that has not ended was stopped at the limit.
fn end_of(steps: &StepString) -> End
    requires over { (steps.now.done ≡ steps.now.limit) ⊎ IsSome steps.now.process.ending }
    ensures { StopsSo steps.now result }
{
    match steps.process().end() {
        Some(end) => end,
        None => End::Killed(KillCause::Limit),
    }
}
