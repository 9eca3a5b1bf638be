//! `guest trace`: a program's steps, a line each.

ghost use Rattle.std.specs.Prelude.{◌≡◌, IfOk, OnOk};
ghost use Rattle.guest_cli.specs.TracedRuns.{AnswersTrace, Traces, is_asked, is_of_hart};

use crate::begun_steps::begin_steps;
use crate::functions::{depth_of, flow_of_step, is_of_function, write_flow};
use crate::request::TraceRequest;
use crate::step_line::write_step;
use elf_symbols::Symbols;
use guest_profile::Depths;
use guest_steps::{StepString, ToldStep};
use image_files::{Fault, Folder};
use std::io::{Read, Write};

/// Writes the steps of an image on an input, on flat memory.
pub(crate) fn run_trace<'a, R: Folder + AllocGlobal, I: Read + Drop, O: Write>(
    rt: &R,
    request: TraceRequest<'a>,
    input: I,
    out: &mut O,
) -> Result<u8, Fault<'a>>
    ensures traced { OnOk result (AnswersTrace R.gives request.entry (I.remaining input)) }
    ensures status { IfOk result (λ status. status ≡ 0) }
{
    let (mut steps, file) = begin_steps(rt, request.image, input, u64::MAX)?;
    let symbols = Symbols::read(rt.alloc(), file.as_slice())?;
    let depths = Depths::new(rt.alloc())?;
    write_steps(&mut steps, request, depths, &symbols, out)?;
    Ok(0)
}

/// Writes a line for each step that is asked for, up to the last line that is wanted.
fn write_steps<'a, O: Write>(
    steps: &mut StepString,
    request: TraceRequest<'a>,
    mut depths: Depths,
    symbols: &Symbols<'_>,
    out: &mut O,
) -> Result<(), Fault<'a>>
    ensures { OnOk result (Traces request.entry steps.old steps.new) }
{
    let mut lines = 0u64;
    'steps: while lines < request.count {
        let Some(told) = steps.next()? else {
            return Ok(());
        };
        if write_one(steps, &told, request, &mut depths, symbols, out)? {
            lines += 1;
        }
    }
    Ok(())
}

/// Writes a step, if it is one that is asked for, and returns whether it is.
fn write_one<'a, O: Write>(
    steps: &StepString,
    told: &ToldStep,
    request: TraceRequest<'a>,
    depths: &mut Depths,
    symbols: &Symbols<'_>,
    out: &mut O,
) -> Result<bool, Fault<'a>>
    ensures { IfOk result (λ is. is ≡ is_asked request.entry steps.now.done told.now) }
{
    let number = steps.done();
    let is_asked = is_asked(request, number, told);
    if !request.is_of_functions {
        if is_asked {
            write_step(number, told, steps.process(), out)?;
        }
        return Ok(is_asked);
    }
    let flow = flow_of_step(told);
    let depth = depth_of(depths, told, flow)?;
    if is_asked {
        write_flow(number, told, flow, depth, symbols, out)?;
    }
    Ok(is_asked)
}

/// Whether the step of this number is asked for.
fn is_asked(request: TraceRequest<'_>, number: u64, told: &ToldStep) -> bool
    ensures { result ≡ is_asked request.entry number told.now }
{
    if number < request.from || !is_of_hart(request.hart, told.hart) {
        return false;
    }
    !request.is_of_functions || is_of_function(flow_of_step(told))
}

/// Whether a hart is the one that is named, where one is.
fn is_of_hart(named: Option<u32>, hart: u32) -> bool
    ensures { result ≡ is_of_hart named hart }
{
    match named {
        Some(number) => number == hart,
        None => true,
    }
}
