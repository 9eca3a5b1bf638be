//! `guest debug`: a debugger that answers the lines of standard input, as `paged debug` does, of a program that has an input.

ghost use Rattle.std.specs.Prelude.{◌≡◌, ◌≤◌, Ok, IfErr, IfOk, is_ok, option_map};
ghost use Rattle.guest_history.specs.Histories.{Stands};
ghost use Rattle.run_records.specs.Records.{value_of};
ghost use Rattle.guest_cli.specs.Debugged.{AnswersDebug, DebugsFlat, DebugsOnFrames, IsFaultOf, IsWrongOf, IsWrongRun};
ghost use Rattle.guest_cli.specs.Debugged.{BeginsAsTold, BeginsByRecord, BeginsByTurns, BeginsDebug};
ghost use Rattle.guest_cli.specs.Debugged.{RefusesByRecord, RefusesByTurns, RefusesDebug, RefusesFlat, RefusesHistory};
ghost use Rattle.guest_cli.specs.Debugged.{RefusesOnFrames, RefusesProgramOf};

use crate::frame_machine::FrameMachine;
use crate::replayed_program::{check_record, read_recorded_input};
use crate::request::DebugRequest;
use crate::wrong::Wrong;
use debug_session::SessionFault;
use guest_history::{History, HistoryFault, converse_back};
use image_files::{Fault, Folder, read_image, read_input};
use record_commands::{read_recorded_image, read_told};
use run_paths::{Program, RunFault};
use run_records::Record;
use std::alloc::Global;
use std::io::{Read, Write};

/// Answers lines with a debugger of an image on an input: on flat memory, where it also goes back, or on so many frames.
pub(crate) fn run_debug<'a, R, M, I, O>(
    rt: &R,
    machine: &M,
    request: DebugRequest<'a>,
    lines: I,
    out: &mut O,
) -> Result<u8, Wrong<'a>>
where
    R: Folder + AllocGlobal,
    M: FrameMachine,
    I: Read + Drop,
    O: Write,
    ensures answered { IfOk result (AnswersDebug R.gives M.debugs request.entry.frames
        (option_map (λ s. s.now) request.entry.record) request.entry.image.now
        (option_map (λ s. s.now) request.entry.input) (I.remaining lines) (O.contents out.old)
        (O.contents out.new)) }
    ensures refused { IfErr result (RefusesDebug R.gives R.withholds M.debugs request.entry.frames
        (option_map (λ s. s.now) request.entry.record) request.entry.image.now
        (option_map (λ s. s.now) request.entry.input) (I.remaining lines) (O.contents out.old)
        (O.contents out.new)) }
{
    match request.frames {
        Some(frames) => debug_on_frames(rt, machine, frames, request, lines, out),
        None => debug_flat(rt, request, lines, out),
    }
}

/// Answers them with a debugger on so many frames.
fn debug_on_frames<'a, R: Folder + AllocGlobal, M: FrameMachine, I: Read + Drop, O: Write>(
    rt: &R,
    machine: &M,
    frames: u32,
    request: DebugRequest<'a>,
    lines: I,
    out: &mut O,
) -> Result<u8, Wrong<'a>>
    requires least { 4 ≤ frames }
    requires most { frames ≤ 4096 }
    ensures answered { IfOk result (λ status. DebugsOnFrames R.gives M.debugs frames
        request.entry.image.now (option_map (λ s. s.now) request.entry.input) (I.remaining lines)
        (O.contents out.old) (O.contents out.new) (Ok tt) × (status ≡ 0)) }
    ensures refused { IfErr result (RefusesOnFrames R.gives R.withholds M.debugs frames
        request.entry.image.now (option_map (λ s. s.now) request.entry.input) (I.remaining lines)
        (O.contents out.old) (O.contents out.new)) }
{
    let image = read_image(rt, request.image)?;
    let input = read_input(rt, request.input)?;
    match machine.debug(rt.alloc(), frames, image, input, lines, out) {
        Ok(()) => Ok(0),
        Err(fault) => Err(Wrong::Fault(fault_of(fault))),
    }
}

/// Answers them with a debugger on flat memory.
fn debug_flat<'a, R: Folder + AllocGlobal, I: Read + Drop, O: Write>(
    rt: &R,
    request: DebugRequest<'a>,
    lines: I,
    out: &mut O,
) -> Result<u8, Wrong<'a>>
    ensures answered { IfOk result (λ status. DebugsFlat R.gives
        (option_map (λ s. s.now) request.entry.record) request.entry.image.now
        (option_map (λ s. s.now) request.entry.input) (I.remaining lines) (O.contents out.old)
        (O.contents out.new) (Ok tt) × (status ≡ 0)) }
    ensures refused { IfErr result (RefusesFlat R.gives R.withholds
        (option_map (λ s. s.now) request.entry.record) request.entry.image.now
        (option_map (λ s. s.now) request.entry.input) (I.remaining lines) (O.contents out.old)
        (O.contents out.new)) }
{
    let mut history = history_of(rt, request)?;
    match converse_back(rt.alloc(), &mut history, lines, out) {
        Ok(()) => Ok(0),
        Err(fault) => Err(wrong_of(fault, request.image)),
    }
}

/// The debugger of an image on an input, by turns or by a record, which is read first.
fn history_of<'a, R: Folder + AllocGlobal>(
    rt: &R,
    request: DebugRequest<'a>,
) -> Result<History, Wrong<'a>>
    ensures begins { IfOk result (BeginsDebug R.gives (option_map (λ s. s.now) request.entry.record)
        request.entry.image.now (option_map (λ s. s.now) request.entry.input)) }
    ensures stands { IfOk result Stands }
    ensures refused { IfErr result (RefusesHistory R.gives R.withholds
        (option_map (λ s. s.now) request.entry.record) request.entry.image.now
        (option_map (λ s. s.now) request.entry.input)) }
{
    match request.record {
        None => history_by_turns(rt, request.image, request.input),
        Some(record_name) => recorded_history(rt, record_name, request.image, request.input),
    }
}

/// The debugger of an image on an input whose harts take turns.
fn history_by_turns<'a, R: Folder + AllocGlobal>(
    rt: &R,
    image_name: &'a str,
    input_name: Option<&'a str>,
) -> Result<History, Wrong<'a>>
    ensures begins { IfOk result (BeginsByTurns R.gives image_name.now
        (option_map (λ s. s.now) input_name.entry)) }
    ensures refused { IfErr result (RefusesByTurns R.gives R.withholds image_name.now
        (option_map (λ s. s.now) input_name.entry)) }
{
    let image = read_image(rt, image_name)?;
    let input = read_input(rt, input_name)?;
    let program = Program { image, input };
    begun(History::new(rt.alloc(), program), image_name)
}

/// The debugger of an image on an input whose harts take their turns by a record.
fn recorded_history<'a, R: Folder + AllocGlobal>(
    rt: &R,
    record_name: &'a str,
    image_name: &'a str,
    input_name: Option<&'a str>,
) -> Result<History, Wrong<'a>>
    ensures begins { IfOk result (BeginsByRecord R.gives record_name.now image_name.now
        (option_map (λ s. s.now) input_name.entry)) }
    ensures refused { IfErr result (RefusesByRecord R.gives R.withholds record_name.now
        image_name.now (option_map (λ s. s.now) input_name.entry)) }
{
    let told = read_told(rt, record_name)?;
    history_as_told(rt, record_name, image_name, input_name, &told)
}

/// The same of a record that was read.
fn history_as_told<'a, R: Folder + AllocGlobal>(
    rt: &R,
    record_name: &'a str,
    image_name: &'a str,
    input_name: Option<&'a str>,
    told: &Record,
) -> Result<History, Wrong<'a>>
    ensures begins { IfOk result (BeginsAsTold R.gives (value_of told.now) image_name.now
        (option_map (λ s. s.now) input_name.entry)) }
    ensures refused { IfErr result (RefusesProgramOf R.gives R.withholds record_name.now
        image_name.now (option_map (λ s. s.now) input_name.entry) (value_of told.now)) }
{
    let image = read_recorded_image(rt, image_name, told)?;
    let input = read_recorded_input(rt, input_name, told)?;
    let program = Program { image, input };
    check_record(rt, record_name, &program, told)?;
    let turns = told.turns.as_slice();
    begun(History::recorded(rt.alloc(), program, turns), image_name)
}

/// A debugger, where it could be had.
fn begun<'a>(history: Result<History, RunFault>, image: &'a str) -> Result<History, Wrong<'a>>
    ensures begun { IfOk result (λ begun. history ≡ Ok begun) }
    ensures refused { IfErr result (λ why. IfErr history (λ fault.
        IsWrongRun fault image.now why)) }
    ensures ended { is_ok result ≡ is_ok history }
{
    match history {
        Ok(history) => Ok(history),
        Err(fault) => Err(wrong_run(fault, image)),
    }
}

/// What is wrong where a conversation on frames was broken off.
fn fault_of<'a>(fault: SessionFault) -> Fault<'a>
    ensures { IsFaultOf fault result }
{
    match fault {
        SessionFault::BadLine(number) => Fault::BadLine(number),
        SessionFault::NoMemory => Fault::NoMemory,
        SessionFault::CannotRead => Fault::CannotRead("standard input"),
        SessionFault::CannotWrite => Fault::CannotWrite,
    }
}

/// What is wrong where one on flat memory was.
fn wrong_of<'a>(fault: HistoryFault, image: &'a str) -> Wrong<'a>
    ensures { IsWrongOf fault image.now result }
{
    match fault {
        HistoryFault::BadLine(number) => Wrong::Fault(Fault::BadLine(number)),
        HistoryFault::CannotRead => Wrong::Fault(Fault::CannotRead("standard input")),
        HistoryFault::CannotWrite => Wrong::Fault(Fault::CannotWrite),
        HistoryFault::Run(fault) => wrong_run(fault, image),
    }
}

/// What is wrong where a run was not run again.
fn wrong_run<'a>(fault: RunFault, image: &'a str) -> Wrong<'a>
    ensures { IsWrongRun fault image.now result }
{
    match fault {
        RunFault::NoMemory => Wrong::Fault(Fault::NoMemory),
        RunFault::OtherRun => Wrong::OtherRun(image),
    }
}
