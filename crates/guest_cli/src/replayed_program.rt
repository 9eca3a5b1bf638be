//! The program of a record.

ghost use Rattle.std.specs.Prelude.{◌≡◌, IfErr, IfOk, OnOk, option_map};
ghost use Rattle.flat_machine.specs.Process.{Process, opening};
ghost use Rattle.record_commands.specs.Replayed.{FailsReplay};
ghost use Rattle.run_records.specs.Records.{value_of};
ghost use Rattle.run_records.specs.Replaying.{Replays};
ghost use Rattle.guest_cli.specs.Debugged.{GivesInputOf, GivesNoInputOf, input_word};

use crate::wrong::Wrong;
use flat_machine::FlatProcess;
use image_files::{Fault, Folder, read_input};
use record_commands::RecordsFault;
use run_paths::Program;
use run_records::{Record, ReplayFault, is_print_of, replay};
use std::alloc::Global;

/// The bytes of an input's file, if they are those of a record's.
pub(crate) fn read_recorded_input<'a, R: Folder + AllocGlobal>(
    rt: &R,
    name: Option<&'a str>,
    told: &Record,
) -> Result<Vec<u8>, Wrong<'a>>
    ensures given { IfOk result (λ input. GivesInputOf R.gives
        (option_map (λ s. s.now) name.entry) told.now.input input.items) }
    ensures refused { IfErr result (GivesNoInputOf R.gives R.withholds
        (option_map (λ s. s.now) name.entry) told.now.input) }
{
    let input = read_input(rt, name)?;
    if is_print_of(&told.input, input.as_slice()) {
        Ok(input)
    } else {
        Err(Wrong::OtherInput(input_word(name)))
    }
}

/// What names an input: its file, or the option that is missing.
fn input_word<'a>(name: Option<&'a str>) -> &'a str
    ensures { result.now ≡ input_word (option_map (λ s. s.now) name.entry) }
{
    match name {
        Some(name) => name,
        None => "--input",
    }
}

/// Refuses a record that does not replay.
pub(crate) fn check_record<'a, R: Folder + AllocGlobal>(
    rt: &R,
    name: &'a str,
    program: &Program,
    told: &Record,
) -> Result<(), RecordsFault<'a>>
    ensures replays { OnOk result ((after : Process) × Replays (value_of told.now)
        (opening program.now.image program.now.input.items) after) }
    ensures refused { IfErr result (FailsReplay R.gives R.withholds name.now (value_of told.now)
        (opening program.now.image program.now.input.items)) }
{
    let mut process = program.begin(rt.alloc())?;
    match replay(rt.alloc(), &mut process, told) {
        Ok(()) => Ok(()),
        Err(ReplayFault::NoMemory) => Err(RecordsFault::Fault(Fault::NoMemory)),
        Err(fault) => Err(RecordsFault::NoReplay(name, fault)),
    }
}
