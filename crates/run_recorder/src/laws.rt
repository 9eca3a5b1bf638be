//! A law on records of runs. The function does nothing.

ghost use Rattle.std.specs.Prelude.{◌≡◌, ℕ, List};
ghost use Rattle.elf_image.specs.Start.{Start};
ghost use Rattle.flat_machine.specs.Process.{Process, opening};
ghost use Rattle.machine_sides.specs.FlatLines.{StandsForRun};
ghost use Rattle.machine_sides.specs.Reporting.{told};
ghost use Rattle.machine_sides.specs.declared.report.ProcessReport.{ProcessReport};
ghost use Rattle.run_records.specs.Records.{RecordValue};
ghost use Rattle.run_recorder.specs.Recorded.{ReplaysTo, TellsReport};

/// If the report of a run represents a flat run, its record is read back and replays: to the output, ending and number of steps that were
/// reported. A replay can be refused only if there is not enough memory.
pub fn recorded_is_replayed()
    ensures { (start : Start) (file input : List ℕ) (report : ProcessReport) (record_told :
        RecordValue) → StandsForRun start (told report) →
        TellsReport file input report record_told → ReplaysTo start report record_told }
{}
