//! A run on a machine as a record.

ghost use Rattle.std.specs.Prelude.{◌≡◌, ℕ, List, IfErr, IfOk};
ghost use Rattle.run_records.specs.Prints.{print_of};
ghost use Rattle.run_records.specs.Records.{value_of};
ghost use Rattle.run_recorder.specs.Recorded.{IsEarly, TellsReport};

use crate::fault::RecorderFault;
use flat_machine::{End, KillCause};
use machine_sides::ProcessReport;
use run_records::{Closing, Fingerprint, Record, are_joined, know_fitting, take_fingerprint};

/// The record of a process that ran: of an image's file and an input that have these fingerprints. With it is what the process
/// wrote. Turns that no schedule has are refused.
pub(crate) fn record_of<'a>(
    report: ProcessReport,
    image: Fingerprint,
    input: Fingerprint,
) -> Result<(Record, Vec<u8>), RecorderFault<'a>>
    ensures tells { IfOk result (λ told. (file : List ℕ) → (given : List ℕ) →
        image ≡ print_of file → input ≡ print_of given →
        TellsReport file given report (value_of told.0)) }
    ensures output { IfOk result (λ told. told.1 ≡ report.output) }
    ensures early { IfErr result IsEarly }
{
    let ProcessReport {
        output,
        end,
        steps,
        turns,
    } = report;
    if !are_joined(turns.as_slice()) {
        return Err(RecorderFault::NotSound);
    }
    let closing = Closing {
        end: end.unwrap_or(End::Killed(KillCause::Limit)),
        steps,
        output: take_fingerprint(output.as_slice()),
    };
    let told = Record {
        image,
        input,
        turns,
        closing,
    };
    know_fitting(&told);
    Ok((told, output))
}
