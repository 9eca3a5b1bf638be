//! What is printed of a machine that has run, from its report.

ghost use Rattle.std.specs.Prelude.{OnOk, map};
ghost use Rattle.std.specs.Io.KnownBytes.{Appends};
ghost use Rattle.machine_sides.specs.Reporting.{told};
ghost use Rattle.report_text.specs.ReportText.{report_text, processes_text, line_text, counts_text, places_text, savings_text, cleans_text, audit_text};

use machine_sides::{ProcessReport, Report};
use process_text::{end_of, write_process};
use std::io;
use std::io::Write;

/// Writes what each process has come to, by number, then the counts, and whether an audit found no fault. The number of pages that were
/// cleaned is printed only where pages were to be cleaned.
pub fn write_report<W: Write>(report: &Report, cleans: Option<u64>, out: &mut W) -> io::Result<()>
    ensures { OnOk result (Appends (W.contents out.old) (W.contents out.new)
        (report_text report.now cleans)) }
{
    write_processes(report.processes.as_slice(), out)?;
    write_counts(report, cleans, out)?;
    write_audit(report.audit, out)
}

/// Writes what each process has come to, by their numbers.
fn write_processes<W: Write>(processes: &[ProcessReport], out: &mut W) -> io::Result<()>
    ensures { OnOk result (Appends (W.contents out.old) (W.contents out.new) (processes_text 0
        (map told processes.now))) }
{
    let mut number = 0;
    let mut rest = processes;
    while let Some((process, others)) = rest.split_first() {
        write_line(number, process, out)?;
        number += 1;
        rest = others;
    }
    Ok(())
}

fn write_line<W: Write>(number: usize, process: &ProcessReport, out: &mut W) -> io::Result<()>
    ensures { OnOk result (Appends (W.contents out.old) (W.contents out.new) (line_text number
        (told process.now))) }
{
    let end = end_of(process.end);
    write_process(number, process.output.as_slice(), end, process.steps, out)
}

/// Writes the count line.
fn write_counts<W: Write>(report: &Report, cleans: Option<u64>, out: &mut W) -> io::Result<()>
    ensures { OnOk result (Appends (W.contents out.old) (W.contents out.new)
        (counts_text report.now cleans)) }
{
    write_places(report.frames, report.page_ins, report.victims, out)?;
    write_savings(report.saves, report.drops, report.questions, out)?;
    write_cleans(cleans, out)
}

/// Writes its first part: frames, and pages that came and that were to go.
#[tactic(auto, unfolding(crate::specs::ReportText::places_text))]
fn write_places<W: Write>(frames: u32, page_ins: u64, victims: u64, out: &mut W) -> io::Result<()>
    ensures { OnOk result (Appends (W.contents out.old) (W.contents out.new)
        (places_text frames page_ins victims)) }
{
    write!(out, "frames {frames} page-ins {page_ins} victims {victims}")
}

/// Writes its second part: pages that went, and questions of the list.
#[tactic(auto, unfolding(crate::specs::ReportText::savings_text))]
fn write_savings<W: Write>(saves: u64, drops: u64, questions: u64, out: &mut W) -> io::Result<()>
    ensures { OnOk result (Appends (W.contents out.old) (W.contents out.new)
        (savings_text saves drops questions)) }
{
    write!(out, " saves {saves} drops {drops} questions {questions}")
}

/// Writes its end: pages that were cleaned, where they were to be.
#[tactic(auto, unfolding(crate::specs::ReportText::cleans_text))]
fn write_cleans<W: Write>(cleans: Option<u64>, out: &mut W) -> io::Result<()>
    ensures { OnOk result (Appends (W.contents out.old) (W.contents out.new)
        (cleans_text cleans)) }
{
    match cleans {
        Some(cleans) => writeln!(out, " cleans {cleans}"),
        None => writeln!(out),
    }
}

/// Writes whether an audit found nothing amiss.
fn write_audit<W: Write>(is_sound: bool, out: &mut W) -> io::Result<()>
    ensures { OnOk result (Appends (W.contents out.old) (W.contents out.new)
        (audit_text is_sound)) }
{
    if is_sound {
        writeln!(out, "audit ok")
    } else {
        writeln!(out, "audit fault")
    }
}
