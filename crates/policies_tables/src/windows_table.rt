//! The table of working sets: a row for each window.

use crate::numbers::{write_mean, write_ratio};
use crate::printing::Printing;
use std::io;
use std::io::Write;
use whole_strings::WindowCounts;

/// Writes a row for a window of 1 reference, of 2 and so on, up to the first with which no fewer miss than with any longer one.
pub fn write_windows<W: Write>(
    curve: &[WindowCounts],
    references: u64,
    printing: Printing,
    out: &mut W,
) -> io::Result<()> {
    if printing.is_csv {
        writeln!(out, "window,size,misses")?;
    } else {
        writeln!(out, "    window         size      misses")?;
    }
    let fewest = fewest_misses(curve);
    for (at, counts) in curve.iter().enumerate() {
        let window = (at as u64).saturating_add(1);
        write_window(window, *counts, references, printing, out)?;
        if counts.misses <= fewest {
            return Ok(());
        }
    }
    Ok(())
}

/// How many miss with the longest window.
fn fewest_misses(curve: &[WindowCounts]) -> usize {
    match curve.last() {
        Some(counts) => counts.misses,
        None => 0,
    }
}

/// Writes a window, the mean size of its working set, and how many references miss, or which part of them.
fn write_window<W: Write>(
    window: u64,
    counts: WindowCounts,
    references: u64,
    printing: Printing,
    out: &mut W,
) -> io::Result<()> {
    let misses = counts.misses as u64;
    if printing.is_csv {
        write!(out, "{window},")?;
        write_ratio(counts.sizes, references, out)?;
        write!(out, ",")?;
    } else {
        write!(out, "{window:>10}  ")?;
        write_mean(counts.sizes, references, out)?;
        write!(out, "  ")?;
    }
    write_misses(misses, references, printing, out)?;
    writeln!(out)
}

fn write_misses<W: Write>(
    misses: u64,
    references: u64,
    printing: Printing,
    out: &mut W,
) -> io::Result<()> {
    if printing.is_ratio {
        if !printing.is_csv {
            write!(out, "    ")?;
        }
        return write_ratio(misses, references, out);
    }
    if printing.is_csv {
        write!(out, "{misses}")
    } else {
        write!(out, "{misses:>10}")
    }
}
