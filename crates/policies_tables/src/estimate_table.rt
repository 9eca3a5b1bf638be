//! The table of a sample: what it says that a whole string misses.

ghost use Rattle.std.specs.Prelude.{◌≡◌, ◌*◌, min};

use crate::numbers::write_ratio;
use crate::printing::Printing;
use std::io;
use std::io::Write;

/// What a sample of pages is of.
#[derive(Clone, Copy, Debug, PartialEq, Eq)]
pub struct Sample {
    /// One page in so many is in it.
    pub one_in: u32,
    /// How many references are to its pages.
    pub sampled: u64,
    /// How many references the whole string has.
    pub references: u64,
}

impl Sample {
    /// How many of all references are taken to miss, where so many of the sample do. Each represents as many as a page of the sample does,
    /// but no more miss than there are.
    pub fn estimate(self, misses: u64) -> u64
        ensures { result ≡ min (misses * self.one_in) self.references }
    {
        misses
            .saturating_mul(u64::from(self.one_in))
            .min(self.references)
    }
}

/// Writes what a sample says that LRU misses. Each frame of the sample represents as many of the whole as one of its pages does, and so
/// does each miss. The first line gives what the estimate rests on.
pub fn write_estimate<W: Write>(
    lru: &[usize],
    sample: Sample,
    printing: Printing,
    out: &mut W,
) -> io::Result<()> {
    let (pages, one_in) = (lru.len(), sample.one_in);
    let (sampled, references) = (sample.sampled, sample.references);
    writeln!(
        out,
        "# estimate: one page in {one_in}: {pages} pages and {sampled} of {references} references"
    )?;
    out.write_all(estimate_head(printing).as_bytes())?;
    for (at, misses) in lru.iter().enumerate() {
        let frames = (at as u64)
            .saturating_add(1)
            .saturating_mul(u64::from(one_in));
        let estimate = sample.estimate(*misses as u64);
        write_estimated(frames, estimate, references, printing, out)?;
    }
    Ok(())
}

/// The names of an estimate's columns.
fn estimate_head(printing: Printing) -> &'static str {
    if printing.is_csv {
        "frames,lru-estimate\n"
    } else {
        "    frames  lru-estimate\n"
    }
}

fn write_estimated<W: Write>(
    frames: u64,
    misses: u64,
    references: u64,
    printing: Printing,
    out: &mut W,
) -> io::Result<()> {
    match (printing.is_csv, printing.is_ratio) {
        (true, false) => return writeln!(out, "{frames},{misses}"),
        (false, false) => return writeln!(out, "{frames:>10} {misses:>13}"),
        (true, true) => write!(out, "{frames},")?,
        (false, true) => write!(out, "{frames:>10}        ")?,
    }
    write_ratio(misses, references, out)?;
    writeln!(out)
}
