//! The table of misses: a row for each number of frames.

use crate::names::{name_size, write_policy};
use crate::numbers::{part_of, write_blanks, write_ratio};
use crate::printing::Printing;
use miss_counts::{PolicyCount, PolicyCounts};
use std::io;
use std::io::Write;

/// The optimum's name in lists and tables.
pub const OPTIMUM: &str = "optimum";

/// How wide a column of counts is.
const WIDE: usize = 11;

/// How wide a column is that also has how many times the optimum's misses they are.
const WIDER: usize = 18;

/// A row of a table: what was counted has a column.
#[derive(Clone, Copy)]
pub(crate) struct TableRow<'r> {
    pub(crate) frames: usize,
    pub(crate) references: u64,
    pub(crate) counts: &'r [PolicyCount],
    pub(crate) optimum: Option<u64>,
}

fn row_of(counts: &PolicyCounts) -> TableRow<'_> {
    TableRow {
        frames: counts.frames.number(),
        references: counts.references,
        counts: counts.counts.as_slice(),
        optimum: counts.optimum,
    }
}

/// Writes a row for each number of frames.
pub fn write_table<W: Write>(
    rows: &[PolicyCounts],
    printing: Printing,
    out: &mut W,
) -> io::Result<()> {
    if let Some(counts) = rows.first() {
        write_any_head(&row_of(counts), printing, out)?;
    }
    for counts in rows {
        write_any_row(&row_of(counts), printing, out)?;
    }
    if printing.is_csv {
        return Ok(());
    }
    write_unserved(rows, out)
}

/// Writes below a table why cells of it are empty.
fn write_unserved<W: Write>(rows: &[PolicyCounts], out: &mut W) -> io::Result<()> {
    let Some(first) = rows.first() else {
        return Ok(());
    };
    for (place, counted) in first.counts.iter().enumerate() {
        if has_empty(rows, place) {
            writeln!(out, "{} has 4 to 4096 frames", counted.policy)?;
        }
    }
    Ok(())
}

/// Whether a column has an empty cell.
fn has_empty(rows: &[PolicyCounts], place: usize) -> bool {
    for row in rows {
        if let Some(counted) = row.counts.get(place)
            && counted.count.is_none()
        {
            return true;
        }
    }
    false
}

pub(crate) fn write_any_head<W: Write>(
    row: &TableRow<'_>,
    printing: Printing,
    out: &mut W,
) -> io::Result<()> {
    if printing.is_csv {
        write_csv_head(row, out)
    } else {
        write_head(row, printing, out)
    }
}

pub(crate) fn write_any_row<W: Write>(
    row: &TableRow<'_>,
    printing: Printing,
    out: &mut W,
) -> io::Result<()> {
    if printing.is_csv {
        write_csv_row(row, printing, out)
    } else {
        write_row(row, printing, out)
    }
}

fn write_csv_head<W: Write>(row: &TableRow<'_>, out: &mut W) -> io::Result<()> {
    write!(out, "frames")?;
    for counted in row.counts {
        write!(out, ",{}", counted.policy)?;
    }
    if row.optimum.is_some() {
        write!(out, ",{OPTIMUM}")?;
    }
    writeln!(out)
}

fn write_csv_row<W: Write>(row: &TableRow<'_>, printing: Printing, out: &mut W) -> io::Result<()> {
    write!(out, "{}", row.frames)?;
    for counted in row.counts {
        match counted.count {
            Some(count) => write_csv_value(count, row.references, printing, out)?,
            None => out.write_all(b",")?,
        }
    }
    if let Some(misses) = row.optimum {
        write_csv_value(misses, row.references, printing, out)?;
    }
    writeln!(out)
}

fn write_csv_value<W: Write>(
    misses: u64,
    references: u64,
    printing: Printing,
    out: &mut W,
) -> io::Result<()> {
    if printing.is_ratio {
        out.write_all(b",")?;
        write_ratio(misses, references, out)
    } else {
        write!(out, ",{misses}")
    }
}

/// Whether each policy's misses are followed by how many times the optimum's they are.
fn has_shares(row: &TableRow<'_>, printing: Printing) -> bool {
    row.optimum.is_some() && !printing.is_ratio
}

fn write_head<W: Write>(row: &TableRow<'_>, printing: Printing, out: &mut W) -> io::Result<()> {
    let wide = if has_shares(row, printing) {
        WIDER
    } else {
        WIDE
    };
    write!(out, "frames")?;
    let mut is_first = true;
    for counted in row.counts {
        write_policy(counted.policy, if is_first { WIDE } else { wide }, out)?;
        is_first = false;
    }
    if row.optimum.is_some() {
        write_name(OPTIMUM, if is_first { WIDE } else { wide }, out)?;
    }
    writeln!(out)
}

/// A name at the right of its column, one blank at least before it.
fn write_name<W: Write>(name: &str, wide: usize, out: &mut W) -> io::Result<()> {
    write_blanks(wide.saturating_sub(name.len()).max(1), out)?;
    out.write_all(name.as_bytes())
}

fn write_row<W: Write>(row: &TableRow<'_>, printing: Printing, out: &mut W) -> io::Result<()> {
    write!(out, "{:>6}", row.frames)?;
    let has_shares = has_shares(row, printing);
    let mut due = Due {
        columns: 0,
        share: 0,
    };
    let mut is_first = true;
    for counted in row.counts {
        due.add(name_size(counted.policy), is_first, has_shares);
        is_first = false;
        if let Some(count) = counted.count {
            write_blanks(due.blanks(), out)?;
            due = write_count(count, row, printing, out)?;
        }
    }
    if let Some(misses) = row.optimum {
        due.add(OPTIMUM.len(), is_first, has_shares);
        write_blanks(due.blanks(), out)?;
        write_value(misses, row.references, printing, out)?;
    }
    writeln!(out)
}

/// What a row has not written yet: the columns since its last count, of which that count's share took some room.
#[derive(Clone, Copy)]
struct Due {
    columns: usize,
    share: usize,
}

impl Due {
    /// A column is due for a name of so many characters.
    fn add(&mut self, name: usize, is_first: bool, has_shares: bool) {
        let wide = if is_first || !has_shares { WIDE } else { WIDER };
        self.columns = self
            .columns
            .saturating_add(wide.max(name.saturating_add(1)));
    }

    /// How many blanks precede the count of the last column.
    fn blanks(&self) -> usize {
        self.columns.saturating_sub(WIDE).saturating_sub(self.share)
    }
}

/// Writes a policy's count, and how many times the optimum's it is where both are printed.
fn write_count<W: Write>(
    count: u64,
    row: &TableRow<'_>,
    printing: Printing,
    out: &mut W,
) -> io::Result<Due> {
    write_value(count, row.references, printing, out)?;
    let mut due = Due {
        columns: 0,
        share: 0,
    };
    if let Some(optimum) = row.optimum
        && !printing.is_ratio
    {
        write_share(count, optimum, out)?;
        due.share = WIDER - WIDE;
    }
    Ok(due)
}

fn write_value<W: Write>(
    misses: u64,
    references: u64,
    printing: Printing,
    out: &mut W,
) -> io::Result<()> {
    if printing.is_ratio {
        write_blanks(WIDE - 6, out)?;
        write_ratio(misses, references, out)
    } else {
        write!(out, " {misses:>10}")
    }
}

/// How many times so many others misses are, in hundredths that are rounded to the nearest; of a string of no references nothing misses,
/// and it is 1.
fn write_share<W: Write>(misses: u64, optimum: u64, out: &mut W) -> io::Result<()> {
    let hundredths = part_of(misses, optimum, 100, 100);
    let (whole, tenth, hundredth) = (hundredths / 100, hundredths / 10 % 10, hundredths % 10);
    write!(out, " {whole:>3}.{tenth}{hundredth}")
}
