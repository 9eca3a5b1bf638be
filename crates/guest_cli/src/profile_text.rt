//! A profile as tables.

use crate::function_names::FunctionNames;
use crate::profile_tables::{CallRow, Row, Tables};
use guest_profile::{Profile, Sums};
use rv_isa::decode;
use std::io;
use std::io::Write;

/// Writes the sums, then the functions, the calls and the instructions, each hottest first, so many rows at most.
pub(crate) fn write_profile<O: Write>(
    profile: &Profile,
    tables: &Tables,
    names: &FunctionNames<'_>,
    rows: usize,
    out: &mut O,
) -> io::Result<()> {
    write_total(profile, tables, out)?;
    writeln!(out)?;
    writeln!(
        out,
        "       steps  share       loads      stores    branches       taken  function"
    )?;
    for row in tables.functions.iter().rev().take(rows) {
        write_function(row, tables.total.steps, names, out)?;
    }
    writeln!(out)?;
    writeln!(out, "       times       inside  call")?;
    for row in tables.calls.iter().rev().take(rows) {
        write_call(row, names, out)?;
    }
    writeln!(out)?;
    writeln!(
        out,
        "       steps  share       taken  address    word      text"
    )?;
    for row in tables.hot_insns.iter().rev().take(rows) {
        write_insn(row, tables.total.steps, names, out)?;
    }
    Ok(())
}

fn write_total<O: Write>(profile: &Profile, tables: &Tables, out: &mut O) -> io::Result<()> {
    let sums = tables.total;
    let (steps, loads, stores) = (sums.steps, sums.loads, sums.stores);
    let (branches, taken, insns) = (sums.branches, sums.taken, tables.insns.len());
    let (pages, stored) = profile.data_pages();
    writeln!(out, "steps {steps} of {insns} instructions")?;
    writeln!(out, "loads {loads} stores {stores}")?;
    writeln!(out, "branches {branches} taken {taken}")?;
    writeln!(out, "pages of data {pages} stored to {stored}")
}

/// Hundredths of a whole in tenths: `12.3%`.
fn write_share<O: Write>(steps: u64, total: u64, out: &mut O) -> io::Result<()> {
    let tenths = if total == 0 {
        0
    } else {
        steps.saturating_mul(1000) / total
    };
    let (whole, tenth) = (tenths / 10, tenths % 10);
    write!(out, " {whole:>3}.{tenth}%")
}

fn write_function<O: Write>(
    row: &Row,
    total: u64,
    names: &FunctionNames<'_>,
    out: &mut O,
) -> io::Result<()> {
    let sums: Sums = row.sums;
    let (steps, loads, stores) = (sums.steps, sums.loads, sums.stores);
    let (branches, taken) = (sums.branches, sums.taken);
    write!(out, "{steps:>12}")?;
    write_share(steps, total, out)?;
    write!(
        out,
        " {loads:>11} {stores:>11} {branches:>11} {taken:>11}  "
    )?;
    names.write_name(row.address, 1, out)?;
    writeln!(out)
}

fn write_call<O: Write>(row: &CallRow, names: &FunctionNames<'_>, out: &mut O) -> io::Result<()> {
    let (times, inside) = (row.times, row.inside);
    write!(out, "{times:>12} {inside:>12}  ")?;
    names.write_place(row.call.site, names.caller_level(row.call), out)?;
    write!(out, " -> ")?;
    names.write_name(row.call.callee, row.call.level, out)?;
    writeln!(out)
}

fn write_insn<O: Write>(
    row: &Row,
    total: u64,
    names: &FunctionNames<'_>,
    out: &mut O,
) -> io::Result<()> {
    let (steps, taken) = (row.sums.steps, row.sums.taken);
    let (address, word) = (row.address, row.word);
    write!(out, "{steps:>12}")?;
    write_share(steps, total, out)?;
    write!(out, " {taken:>11}  0x{address:08X} {word:08X}  ")?;
    match decode(word) {
        Some(insn) => write!(out, "{insn}")?,
        None => write!(out, "no instruction")?,
    }
    write!(out, "  in ")?;
    names.write_place(address, 1, out)?;
    writeln!(out)
}
