//! A profile in the format of callgrind ("Callgrind Format Specification" of Valgrind's manual), by instructions.

use crate::function_names::{FunctionNames, INNER};
use crate::profile_tables::{CallRow, Row, Tables};
use guest_profile::{NOTHING, Sums};
use std::io;
use std::io::Write;

/// The first lines.
const HEAD: &[u8] = b"# callgrind format\nversion: 1\ncreator: guest profile\n";

/// What the numbers of a line are.
const EVENTS: &[u8] =
    b"positions: instr line\nevent: Ir : Steps\nevent: Dr : Loads\nevent: Dw : Stores\n\
event: Bc : Branches\nevent: Bt : Branches taken\nevents: Ir Dr Dw Bc Bt\n";

/// Writes the counts of each instruction below its function, and the calls of each. What a function does in a call within a call of itself
/// is of a function of its own, `NAME'2`, as callgrind has it.
pub(crate) fn write_callgrind<O: Write>(
    image: &str,
    tables: &Tables,
    names: &FunctionNames<'_>,
    out: &mut O,
) -> io::Result<()> {
    out.write_all(HEAD)?;
    writeln!(out, "cmd: {image}")?;
    out.write_all(EVENTS)?;
    write!(out, "summary: ")?;
    write_sums(tables.total, out)?;
    writeln!(out, "\nob={image}\nfl={image}")?;
    write_insns(tables, names, 1, out)?;
    write_insns(tables, names, INNER, out)?;
    for row in tables.calls.as_slice() {
        write_call(row, names, out)?;
    }
    Ok(())
}

/// Writes the counts of a level.
fn write_insns<O: Write>(
    tables: &Tables,
    names: &FunctionNames<'_>,
    level: u32,
    out: &mut O,
) -> io::Result<()> {
    let mut current = None;
    for row in tables.insns.as_slice() {
        let function = names.function_of(row.address);
        let sums = sums_at(row, level, names.has_inner(function));
        if sums.steps > 0 {
            if current != Some(function) {
                write_function("fn", function, level, names, out)?;
                current = Some(function);
            }
            let address = row.address;
            write!(out, "0x{address:x} 0 ")?;
            write_sums(sums, out)?;
        }
    }
    Ok(())
}

/// What of an instruction's counts is of a level. All is of the first one where its function was not called within itself.
fn sums_at(row: &Row, level: u32, has_inner: bool) -> Sums {
    let inner = if has_inner { row.inner } else { NOTHING };
    if level == INNER {
        inner
    } else {
        row.sums.without(inner)
    }
}

fn write_sums<O: Write>(sums: Sums, out: &mut O) -> io::Result<()> {
    let (steps, loads, stores) = (sums.steps, sums.loads, sums.stores);
    let (branches, taken) = (sums.branches, sums.taken);
    writeln!(out, "{steps} {loads} {stores} {branches} {taken}")
}

/// A call: whose it is, what is called and how often, and what was done inside.
fn write_call<O: Write>(row: &CallRow, names: &FunctionNames<'_>, out: &mut O) -> io::Result<()> {
    let (site, callee) = (row.call.site, row.call.callee);
    let times = row.times;
    let caller = names.function_of(site);
    write_function("fn", caller, names.caller_level(row.call), names, out)?;
    write_function("cfn", callee, row.call.level, names, out)?;
    writeln!(out, "calls={times} 0x{callee:x} 0")?;
    write!(out, "0x{site:x} 0 ")?;
    write_sums(row.sums, out)
}

fn write_function<O: Write>(
    key: &str,
    function: u32,
    level: u32,
    names: &FunctionNames<'_>,
    out: &mut O,
) -> io::Result<()> {
    write!(out, "{key}=")?;
    names.write_name(function, level, out)?;
    writeln!(out)
}
