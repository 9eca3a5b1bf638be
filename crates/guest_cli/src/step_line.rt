//! Lines of a trace.

use flat_machine::{End, FlatProcess};
use guest_steps::{DataAccess, ToldStep, access_of, destination_of};
use rv_exec::Regs;
use rv_isa::{Insn, decode};
use std::io;
use std::io::Write;

/// The numbers of the registers of a call's number and its answer.
const A7: u8 = 17;

const A0: u8 = 10;

/// Writes a step: its number, the hart, its pc, the word and its text. After two blanks follows what it changed: the register and its new
/// value, the bytes that are stored, or how the process ended.
pub(crate) fn write_step<O: Write>(
    number: u64,
    told: &ToldStep,
    process: &FlatProcess,
    out: &mut O,
) -> io::Result<()> {
    let (hart, pc) = (told.hart, told.before.pc());
    write!(out, "{number} {hart} 0x{pc:08X} ")?;
    let Ok(word) = told.word else {
        write!(out, "-------- no instruction")?;
        return write_end(process, out);
    };
    write!(out, "{word:08X} ")?;
    match decode(word) {
        Some(insn) => {
            write!(out, "{insn}")?;
            if process.end().is_none() {
                write_effect(told, &insn, process, out)?;
            }
        }
        None => write!(out, "no instruction")?,
    }
    write_end(process, out)
}

/// What an instruction changed.
fn write_effect<O: Write>(
    told: &ToldStep,
    insn: &Insn,
    process: &FlatProcess,
    out: &mut O,
) -> io::Result<()> {
    if matches!(insn, Insn::Ecall) {
        let (call, answer) = (told.before.x(A7), told.after.x(A0));
        return write!(out, "  call {call} x10=0x{answer:08X}");
    }
    let (kept, last) = (*insn, *insn);
    write_register(kept, &told.after, out)?;
    match access_of(&told.before, last) {
        Some(access) => write_access(access, process, out),
        None => Ok(()),
    }
}

fn write_register<O: Write>(insn: Insn, after: &Regs, out: &mut O) -> io::Result<()> {
    match destination_of(insn) {
        Some(rd) if rd.index() != 0 => {
            let value = after.read(rd);
            write!(out, "  {rd}=0x{value:08X}")
        }
        _ => Ok(()),
    }
}

/// Writes the address of a load or a store; for a store also the bytes that are there after it.
fn write_access<O: Write>(
    access: DataAccess,
    process: &FlatProcess,
    out: &mut O,
) -> io::Result<()> {
    let address = access.address;
    write!(out, "  [0x{address:08X}]")?;
    if !access.is_store {
        return Ok(());
    }
    let mut between = '=';
    for place in 0..access.bytes {
        let byte = process.byte(address.wrapping_add(place)).unwrap_or(0);
        write!(out, "{between}{byte:02X}")?;
        between = ' ';
    }
    Ok(())
}

/// How the process ended, where it did, and the end of the line.
fn write_end<O: Write>(process: &FlatProcess, out: &mut O) -> io::Result<()> {
    match process.end() {
        None => writeln!(out),
        Some(End::Exited(status)) => writeln!(out, "  exited {status}"),
        Some(End::Trapped { cause, value, .. }) => {
            let number = cause.number();
            writeln!(out, "  trap {number} value 0x{value:08X}")
        }
        Some(End::Killed(cause)) => writeln!(out, "  killed {cause}"),
    }
}
