//! Harts as JSON: of each what is not as in the picture before.

use crate::json_text::{OrNull, comma_before};
use crate::shown_hart::ShownHart;
use crate::shown_process::ShownProcess;
use page_memory::{Access, Rights};
use rv_exec::Regs;
use rv_isa::{Insn, decode};
use std::io::Write;
use std::{fmt, io};
use tlb_core::Translation;

/// Writes harts, `null` for one that is as it was.
pub(crate) fn write_harts<W: Write>(
    harts: &[ShownHart],
    old: Option<&ShownProcess>,
    out: &mut W,
) -> io::Result<()> {
    for (number, hart) in harts.iter().enumerate() {
        write!(out, "{}", comma_before(number))?;
        match hart_before(old, number) {
            Some(was) if was == hart => write!(out, "null")?,
            Some(was) => write_changed(hart, was, out)?,
            None => write_whole(hart, out)?,
        }
    }
    Ok(())
}

fn hart_before<'a>(old: Option<&'a ShownProcess>, number: usize) -> Option<&'a ShownHart> {
    old?.harts.as_slice().get(number)
}

fn write_whole<W: Write>(hart: &ShownHart, out: &mut W) -> io::Result<()> {
    write_place(hart, out)?;
    write_registers(&hart.regs, out)?;
    write_cached(hart.cached.as_slice(), out)?;
    write!(out, "}}")
}

fn write_changed<W: Write>(hart: &ShownHart, old: &ShownHart, out: &mut W) -> io::Result<()> {
    write_place(hart, out)?;
    write_changed_registers(&hart.regs, &old.regs, out)?;
    if hart.cached != old.cached {
        write_cached(hart.cached.as_slice(), out)?;
    }
    write!(out, "}}")
}

/// Writes where a hart is, with the word there and its instruction.
fn write_place<W: Write>(hart: &ShownHart, out: &mut W) -> io::Result<()> {
    let (pc, live, word) = (hart.regs.pc(), hart.live, OrNull(hart.word));
    write!(
        out,
        "{{\"pc\":{pc},\"live\":{live},\"word\":{word},\"text\":"
    )?;
    match instruction_at(hart) {
        Some(insn) => write!(out, "\"{insn}\""),
        None => write!(out, "null"),
    }
}

fn instruction_at(hart: &ShownHart) -> Option<Insn> {
    match hart.word {
        Some(word) => decode(word),
        None => None,
    }
}

/// The registers but `x0`, in their order.
fn write_registers<W: Write>(regs: &Regs, out: &mut W) -> io::Result<()> {
    write!(out, ",\"x\":[{}", regs.x(1))?;
    for number in 2..32_u8 {
        write!(out, ",{}", regs.x(number))?;
    }
    write!(out, "]")
}

/// The registers that changed, each with its place among those but `x0`.
fn write_changed_registers<W: Write>(regs: &Regs, old: &Regs, out: &mut W) -> io::Result<()> {
    write!(out, ",\"x\":[")?;
    let mut comma = "";
    for number in 1..32_u8 {
        let value = regs.x(number);
        if value != old.x(number) {
            write!(out, "{comma}[{},{value}]", number - 1)?;
            comma = ",";
        }
    }
    write!(out, "]")
}

fn write_cached<W: Write>(cached: &[Translation], out: &mut W) -> io::Result<()> {
    write!(out, ",\"cached\":[")?;
    for (place, entry) in cached.iter().enumerate() {
        write!(out, "{}", comma_before(place))?;
        write_translation(entry, out)?;
    }
    write!(out, "]")
}

/// A translation's row: its page, its frame, its rights, and its two marks.
fn write_translation<W: Write>(entry: &Translation, out: &mut W) -> io::Result<()> {
    let rights = RightsText(entry.rights);
    let (dirty, doomed) = (entry.dirty, entry.doomed);
    write!(
        out,
        "[{},{},\"{rights}\",{dirty},{doomed}]",
        entry.page, entry.frame
    )
}

/// Rights by their letters, which none has where it is not there.
#[derive(Clone, Copy)]
struct RightsText(Rights);

impl fmt::Display for RightsText {
    fn fmt<W: fmt::Write>(&self, f: &mut fmt::Formatter<W>) -> fmt::Result {
        for (access, letter) in [
            (Access::Load, "R"),
            (Access::Store, "W"),
            (Access::Fetch, "X"),
        ] {
            if self.0.allow(access) {
                f.write_str(letter)?;
            }
        }
        Ok(())
    }
}
