//! Calls and returns as lines of a trace.

ghost use Rattle.std.specs.Prelude.{◌≡◌, IfOk, OnOk};
ghost use Rattle.guest_cli.specs.TracedRuns.{flow_depth, is_of_function, step_flow};
ghost use Rattle.guest_profile.specs.Depths.{depths_after, harts_of};

use elf_symbols::Symbols;
use guest_profile::Depths;
use guest_steps::{Flow, ToldStep, flow_of};
use rv_isa::decode;
use std::alloc::AllocError;
use std::io;
use std::io::Write;

/// The depth of a step: for a call that of its caller, for another step the depth at which its hart goes on.
pub(crate) fn depth_of(
    depths: &mut Depths,
    told: &ToldStep,
    flow: Flow,
) -> Result<usize, AllocError>
    ensures followed { OnOk result (harts_of depths.new ≡
        depths_after flow told.now (harts_of depths.old)) }
    ensures depth { IfOk result (λ depth. depth ≡ flow_depth flow told.now.hart
        (harts_of depths.old) (harts_of depths.new)) }
{
    let before = depths.depth(told.hart);
    depths.follow(told, flow)?;
    match flow {
        Flow::Call => Ok(before),
        Flow::Return => Ok(depths.depth(told.hart)),
        Flow::Branch => Ok(depths.depth(told.hart)),
        Flow::Other => Ok(depths.depth(told.hart)),
    }
}

/// What a step is for the flow of the program.
pub(crate) fn flow_of_step(told: &ToldStep) -> Flow
    ensures { result ≡ step_flow told.now.word }
{
    let Ok(word) = told.word else {
        return Flow::Other;
    };
    match decode(word) {
        Some(insn) => flow_of(insn),
        None => Flow::Other,
    }
}

/// Whether it is a call or a return.
pub(crate) fn is_of_function(flow: Flow) -> bool
    ensures { result ≡ is_of_function flow }
{
    match flow {
        Flow::Call => true,
        Flow::Return => true,
        Flow::Branch => false,
        Flow::Other => false,
    }
}

/// Writes a call or a return: the step's number, the hart, and two blanks for each call that it is in. Then follows what is called and from
/// where, or where the hart goes back to and with which answer in x10.
pub(crate) fn write_flow<O: Write>(
    number: u64,
    told: &ToldStep,
    flow: Flow,
    depth: usize,
    symbols: &Symbols<'_>,
    out: &mut O,
) -> io::Result<()> {
    let hart = told.hart;
    write!(out, "{number} {hart} ")?;
    for _ in 0..depth {
        write!(out, "  ")?;
    }
    let (from, to, answer) = (told.before.pc(), told.after.pc(), told.after.x(10));
    if flow == Flow::Call {
        write!(out, "call ")?;
        write_place(to, symbols, out)?;
        write!(out, " from ")?;
        write_place(from, symbols, out)?;
        writeln!(out)
    } else {
        write!(out, "return to ")?;
        write_place(to, symbols, out)?;
        writeln!(out, " x10=0x{answer:08X}")
    }
}

/// Writes an address by its symbol, or where there is none as a number.
pub(crate) fn write_place<O: Write>(
    address: u32,
    symbols: &Symbols<'_>,
    out: &mut O,
) -> io::Result<()> {
    match symbols.nearest(address) {
        Some(place) => write!(out, "{place}"),
        None => write!(out, "0x{address:08X}"),
    }
}
