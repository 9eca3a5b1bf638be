//! Where the program goes on: calls, returns and branches.

ghost use Rattle.std.specs.Prelude.{◌≡◌};
ghost use Rattle.guest_steps.specs.Flows.{flow_of, is_link, jump_register};

use rv_isa::{Insn, Reg};

/// What an instruction is for the flow of a program, by the calling convention: x1 and x5 hold return addresses.
#[derive(Clone, Copy, Debug, PartialEq, Eq)]
pub enum Flow {
    /// It jumps and keeps the address after it.
    Call,
    /// It jumps to an address that was kept.
    Return,
    /// It may jump.
    Branch,
    /// None of these.
    Other,
}

/// What an instruction is for the flow of a program.
pub fn flow_of(insn: Insn) -> Flow
    ensures { result ≡ flow_of insn }
{
    match insn {
        Insn::Jal { rd, .. } => { if is_link(rd) { Flow::Call } else { Flow::Other } }
        Insn::Jalr { rd, rs1, .. } => jump_register(rd, rs1),
        Insn::Branch { .. } => Flow::Branch,
        _ => Flow::Other,
    }
}

fn jump_register(rd: Reg, rs1: Reg) -> Flow
    ensures { result ≡ jump_register rd rs1 }
{
    if is_link(rd) {
        return Flow::Call;
    }
    if rd.index() == 0 && is_link(rs1) {
        return Flow::Return;
    }
    Flow::Other
}

/// Whether a register holds return addresses.
fn is_link(named: Reg) -> bool
    ensures { result ≡ is_link named }
{
    let number = named.index();
    number == 1 || number == 5
}
