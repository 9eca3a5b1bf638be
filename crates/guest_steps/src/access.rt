//! What an instruction does to memory and to registers.

ghost use Rattle.std.specs.Prelude.{◌≡◌};
ghost use Rattle.guest_steps.specs.Accesses.{accessed, destination, word_at};

use rv_exec::{Regs, width_of_load, width_of_store};
use rv_isa::{Insn, Reg};

/// A load or a store: so many bytes from an address on.
#[derive(Clone, Copy, Debug, PartialEq, Eq)]
pub struct DataAccess {
    pub address: u32,
    pub bytes: u32,
    pub is_store: bool,
}

/// What an instruction loads or stores at these registers, if it may. An atomic operation and SC.W are stores.
pub fn access_of(regs: &Regs, insn: Insn) -> Option<DataAccess>
    ensures { result ≡ accessed regs.now insn }
{
    match insn {
        Insn::Load {
            kind,
            rd: _,
            rs1,
            offset,
        } => Some(DataAccess {
            address: regs.address_at(rs1, offset),
            bytes: width_of_load(kind).bytes(),
            is_store: false,
        }),
        Insn::Store {
            kind,
            rs1,
            rs2: _,
            offset,
        } => Some(DataAccess {
            address: regs.address_at(rs1, offset),
            bytes: width_of_store(kind).bytes(),
            is_store: true,
        }),
        Insn::Amo {
            kind: _,
            acquire: _,
            release: _,
            rd: _,
            rs1,
            rs2: _,
        } => Some(word_at(regs, rs1, true)),
        Insn::LoadReserved {
            acquire: _,
            release: _,
            rd: _,
            rs1,
        } => Some(word_at(regs, rs1, false)),
        Insn::StoreConditional {
            acquire: _,
            release: _,
            rd: _,
            rs1,
            rs2: _,
        } => Some(word_at(regs, rs1, true)),
        _ => None,
    }
}

/// The register that an instruction writes, if it writes one.
pub fn destination_of(insn: Insn) -> Option<Reg>
    ensures { result ≡ destination insn }
{
    match insn {
        Insn::Lui { rd, .. } => Some(rd),
        Insn::Auipc { rd, .. } => Some(rd),
        Insn::Jal { rd, .. } => Some(rd),
        Insn::Jalr { rd, .. } => Some(rd),
        Insn::Load { rd, .. } => Some(rd),
        Insn::OpImmediate { rd, .. } => Some(rd),
        Insn::Shift { rd, .. } => Some(rd),
        Insn::Op { rd, .. } => Some(rd),
        Insn::Amo { rd, .. } => Some(rd),
        Insn::LoadReserved { rd, .. } => Some(rd),
        Insn::StoreConditional { rd, .. } => Some(rd),
        Insn::Branch { .. } => None,
        Insn::Store { .. } => None,
        Insn::Fence { .. } => None,
        Insn::Ecall => None,
        Insn::Ebreak => None,
    }
}

/// The word to which a register leads.
fn word_at(regs: &Regs, rs1: Reg, is_store: bool) -> DataAccess
    ensures { result ≡ word_at regs.now rs1 is_store }
{
    DataAccess {
        address: regs.read(rs1),
        bytes: 4,
        is_store,
    }
}
