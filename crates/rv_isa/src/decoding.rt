//! From a word to its instruction, if it is one of RV32I, M or A.

ghost use Rattle.std.specs.Prelude.{◌≡◌, IfSome};
ghost use Rattle.rv_isa.specs.declared.instruction.Insn.{Insn};
ghost use Rattle.rv_isa.specs.Table.{Agrees, insn_of, jalr_of, branch_of, load_of, store_of, op_immediate_of, shift_of, op_of, fence_of, amo_of, reservation_of, system_of};

use super::fields::{
    branch_offset, fence_bits, field, funct3, immediate, jump_offset, opcode, rd, rs1, rs2,
    shift_amount, store_immediate, upper_immediate,
};
use super::instruction::Insn;
use super::kind_of_word::{
    amo_kind, branch_kind, immediate_kind, load_kind, op_kind, reservation_kind, shift_kind,
    store_kind,
};
use super::kinds::ReservationKind;
use super::opcodes;

/// The instruction that a word stands for, or `None` for a word outside RV32I, M and A (unprivileged manual).
#[inline(always)]
#[tactic(auto, using(crate::proofs::TableLaws::found_agrees, crate::proofs::TableLaws::only_agreeing))]
pub fn decode(word: u32) -> Option<Insn>
    ensures value { result ≡ insn_of word }
    ensures found { IfSome result (Agrees word) }
    ensures only { (insn : Insn) → Agrees word insn → result ≡ Some insn }
{
    by_opcode(word)
}

#[inline(always)]
#[tactic(auto, unfolding(crate::specs::Table::insn_of, crate::specs::Table::operation_of))]
fn by_opcode(word: u32) -> Option<Insn>
    ensures { result ≡ insn_of word }
{
    match opcode(word) {
        opcodes::LUI => Some(Insn::Lui {
            rd: rd(word),
            immediate: upper_immediate(word),
        }),
        opcodes::AUIPC => Some(Insn::Auipc {
            rd: rd(word),
            immediate: upper_immediate(word),
        }),
        opcodes::JAL => Some(Insn::Jal {
            rd: rd(word),
            offset: jump_offset(word),
        }),
        opcodes::JALR => jalr(word),
        opcodes::BRANCH => branch(word),
        opcodes::LOAD => load(word),
        opcodes::STORE => store(word),
        opcodes::OP_IMM => op_immediate(word),
        opcodes::OP => op(word),
        opcodes::MISC_MEM => fence(word),
        opcodes::AMO => amo(word),
        opcodes::SYSTEM => system(word),
        _ => None,
    }
}

#[inline(always)]
#[tactic(auto, unfolding(crate::specs::Table::jalr_of))]
fn jalr(word: u32) -> Option<Insn>
    ensures { result ≡ jalr_of word }
{
    if funct3(word) == 0b000 {
        Some(Insn::Jalr {
            rd: rd(word),
            rs1: rs1(word),
            offset: immediate(word),
        })
    } else {
        None
    }
}

#[inline(always)]
#[tactic(auto, unfolding(crate::specs::Table::branch_of))]
fn branch(word: u32) -> Option<Insn>
    ensures { result ≡ branch_of word }
{
    let kind = branch_kind(word)?;
    Some(Insn::Branch {
        kind,
        rs1: rs1(word),
        rs2: rs2(word),
        offset: branch_offset(word),
    })
}

#[inline(always)]
#[tactic(auto, unfolding(crate::specs::Table::load_of))]
fn load(word: u32) -> Option<Insn>
    ensures { result ≡ load_of word }
{
    let kind = load_kind(word)?;
    Some(Insn::Load {
        kind,
        rd: rd(word),
        rs1: rs1(word),
        offset: immediate(word),
    })
}

#[inline(always)]
#[tactic(auto, unfolding(crate::specs::Table::store_of))]
fn store(word: u32) -> Option<Insn>
    ensures { result ≡ store_of word }
{
    let kind = store_kind(word)?;
    Some(Insn::Store {
        kind,
        rs1: rs1(word),
        rs2: rs2(word),
        offset: store_immediate(word),
    })
}

#[inline(always)]
#[tactic(auto, unfolding(crate::specs::Table::op_immediate_of))]
fn op_immediate(word: u32) -> Option<Insn>
    ensures { result ≡ op_immediate_of word }
{
    match immediate_kind(word) {
        Some(kind) => Some(Insn::OpImmediate {
            kind,
            rd: rd(word),
            rs1: rs1(word),
            immediate: immediate(word),
        }),
        None => shift(word),
    }
}

#[inline(always)]
#[tactic(auto, unfolding(crate::specs::Table::shift_of))]
fn shift(word: u32) -> Option<Insn>
    ensures { result ≡ shift_of word }
{
    let kind = shift_kind(word)?;
    Some(Insn::Shift {
        kind,
        rd: rd(word),
        rs1: rs1(word),
        amount: shift_amount(word),
    })
}

#[inline(always)]
#[tactic(auto, unfolding(crate::specs::Table::op_of))]
fn op(word: u32) -> Option<Insn>
    ensures { result ≡ op_of word }
{
    let kind = op_kind(word)?;
    Some(Insn::Op {
        kind,
        rd: rd(word),
        rs1: rs1(word),
        rs2: rs2(word),
    })
}

#[inline(always)]
#[tactic(auto, unfolding(crate::specs::Table::fence_of))]
fn fence(word: u32) -> Option<Insn>
    ensures { result ≡ fence_of word }
{
    if funct3(word) == 0 {
        Some(Insn::Fence {
            bits: fence_bits(word),
            rd: rd(word),
            rs1: rs1(word),
        })
    } else {
        None
    }
}

#[inline(always)]
#[tactic(auto, unfolding(crate::specs::Table::amo_of))]
fn amo(word: u32) -> Option<Insn>
    ensures { result ≡ amo_of word }
{
    match amo_kind(word) {
        Some(kind) => Some(Insn::Amo {
            kind,
            acquire: field(word, 26, 26) == 1,
            release: field(word, 25, 25) == 1,
            rd: rd(word),
            rs1: rs1(word),
            rs2: rs2(word),
        }),
        None => reservation(word),
    }
}

#[inline(always)]
#[tactic(auto, unfolding(crate::specs::Table::reservation_of))]
fn reservation(word: u32) -> Option<Insn>
    ensures { result ≡ reservation_of word }
{
    match reservation_kind(word) {
        Some(ReservationKind::Lr) => Some(Insn::LoadReserved {
            acquire: field(word, 26, 26) == 1,
            release: field(word, 25, 25) == 1,
            rd: rd(word),
            rs1: rs1(word),
        }),
        Some(ReservationKind::Sc) => Some(Insn::StoreConditional {
            acquire: field(word, 26, 26) == 1,
            release: field(word, 25, 25) == 1,
            rd: rd(word),
            rs1: rs1(word),
            rs2: rs2(word),
        }),
        None => None,
    }
}

#[inline(always)]
#[tactic(auto, unfolding(crate::specs::Table::system_of))]
fn system(word: u32) -> Option<Insn>
    ensures { result ≡ system_of word }
{
    match word {
        0x0000_0073 => Some(Insn::Ecall),
        0x0010_0073 => Some(Insn::Ebreak),
        _ => None,
    }
}
