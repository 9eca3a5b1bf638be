//! What the fields of a word that are no operands ask for, under one opcode each (unprivileged manual, "RV32/64G Instruction
//! Set Listings"). The opcode is not tested again.
ghost use Rattle.std.specs.Prelude.{◌≡◌};
ghost use Rattle.rv_isa.specs.Bits.{bits};
ghost use Rattle.rv_isa.specs.Table.{branch_kind, load_kind, store_kind, immediate_kind, shift_kind, op_kind, amo_kind, reservation_kind};

use super::fields::{field, funct3, funct7};
use super::kinds::{
    AmoKind, BranchKind, ImmediateKind, LoadKind, OpKind, ReservationKind, ShiftKind, StoreKind,
};

/// What a word of opcode BRANCH compares, if its funct3 stands for a comparison.
#[inline(always)]
#[tactic(auto, unfolding(crate::specs::Table::branch_kind))]
pub fn branch_kind(word: u32) -> Option<BranchKind>
    ensures { result ≡ branch_kind (bits word 14 12) }
{
    match funct3(word) {
        0b000 => Some(BranchKind::Beq),
        0b001 => Some(BranchKind::Bne),
        0b100 => Some(BranchKind::Blt),
        0b101 => Some(BranchKind::Bge),
        0b110 => Some(BranchKind::Bltu),
        0b111 => Some(BranchKind::Bgeu),
        _ => None,
    }
}

/// What a word of opcode LOAD reads, if its funct3 stands for a load.
#[inline(always)]
#[tactic(auto, unfolding(crate::specs::Table::load_kind))]
pub fn load_kind(word: u32) -> Option<LoadKind>
    ensures { result ≡ load_kind (bits word 14 12) }
{
    match funct3(word) {
        0b000 => Some(LoadKind::Lb),
        0b001 => Some(LoadKind::Lh),
        0b010 => Some(LoadKind::Lw),
        0b100 => Some(LoadKind::Lbu),
        0b101 => Some(LoadKind::Lhu),
        _ => None,
    }
}

/// What a word of opcode STORE writes, if its funct3 stands for a store.
#[inline(always)]
#[tactic(auto, unfolding(crate::specs::Table::store_kind))]
pub fn store_kind(word: u32) -> Option<StoreKind>
    ensures { result ≡ store_kind (bits word 14 12) }
{
    match funct3(word) {
        0b000 => Some(StoreKind::Sb),
        0b001 => Some(StoreKind::Sh),
        0b010 => Some(StoreKind::Sw),
        _ => None,
    }
}

/// What a word of opcode OP-IMM does with its immediate, if it is no shift.
#[inline(always)]
#[tactic(auto, unfolding(crate::specs::Table::immediate_kind))]
pub fn immediate_kind(word: u32) -> Option<ImmediateKind>
    ensures { result ≡ immediate_kind (bits word 14 12) }
{
    match funct3(word) {
        0b000 => Some(ImmediateKind::Addi),
        0b010 => Some(ImmediateKind::Slti),
        0b011 => Some(ImmediateKind::Sltiu),
        0b100 => Some(ImmediateKind::Xori),
        0b110 => Some(ImmediateKind::Ori),
        0b111 => Some(ImmediateKind::Andi),
        _ => None,
    }
}

/// The shift that a word of opcode OP-IMM asks for, if its funct7 and funct3 stand for one.
#[inline(always)]
#[tactic(auto, unfolding(crate::specs::Table::shift_kind))]
pub fn shift_kind(word: u32) -> Option<ShiftKind>
    ensures { result ≡ shift_kind (bits word 31 25) (bits word 14 12) }
{
    match (funct7(word), funct3(word)) {
        (0b000_0000, 0b001) => Some(ShiftKind::Slli),
        (0b000_0000, 0b101) => Some(ShiftKind::Srli),
        (0b010_0000, 0b101) => Some(ShiftKind::Srai),
        _ => None,
    }
}

/// What a word of opcode OP does with two registers, if its funct7 and funct3 stand for an operation.
#[inline(always)]
#[tactic(auto, unfolding(crate::specs::Table::op_kind))]
pub fn op_kind(word: u32) -> Option<OpKind>
    ensures { result ≡ op_kind (bits word 31 25) (bits word 14 12) }
{
    match funct7(word) {
        0b000_0000 => match funct3(word) {
            0b000 => Some(OpKind::Add),
            0b001 => Some(OpKind::Sll),
            0b010 => Some(OpKind::Slt),
            0b011 => Some(OpKind::Sltu),
            0b100 => Some(OpKind::Xor),
            0b101 => Some(OpKind::Srl),
            0b110 => Some(OpKind::Or),
            0b111 => Some(OpKind::And),
            _ => None,
        },
        0b000_0001 => match funct3(word) {
            0b000 => Some(OpKind::Mul),
            0b001 => Some(OpKind::Mulh),
            0b010 => Some(OpKind::Mulhsu),
            0b011 => Some(OpKind::Mulhu),
            0b100 => Some(OpKind::Div),
            0b101 => Some(OpKind::Divu),
            0b110 => Some(OpKind::Rem),
            0b111 => Some(OpKind::Remu),
            _ => None,
        },
        0b010_0000 => match funct3(word) {
            0b000 => Some(OpKind::Sub),
            0b101 => Some(OpKind::Sra),
            _ => None,
        },
        _ => None,
    }
}

/// What a word of opcode AMO makes of the old word, if its upper five bits and funct3 stand for an operation of Zaamo.
#[inline(always)]
#[tactic(auto, unfolding(crate::specs::Table::amo_kind))]
pub fn amo_kind(word: u32) -> Option<AmoKind>
    ensures { result ≡ amo_kind (bits word 31 27) (bits word 14 12) }
{
    if funct3(word) != 0b010 {
        return None;
    }
    match field(word, 31, 27) {
        0b00000 => Some(AmoKind::Amoadd),
        0b00001 => Some(AmoKind::Amoswap),
        0b00100 => Some(AmoKind::Amoxor),
        0b01000 => Some(AmoKind::Amoor),
        0b01100 => Some(AmoKind::Amoand),
        0b10000 => Some(AmoKind::Amomin),
        0b10100 => Some(AmoKind::Amomax),
        0b11000 => Some(AmoKind::Amominu),
        0b11100 => Some(AmoKind::Amomaxu),
        _ => None,
    }
}

/// What a word of opcode AMO does with a reservation, if its upper five bits and funct3 stand for LR.W, whose rs2 is 0, or SC.W.
#[inline(always)]
#[tactic(auto, unfolding(crate::specs::Table::reservation_kind))]
pub fn reservation_kind(word: u32) -> Option<ReservationKind>
    ensures { result ≡ reservation_kind (bits word 31 27) (bits word 24 20) (bits word 14 12) }
{
    if funct3(word) != 0b010 {
        return None;
    }
    match (field(word, 31, 27), field(word, 24, 20)) {
        (0b00010, 0) => Some(ReservationKind::Lr),
        (0b00011, _) => Some(ReservationKind::Sc),
        _ => None,
    }
}
