//! What opcode and funct3 tell of a word: one of few forms, so that words are told apart by one jump.
ghost use Rattle.std.specs.Prelude.{◌≡◌};
ghost use Rattle.rv_isa.specs.Bits.{bits};
ghost use Rattle.rv_isa.specs.Table.{insn_of};
ghost use Rattle.rv_isa.specs.Forms.{form_of, insn_of_form};

use super::fields::{funct3, opcode};

/// What opcode and funct3 tell of a word: one instruction, or several that its other fields tell apart, or that there is none.
#[derive(Clone, Copy, Debug, PartialEq, Eq)]
pub enum Form {
    /// No instruction has this opcode and funct3.
    Illegal,
    Lui,
    Auipc,
    Jal,
    Jalr,
    Beq,
    Bne,
    Blt,
    Bge,
    Bltu,
    Bgeu,
    Lb,
    Lh,
    Lw,
    Lbu,
    Lhu,
    Sb,
    Sh,
    Sw,
    Addi,
    Slti,
    Sltiu,
    Xori,
    Ori,
    Andi,
    /// SLLI.
    ShiftLeft,
    /// SRLI and SRAI.
    ShiftRight,
    AddSubMul,
    SllMulh,
    SltMulhsu,
    SltuMulhu,
    XorDiv,
    SrlSraDivu,
    OrRem,
    AndRemu,
    Fence,
    /// The atomic memory operations, LR.W and SC.W, and what else has opcode AMO.
    Amo,
    /// ECALL and EBREAK, and what else has opcode SYSTEM.
    System,
}

/// The forms of the words of a funct3, by opcode.
type Row = [Form; 128];

/// No instruction.
const NO: Form = Form::Illegal;

#[rattlefmt::skip]
const FUNCT3_0: Row = [
    NO, NO, NO, Form::Lb, NO, NO, NO, NO, NO, NO, NO, NO, NO, NO, NO, Form::Fence,
    NO, NO, NO, Form::Addi, NO, NO, NO, Form::Auipc, NO, NO, NO, NO, NO, NO, NO, NO,
    NO, NO, NO, Form::Sb, NO, NO, NO, NO, NO, NO, NO, NO, NO, NO, NO, Form::Amo,
    NO, NO, NO, Form::AddSubMul, NO, NO, NO, Form::Lui, NO, NO, NO, NO, NO, NO, NO, NO,
    NO, NO, NO, NO, NO, NO, NO, NO, NO, NO, NO, NO, NO, NO, NO, NO,
    NO, NO, NO, NO, NO, NO, NO, NO, NO, NO, NO, NO, NO, NO, NO, NO,
    NO, NO, NO, Form::Beq, NO, NO, NO, Form::Jalr, NO, NO, NO, NO, NO, NO, NO, Form::Jal,
    NO, NO, NO, Form::System, NO, NO, NO, NO, NO, NO, NO, NO, NO, NO, NO, NO,
];

#[rattlefmt::skip]
const FUNCT3_1: Row = [
    NO, NO, NO, Form::Lh, NO, NO, NO, NO, NO, NO, NO, NO, NO, NO, NO, NO,
    NO, NO, NO, Form::ShiftLeft, NO, NO, NO, Form::Auipc, NO, NO, NO, NO, NO, NO, NO, NO,
    NO, NO, NO, Form::Sh, NO, NO, NO, NO, NO, NO, NO, NO, NO, NO, NO, Form::Amo,
    NO, NO, NO, Form::SllMulh, NO, NO, NO, Form::Lui, NO, NO, NO, NO, NO, NO, NO, NO,
    NO, NO, NO, NO, NO, NO, NO, NO, NO, NO, NO, NO, NO, NO, NO, NO,
    NO, NO, NO, NO, NO, NO, NO, NO, NO, NO, NO, NO, NO, NO, NO, NO,
    NO, NO, NO, Form::Bne, NO, NO, NO, NO, NO, NO, NO, NO, NO, NO, NO, Form::Jal,
    NO, NO, NO, Form::System, NO, NO, NO, NO, NO, NO, NO, NO, NO, NO, NO, NO,
];

#[rattlefmt::skip]
const FUNCT3_2: Row = [
    NO, NO, NO, Form::Lw, NO, NO, NO, NO, NO, NO, NO, NO, NO, NO, NO, NO,
    NO, NO, NO, Form::Slti, NO, NO, NO, Form::Auipc, NO, NO, NO, NO, NO, NO, NO, NO,
    NO, NO, NO, Form::Sw, NO, NO, NO, NO, NO, NO, NO, NO, NO, NO, NO, Form::Amo,
    NO, NO, NO, Form::SltMulhsu, NO, NO, NO, Form::Lui, NO, NO, NO, NO, NO, NO, NO, NO,
    NO, NO, NO, NO, NO, NO, NO, NO, NO, NO, NO, NO, NO, NO, NO, NO,
    NO, NO, NO, NO, NO, NO, NO, NO, NO, NO, NO, NO, NO, NO, NO, NO,
    NO, NO, NO, NO, NO, NO, NO, NO, NO, NO, NO, NO, NO, NO, NO, Form::Jal,
    NO, NO, NO, Form::System, NO, NO, NO, NO, NO, NO, NO, NO, NO, NO, NO, NO,
];

#[rattlefmt::skip]
const FUNCT3_3: Row = [
    NO, NO, NO, NO, NO, NO, NO, NO, NO, NO, NO, NO, NO, NO, NO, NO,
    NO, NO, NO, Form::Sltiu, NO, NO, NO, Form::Auipc, NO, NO, NO, NO, NO, NO, NO, NO,
    NO, NO, NO, NO, NO, NO, NO, NO, NO, NO, NO, NO, NO, NO, NO, Form::Amo,
    NO, NO, NO, Form::SltuMulhu, NO, NO, NO, Form::Lui, NO, NO, NO, NO, NO, NO, NO, NO,
    NO, NO, NO, NO, NO, NO, NO, NO, NO, NO, NO, NO, NO, NO, NO, NO,
    NO, NO, NO, NO, NO, NO, NO, NO, NO, NO, NO, NO, NO, NO, NO, NO,
    NO, NO, NO, NO, NO, NO, NO, NO, NO, NO, NO, NO, NO, NO, NO, Form::Jal,
    NO, NO, NO, Form::System, NO, NO, NO, NO, NO, NO, NO, NO, NO, NO, NO, NO,
];

#[rattlefmt::skip]
const FUNCT3_4: Row = [
    NO, NO, NO, Form::Lbu, NO, NO, NO, NO, NO, NO, NO, NO, NO, NO, NO, NO,
    NO, NO, NO, Form::Xori, NO, NO, NO, Form::Auipc, NO, NO, NO, NO, NO, NO, NO, NO,
    NO, NO, NO, NO, NO, NO, NO, NO, NO, NO, NO, NO, NO, NO, NO, Form::Amo,
    NO, NO, NO, Form::XorDiv, NO, NO, NO, Form::Lui, NO, NO, NO, NO, NO, NO, NO, NO,
    NO, NO, NO, NO, NO, NO, NO, NO, NO, NO, NO, NO, NO, NO, NO, NO,
    NO, NO, NO, NO, NO, NO, NO, NO, NO, NO, NO, NO, NO, NO, NO, NO,
    NO, NO, NO, Form::Blt, NO, NO, NO, NO, NO, NO, NO, NO, NO, NO, NO, Form::Jal,
    NO, NO, NO, Form::System, NO, NO, NO, NO, NO, NO, NO, NO, NO, NO, NO, NO,
];

#[rattlefmt::skip]
const FUNCT3_5: Row = [
    NO, NO, NO, Form::Lhu, NO, NO, NO, NO, NO, NO, NO, NO, NO, NO, NO, NO,
    NO, NO, NO, Form::ShiftRight, NO, NO, NO, Form::Auipc, NO, NO, NO, NO, NO, NO, NO, NO,
    NO, NO, NO, NO, NO, NO, NO, NO, NO, NO, NO, NO, NO, NO, NO, Form::Amo,
    NO, NO, NO, Form::SrlSraDivu, NO, NO, NO, Form::Lui, NO, NO, NO, NO, NO, NO, NO, NO,
    NO, NO, NO, NO, NO, NO, NO, NO, NO, NO, NO, NO, NO, NO, NO, NO,
    NO, NO, NO, NO, NO, NO, NO, NO, NO, NO, NO, NO, NO, NO, NO, NO,
    NO, NO, NO, Form::Bge, NO, NO, NO, NO, NO, NO, NO, NO, NO, NO, NO, Form::Jal,
    NO, NO, NO, Form::System, NO, NO, NO, NO, NO, NO, NO, NO, NO, NO, NO, NO,
];

#[rattlefmt::skip]
const FUNCT3_6: Row = [
    NO, NO, NO, NO, NO, NO, NO, NO, NO, NO, NO, NO, NO, NO, NO, NO,
    NO, NO, NO, Form::Ori, NO, NO, NO, Form::Auipc, NO, NO, NO, NO, NO, NO, NO, NO,
    NO, NO, NO, NO, NO, NO, NO, NO, NO, NO, NO, NO, NO, NO, NO, Form::Amo,
    NO, NO, NO, Form::OrRem, NO, NO, NO, Form::Lui, NO, NO, NO, NO, NO, NO, NO, NO,
    NO, NO, NO, NO, NO, NO, NO, NO, NO, NO, NO, NO, NO, NO, NO, NO,
    NO, NO, NO, NO, NO, NO, NO, NO, NO, NO, NO, NO, NO, NO, NO, NO,
    NO, NO, NO, Form::Bltu, NO, NO, NO, NO, NO, NO, NO, NO, NO, NO, NO, Form::Jal,
    NO, NO, NO, Form::System, NO, NO, NO, NO, NO, NO, NO, NO, NO, NO, NO, NO,
];

#[rattlefmt::skip]
const FUNCT3_7: Row = [
    NO, NO, NO, NO, NO, NO, NO, NO, NO, NO, NO, NO, NO, NO, NO, NO,
    NO, NO, NO, Form::Andi, NO, NO, NO, Form::Auipc, NO, NO, NO, NO, NO, NO, NO, NO,
    NO, NO, NO, NO, NO, NO, NO, NO, NO, NO, NO, NO, NO, NO, NO, Form::Amo,
    NO, NO, NO, Form::AndRemu, NO, NO, NO, Form::Lui, NO, NO, NO, NO, NO, NO, NO, NO,
    NO, NO, NO, NO, NO, NO, NO, NO, NO, NO, NO, NO, NO, NO, NO, NO,
    NO, NO, NO, NO, NO, NO, NO, NO, NO, NO, NO, NO, NO, NO, NO, NO,
    NO, NO, NO, Form::Bgeu, NO, NO, NO, NO, NO, NO, NO, NO, NO, NO, NO, Form::Jal,
    NO, NO, NO, Form::System, NO, NO, NO, NO, NO, NO, NO, NO, NO, NO, NO, NO,
];

/// The rows by funct3, each once for each rd: a word of which only opcode and funct3 are left is the place of its form.
static FORMS: [[Row; 32]; 8] = [
    [FUNCT3_0; 32],
    [FUNCT3_1; 32],
    [FUNCT3_2; 32],
    [FUNCT3_3; 32],
    [FUNCT3_4; 32],
    [FUNCT3_5; 32],
    [FUNCT3_6; 32],
    [FUNCT3_7; 32],
];

/// The form of a word.
#[inline(always)]
pub fn form_of_word(word: u32) -> Form
    ensures value { result ≡ form_of (bits word 6 0) (bits word 14 12) }
    ensures meaning { insn_of word ≡ insn_of_form result word }
{
    let place = opcode(word) + funct3(word) * 0x1000;
    FORMS.as_flattened().as_flattened()[place as usize]
}
