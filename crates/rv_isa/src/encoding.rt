//! From an instruction to its word, by the manual's formats.

ghost use Rattle.std.specs.Prelude.{◌≡◌, ℕ, ◌^◌, ◌<◌};
ghost use Rattle.rv_isa.specs.Table.{Agrees, IsRFormat, IsIFormat, IsSFormat, IsBFormat, IsUFormat, IsJFormat, IsFenceFormat, IsAmoFormat, branch_code, load_code, store_code, immediate_code, shift_code, op_code, amo_code, flag_code};

use super::fields::field;
use super::instruction::Insn;
use super::kinds::{
    AmoKind, BranchKind, Code, ImmediateKind, LoadKind, OpKind, ShiftKind, StoreKind,
};
use super::opcodes;
use super::operands::{BranchOffset, FenceBits, Immediate, JumpOffset, Reg, UpperImmediate};

/// The upper five bits of LR.W.
const LOAD_RESERVED: u32 = 0b00010;

/// The upper five bits of SC.W.
const STORE_CONDITIONAL: u32 = 0b00011;

/// The word of an instruction, in the formats of the unprivileged manual.
pub fn encode(insn: Insn) -> u32
    ensures found { Agrees result insn }
    ensures only { (word : ℕ) → word < 2 ^ 32 → Agrees word insn → word ≡ result }
{
    word_of(insn)
}

#[tactic(auto, unfolding(crate::specs::Table::Agrees))]
fn word_of(insn: Insn) -> u32
    ensures { Agrees result insn }
{
    match insn {
        Insn::Lui { rd, immediate } => u_format(opcodes::LUI, rd, immediate),
        Insn::Auipc { rd, immediate } => u_format(opcodes::AUIPC, rd, immediate),
        Insn::Jal { rd, offset } => j_format(opcodes::JAL, rd, offset),
        Insn::Jalr { rd, rs1, offset } => i_format(opcodes::JALR, 0, rd, rs1, offset),
        Insn::Branch {
            kind,
            rs1,
            rs2,
            offset,
        } => { b_format(opcodes::BRANCH, branch_code(kind), rs1, rs2, offset) }
        Insn::Load {
            kind,
            rd,
            rs1,
            offset,
        } => i_format(opcodes::LOAD, load_code(kind), rd, rs1, offset),
        Insn::Store {
            kind,
            rs1,
            rs2,
            offset,
        } => s_format(opcodes::STORE, store_code(kind), rs1, rs2, offset),
        Insn::OpImmediate {
            kind,
            rd,
            rs1,
            immediate,
        } => { i_format(opcodes::OP_IMM, immediate_code(kind), rd, rs1, immediate) }
        Insn::Shift {
            kind,
            rd,
            rs1,
            amount,
        } => { r_format(opcodes::OP_IMM, shift_code(kind), rd, rs1, amount.value()) }
        Insn::Op { kind, rd, rs1, rs2 } => {
            r_format(opcodes::OP, op_code(kind), rd, rs1, rs2.index())
        }
        Insn::Fence { bits, rd, rs1 } => fence_format(opcodes::MISC_MEM, bits, rd, rs1),
        Insn::Amo {
            kind,
            acquire,
            release,
            rd,
            rs1,
            rs2,
        } => {
            let ordering = (flag_code(acquire), flag_code(release));
            amo_format(amo_code(kind), ordering, rd, rs1, rs2)
        }
        Insn::LoadReserved {
            acquire,
            release,
            rd,
            rs1,
        } => {
            let ordering = (flag_code(acquire), flag_code(release));
            amo_format(LOAD_RESERVED, ordering, rd, rs1, Reg::from_index(0))
        }
        Insn::StoreConditional {
            acquire,
            release,
            rd,
            rs1,
            rs2,
        } => {
            let ordering = (flag_code(acquire), flag_code(release));
            amo_format(STORE_CONDITIONAL, ordering, rd, rs1, rs2)
        }
        Insn::Ecall => 0x0000_0073,
        Insn::Ebreak => 0x0010_0073,
    }
}

/// A word of the R format, where `rs2` may also be a shift amount.
fn r_format(opcode: u32, code: Code, rd: Reg, rs1: Reg, rs2: u8) -> u32
    requires opcode_fits { opcode < 2 ^ 7 }
    requires funct7_fits { code.funct7 < 2 ^ 7 }
    requires funct3_fits { code.funct3 < 2 ^ 3 }
    requires rs2_fits { rs2 < 2 ^ 5 }
    ensures { IsRFormat result opcode code rd rs1 rs2 }
{
    let rs2 = u32::from(rs2);
    let rs1 = u32::from(rs1.index());
    let rd = u32::from(rd.index());
    (code.funct7 << 25) + (rs2 << 20) + (rs1 << 15) + (code.funct3 << 12) + (rd << 7) + opcode
}

/// A word of the I format.
fn i_format(opcode: u32, funct3: u32, rd: Reg, rs1: Reg, immediate: Immediate) -> u32
    requires opcode_fits { opcode < 2 ^ 7 }
    requires funct3_fits { funct3 < 2 ^ 3 }
    ensures { IsIFormat result opcode funct3 rd rs1 immediate }
{
    let immediate = field(immediate.word(), 11, 0);
    let rs1 = u32::from(rs1.index());
    let rd = u32::from(rd.index());
    (immediate << 20) + (rs1 << 15) + (funct3 << 12) + (rd << 7) + opcode
}

/// A word of the S format.
fn s_format(opcode: u32, funct3: u32, rs1: Reg, rs2: Reg, immediate: Immediate) -> u32
    requires opcode_fits { opcode < 2 ^ 7 }
    requires funct3_fits { funct3 < 2 ^ 3 }
    ensures { IsSFormat result opcode funct3 rs1 rs2 immediate }
{
    let immediate = immediate.word();
    let rs2 = u32::from(rs2.index());
    let rs1 = u32::from(rs1.index());
    let high = field(immediate, 11, 5);
    let low = field(immediate, 4, 0);
    (high << 25) + (rs2 << 20) + (rs1 << 15) + (funct3 << 12) + (low << 7) + opcode
}

/// A word of the B format.
fn b_format(opcode: u32, funct3: u32, rs1: Reg, rs2: Reg, offset: BranchOffset) -> u32
    requires opcode_fits { opcode < 2 ^ 7 }
    requires funct3_fits { funct3 < 2 ^ 3 }
    ensures { IsBFormat result opcode funct3 rs1 rs2 offset }
{
    let offset = offset.word();
    let rs2 = u32::from(rs2.index());
    let rs1 = u32::from(rs1.index());
    let high = (field(offset, 12, 12) << 6) + field(offset, 10, 5);
    let low = (field(offset, 4, 1) << 1) + field(offset, 11, 11);
    (high << 25) + (rs2 << 20) + (rs1 << 15) + (funct3 << 12) + (low << 7) + opcode
}

/// A word of the U format.
fn u_format(opcode: u32, rd: Reg, immediate: UpperImmediate) -> u32
    requires { opcode < 2 ^ 7 }
    ensures { IsUFormat result opcode rd immediate }
{
    let rd = u32::from(rd.index());
    (immediate.value() << 12) + (rd << 7) + opcode
}

/// A word of the J format.
fn j_format(opcode: u32, rd: Reg, offset: JumpOffset) -> u32
    requires { opcode < 2 ^ 7 }
    ensures { IsJFormat result opcode rd offset }
{
    let offset = offset.word();
    let rd = u32::from(rd.index());
    let high = (field(offset, 20, 20) << 10) + field(offset, 10, 1);
    let low = (field(offset, 11, 11) << 8) + field(offset, 19, 12);
    (high << 21) + (low << 12) + (rd << 7) + opcode
}

/// A fence's word, with funct3 0.
fn fence_format(opcode: u32, bits: FenceBits, rd: Reg, rs1: Reg) -> u32
    requires { opcode < 2 ^ 7 }
    ensures { IsFenceFormat result opcode 0 bits rd rs1 }
{
    let bits = u32::from(bits.value());
    let rs1 = u32::from(rs1.index());
    let rd = u32::from(rd.index());
    (bits << 20) + (rs1 << 15) + (rd << 7) + opcode
}

/// A word of opcode AMO on 32 bits; the ordering is the acquire and the release flag.
fn amo_format(funct5: u32, ordering: (u32, u32), rd: Reg, rs1: Reg, rs2: Reg) -> u32
    requires funct5_fits { funct5 < 2 ^ 5 }
    requires acquire_fits { ordering.0 < 2 }
    requires release_fits { ordering.1 < 2 }
    ensures { IsAmoFormat result 0b0101111 funct5 ordering.0 ordering.1 0b010 rd rs1 rs2 }
{
    let rs2 = u32::from(rs2.index());
    let rs1 = u32::from(rs1.index());
    let rd = u32::from(rd.index());
    let funct7 = (funct5 << 2) + (ordering.0 << 1) + ordering.1;
    (funct7 << 25) + (rs2 << 20) + (rs1 << 15) + (0b010 << 12) + (rd << 7) + opcodes::AMO
}

/// A flag as a bit.
fn flag_code(flag: bool) -> u32
    ensures value { result ≡ flag_code flag }
    ensures below { result < 2 }
{
    if flag { 1 } else { 0 }
}

fn branch_code(kind: BranchKind) -> u32
    ensures value { result ≡ branch_code kind }
    ensures below { result < 2 ^ 3 }
{
    match kind {
        BranchKind::Beq => 0b000,
        BranchKind::Bne => 0b001,
        BranchKind::Blt => 0b100,
        BranchKind::Bge => 0b101,
        BranchKind::Bltu => 0b110,
        BranchKind::Bgeu => 0b111,
    }
}

fn load_code(kind: LoadKind) -> u32
    ensures value { result ≡ load_code kind }
    ensures below { result < 2 ^ 3 }
{
    match kind {
        LoadKind::Lb => 0b000,
        LoadKind::Lh => 0b001,
        LoadKind::Lw => 0b010,
        LoadKind::Lbu => 0b100,
        LoadKind::Lhu => 0b101,
    }
}

fn store_code(kind: StoreKind) -> u32
    ensures value { result ≡ store_code kind }
    ensures below { result < 2 ^ 3 }
{
    match kind {
        StoreKind::Sb => 0b000,
        StoreKind::Sh => 0b001,
        StoreKind::Sw => 0b010,
    }
}

fn immediate_code(kind: ImmediateKind) -> u32
    ensures value { result ≡ immediate_code kind }
    ensures below { result < 2 ^ 3 }
{
    match kind {
        ImmediateKind::Addi => 0b000,
        ImmediateKind::Slti => 0b010,
        ImmediateKind::Sltiu => 0b011,
        ImmediateKind::Xori => 0b100,
        ImmediateKind::Ori => 0b110,
        ImmediateKind::Andi => 0b111,
    }
}

fn shift_code(kind: ShiftKind) -> Code
    ensures value { result ≡ shift_code kind }
    ensures funct7_below { result.funct7 < 2 ^ 7 }
    ensures funct3_below { result.funct3 < 2 ^ 3 }
{
    let (funct7, funct3) = match kind {
        ShiftKind::Slli => (0b000_0000, 0b001),
        ShiftKind::Srli => (0b000_0000, 0b101),
        ShiftKind::Srai => (0b010_0000, 0b101),
    };
    Code { funct7, funct3 }
}

fn op_code(kind: OpKind) -> Code
    ensures value { result ≡ op_code kind }
    ensures funct7_below { result.funct7 < 2 ^ 7 }
    ensures funct3_below { result.funct3 < 2 ^ 3 }
{
    let (funct7, funct3) = match kind {
        OpKind::Add => (0b000_0000, 0b000),
        OpKind::Sub => (0b010_0000, 0b000),
        OpKind::Sll => (0b000_0000, 0b001),
        OpKind::Slt => (0b000_0000, 0b010),
        OpKind::Sltu => (0b000_0000, 0b011),
        OpKind::Xor => (0b000_0000, 0b100),
        OpKind::Srl => (0b000_0000, 0b101),
        OpKind::Sra => (0b010_0000, 0b101),
        OpKind::Or => (0b000_0000, 0b110),
        OpKind::And => (0b000_0000, 0b111),
        OpKind::Mul => (0b000_0001, 0b000),
        OpKind::Mulh => (0b000_0001, 0b001),
        OpKind::Mulhsu => (0b000_0001, 0b010),
        OpKind::Mulhu => (0b000_0001, 0b011),
        OpKind::Div => (0b000_0001, 0b100),
        OpKind::Divu => (0b000_0001, 0b101),
        OpKind::Rem => (0b000_0001, 0b110),
        OpKind::Remu => (0b000_0001, 0b111),
    };
    Code { funct7, funct3 }
}

fn amo_code(kind: AmoKind) -> u32
    ensures value { result ≡ amo_code kind }
    ensures below { result < 2 ^ 5 }
{
    match kind {
        AmoKind::Amoadd => 0b00000,
        AmoKind::Amoswap => 0b00001,
        AmoKind::Amoxor => 0b00100,
        AmoKind::Amoor => 0b01000,
        AmoKind::Amoand => 0b01100,
        AmoKind::Amomin => 0b10000,
        AmoKind::Amomax => 0b10100,
        AmoKind::Amominu => 0b11000,
        AmoKind::Amomaxu => 0b11100,
    }
}
