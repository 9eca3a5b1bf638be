//! Instructions as assembler text, with numeric registers; branches and jumps show distances in bytes.

use super::instruction::Insn;
use super::kinds::{AmoKind, BranchKind, ImmediateKind, LoadKind, OpKind, ShiftKind, StoreKind};
use super::operands::{FenceBits, Immediate, Reg};
use std::fmt;
use std::fmt::Write;

/// Writes an instruction as assembler text: numeric registers, decimal numbers, and operands parted only by a comma.
///
/// The target of a branch or jump is its signed distance in bytes, where the assembler has a label.
pub fn write_text<W: fmt::Write>(insn: Insn, out: &mut W) -> fmt::Result {
    write!(out, "{insn}")
}

impl fmt::Display for Reg {
    fn fmt<W: fmt::Write>(&self, f: &mut fmt::Formatter<W>) -> fmt::Result {
        write!(f, "x{}", self.index())
    }
}

impl fmt::Display for Insn {
    fn fmt<W: fmt::Write>(&self, f: &mut fmt::Formatter<W>) -> fmt::Result {
        match self {
            Insn::Lui { rd, immediate } => one_and_number(
                f,
                "lui",
                *rd,
                i64::from(immediate.value()),
            ),
            Insn::Auipc { rd, immediate } => one_and_number(
                f,
                "auipc",
                *rd,
                i64::from(immediate.value()),
            ),
            Insn::Jal { rd, offset } => one_and_number(f, "jal", *rd, i64::from(offset.value())),
            Insn::Jalr { rd, rs1, offset } => one_and_address(f, "jalr", *rd, *offset, *rs1),
            Insn::Branch {
                kind,
                rs1,
                rs2,
                offset,
            } => two_and_number(f, branch_name(*kind), *rs1, *rs2, i64::from(offset.value())),
            Insn::Load {
                kind,
                rd,
                rs1,
                offset,
            } => one_and_address(f, load_name(*kind), *rd, *offset, *rs1),
            Insn::Store {
                kind,
                rs1,
                rs2,
                offset,
            } => one_and_address(f, store_name(*kind), *rs2, *offset, *rs1),
            Insn::OpImmediate {
                kind,
                rd,
                rs1,
                immediate,
            } => two_and_number(
                f,
                immediate_name(*kind),
                *rd,
                *rs1,
                i64::from(immediate.value()),
            ),
            Insn::Shift {
                kind,
                rd,
                rs1,
                amount,
            } => two_and_number(f, shift_name(*kind), *rd, *rs1, i64::from(amount.value())),
            Insn::Op { kind, rd, rs1, rs2 } => three(f, op_name(*kind), *rd, *rs1, *rs2),
            Insn::Fence { bits, rd, rs1 } => write_fence(f, *bits, *rd, *rs1),
            Insn::Amo {
                kind,
                acquire,
                release,
                rd,
                rs1,
                rs2,
            } => two_and_base(
                f,
                amo_name(*kind),
                ordering_name(*acquire, *release),
                *rd,
                *rs2,
                *rs1,
            ),
            Insn::LoadReserved {
                acquire,
                release,
                rd,
                rs1,
            } => one_and_base(f, "lr", ordering_name(*acquire, *release), *rd, *rs1),
            Insn::StoreConditional {
                acquire,
                release,
                rd,
                rs1,
                rs2,
            } => two_and_base(f, "sc", ordering_name(*acquire, *release), *rd, *rs2, *rs1),
            Insn::Ecall => f.write_str("ecall"),
            Insn::Ebreak => f.write_str("ebreak"),
        }
    }
}

impl fmt::Debug for Insn {
    fn fmt<W: fmt::Write>(&self, f: &mut fmt::Formatter<W>) -> fmt::Result {
        write!(f, "{self}")
    }
}

fn one_and_number<W: fmt::Write>(
    f: &mut fmt::Formatter<W>,
    name: &str,
    a: Reg,
    number: i64,
) -> fmt::Result {
    write!(f, "{name} {a},{number}")
}

fn two_and_number<W: fmt::Write>(
    f: &mut fmt::Formatter<W>,
    name: &str,
    a: Reg,
    b: Reg,
    number: i64,
) -> fmt::Result {
    write!(f, "{name} {a},{b},{number}")
}

fn three<W: fmt::Write>(
    f: &mut fmt::Formatter<W>,
    name: &str,
    a: Reg,
    b: Reg,
    c: Reg,
) -> fmt::Result {
    write!(f, "{name} {a},{b},{c}")
}

fn one_and_address<W: fmt::Write>(
    f: &mut fmt::Formatter<W>,
    name: &str,
    a: Reg,
    offset: Immediate,
    base: Reg,
) -> fmt::Result {
    write!(f, "{name} {a},{}({base})", offset.value())
}

fn one_and_base<W: fmt::Write>(
    f: &mut fmt::Formatter<W>,
    name: &str,
    ordering: &str,
    a: Reg,
    base: Reg,
) -> fmt::Result {
    write!(f, "{name}.w{ordering} {a},({base})")
}

fn two_and_base<W: fmt::Write>(
    f: &mut fmt::Formatter<W>,
    name: &str,
    ordering: &str,
    a: Reg,
    b: Reg,
    base: Reg,
) -> fmt::Result {
    write!(f, "{name}.w{ordering} {a},{b},({base})")
}

/// The bits of a plain `fence`: all accesses before it, then all after it.
const FULL_FENCE: u16 = 0x0FF;

fn write_fence<W: fmt::Write>(
    f: &mut fmt::Formatter<W>,
    bits: FenceBits,
    rd: Reg,
    rs1: Reg,
) -> fmt::Result {
    if bits.value() == FULL_FENCE && rd.index() == 0 && rs1.index() == 0 {
        f.write_str("fence")
    } else {
        write!(f, "fence {},{rd},{rs1}", bits.value())
    }
}

fn ordering_name(acquire: bool, release: bool) -> &'static str {
    match (acquire, release) {
        (false, false) => "",
        (true, false) => ".aq",
        (false, true) => ".rl",
        (true, true) => ".aqrl",
    }
}

fn branch_name(kind: BranchKind) -> &'static str {
    match kind {
        BranchKind::Beq => "beq",
        BranchKind::Bne => "bne",
        BranchKind::Blt => "blt",
        BranchKind::Bge => "bge",
        BranchKind::Bltu => "bltu",
        BranchKind::Bgeu => "bgeu",
    }
}

fn load_name(kind: LoadKind) -> &'static str {
    match kind {
        LoadKind::Lb => "lb",
        LoadKind::Lh => "lh",
        LoadKind::Lw => "lw",
        LoadKind::Lbu => "lbu",
        LoadKind::Lhu => "lhu",
    }
}

fn store_name(kind: StoreKind) -> &'static str {
    match kind {
        StoreKind::Sb => "sb",
        StoreKind::Sh => "sh",
        StoreKind::Sw => "sw",
    }
}

fn immediate_name(kind: ImmediateKind) -> &'static str {
    match kind {
        ImmediateKind::Addi => "addi",
        ImmediateKind::Slti => "slti",
        ImmediateKind::Sltiu => "sltiu",
        ImmediateKind::Xori => "xori",
        ImmediateKind::Ori => "ori",
        ImmediateKind::Andi => "andi",
    }
}

fn shift_name(kind: ShiftKind) -> &'static str {
    match kind {
        ShiftKind::Slli => "slli",
        ShiftKind::Srli => "srli",
        ShiftKind::Srai => "srai",
    }
}

fn op_name(kind: OpKind) -> &'static str {
    match kind {
        OpKind::Add => "add",
        OpKind::Sub => "sub",
        OpKind::Sll => "sll",
        OpKind::Slt => "slt",
        OpKind::Sltu => "sltu",
        OpKind::Xor => "xor",
        OpKind::Srl => "srl",
        OpKind::Sra => "sra",
        OpKind::Or => "or",
        OpKind::And => "and",
        OpKind::Mul => "mul",
        OpKind::Mulh => "mulh",
        OpKind::Mulhsu => "mulhsu",
        OpKind::Mulhu => "mulhu",
        OpKind::Div => "div",
        OpKind::Divu => "divu",
        OpKind::Rem => "rem",
        OpKind::Remu => "remu",
    }
}

fn amo_name(kind: AmoKind) -> &'static str {
    match kind {
        AmoKind::Amoadd => "amoadd",
        AmoKind::Amoswap => "amoswap",
        AmoKind::Amoxor => "amoxor",
        AmoKind::Amoor => "amoor",
        AmoKind::Amoand => "amoand",
        AmoKind::Amomin => "amomin",
        AmoKind::Amomax => "amomax",
        AmoKind::Amominu => "amominu",
        AmoKind::Amomaxu => "amomaxu",
    }
}
