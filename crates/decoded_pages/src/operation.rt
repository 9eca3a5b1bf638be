//! What a decoded instruction does: one case for each that is run without its word.

ghost use Rattle.std.specs.Prelude.{◌≡◌};
ghost use Rattle.decoded_pages.specs.Classes.{Class, class_of, Branches, Loads, Stores};
ghost use Rattle.decoded_pages.specs.Classes.{WithImmediate, Shifts, Operates};

use rv_isa::{BranchKind, ImmediateKind, LoadKind, OpKind, ShiftKind, StoreKind};

/// What a decoded instruction does. Where it has a register to write, that is not `x0`.
#[derive(Clone, Copy, Debug, PartialEq, Eq)]
pub enum Operation {
    /// It is run by its word: a call, an atomic operation, a word outside the table, and what is seldom.
    ByWord,
    /// No instruction: the page has ended before it.
    PageEnd,
    /// It only goes on.
    Nothing,
    /// It writes a constant: LUI, and AUIPC, whose place is known.
    Constant,
    /// JAL that keeps an address, and one that does not.
    JumpAndLink,
    Jump,
    /// JALR that keeps an address, and one that does not.
    JumpAndLinkRegister,
    JumpRegister,
    Beq,
    Bne,
    Blt,
    Bge,
    Bltu,
    Bgeu,
    Lb,
    Lh,
    Lw,
    Lbu,
    Lhu,
    Sb,
    Sh,
    Sw,
    Addi,
    Slti,
    Sltiu,
    Xori,
    Ori,
    Andi,
    Slli,
    Srli,
    Srai,
    Add,
    Sub,
    Sll,
    Slt,
    Sltu,
    Xor,
    Srl,
    Sra,
    Or,
    And,
    Mul,
    Mulh,
    Mulhsu,
    Mulhu,
    Div,
    Divu,
    Rem,
    Remu,
}

impl Operation {
    /// The branch of a kind.
    pub fn of_branch(kind: BranchKind) -> Self
        ensures { class_of result ≡ Branches kind }
    {
        match kind {
            BranchKind::Beq => Operation::Beq,
            BranchKind::Bne => Operation::Bne,
            BranchKind::Blt => Operation::Blt,
            BranchKind::Bge => Operation::Bge,
            BranchKind::Bltu => Operation::Bltu,
            BranchKind::Bgeu => Operation::Bgeu,
        }
    }

    /// The load of a kind.
    pub fn of_load(kind: LoadKind) -> Self
        ensures { class_of result ≡ Loads kind }
    {
        match kind {
            LoadKind::Lb => Operation::Lb,
            LoadKind::Lh => Operation::Lh,
            LoadKind::Lw => Operation::Lw,
            LoadKind::Lbu => Operation::Lbu,
            LoadKind::Lhu => Operation::Lhu,
        }
    }

    /// The store of a kind.
    pub fn of_store(kind: StoreKind) -> Self
        ensures { class_of result ≡ Stores kind }
    {
        match kind {
            StoreKind::Sb => Operation::Sb,
            StoreKind::Sh => Operation::Sh,
            StoreKind::Sw => Operation::Sw,
        }
    }

    /// The operation with an immediate of a kind.
    pub fn of_immediate(kind: ImmediateKind) -> Self
        ensures { class_of result ≡ WithImmediate kind }
    {
        match kind {
            ImmediateKind::Addi => Operation::Addi,
            ImmediateKind::Slti => Operation::Slti,
            ImmediateKind::Sltiu => Operation::Sltiu,
            ImmediateKind::Xori => Operation::Xori,
            ImmediateKind::Ori => Operation::Ori,
            ImmediateKind::Andi => Operation::Andi,
        }
    }

    /// The shift of a kind by an immediate amount.
    pub fn of_shift(kind: ShiftKind) -> Self
        ensures { class_of result ≡ Shifts kind }
    {
        match kind {
            ShiftKind::Slli => Operation::Slli,
            ShiftKind::Srli => Operation::Srli,
            ShiftKind::Srai => Operation::Srai,
        }
    }

    /// The operation on two registers of a kind.
    pub fn of_registers(kind: OpKind) -> Self
        ensures { class_of result ≡ Operates kind }
    {
        match kind {
            OpKind::Add => Operation::Add,
            OpKind::Sub => Operation::Sub,
            OpKind::Sll => Operation::Sll,
            OpKind::Slt => Operation::Slt,
            OpKind::Sltu => Operation::Sltu,
            OpKind::Xor => Operation::Xor,
            OpKind::Srl => Operation::Srl,
            OpKind::Sra => Operation::Sra,
            OpKind::Or => Operation::Or,
            OpKind::And => Operation::And,
            OpKind::Mul => Operation::Mul,
            OpKind::Mulh => Operation::Mulh,
            OpKind::Mulhsu => Operation::Mulhsu,
            OpKind::Mulhu => Operation::Mulhu,
            OpKind::Div => Operation::Div,
            OpKind::Divu => Operation::Divu,
            OpKind::Rem => Operation::Rem,
            OpKind::Remu => Operation::Remu,
        }
    }
}
