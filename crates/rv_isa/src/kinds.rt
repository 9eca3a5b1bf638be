/// What a conditional branch compares (opcode BRANCH).
#[derive(Clone, Copy, Debug, PartialEq, Eq)]
pub enum BranchKind {
    Beq,
    Bne,
    Blt,
    Bge,
    Bltu,
    Bgeu,
}

/// What is done with a register and an immediate (opcode OP-IMM, but for its shifts).
#[derive(Clone, Copy, Debug, PartialEq, Eq)]
pub enum ImmediateKind {
    Addi,
    Slti,
    Sltiu,
    Xori,
    Ori,
    Andi,
}

/// The shifts by an immediate amount (opcode OP-IMM).
#[derive(Clone, Copy, Debug, PartialEq, Eq)]
pub enum ShiftKind {
    Slli,
    Srli,
    Srai,
}

/// What is done with two registers (opcode OP): RV32I, then M.
#[derive(Clone, Copy, Debug, PartialEq, Eq)]
pub enum OpKind {
    Add,
    Sub,
    Sll,
    Slt,
    Sltu,
    Xor,
    Srl,
    Sra,
    Or,
    And,
    Mul,
    Mulh,
    Mulhsu,
    Mulhu,
    Div,
    Divu,
    Rem,
    Remu,
}

/// What a load reads and how it fills the register (opcode LOAD).
#[derive(Clone, Copy, Debug, PartialEq, Eq)]
pub enum LoadKind {
    Lb,
    Lh,
    Lw,
    Lbu,
    Lhu,
}

/// What a store writes (opcode STORE).
#[derive(Clone, Copy, Debug, PartialEq, Eq)]
pub enum StoreKind {
    Sb,
    Sh,
    Sw,
}

/// What an atomic memory operation makes of the old word and `rs2` (opcode AMO, Zaamo).
#[derive(Clone, Copy, Debug, PartialEq, Eq)]
pub enum AmoKind {
    Amoadd,
    Amoswap,
    Amoxor,
    Amoor,
    Amoand,
    Amomin,
    Amomax,
    Amominu,
    Amomaxu,
}

/// What is done with a reservation of a word (opcode AMO, Zalrsc): LR.W takes one, SC.W stores under it.
#[derive(Clone, Copy, Debug, PartialEq, Eq)]
pub enum ReservationKind {
    Lr,
    Sc,
}

/// The codes of the formats that have both.
#[derive(Clone, Copy, Debug)]
pub struct Code {
    pub funct7: u32,
    pub funct3: u32,
}
