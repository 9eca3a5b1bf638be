//! The names of instructions and pseudo-instructions (all except `li`), and what each name means.

ghost use Rattle.std.specs.Prelude.{◌≡◌, ◌<◌, length, IfSome};
ghost use Rattle.std.specs.List.{position, before_first, after_first};
ghost use Rattle.asm_values.specs.Names.{named};
ghost use Rattle.asm_statements.specs.Mnemonics.{mnemonics, amo_names, orderings, is_point, reservation_names, amo_mnemonic, reservation_mnemonic, mnemonic_of};

use asm_values::look_up;
use rv_isa::{
    AmoKind, BranchKind, ImmediateKind, LoadKind, OpKind, ReservationKind, ShiftKind, StoreKind,
};

/// What a statement of the text is, by its name: instructions by their shapes, then pseudo-instructions.
#[derive(Clone, Copy)]
pub enum Mnemonic {
    /// `add rd, rs1, rs2`.
    Op(OpKind),
    /// `addi rd, rs1, n`.
    OpImmediate(ImmediateKind),
    /// `slli rd, rs1, n`.
    Shift(ShiftKind),
    /// `lw rd, n(rs1)`.
    Load(LoadKind),
    /// `sw rs2, n(rs1)`.
    Store(StoreKind),
    /// `beq rs1, rs2, label`.
    Branch(BranchKind),
    /// `lui rd, n`.
    Lui,
    /// `auipc rd, n`.
    Auipc,
    /// `jal rd, label`.
    Jal,
    /// `jalr rd, n(rs1)`.
    Jalr,
    /// `fence`, or `fence n, rd, rs1`.
    Fence,
    /// `ecall`.
    Ecall,
    /// `ebreak`.
    Ebreak,
    /// `amoadd.w rd, rs2, (rs1)`, and with `.aq`, `.rl` or `.aqrl` after the name.
    Amo {
        kind: AmoKind,
        acquire: bool,
        release: bool,
    },
    /// `lr.w rd, (rs1)` or `sc.w rd, rs2, (rs1)`, and with `.aq`, `.rl` or `.aqrl` after the name.
    Reservation {
        kind: ReservationKind,
        acquire: bool,
        release: bool,
    },
    /// `nop`.
    Nop,
    /// `la rd, label`.
    LoadAddress,
    /// `mv rd, rs1`.
    Move,
    /// `j label`.
    Jump,
    /// `call label`.
    Call,
    /// `jr rs1`.
    JumpRegister,
    /// `ret`.
    Return,
    /// `beqz rs1, label`.
    BranchZero(BranchKind),
}

/// Instructions with one name, then pseudo-instructions.
const MNEMONICS: [(&[u8], Mnemonic); 57] = [
    (b"add", Mnemonic::Op(OpKind::Add)),
    (b"sub", Mnemonic::Op(OpKind::Sub)),
    (b"sll", Mnemonic::Op(OpKind::Sll)),
    (b"slt", Mnemonic::Op(OpKind::Slt)),
    (b"sltu", Mnemonic::Op(OpKind::Sltu)),
    (b"xor", Mnemonic::Op(OpKind::Xor)),
    (b"srl", Mnemonic::Op(OpKind::Srl)),
    (b"sra", Mnemonic::Op(OpKind::Sra)),
    (b"or", Mnemonic::Op(OpKind::Or)),
    (b"and", Mnemonic::Op(OpKind::And)),
    (b"mul", Mnemonic::Op(OpKind::Mul)),
    (b"mulh", Mnemonic::Op(OpKind::Mulh)),
    (b"mulhsu", Mnemonic::Op(OpKind::Mulhsu)),
    (b"mulhu", Mnemonic::Op(OpKind::Mulhu)),
    (b"div", Mnemonic::Op(OpKind::Div)),
    (b"divu", Mnemonic::Op(OpKind::Divu)),
    (b"rem", Mnemonic::Op(OpKind::Rem)),
    (b"remu", Mnemonic::Op(OpKind::Remu)),
    (b"addi", Mnemonic::OpImmediate(ImmediateKind::Addi)),
    (b"slti", Mnemonic::OpImmediate(ImmediateKind::Slti)),
    (b"sltiu", Mnemonic::OpImmediate(ImmediateKind::Sltiu)),
    (b"xori", Mnemonic::OpImmediate(ImmediateKind::Xori)),
    (b"ori", Mnemonic::OpImmediate(ImmediateKind::Ori)),
    (b"andi", Mnemonic::OpImmediate(ImmediateKind::Andi)),
    (b"slli", Mnemonic::Shift(ShiftKind::Slli)),
    (b"srli", Mnemonic::Shift(ShiftKind::Srli)),
    (b"srai", Mnemonic::Shift(ShiftKind::Srai)),
    (b"lb", Mnemonic::Load(LoadKind::Lb)),
    (b"lh", Mnemonic::Load(LoadKind::Lh)),
    (b"lw", Mnemonic::Load(LoadKind::Lw)),
    (b"lbu", Mnemonic::Load(LoadKind::Lbu)),
    (b"lhu", Mnemonic::Load(LoadKind::Lhu)),
    (b"sb", Mnemonic::Store(StoreKind::Sb)),
    (b"sh", Mnemonic::Store(StoreKind::Sh)),
    (b"sw", Mnemonic::Store(StoreKind::Sw)),
    (b"beq", Mnemonic::Branch(BranchKind::Beq)),
    (b"bne", Mnemonic::Branch(BranchKind::Bne)),
    (b"blt", Mnemonic::Branch(BranchKind::Blt)),
    (b"bge", Mnemonic::Branch(BranchKind::Bge)),
    (b"bltu", Mnemonic::Branch(BranchKind::Bltu)),
    (b"bgeu", Mnemonic::Branch(BranchKind::Bgeu)),
    (b"lui", Mnemonic::Lui),
    (b"auipc", Mnemonic::Auipc),
    (b"jal", Mnemonic::Jal),
    (b"jalr", Mnemonic::Jalr),
    (b"fence", Mnemonic::Fence),
    (b"ecall", Mnemonic::Ecall),
    (b"ebreak", Mnemonic::Ebreak),
    (b"nop", Mnemonic::Nop),
    (b"la", Mnemonic::LoadAddress),
    (b"mv", Mnemonic::Move),
    (b"j", Mnemonic::Jump),
    (b"call", Mnemonic::Call),
    (b"jr", Mnemonic::JumpRegister),
    (b"ret", Mnemonic::Return),
    (b"beqz", Mnemonic::BranchZero(BranchKind::Beq)),
    (b"bnez", Mnemonic::BranchZero(BranchKind::Bne)),
];

/// Atomic memory operations, up to the point in their names.
const AMO_KINDS: [(&[u8], AmoKind); 9] = [
    (b"amoadd", AmoKind::Amoadd),
    (b"amoswap", AmoKind::Amoswap),
    (b"amoxor", AmoKind::Amoxor),
    (b"amoor", AmoKind::Amoor),
    (b"amoand", AmoKind::Amoand),
    (b"amomin", AmoKind::Amomin),
    (b"amomax", AmoKind::Amomax),
    (b"amominu", AmoKind::Amominu),
    (b"amomaxu", AmoKind::Amomaxu),
];

/// The instructions on a reservation, up to the point in their names.
const RESERVATION_KINDS: [(&[u8], ReservationKind); 2] = [
    (b"lr", ReservationKind::Lr),
    (b"sc", ReservationKind::Sc),
];

/// What follows the point: whether it acquires, and whether it releases.
const ORDERINGS: [(&[u8], (bool, bool)); 4] = [
    (b"w", (false, false)),
    (b"w.aq", (true, false)),
    (b"w.rl", (false, true)),
    (b"w.aqrl", (true, true)),
];

/// An instruction with one name, or a pseudo-instruction.
fn plain(name: &[u8]) -> Option<Mnemonic>
    ensures { result ≡ named mnemonics name.now }
{
    look_up(&MNEMONICS, name)
}

/// The kind of an atomic memory operation.
fn amo_kind(stem: &[u8]) -> Option<AmoKind>
    ensures { result ≡ named amo_names stem.now }
{
    look_up(&AMO_KINDS, stem)
}

/// What is done with a reservation.
fn reservation_kind(stem: &[u8]) -> Option<ReservationKind>
    ensures { result ≡ named reservation_names stem.now }
{
    look_up(&RESERVATION_KINDS, stem)
}

/// Whether it acquires, and whether it releases.
fn ordering(suffix: &[u8]) -> Option<(bool, bool)>
    ensures { result ≡ named orderings suffix.now }
{
    look_up(&ORDERINGS, suffix)
}

/// The place of the first point of a name.
fn point(name: &[u8]) -> Option<usize>
    ensures value { result ≡ position is_point name.now }
    ensures within { IfSome result (λ point. point < length name.now) }
{
    name.iter().position(|byte| *byte == b'.')
}

/// What is before the first point of a name, and what is after it.
#[tactic(auto, using(crate::proofs::PointLemmas::stem_before_point, crate::proofs::PointLemmas::suffix_after_point, crate::proofs::PointLemmas::stem_with_no_point, crate::proofs::PointLemmas::suffix_with_no_point))]
fn at_point(name: &[u8]) -> (&[u8], &[u8])
    ensures stem { result.0.now ≡ before_first is_point name.now }
    ensures suffix { result.1.now ≡ after_first is_point name.now }
{
    match point(name) {
        Some(point) => (&name[..point], &name[point + 1..]),
        None => (name, &[]),
    }
}

/// An atomic memory operation.
#[tactic(auto, unfolding(crate::specs::Mnemonics::amo_mnemonic))]
fn amo(name: &[u8]) -> Option<Mnemonic>
    ensures { result ≡ amo_mnemonic name.now }
{
    let (stem, suffix) = at_point(name);
    let kind = amo_kind(stem)?;
    let (acquire, release) = ordering(suffix)?;
    Some(Mnemonic::Amo {
        kind,
        acquire,
        release,
    })
}

/// `lr.w` or `sc.w`.
#[tactic(auto, unfolding(crate::specs::Mnemonics::reservation_mnemonic))]
fn reservation(name: &[u8]) -> Option<Mnemonic>
    ensures { result ≡ reservation_mnemonic name.now }
{
    let (stem, suffix) = at_point(name);
    let kind = reservation_kind(stem)?;
    let (acquire, release) = ordering(suffix)?;
    Some(Mnemonic::Reservation {
        kind,
        acquire,
        release,
    })
}

/// The instruction or pseudo-instruction of a name.
#[tactic(auto, unfolding(crate::specs::Mnemonics::mnemonic_of))]
pub(crate) fn read_mnemonic(name: &[u8]) -> Option<Mnemonic>
    ensures { result ≡ mnemonic_of name.now }
{
    plain(name)
        .or_else(|| amo(name))
        .or_else(|| reservation(name))
}
