//! A decoded instruction: what its word comes to at its place, so that it can be run again without its word.

ghost use Rattle.std.specs.Prelude.{◌≡◌, ◌<◌, ◌%◌, ◌*◌, ◌^◌, ℕ, ℤ, Some};
ghost use Rattle.rv_isa.specs.declared.instruction.Insn.{Insn};
ghost use Rattle.rv_isa.specs.Table.{insn_of};
ghost use Rattle.decoded_pages.specs.Classes.{class_of, Undecoded, Continues};
ghost use Rattle.rv_exec.specs.Arithmetic.{word_sum, word_of_signed};
ghost use Rattle.decoded_pages.specs.Stands.{Stands, StandsFor, Writes};

use crate::destination::Destination;
use crate::operation::Operation;
use rv_exec::add;
use rv_isa::{
    BranchKind, Immediate, ImmediateKind, Insn, LoadKind, OpKind, Reg, ShiftAmount, ShiftKind,
    StoreKind, UpperImmediate, decode,
};

/// A decoded instruction.
#[derive(Clone, Copy, Debug, PartialEq, Eq)]
pub struct DecodedInstruction {
    pub operation: Operation,
    pub rd: Destination,
    pub rs1: Reg,
    pub rs2: Reg,
    /// The immediate, extended to a word: of a load, a store, or an operation its own; of a shift the amount; the constant that is
    /// written; of a jump or a branch by an offset how far its target is past the first address of the page, a multiple of 4.
    pub immediate: u32,
}

impl DecodedInstruction {
    /// The decoded instruction that represents a word, which has that number in the page that starts there.
    #[tactic(auto, using(crate::proofs::Standing::stands_undecoded))]
    pub fn of_word(start: u32, place: u32, word: u32) -> Self
        requires page { start % 4096 ≡ 0 }
        requires place { place < 1024 }
        ensures { Stands result start place word }
    {
        match decode(word) {
            Some(insn) => DecodedInstruction::of_insn(start, place, insn),
            None => DecodedInstruction::by_word(),
        }
    }

    /// The same of an instruction.
    #[tactic(auto, using(crate::proofs::Standing::lui_writes, crate::proofs::Standing::auipc_writes, crate::proofs::Standing::fence_stands, crate::proofs::Standing::stands_undecoded))]
    fn of_insn(start: u32, place: u32, insn: Insn) -> Self
        requires page { start % 4096 ≡ 0 }
        requires place { place < 1024 }
        ensures { StandsFor result start place (Some insn) }
    {
        match insn {
            Insn::Lui { rd, immediate } => constant(rd, upper_word(immediate)),
            Insn::Auipc { rd, immediate } => {
                constant(rd, add(start + place * 4, upper_word(immediate)))
            }
            Insn::Jal { rd, offset } => jump(rd, add(place * 4, offset.word())),
            Insn::Jalr { rd, rs1, offset } => jump_to_register(rd, rs1, offset),
            Insn::Branch {
                kind,
                rs1,
                rs2,
                offset,
            } => branch(kind, rs1, rs2, add(place * 4, offset.word())),
            Insn::Load {
                kind,
                rd,
                rs1,
                offset,
            } => load(kind, rd, rs1, offset),
            Insn::Store {
                kind,
                rs1,
                rs2,
                offset,
            } => store(kind, rs1, rs2, offset),
            Insn::OpImmediate {
                kind,
                rd,
                rs1,
                immediate,
            } => with_immediate(kind, rd, rs1, immediate),
            Insn::Shift {
                kind,
                rd,
                rs1,
                amount,
            } => shifted(kind, rd, rs1, amount),
            Insn::Op { kind, rd, rs1, rs2 } => operated(kind, rd, rs1, rs2),
            Insn::Fence { .. } => nothing(),
            _ => DecodedInstruction::by_word(),
        }
    }

    /// What is to be run by its word.
    pub fn by_word() -> Self
        ensures { class_of result.operation ≡ Undecoded }
    {
        plain(Operation::ByWord)
    }

    /// What follows the last word of a page.
    pub fn page_end() -> Self
        ensures { class_of result.operation ≡ Undecoded }
    {
        plain(Operation::PageEnd)
    }
}

/// An operation with no operands.
fn plain(operation: Operation) -> DecodedInstruction
    ensures { result.operation ≡ operation }
{
    DecodedInstruction {
        operation,
        rd: Destination::unused(),
        rs1: Reg::from_index(0),
        rs2: Reg::from_index(0),
        immediate: 0,
    }
}

/// The word whose upper 20 bits are an immediate.
fn upper_word(immediate: UpperImmediate) -> u32
    ensures { result ≡ immediate * 2 ^ 12 }
{
    immediate.value() << 12
}

/// What only goes on.
fn nothing() -> DecodedInstruction
    ensures { class_of result.operation ≡ Continues }
{
    plain(Operation::Nothing)
}

/// What writes a value to rd: LUI and AUIPC.
fn constant(rd: Reg, value: u32) -> DecodedInstruction
    ensures { (insn : Insn) (start place : ℕ) → Writes insn start place rd value →
        StandsFor result start place (Some insn) }
{
    let Some(destination) = Destination::new(rd) else {
        return nothing();
    };
    DecodedInstruction {
        rd: destination,
        immediate: value,
        ..plain(Operation::Constant)
    }
}

/// JAL, by how far its target is past the first address of the page.
#[tactic(auto, using(crate::proofs::Standing::stands_undecoded))]
fn jump(rd: Reg, relative: u32) -> DecodedInstruction
    ensures { (start place : ℕ) (offset : ℤ) → start % 4096 ≡ 0 →
        relative ≡ word_sum (place * 4) (word_of_signed offset) →
        StandsFor result start place (Some (Insn.Jal rd offset)) }
{
    if relative % 4 != 0 {
        return DecodedInstruction::by_word();
    }
    match Destination::new(rd) {
        Some(destination) => DecodedInstruction {
            rd: destination,
            immediate: relative,
            ..plain(Operation::JumpAndLink)
        },
        None => DecodedInstruction {
            immediate: relative,
            ..plain(Operation::Jump)
        },
    }
}

/// JALR.
fn jump_to_register(rd: Reg, rs1: Reg, offset: Immediate) -> DecodedInstruction
    ensures { (start place : ℕ) →
        StandsFor result start place (Some (Insn.Jalr rd rs1 offset)) }
{
    match Destination::new(rd) {
        Some(destination) => DecodedInstruction {
            rd: destination,
            rs1,
            immediate: offset.word(),
            ..plain(Operation::JumpAndLinkRegister)
        },
        None => DecodedInstruction {
            rs1,
            immediate: offset.word(),
            ..plain(Operation::JumpRegister)
        },
    }
}

/// A branch, by how far its target is past the first address of the page.
#[tactic(auto, using(crate::proofs::Standing::stands_undecoded))]
fn branch(kind: BranchKind, rs1: Reg, rs2: Reg, relative: u32) -> DecodedInstruction
    ensures { (start place : ℕ) (offset : ℤ) → start % 4096 ≡ 0 →
        relative ≡ word_sum (place * 4) (word_of_signed offset) →
        StandsFor result start place (Some (Insn.Branch kind rs1 rs2 offset)) }
{
    if relative % 4 != 0 {
        return DecodedInstruction::by_word();
    }
    DecodedInstruction {
        rs1,
        rs2,
        immediate: relative,
        ..plain(Operation::of_branch(kind))
    }
}

/// A load. One whose value is lost may trap still, and is run by its word.
#[tactic(auto, using(crate::proofs::Standing::stands_undecoded))]
fn load(kind: LoadKind, rd: Reg, rs1: Reg, offset: Immediate) -> DecodedInstruction
    ensures { (start place : ℕ) →
        StandsFor result start place (Some (Insn.Load kind rd rs1 offset)) }
{
    let Some(destination) = Destination::new(rd) else {
        return DecodedInstruction::by_word();
    };
    DecodedInstruction {
        rd: destination,
        rs1,
        immediate: offset.word(),
        ..plain(Operation::of_load(kind))
    }
}

/// A store.
fn store(kind: StoreKind, rs1: Reg, rs2: Reg, offset: Immediate) -> DecodedInstruction
    ensures { (start place : ℕ) →
        StandsFor result start place (Some (Insn.Store kind rs1 rs2 offset)) }
{
    DecodedInstruction {
        rs1,
        rs2,
        immediate: offset.word(),
        ..plain(Operation::of_store(kind))
    }
}

/// An operation with an immediate.
fn with_immediate(kind: ImmediateKind, rd: Reg, rs1: Reg, value: Immediate) -> DecodedInstruction
    ensures { (start place : ℕ) →
        StandsFor result start place (Some (Insn.OpImmediate kind rd rs1 value)) }
{
    let Some(destination) = Destination::new(rd) else {
        return nothing();
    };
    DecodedInstruction {
        rd: destination,
        rs1,
        immediate: value.word(),
        ..plain(Operation::of_immediate(kind))
    }
}

/// A shift by an immediate amount.
fn shifted(kind: ShiftKind, rd: Reg, rs1: Reg, amount: ShiftAmount) -> DecodedInstruction
    ensures { (start place : ℕ) →
        StandsFor result start place (Some (Insn.Shift kind rd rs1 amount)) }
{
    let Some(destination) = Destination::new(rd) else {
        return nothing();
    };
    DecodedInstruction {
        rd: destination,
        rs1,
        immediate: u32::from(amount.value()),
        ..plain(Operation::of_shift(kind))
    }
}

/// An operation on two registers.
fn operated(kind: OpKind, rd: Reg, rs1: Reg, rs2: Reg) -> DecodedInstruction
    ensures { (start place : ℕ) →
        StandsFor result start place (Some (Insn.Op kind rd rs1 rs2)) }
{
    let Some(destination) = Destination::new(rd) else {
        return nothing();
    };
    DecodedInstruction {
        rd: destination,
        rs1,
        rs2,
        ..plain(Operation::of_registers(kind))
    }
}
