//! The instruction codec: words of 32 bits, and the RISC-V instructions (RV32I, M and A) that they stand for.
//!
//! `specs/Table.antt` has the instruction table as a relation between words and instructions, `Agrees`.
//! [`decode`] and [`encode`] are that relation, read in its two directions.
#![tactic(auto)]

mod decoding;
mod encoding;
mod fields;
mod forms;
mod instruction;
mod kind_of_word;
mod kinds;
mod laws;
pub mod opcodes;
mod operands;
mod split;
mod text;

pub use decoding::decode;
pub use encoding::encode;
pub use fields::{
    branch_offset, funct3, funct7, immediate, jump_offset, opcode, rd, rs1, rs2, shift_amount,
    store_immediate, upper_immediate,
};
pub use forms::{Form, form_of_word};
pub use instruction::Insn;
pub use kind_of_word::{
    amo_kind, branch_kind, immediate_kind, load_kind, op_kind, reservation_kind, shift_kind,
    store_kind,
};
pub use kinds::{
    AmoKind, BranchKind, ImmediateKind, LoadKind, OpKind, ReservationKind, ShiftKind, StoreKind,
};
pub use laws::{one_instruction, one_word, table_lookup};
pub use operands::{
    BranchOffset, FenceBits, Immediate, JumpOffset, Reg, ShiftAmount, UpperImmediate,
};
pub use split::{high_part, low_part};
pub use text::write_text;
