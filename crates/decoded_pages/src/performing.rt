//! One decoded instruction: it does what its word's line in the instruction table says.

ghost use Rattle.std.specs.Prelude.{◌≡◌, ◌%◌, ◌≤◌, ℕ};
ghost use Rattle.page_memory.specs.Memory.{Memory};
ghost use Rattle.decoded_pages.specs.Classes.{class_of, HasAligned, Undecoded, Continues};
ghost use Rattle.decoded_pages.specs.Classes.{Constant, Links, Jumps, LinksRegister};
ghost use Rattle.decoded_pages.specs.Classes.{JumpsRegister, Branches, Loads, Stores};
ghost use Rattle.decoded_pages.specs.Classes.{WithImmediate, Shifts, Operates};
ghost use Rattle.decoded_pages.specs.Following.{Performs, Reaches, Stays};

use crate::instruction::DecodedInstruction;
use crate::operation::Operation;
use crate::ready_memory::ReadyMemory;
use rv_exec::{
    Regs, add, branches, extend, operate, operate_immediate, shift, width_of_load, width_of_store,
    without_lowest_bit,
};
use rv_isa::{BranchKind, ImmediateKind, LoadKind, OpKind, ShiftKind, StoreKind};

/// What becomes of a decoded instruction.
#[derive(Clone, Copy, Debug, PartialEq, Eq)]
pub enum After {
    /// It is done, and the next one follows.
    Next,
    /// It is done. The instruction follows that is so far past the first address of the page, a multiple of 4, modulo 2^32.
    To(u32),
    /// Nothing has changed: it is to be run by its word, if there is one.
    ByWord,
}

/// Does a decoded instruction, the one of that number of the page that starts there.
#[inline(always)]
#[tactic(auto, using(crate::proofs::Done::stays_anyhow))]
pub fn perform<M: ReadyMemory>(
    hart: u32,
    regs: &mut Regs,
    memory: &mut M,
    decoded: &DecodedInstruction,
    start: u32,
    place: usize,
) -> After
    requires hart { M.admits hart memory.old }
    requires page { start % 4096 ≡ 0 }
    requires place { place ≤ 1024 }
    requires aligned { HasAligned (class_of decoded.now.operation) decoded.now.immediate }
    ensures performed { Performs decoded.now start place result regs.old regs.new
        (M.memory memory.old) (M.memory memory.new) }
    ensures reached { Reaches M.memory (M.serves hart) (M.stays hart) decoded.now result
        regs.old memory.old memory.new }
    ensures kept { Stays result (memory.new ≡ memory.old) }
{
    match decoded.operation {
        Operation::ByWord => by_word(regs, decoded),
        Operation::PageEnd => by_word(regs, decoded),
        Operation::Nothing => nothing(regs, decoded),
        Operation::Constant => constant(regs, decoded),
        Operation::JumpAndLink => jump_and_link(regs, decoded, start, place),
        Operation::Jump => jump(regs, decoded),
        Operation::JumpAndLinkRegister => jump_and_link_register(regs, decoded, start, place),
        Operation::JumpRegister => jump_register(regs, decoded, start),
        Operation::Beq => branch(regs, decoded, BranchKind::Beq),
        Operation::Bne => branch(regs, decoded, BranchKind::Bne),
        Operation::Blt => branch(regs, decoded, BranchKind::Blt),
        Operation::Bge => branch(regs, decoded, BranchKind::Bge),
        Operation::Bltu => branch(regs, decoded, BranchKind::Bltu),
        Operation::Bgeu => branch(regs, decoded, BranchKind::Bgeu),
        Operation::Lb => load(hart, regs, memory, decoded, LoadKind::Lb),
        Operation::Lh => load(hart, regs, memory, decoded, LoadKind::Lh),
        Operation::Lw => load(hart, regs, memory, decoded, LoadKind::Lw),
        Operation::Lbu => load(hart, regs, memory, decoded, LoadKind::Lbu),
        Operation::Lhu => load(hart, regs, memory, decoded, LoadKind::Lhu),
        Operation::Sb => store(hart, regs, memory, decoded, StoreKind::Sb),
        Operation::Sh => store(hart, regs, memory, decoded, StoreKind::Sh),
        Operation::Sw => store(hart, regs, memory, decoded, StoreKind::Sw),
        Operation::Addi => with_immediate(regs, decoded, ImmediateKind::Addi),
        Operation::Slti => with_immediate(regs, decoded, ImmediateKind::Slti),
        Operation::Sltiu => with_immediate(regs, decoded, ImmediateKind::Sltiu),
        Operation::Xori => with_immediate(regs, decoded, ImmediateKind::Xori),
        Operation::Ori => with_immediate(regs, decoded, ImmediateKind::Ori),
        Operation::Andi => with_immediate(regs, decoded, ImmediateKind::Andi),
        Operation::Slli => shifted(regs, decoded, ShiftKind::Slli),
        Operation::Srli => shifted(regs, decoded, ShiftKind::Srli),
        Operation::Srai => shifted(regs, decoded, ShiftKind::Srai),
        Operation::Add => operated(regs, decoded, OpKind::Add),
        Operation::Sub => operated(regs, decoded, OpKind::Sub),
        Operation::Sll => operated(regs, decoded, OpKind::Sll),
        Operation::Slt => operated(regs, decoded, OpKind::Slt),
        Operation::Sltu => operated(regs, decoded, OpKind::Sltu),
        Operation::Xor => operated(regs, decoded, OpKind::Xor),
        Operation::Srl => operated(regs, decoded, OpKind::Srl),
        Operation::Sra => operated(regs, decoded, OpKind::Sra),
        Operation::Or => operated(regs, decoded, OpKind::Or),
        Operation::And => operated(regs, decoded, OpKind::And),
        Operation::Mul => operated(regs, decoded, OpKind::Mul),
        Operation::Mulh => operated(regs, decoded, OpKind::Mulh),
        Operation::Mulhsu => operated(regs, decoded, OpKind::Mulhsu),
        Operation::Mulhu => operated(regs, decoded, OpKind::Mulhu),
        Operation::Div => operated(regs, decoded, OpKind::Div),
        Operation::Divu => operated(regs, decoded, OpKind::Divu),
        Operation::Rem => operated(regs, decoded, OpKind::Rem),
        Operation::Remu => operated(regs, decoded, OpKind::Remu),
    }
}

/// What is run by its word.
#[inline(always)]
#[tactic(auto, using(crate::proofs::Done::undecoded))]
fn by_word(regs: &mut Regs, decoded: &DecodedInstruction) -> After
    requires class { class_of decoded.now.operation ≡ Undecoded }
    ensures { (start place : ℕ) (memory : Memory) →
        Performs decoded.now start place result regs.old regs.new memory memory }
{
    let _ = regs;
    let _ = decoded;
    After::ByWord
}

/// What only goes on.
#[inline(always)]
fn nothing(regs: &mut Regs, decoded: &DecodedInstruction) -> After
    requires class { class_of decoded.now.operation ≡ Continues }
    ensures { (start place : ℕ) (memory : Memory) →
        Performs decoded.now start place result regs.old regs.new memory memory }
{
    let _ = regs;
    let _ = decoded;
    After::Next
}

/// A constant.
#[inline(always)]
fn constant(regs: &mut Regs, decoded: &DecodedInstruction) -> After
    requires class { class_of decoded.now.operation ≡ Constant }
    ensures { (start place : ℕ) (memory : Memory) →
        Performs decoded.now start place result regs.old regs.new memory memory }
{
    regs.put(decoded.rd.index(), decoded.immediate);
    After::Next
}

/// A jump by an offset that keeps the address of the next instruction.
#[inline(always)]
fn jump_and_link(regs: &mut Regs, decoded: &DecodedInstruction, start: u32, place: usize) -> After
    requires class { class_of decoded.now.operation ≡ Links }
    requires page { start % 4096 ≡ 0 }
    requires place { place ≤ 1024 }
    requires aligned { decoded.now.immediate % 4 ≡ 0 }
    ensures { (memory : Memory) →
        Performs decoded.now start place result regs.old regs.new memory memory }
{
    regs.put(decoded.rd.index(), add(start, place as u32 * 4 + 4));
    After::To(decoded.immediate)
}

/// A jump by an offset.
#[inline(always)]
fn jump(regs: &mut Regs, decoded: &DecodedInstruction) -> After
    requires class { class_of decoded.now.operation ≡ Jumps }
    requires aligned { decoded.now.immediate % 4 ≡ 0 }
    ensures { (start place : ℕ) (memory : Memory) →
        Performs decoded.now start place result regs.old regs.new memory memory }
{
    let _ = regs;
    After::To(decoded.immediate)
}

/// A jump to the address in a register that keeps the address of the next instruction.
#[inline(always)]
fn jump_and_link_register(
    regs: &mut Regs,
    decoded: &DecodedInstruction,
    start: u32,
    place: usize,
) -> After
    requires class { class_of decoded.now.operation ≡ LinksRegister }
    requires page { start % 4096 ≡ 0 }
    requires place { place ≤ 1024 }
    ensures { (memory : Memory) →
        Performs decoded.now start place result regs.old regs.new memory memory }
{
    let target = without_lowest_bit(add(regs.read(decoded.rs1), decoded.immediate));
    if target % 4 != 0 {
        return After::ByWord;
    }
    regs.put(decoded.rd.index(), add(start, place as u32 * 4 + 4));
    After::To(target.wrapping_sub(start))
}

/// A jump to the address in a register.
#[inline(always)]
fn jump_register(regs: &mut Regs, decoded: &DecodedInstruction, start: u32) -> After
    requires class { class_of decoded.now.operation ≡ JumpsRegister }
    requires page { start % 4096 ≡ 0 }
    ensures { (place : ℕ) (memory : Memory) →
        Performs decoded.now start place result regs.old regs.new memory memory }
{
    let target = without_lowest_bit(add(regs.read(decoded.rs1), decoded.immediate));
    if target % 4 != 0 {
        return After::ByWord;
    }
    After::To(target.wrapping_sub(start))
}

/// A branch of a kind.
#[inline(always)]
fn branch(regs: &mut Regs, decoded: &DecodedInstruction, kind: BranchKind) -> After
    requires class { class_of decoded.now.operation ≡ Branches kind }
    requires aligned { decoded.now.immediate % 4 ≡ 0 }
    ensures { (start place : ℕ) (memory : Memory) →
        Performs decoded.now start place result regs.old regs.new memory memory }
{
    if branches(kind, regs.read(decoded.rs1), regs.read(decoded.rs2)) {
        After::To(decoded.immediate)
    } else {
        After::Next
    }
}

/// An operation with an immediate.
#[inline(always)]
fn with_immediate(regs: &mut Regs, decoded: &DecodedInstruction, kind: ImmediateKind) -> After
    requires class { class_of decoded.now.operation ≡ WithImmediate kind }
    ensures { (start place : ℕ) (memory : Memory) →
        Performs decoded.now start place result regs.old regs.new memory memory }
{
    let value = operate_immediate(kind, regs.read(decoded.rs1), decoded.immediate);
    regs.put(decoded.rd.index(), value);
    After::Next
}

/// A shift by an immediate amount.
#[inline(always)]
fn shifted(regs: &mut Regs, decoded: &DecodedInstruction, kind: ShiftKind) -> After
    requires class { class_of decoded.now.operation ≡ Shifts kind }
    ensures { (start place : ℕ) (memory : Memory) →
        Performs decoded.now start place result regs.old regs.new memory memory }
{
    let value = shift(kind, regs.read(decoded.rs1), decoded.immediate);
    regs.put(decoded.rd.index(), value);
    After::Next
}

/// An operation on two registers.
#[inline(always)]
fn operated(regs: &mut Regs, decoded: &DecodedInstruction, kind: OpKind) -> After
    requires class { class_of decoded.now.operation ≡ Operates kind }
    ensures { (start place : ℕ) (memory : Memory) →
        Performs decoded.now start place result regs.old regs.new memory memory }
{
    let value = operate(kind, regs.read(decoded.rs1), regs.read(decoded.rs2));
    regs.put(decoded.rd.index(), value);
    After::Next
}

/// A load, if it is served.
#[inline(always)]
#[tactic(auto, using(crate::proofs::Done::undone))]
fn load<M: ReadyMemory>(
    hart: u32,
    regs: &mut Regs,
    memory: &mut M,
    decoded: &DecodedInstruction,
    kind: LoadKind,
) -> After
    requires hart { M.admits hart memory.old }
    requires class { class_of decoded.now.operation ≡ Loads kind }
    ensures performed { (start place : ℕ) → Performs decoded.now start place result regs.old
        regs.new (M.memory memory.old) (M.memory memory.new) }
    ensures reached { Reaches M.memory (M.serves hart) (M.stays hart) decoded.now result
        regs.old memory.old memory.new }
    ensures kept { Stays result (memory.new ≡ memory.old) }
{
    let address = add(regs.read(decoded.rs1), decoded.immediate);
    match memory.ready_load(hart, width_of_load(kind), address) {
        Some(number) => {
            regs.put(decoded.rd.index(), extend(kind, number));
            After::Next
        }
        None => After::ByWord,
    }
}

/// A store, if it is served.
#[inline(always)]
#[tactic(auto, using(crate::proofs::Done::undone))]
fn store<M: ReadyMemory>(
    hart: u32,
    regs: &mut Regs,
    memory: &mut M,
    decoded: &DecodedInstruction,
    kind: StoreKind,
) -> After
    requires hart { M.admits hart memory.old }
    requires class { class_of decoded.now.operation ≡ Stores kind }
    ensures performed { (start place : ℕ) → Performs decoded.now start place result regs.old
        regs.new (M.memory memory.old) (M.memory memory.new) }
    ensures reached { Reaches M.memory (M.serves hart) (M.stays hart) decoded.now result
        regs.old memory.old memory.new }
    ensures kept { Stays result (memory.new ≡ memory.old) }
{
    let address = add(regs.read(decoded.rs1), decoded.immediate);
    if memory.ready_store(hart, width_of_store(kind), address, regs.read(decoded.rs2)) {
        After::Next
    } else {
        After::ByWord
    }
}
