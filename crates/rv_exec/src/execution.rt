//! Runs one instruction: fetches the word at pc and does what its form says, without building an `Insn`.

ghost use Rattle.std.specs.Prelude.{◌≡◌};
ghost use Rattle.rv_isa.specs.Table.{insn_of};
ghost use Rattle.rv_isa.specs.declared.forms.Form.{Form};
ghost use Rattle.rv_isa.specs.Forms.{insn_of_form};
ghost use Rattle.rv_exec.specs.Registers.{with_pc};
ghost use Rattle.rv_exec.specs.Line.{decoded_line, line};
ghost use Rattle.rv_exec.specs.Bounds.{Bounds};
ghost use Rattle.rv_exec.specs.Leaves.{LeavesData, LeavesPages};
ghost use Rattle.page_memory.specs.Words.{page_number};
ghost use Rattle.rv_exec.specs.Uses.{decoded_pages, decoded_stores, pages_used, pages_stored};
ghost use Rattle.rv_exec.specs.Outcomes.{Follows, UnlessDone, UsesPages};

use crate::bus::{Bus, BusError};
use crate::cause::Cause;
use crate::forms::{
    branch, fence, illegal, jal, jalr, op_immediate, op_of_three, op_of_two, shift_left,
    shift_right, system, upper, upper_past_pc,
};
use crate::memory_forms::{amo, load, store};
use crate::outcome::Outcome;
use crate::regs::Regs;
use rv_isa::{BranchKind, Form, ImmediateKind, LoadKind, OpKind, StoreKind, form_of_word};

/// Runs the next instruction of the hart of a number: fetches the word at pc and does what the instruction table says of it.
///
/// Takes no memory.
#[inline(always)]
pub fn execute<B: Bus>(hart: u32, regs: &mut Regs, bus: &mut B) -> Outcome
    ensures line { Follows (line hart regs.old (B.memory bus.old)) result regs.new
        (B.memory bus.new) }
    ensures registers_stay { UnlessDone result (regs.new ≡ regs.old) }
    ensures memory_stays { UnlessDone result (B.memory bus.new ≡ B.memory bus.old) }

    // Absent only for a page that the instruction uses and the bus lacks; else the bus has all that it used.
    ensures pages { let used = pages_used regs.old (B.memory bus.old) in
        UsesPages (B.has bus.old) (B.marks bus.new) (B.lacks bus.old) used result }
    ensures bound { let memory = B.memory bus.old in
        Bounds (B.within bus.old) (B.within bus.new) (pages_used regs.old memory)
        (pages_stored regs.old memory) }

    // Each page that it stores to takes stores; or the absent one was not at hand when its access came.
    ensures leaves { let stored = pages_stored regs.old (B.memory bus.old) in
        LeavesPages (B.takes bus.new) (B.marks bus.new) (B.misses bus.old) (B.misses bus.new)
        (page_number regs.old.pc) stored result }
    ensures kept { B.keeps bus.old bus.new }
{
    let mut pc = regs.pc();
    let outcome = execute_at(hart, &mut pc, regs, bus);
    regs.set_pc(pc);
    outcome
}

/// The same where pc is at hand: what `regs` has of it is neither read nor written.
#[inline(always)]
pub fn execute_at<B: Bus>(hart: u32, pc: &mut u32, regs: &mut Regs, bus: &mut B) -> Outcome
    ensures line { Follows (line hart (with_pc regs.old pc.old) (B.memory bus.old)) result
        (with_pc regs.new pc.new) (B.memory bus.new) }
    ensures registers_stay { UnlessDone result (with_pc regs.new pc.new ≡ with_pc regs.old pc.old) }
    ensures memory_stays { UnlessDone result (B.memory bus.new ≡ B.memory bus.old) }

    // Absent only for a page that the instruction uses and the bus lacks; else the bus has all that it used.
    ensures pages { let used = pages_used (with_pc regs.old pc.old) (B.memory bus.old) in
        UsesPages (B.has bus.old) (B.marks bus.new) (B.lacks bus.old) used result }
    ensures bound { let memory = B.memory bus.old in
        Bounds (B.within bus.old) (B.within bus.new) (pages_used (with_pc regs.old pc.old) memory)
        (pages_stored (with_pc regs.old pc.old) memory) }

    // Each page that it stores to takes stores; or the absent one was not at hand when its access came.
    ensures leaves { let stored = pages_stored (with_pc regs.old pc.old) (B.memory bus.old) in
        LeavesPages (B.takes bus.new) (B.marks bus.new) (B.misses bus.old) (B.misses bus.new)
        (page_number (with_pc regs.old pc.old).pc) stored result }
    ensures kept { B.keeps bus.old bus.new }
{
    let address = *pc;
    match bus.fetch(address) {
        Ok(word) => perform(hart, pc, regs, bus, word),
        Err(BusError::Fault(fault)) => Outcome::Trap(Cause::of_fetch(fault), address),
        Err(BusError::Absent(page)) => Outcome::Absent(page),
    }
}

/// Does what the table says of a word that was fetched at pc. The word's fields go straight to what is done with them: it is as
/// if the word was decoded, but no instruction is built, which would take as long as to run it.
#[inline(always)]
fn perform<B: Bus>(hart: u32, pc: &mut u32, regs: &mut Regs, bus: &mut B, word: u32) -> Outcome
    ensures line { let line = decoded_line hart (with_pc regs.old pc.old) (B.memory bus.old) word
        (insn_of word) in
        Follows line result (with_pc regs.new pc.new) (B.memory bus.new) }
    ensures registers_stay { UnlessDone result (with_pc regs.new pc.new ≡ with_pc regs.old pc.old) }
    ensures memory_stays { UnlessDone result (B.memory bus.new ≡ B.memory bus.old) }
    ensures pages { let used = decoded_pages (with_pc regs.old pc.old) (B.memory bus.old)
        (insn_of word) in
        UsesPages (B.has bus.old) (B.marks bus.new) (B.lacks bus.old) used result }
    ensures bound { let memory = B.memory bus.old in
        Bounds (B.within bus.old) (B.within bus.new) (decoded_pages (with_pc regs.old pc.old) memory
        (insn_of word)) (decoded_stores (with_pc regs.old pc.old) memory (insn_of word)) }
    ensures leaves { let stored = decoded_stores (with_pc regs.old pc.old) (B.memory bus.old)
        (insn_of word) in
        LeavesData (B.takes bus.new) (B.misses bus.old) (B.misses bus.new) stored result }
    ensures kept { B.keeps bus.old bus.new }
{
    perform_form(hart, pc, regs, bus, form_of_word(word), word)
}

/// Does what the table says of a word of a form.
#[inline(always)]
#[tactic(auto, using(crate::proofs::LeavesLaws::leaves_no_data))]
fn perform_form<B: Bus>(
    hart: u32,
    pc: &mut u32,
    regs: &mut Regs,
    bus: &mut B,
    form: Form,
    word: u32,
) -> Outcome
    ensures line { let line = decoded_line hart (with_pc regs.old pc.old) (B.memory bus.old) word
        (insn_of_form form word) in
        Follows line result (with_pc regs.new pc.new) (B.memory bus.new) }
    ensures registers_stay { UnlessDone result (with_pc regs.new pc.new ≡ with_pc regs.old pc.old) }
    ensures memory_stays { UnlessDone result (B.memory bus.new ≡ B.memory bus.old) }
    ensures pages { let used = decoded_pages (with_pc regs.old pc.old) (B.memory bus.old)
        (insn_of_form form word) in
        UsesPages (B.has bus.old) (B.marks bus.new) (B.lacks bus.old) used result }
    ensures bound { let memory = B.memory bus.old in
        Bounds (B.within bus.old) (B.within bus.new) (decoded_pages (with_pc regs.old pc.old) memory
        (insn_of_form form word)) (decoded_stores (with_pc regs.old pc.old) memory
        (insn_of_form form word)) }
    ensures leaves { let stored = decoded_stores (with_pc regs.old pc.old) (B.memory bus.old)
        (insn_of_form form word) in
        LeavesData (B.takes bus.new) (B.misses bus.old) (B.misses bus.new) stored result }
    ensures kept { B.keeps bus.old bus.new }
{
    match form {
        Form::Illegal => illegal(word),
        Form::Lui => upper(pc, regs, word),
        Form::Auipc => upper_past_pc(pc, regs, word),
        Form::Jal => jal(pc, regs, word),
        Form::Jalr => jalr(pc, regs, word),
        Form::Beq => branch(pc, regs, BranchKind::Beq, word),
        Form::Bne => branch(pc, regs, BranchKind::Bne, word),
        Form::Blt => branch(pc, regs, BranchKind::Blt, word),
        Form::Bge => branch(pc, regs, BranchKind::Bge, word),
        Form::Bltu => branch(pc, regs, BranchKind::Bltu, word),
        Form::Bgeu => branch(pc, regs, BranchKind::Bgeu, word),
        Form::Lb => load(pc, regs, bus, LoadKind::Lb, word),
        Form::Lh => load(pc, regs, bus, LoadKind::Lh, word),
        Form::Lw => load(pc, regs, bus, LoadKind::Lw, word),
        Form::Lbu => load(pc, regs, bus, LoadKind::Lbu, word),
        Form::Lhu => load(pc, regs, bus, LoadKind::Lhu, word),
        Form::Sb => store(pc, regs, bus, StoreKind::Sb, word),
        Form::Sh => store(pc, regs, bus, StoreKind::Sh, word),
        Form::Sw => store(pc, regs, bus, StoreKind::Sw, word),
        Form::Addi => op_immediate(pc, regs, ImmediateKind::Addi, word),
        Form::Slti => op_immediate(pc, regs, ImmediateKind::Slti, word),
        Form::Sltiu => op_immediate(pc, regs, ImmediateKind::Sltiu, word),
        Form::Xori => op_immediate(pc, regs, ImmediateKind::Xori, word),
        Form::Ori => op_immediate(pc, regs, ImmediateKind::Ori, word),
        Form::Andi => op_immediate(pc, regs, ImmediateKind::Andi, word),
        Form::ShiftLeft => shift_left(pc, regs, word),
        Form::ShiftRight => shift_right(pc, regs, word),
        Form::AddSubMul => op_of_three(pc, regs, OpKind::Add, OpKind::Mul, OpKind::Sub, word),
        Form::SllMulh => op_of_two(pc, regs, OpKind::Sll, OpKind::Mulh, word),
        Form::SltMulhsu => op_of_two(pc, regs, OpKind::Slt, OpKind::Mulhsu, word),
        Form::SltuMulhu => op_of_two(pc, regs, OpKind::Sltu, OpKind::Mulhu, word),
        Form::XorDiv => op_of_two(pc, regs, OpKind::Xor, OpKind::Div, word),
        Form::SrlSraDivu => op_of_three(pc, regs, OpKind::Srl, OpKind::Divu, OpKind::Sra, word),
        Form::OrRem => op_of_two(pc, regs, OpKind::Or, OpKind::Rem, word),
        Form::AndRemu => op_of_two(pc, regs, OpKind::And, OpKind::Remu, word),
        Form::Fence => fence(pc, regs, word),
        Form::Amo => amo(hart, pc, regs, bus, word),
        Form::System => system(pc, regs, word),
    }
}
