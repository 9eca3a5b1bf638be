//! Words that load or store, and atomic ones: their fields go to what is done with them.

ghost use Rattle.std.specs.Prelude.{◌≡◌, ℕ};
ghost use Rattle.rv_isa.specs.Table.{amo_of, reservation_of};
ghost use Rattle.rv_isa.specs.Forms.{load_insn, store_insn};
ghost use Rattle.rv_exec.specs.Registers.{with_pc};
ghost use Rattle.rv_exec.specs.Line.{decoded_line};
ghost use Rattle.rv_exec.specs.Bounds.{Bounds};
ghost use Rattle.rv_exec.specs.Leaves.{LeavesData};
ghost use Rattle.rv_exec.specs.Uses.{decoded_pages, decoded_stores};
ghost use Rattle.rv_exec.specs.Outcomes.{Follows, UnlessDone, UsesPages};

use crate::accesses::{
    perform_amo, perform_load, perform_load_reserved, perform_store, perform_store_conditional,
};
use crate::at_hand::read;
use crate::bus::Bus;
use crate::forms::illegal;
use crate::outcome::Outcome;
use crate::regs::Regs;
use rv_isa::{
    LoadKind, ReservationKind, StoreKind, amo_kind, immediate, rd, reservation_kind, rs1, rs2,
    store_immediate,
};

/// A load of a kind.
#[inline(always)]
#[tactic(auto, unfolding(crate::specs::Line::insn_line, crate::specs::Uses::data_pages, crate::specs::Uses::data_stores))]
pub(crate) fn load<B: Bus>(
    pc: &mut u32,
    regs: &mut Regs,
    bus: &mut B,
    kind: LoadKind,
    word: u32,
) -> Outcome
    ensures line { (hart : ℕ) → let line = decoded_line hart (with_pc regs.old pc.old)
        (B.memory bus.old) word (Some (load_insn kind word)) in
        Follows line result (with_pc regs.new pc.new) (B.memory bus.new) }
    ensures registers_stay { UnlessDone result (with_pc regs.new pc.new ≡ with_pc regs.old pc.old) }
    ensures memory_stays { UnlessDone result (B.memory bus.new ≡ B.memory bus.old) }
    ensures pages { let used = decoded_pages (with_pc regs.old pc.old) (B.memory bus.old)
        (Some (load_insn kind word)) in
        UsesPages (B.has bus.old) (B.marks bus.new) (B.lacks bus.old) used result }
    ensures bound { let memory = B.memory bus.old in
        Bounds (B.within bus.old) (B.within bus.new) (decoded_pages (with_pc regs.old pc.old) memory
        (Some (load_insn kind word))) (decoded_stores (with_pc regs.old pc.old) memory
        (Some (load_insn kind word))) }
    ensures leaves { let stored = decoded_stores (with_pc regs.old pc.old) (B.memory bus.old)
        (Some (load_insn kind word)) in
        LeavesData (B.takes bus.new) (B.misses bus.old) (B.misses bus.new) stored result }
    ensures kept { B.keeps bus.old bus.new }
{
    perform_load(pc, regs, bus, kind, rd(word), rs1(word), immediate(word))
}

/// A store of a kind.
#[inline(always)]
#[tactic(auto, unfolding(crate::specs::Line::insn_line, crate::specs::Uses::data_pages, crate::specs::Uses::data_stores))]
pub(crate) fn store<B: Bus>(
    pc: &mut u32,
    regs: &mut Regs,
    bus: &mut B,
    kind: StoreKind,
    word: u32,
) -> Outcome
    ensures line { (hart : ℕ) → let line = decoded_line hart (with_pc regs.old pc.old)
        (B.memory bus.old) word (Some (store_insn kind word)) in
        Follows line result (with_pc regs.new pc.new) (B.memory bus.new) }
    ensures registers_stay { UnlessDone result (with_pc regs.new pc.new ≡ with_pc regs.old pc.old) }
    ensures memory_stays { UnlessDone result (B.memory bus.new ≡ B.memory bus.old) }
    ensures pages { let used = decoded_pages (with_pc regs.old pc.old) (B.memory bus.old)
        (Some (store_insn kind word)) in
        UsesPages (B.has bus.old) (B.marks bus.new) (B.lacks bus.old) used result }
    ensures bound { let memory = B.memory bus.old in
        Bounds (B.within bus.old) (B.within bus.new) (decoded_pages (with_pc regs.old pc.old) memory
        (Some (store_insn kind word))) (decoded_stores (with_pc regs.old pc.old) memory
        (Some (store_insn kind word))) }
    ensures leaves { let stored = decoded_stores (with_pc regs.old pc.old) (B.memory bus.old)
        (Some (store_insn kind word)) in
        LeavesData (B.takes bus.new) (B.misses bus.old) (B.misses bus.new) stored result }
    ensures kept { B.keeps bus.old bus.new }
{
    perform_store(
        pc,
        regs,
        bus,
        kind,
        rs1(word),
        rs2(word),
        store_immediate(word),
    )
}

/// Opcode AMO.
#[inline(always)]
#[tactic(auto, unfolding(rv_isa::specs::Table::amo_of, crate::specs::Line::insn_line, crate::specs::Uses::data_pages, crate::specs::Uses::data_stores))]
pub(crate) fn amo<B: Bus>(
    hart: u32,
    pc: &mut u32,
    regs: &mut Regs,
    bus: &mut B,
    word: u32,
) -> Outcome
    ensures line { let line = decoded_line hart (with_pc regs.old pc.old) (B.memory bus.old) word
        (amo_of word) in
        Follows line result (with_pc regs.new pc.new) (B.memory bus.new) }
    ensures registers_stay { UnlessDone result (with_pc regs.new pc.new ≡ with_pc regs.old pc.old) }
    ensures memory_stays { UnlessDone result (B.memory bus.new ≡ B.memory bus.old) }
    ensures pages { let used = decoded_pages (with_pc regs.old pc.old) (B.memory bus.old)
        (amo_of word) in
        UsesPages (B.has bus.old) (B.marks bus.new) (B.lacks bus.old) used result }
    ensures bound { let memory = B.memory bus.old in
        Bounds (B.within bus.old) (B.within bus.new) (decoded_pages (with_pc regs.old pc.old) memory
        (amo_of word)) (decoded_stores (with_pc regs.old pc.old) memory (amo_of word)) }
    ensures leaves { let stored = decoded_stores (with_pc regs.old pc.old) (B.memory bus.old)
        (amo_of word) in
        LeavesData (B.takes bus.new) (B.misses bus.old) (B.misses bus.new) stored result }
    ensures kept { B.keeps bus.old bus.new }
{
    match amo_kind(word) {
        Some(kind) => {
            let address = read(*pc, regs, rs1(word));
            let operand = read(*pc, regs, rs2(word));
            perform_amo(pc, regs, bus, kind, rd(word), address, operand)
        }
        None => reservation(hart, pc, regs, bus, word),
    }
}

/// Opcode AMO, where it is LR.W or SC.W.
#[inline(always)]
#[tactic(auto, unfolding(rv_isa::specs::Table::reservation_of, crate::specs::Line::insn_line, crate::specs::Uses::data_pages, crate::specs::Uses::data_stores))]
pub(crate) fn reservation<B: Bus>(
    hart: u32,
    pc: &mut u32,
    regs: &mut Regs,
    bus: &mut B,
    word: u32,
) -> Outcome
    ensures line { let line = decoded_line hart (with_pc regs.old pc.old) (B.memory bus.old) word
        (reservation_of word) in
        Follows line result (with_pc regs.new pc.new) (B.memory bus.new) }
    ensures registers_stay { UnlessDone result (with_pc regs.new pc.new ≡ with_pc regs.old pc.old) }
    ensures memory_stays { UnlessDone result (B.memory bus.new ≡ B.memory bus.old) }
    ensures pages { let used = decoded_pages (with_pc regs.old pc.old) (B.memory bus.old)
        (reservation_of word) in
        UsesPages (B.has bus.old) (B.marks bus.new) (B.lacks bus.old) used result }
    ensures bound { let memory = B.memory bus.old in
        Bounds (B.within bus.old) (B.within bus.new) (decoded_pages (with_pc regs.old pc.old) memory
        (reservation_of word)) (decoded_stores (with_pc regs.old pc.old) memory
        (reservation_of word)) }
    ensures leaves { let stored = decoded_stores (with_pc regs.old pc.old) (B.memory bus.old)
        (reservation_of word) in
        LeavesData (B.takes bus.new) (B.misses bus.old) (B.misses bus.new) stored result }
    ensures kept { B.keeps bus.old bus.new }
{
    match reservation_kind(word) {
        Some(ReservationKind::Lr) => {
            let address = read(*pc, regs, rs1(word));
            perform_load_reserved(hart, pc, regs, bus, rd(word), address)
        }
        Some(ReservationKind::Sc) => {
            let address = read(*pc, regs, rs1(word));
            let operand = read(*pc, regs, rs2(word));
            perform_store_conditional(hart, pc, regs, bus, rd(word), address, operand)
        }
        None => illegal(word),
    }
}
