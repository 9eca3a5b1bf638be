//! Loads, stores and atomic memory operations: one access of the bus each (unprivileged manual, "Load and Store
//! Instructions" and "A").
ghost use Rattle.std.specs.Prelude.{◌≡◌, []};
ghost use Rattle.rv_exec.specs.Access.{load_width, store_width, extended};
ghost use Rattle.rv_exec.specs.Registers.{register, with_pc};
ghost use Rattle.rv_isa.specs.declared.kinds.LoadKind.{LoadKind};
ghost use Rattle.rv_isa.specs.declared.kinds.StoreKind.{StoreKind};
ghost use Rattle.rv_exec.specs.Line.{address_at, load_line, store_line, amo_line, reserving_line};
ghost use Rattle.rv_exec.specs.Line.{conditional_line, conditional_code};
ghost use Rattle.rv_exec.specs.Uses.{load_pages, store_pages, amo_pages};
ghost use Rattle.rv_exec.specs.Outcomes.{Follows, UnlessDone, UsesPages};
ghost use Rattle.rv_exec.specs.Bounds.{Bounds};
ghost use Rattle.rv_exec.specs.Leaves.{LeavesData};

use crate::arithmetic::add;
use crate::at_hand::{advance, compute, read};
use crate::bus::{Bus, BusError};
use crate::cause::Cause;
use crate::outcome::Outcome;
use crate::regs::Regs;
use page_memory::Width;
use rv_isa::{AmoKind, Immediate, LoadKind, Reg, StoreKind};

/// Loads from an offset past what rs1 holds into rd.
#[inline(always)]
pub fn perform_load<B: Bus>(
    pc: &mut u32,
    regs: &mut Regs,
    bus: &mut B,
    kind: LoadKind,
    rd: Reg,
    rs1: Reg,
    offset: Immediate,
) -> Outcome
    ensures line { let line = load_line (with_pc regs.old pc.old) (B.memory bus.old) kind rd
        (address_at (with_pc regs.old pc.old) rs1 offset) in
        Follows line result (with_pc regs.new pc.new) (B.memory bus.new) }
    ensures registers_stay { UnlessDone result (with_pc regs.new pc.new ≡ with_pc regs.old pc.old) }
    ensures memory_stays { UnlessDone result (B.memory bus.new ≡ B.memory bus.old) }
    ensures pages { let used = load_pages (B.memory bus.old) kind
        (address_at (with_pc regs.old pc.old) rs1 offset) in
        UsesPages (B.has bus.old) (B.marks bus.new) (B.lacks bus.old) used result }
    ensures bound { Bounds (B.within bus.old) (B.within bus.new)
        (load_pages (B.memory bus.old) kind (address_at (with_pc regs.old pc.old) rs1 offset)) [] }
    ensures leaves { LeavesData (B.takes bus.new) (B.misses bus.old) (B.misses bus.new) []
        result }
    ensures kept { B.keeps bus.old bus.new }
{
    let address = add(read(*pc, regs, rs1), offset.word());
    load_from(pc, regs, bus, kind, rd, address)
}

/// Loads from an address into rd.
#[inline(always)]
#[tactic(auto, using(crate::proofs::AccessLaws::loading, crate::proofs::LeavesLaws::loading_leaves), unfolding(crate::specs::Uses::load_pages, crate::specs::Uses::store_pages, crate::specs::Uses::amo_pages))]
fn load_from<B: Bus>(
    pc: &mut u32,
    regs: &mut Regs,
    bus: &mut B,
    kind: LoadKind,
    rd: Reg,
    address: u32,
) -> Outcome
    ensures line { let line = load_line (with_pc regs.old pc.old)
        (B.memory bus.old) kind rd address in
        Follows line result (with_pc regs.new pc.new) (B.memory bus.new) }
    ensures registers_stay { UnlessDone result (with_pc regs.new pc.new ≡ with_pc regs.old pc.old) }
    ensures memory_stays { UnlessDone result (B.memory bus.new ≡ B.memory bus.old) }
    ensures pages { let used = load_pages (B.memory bus.old) kind address in
        UsesPages (B.has bus.old) (B.marks bus.new) (B.lacks bus.old) used result }
    ensures bound { Bounds (B.within bus.old) (B.within bus.new)
        (load_pages (B.memory bus.old) kind address) [] }
    ensures leaves { LeavesData (B.takes bus.new) (B.misses bus.old) (B.misses bus.new) []
        result }
    ensures kept { B.keeps bus.old bus.new }
{
    match bus.load(width_of_load(kind), address) {
        Ok(number) => compute(pc, regs, rd, extend(kind, number)),
        Err(BusError::Fault(fault)) => Outcome::Trap(Cause::of_load(fault), address),
        Err(BusError::Absent(page)) => Outcome::Absent(page),
    }
}

/// Stores the low bytes of what rs2 holds at an offset past what rs1 holds.
#[inline(always)]
pub fn perform_store<B: Bus>(
    pc: &mut u32,
    regs: &mut Regs,
    bus: &mut B,
    kind: StoreKind,
    rs1: Reg,
    rs2: Reg,
    offset: Immediate,
) -> Outcome
    ensures line { let line = store_line (with_pc regs.old pc.old) (B.memory bus.old) kind
        (address_at (with_pc regs.old pc.old) rs1 offset)
        (register (with_pc regs.old pc.old) rs2) in
        Follows line result (with_pc regs.new pc.new) (B.memory bus.new) }
    ensures registers_stay { UnlessDone result (with_pc regs.new pc.new ≡ with_pc regs.old pc.old) }
    ensures memory_stays { UnlessDone result (B.memory bus.new ≡ B.memory bus.old) }
    ensures pages { let used = store_pages (B.memory bus.old) kind
        (address_at (with_pc regs.old pc.old) rs1 offset)
        (register (with_pc regs.old pc.old) rs2) in
        UsesPages (B.has bus.old) (B.marks bus.new) (B.lacks bus.old) used result }
    ensures bound { let used = store_pages (B.memory bus.old) kind
        (address_at (with_pc regs.old pc.old) rs1 offset)
        (register (with_pc regs.old pc.old) rs2) in
        Bounds (B.within bus.old) (B.within bus.new) used used }
    ensures leaves { let stored = store_pages (B.memory bus.old) kind
        (address_at (with_pc regs.old pc.old) rs1 offset)
        (register (with_pc regs.old pc.old) rs2) in
        LeavesData (B.takes bus.new) (B.misses bus.old) (B.misses bus.new) stored result }
    ensures kept { B.keeps bus.old bus.new }
{
    let address = add(read(*pc, regs, rs1), offset.word());
    let word = read(*pc, regs, rs2);
    store_to(pc, regs, bus, kind, address, word)
}

/// Stores the low bytes of a word at an address.
#[inline(always)]
#[tactic(auto, using(crate::proofs::AccessLaws::storing), unfolding(crate::specs::Uses::load_pages, crate::specs::Uses::store_pages, crate::specs::Uses::amo_pages))]
fn store_to<B: Bus>(
    pc: &mut u32,
    regs: &mut Regs,
    bus: &mut B,
    kind: StoreKind,
    address: u32,
    word: u32,
) -> Outcome
    ensures line { let line = store_line (with_pc regs.old pc.old)
        (B.memory bus.old) kind address word in
        Follows line result (with_pc regs.new pc.new) (B.memory bus.new) }
    ensures registers_stay { UnlessDone result (with_pc regs.new pc.new ≡ with_pc regs.old pc.old) }
    ensures memory_stays { UnlessDone result (B.memory bus.new ≡ B.memory bus.old) }
    ensures pages { let used = store_pages (B.memory bus.old) kind address word in
        UsesPages (B.has bus.old) (B.marks bus.new) (B.lacks bus.old) used result }
    ensures bound { let used = store_pages (B.memory bus.old) kind address word in
        Bounds (B.within bus.old) (B.within bus.new) used used }
    ensures leaves { let stored = store_pages (B.memory bus.old) kind address word in
        LeavesData (B.takes bus.new) (B.misses bus.old) (B.misses bus.new) stored result }
    ensures kept { B.keeps bus.old bus.new }
{
    match bus.store(width_of_store(kind), address, word) {
        Ok(()) => advance(pc, regs),
        Err(BusError::Fault(fault)) => Outcome::Trap(Cause::of_store(fault), address),
        Err(BusError::Absent(page)) => Outcome::Absent(page),
    }
}

/// Replaces the word at an address by the operation's result, and keeps the old word in rd.
#[inline(always)]
#[tactic(auto, using(crate::proofs::AccessLaws::replacing), unfolding(crate::specs::Uses::load_pages, crate::specs::Uses::store_pages, crate::specs::Uses::amo_pages))]
pub fn perform_amo<B: Bus>(
    pc: &mut u32,
    regs: &mut Regs,
    bus: &mut B,
    kind: AmoKind,
    rd: Reg,
    address: u32,
    operand: u32,
) -> Outcome
    ensures line { let line = amo_line (with_pc regs.old pc.old)
        (B.memory bus.old) kind rd address operand in
        Follows line result (with_pc regs.new pc.new) (B.memory bus.new) }
    ensures registers_stay { UnlessDone result (with_pc regs.new pc.new ≡ with_pc regs.old pc.old) }
    ensures memory_stays { UnlessDone result (B.memory bus.new ≡ B.memory bus.old) }
    ensures pages { let used = amo_pages (B.memory bus.old) kind address operand in
        UsesPages (B.has bus.old) (B.marks bus.new) (B.lacks bus.old) used result }
    ensures bound { let used = amo_pages (B.memory bus.old) kind address operand in
        Bounds (B.within bus.old) (B.within bus.new) used used }
    ensures leaves { let stored = amo_pages (B.memory bus.old) kind address operand in
        LeavesData (B.takes bus.new) (B.misses bus.old) (B.misses bus.new) stored result }
    ensures kept { B.keeps bus.old bus.new }
{
    match bus.amo(address, kind, operand) {
        Ok(old) => compute(pc, regs, rd, old),
        Err(BusError::Fault(fault)) => Outcome::Trap(Cause::of_store(fault), address),
        Err(BusError::Absent(page)) => Outcome::Absent(page),
    }
}

/// Loads the word at an address into rd, and reserves it for the hart.
#[inline(always)]
#[tactic(auto, using(crate::proofs::AccessLaws::reserving_word, crate::proofs::LeavesLaws::loading_leaves), unfolding(crate::specs::Uses::load_pages, crate::specs::Uses::store_pages))]
pub fn perform_load_reserved<B: Bus>(
    hart: u32,
    pc: &mut u32,
    regs: &mut Regs,
    bus: &mut B,
    rd: Reg,
    address: u32,
) -> Outcome
    ensures line { let line = reserving_line hart (with_pc regs.old pc.old)
        (B.memory bus.old) rd address in
        Follows line result (with_pc regs.new pc.new) (B.memory bus.new) }
    ensures registers_stay { UnlessDone result (with_pc regs.new pc.new ≡ with_pc regs.old pc.old) }
    ensures memory_stays { UnlessDone result (B.memory bus.new ≡ B.memory bus.old) }
    ensures pages { let used = load_pages (B.memory bus.old) LoadKind.Lw address in
        UsesPages (B.has bus.old) (B.marks bus.new) (B.lacks bus.old) used result }
    ensures bound { Bounds (B.within bus.old) (B.within bus.new)
        (load_pages (B.memory bus.old) LoadKind.Lw address) [] }
    ensures leaves { LeavesData (B.takes bus.new) (B.misses bus.old) (B.misses bus.new) []
        result }
    ensures kept { B.keeps bus.old bus.new }
{
    match bus.load_reserved(hart, address) {
        Ok(word) => compute(pc, regs, rd, word),
        Err(BusError::Fault(fault)) => Outcome::Trap(Cause::of_load(fault), address),
        Err(BusError::Absent(page)) => Outcome::Absent(page),
    }
}

/// Stores a word at an address where the hart has reserved it, and writes to rd whether it has not.
#[inline(always)]
#[tactic(auto, using(crate::proofs::AccessLaws::storing_word), unfolding(crate::specs::Uses::load_pages, crate::specs::Uses::store_pages))]
pub fn perform_store_conditional<B: Bus>(
    hart: u32,
    pc: &mut u32,
    regs: &mut Regs,
    bus: &mut B,
    rd: Reg,
    address: u32,
    word: u32,
) -> Outcome
    ensures line { let line = conditional_line hart (with_pc regs.old pc.old)
        (B.memory bus.old) rd address word in
        Follows line result (with_pc regs.new pc.new) (B.memory bus.new) }
    ensures registers_stay { UnlessDone result (with_pc regs.new pc.new ≡ with_pc regs.old pc.old) }
    ensures memory_stays { UnlessDone result (B.memory bus.new ≡ B.memory bus.old) }
    ensures pages { let used = store_pages (B.memory bus.old) StoreKind.Sw address word in
        UsesPages (B.has bus.old) (B.marks bus.new) (B.lacks bus.old) used result }
    ensures bound { let used = store_pages (B.memory bus.old) StoreKind.Sw address word in
        Bounds (B.within bus.old) (B.within bus.new) used used }
    ensures leaves { let stored = store_pages (B.memory bus.old) StoreKind.Sw address word in
        LeavesData (B.takes bus.new) (B.misses bus.old) (B.misses bus.new) stored result }
    ensures kept { B.keeps bus.old bus.new }
{
    match bus.store_conditional(hart, address, word) {
        Ok(is_stored) => compute(pc, regs, rd, code_of(is_stored)),
        Err(BusError::Fault(fault)) => Outcome::Trap(Cause::of_store(fault), address),
        Err(BusError::Absent(page)) => Outcome::Absent(page),
    }
}

/// What SC.W writes to rd.
#[inline]
fn code_of(is_stored: bool) -> u32
    ensures { result ≡ conditional_code is_stored }
{
    if is_stored { 0 } else { 1 }
}

/// How much a load reads.
#[inline]
pub fn width_of_load(kind: LoadKind) -> Width
    ensures { result ≡ load_width kind }
{
    match kind {
        LoadKind::Lb | LoadKind::Lbu => Width::Byte,
        LoadKind::Lh | LoadKind::Lhu => Width::Half,
        LoadKind::Lw => Width::Word,
    }
}

/// How much a store writes.
#[inline]
pub fn width_of_store(kind: StoreKind) -> Width
    ensures { result ≡ store_width kind }
{
    match kind {
        StoreKind::Sb => Width::Byte,
        StoreKind::Sh => Width::Half,
        StoreKind::Sw => Width::Word,
    }
}

/// The word that a loaded number fills a register with.
#[inline]
#[tactic(auto, unfolding(crate::specs::Access::extended))]
pub fn extend(kind: LoadKind, number: u32) -> u32
    ensures { result ≡ extended kind number }
{
    match kind {
        LoadKind::Lb => i32::from(((number % 0x100) as u8).cast_signed()).cast_unsigned(),
        LoadKind::Lh => i32::from(((number % 0x1_0000) as u16).cast_signed()).cast_unsigned(),
        LoadKind::Lw | LoadKind::Lbu | LoadKind::Lhu => number,
    }
}
