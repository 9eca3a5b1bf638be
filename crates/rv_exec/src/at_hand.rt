//! A hart's registers while it runs: pc is at hand, and takes the place of the one that [`Regs`] has. Each function here and
//! above says what becomes of the registers with that pc.
ghost use Rattle.std.specs.Prelude.{◌≡◌, ◌<◌};
ghost use Rattle.rv_exec.specs.Registers.{register, with_register, with_pc, next_pc};
ghost use Rattle.rv_exec.specs.Line.{computed};

use crate::outcome::Outcome;
use crate::regs::Regs;
use rv_isa::Reg;

/// The value of a register that an instruction names, whatever pc is.
#[inline(always)]
#[tactic(auto, using(crate::proofs::RegistersLaws::read_aside))]
pub fn read(pc: u32, regs: &Regs, named: Reg) -> u32
    ensures { result ≡ register (with_pc regs.now pc) named }
{
    let _ = pc;
    regs.read(named)
}

/// Moves pc on.
#[inline(always)]
#[tactic(auto, using(crate::proofs::RegistersLaws::advanced))]
pub fn advance(pc: &mut u32, regs: &Regs) -> Outcome
    ensures done { result ≡ Outcome.Done }
    ensures moved { with_pc regs.now pc.new ≡ with_pc (with_pc regs.now pc.old)
        (next_pc (with_pc regs.now pc.old)) }
{
    let _ = regs;
    *pc = pc.wrapping_add(4);
    Outcome::Done
}

/// Writes a value to rd, and moves pc on.
#[inline(always)]
#[tactic(auto, using(crate::proofs::RegistersLaws::computed_aside))]
pub fn compute(pc: &mut u32, regs: &mut Regs, rd: Reg, value: u32) -> Outcome
    ensures done { result ≡ Outcome.Done }
    ensures written { with_pc regs.new pc.new ≡ computed (with_pc regs.old pc.old) rd value }
{
    regs.write(rd, value);
    *pc = pc.wrapping_add(4);
    Outcome::Done
}

/// Goes to a target, and writes the address of the next instruction to the register of this number.
#[inline(always)]
#[tactic(auto, using(crate::proofs::RegistersLaws::landed_aside))]
pub fn land(pc: &mut u32, regs: &mut Regs, link: u8, target: u32)
    requires { link < 32 }
    ensures { with_pc regs.new pc.new ≡ with_register (with_pc (with_pc regs.old pc.old) target)
        link (next_pc (with_pc regs.old pc.old)) }
{
    let next = pc.wrapping_add(4);
    *pc = target;
    regs.set_x(link, next);
}
