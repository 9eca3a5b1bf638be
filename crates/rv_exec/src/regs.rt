//! A hart's registers: pc and `x0` to `x31`, of which `x0` is always 0.

ghost use Rattle.std.specs.Prelude.{◌≡◌, ◌<◌};
ghost use Rattle.rv_exec.specs.Line.{address_at};
ghost use Rattle.rv_exec.specs.Registers.{register, with_register, with_pc, next_pc, cleared};

use rv_isa::{Immediate, Reg};
use std::marker::Model;

/// A hart's registers: pc and `x1` to `x31`. `x0` reads 0 and is never written.
#[derive(Clone, Copy, Debug, PartialEq, Eq)]
pub struct Regs {
    pc: u32,
    /// By number; the entry of `x0` stays 0, so that a read needs no test.
    x: [u32; 32],
}

impl Model for Regs {
    ghost use Rattle.std.specs.Prelude.{◌≡◌, ◌∷◌, drop, slice_index, length};
    ghost use Rattle.rv_exec.specs.Registers.{Registers};

    ghost Value = { Registers };

    ghost view = { λ regs. record { pc = regs.pc; x = drop 1 regs.x } };

    ghost invariant = { λ regs. (length regs.x ≡ 32) × (slice_index regs.x 0 ≡ 0) };

    ghost inverse = { λ value. record { pc = value.pc; x = 0 ∷ value.x } };

    ghost use Rattle.std.proofs.Common.{ap};
    ghost use Rattle.rv_exec.specs.declared.regs.Regs.TheInside.{Inside};
    ghost use Rattle.rv_exec.specs.Registers.{with_zero};

    ghost inverse_ok = { λ regs lawful.
        ap (λ x. let inside : Inside = record { pc = regs.pc; x = x } in inside)
        (with_zero regs.x lawful.0 lawful.1) };
}

impl Regs {
    /// The registers of a hart that is to begin at pc: all others are 0.
    #[tactic(auto, unfolding(crate::specs::Registers::cleared))]
    pub fn new(pc: u32) -> Self
        ensures { result ≡ cleared pc }
    {
        Regs { pc, x: [0; 32] }
    }

    #[inline]
    pub fn pc(&self) -> u32
        ensures { result ≡ self.now.pc }
    {
        self.pc
    }

    /// The address of the instruction after the one at pc.
    #[inline]
    #[tactic(auto, unfolding(crate::specs::Registers::next_pc))]
    pub fn next_pc(&self) -> u32
        ensures { result ≡ next_pc self.now }
    {
        self.pc.wrapping_add(4)
    }

    #[inline]
    #[tactic(auto, unfolding(crate::specs::Registers::with_pc))]
    pub fn set_pc(&mut self, pc: u32)
        ensures { self.new ≡ with_pc self.old pc }
    {
        self.pc = pc;
    }

    /// The value of a register that an instruction names.
    #[inline]
    pub fn read(&self, named: Reg) -> u32
        ensures { result ≡ register self.now named }
    {
        self.x(named.index())
    }

    /// The address that a load or a store names: an offset past what a register holds.
    #[inline]
    #[tactic(auto, unfolding(crate::specs::Arithmetic::word_sum))]
    pub fn address_at(&self, base: Reg, offset: Immediate) -> u32
        ensures { result ≡ address_at self.now base offset }
    {
        self.read(base).wrapping_add(offset.word())
    }

    /// Writes the register that an instruction names.
    #[inline]
    pub fn write(&mut self, named: Reg, value: u32)
        ensures { self.new ≡ with_register self.old named value }
    {
        self.set_x(named.index(), value);
    }

    /// The value of a register by its number: 0 for `x0`.
    #[inline]
    #[tactic(auto, using(crate::proofs::RegistersLaws::read_at))]
    pub fn x(&self, number: u8) -> u32
        requires { number < 32 }
        ensures { result ≡ register self.now number }
    {
        self.x[number as usize]
    }

    /// Writes a register by its number; what is written to `x0` is lost.
    #[inline]
    #[tactic(auto, using(crate::proofs::RegistersLaws::written_at))]
    pub fn set_x(&mut self, number: u8, value: u32)
        requires { number < 32 }
        ensures { self.new ≡ with_register self.old number value }
    {
        self.x[number as usize] = value;
        self.x[0] = 0;
    }

    /// Writes a register by its number, which is not that of `x0`: no other register is touched.
    #[inline(always)]
    #[tactic(auto, using(crate::proofs::RegistersLaws::put_at))]
    pub fn put(&mut self, number: u8, value: u32)
        requires above { 0 < number }
        requires below { number < 32 }
        ensures { self.new ≡ with_register self.old number value }
    {
        self.x[number as usize] = value;
    }
}
