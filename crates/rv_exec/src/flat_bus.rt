//! Flat memory as a bus: no page is ever absent.

ghost use Rattle.std.specs.Prelude.{◌≡◌, ℕ, Ok, Err, IfOk, IfErr, OnErr};
ghost use Rattle.page_memory.specs.Memory.{replaced};
ghost use Rattle.rv_exec.specs.Amo.{amo_result};

use crate::amo::amo_word;
use crate::bus::{Bus, BusError};
use page_memory::{FlatMemory, MemoryFault, Width};
use rv_isa::AmoKind;
use std::alloc::AllocError;

// Flat memory is a bus of its own: every page is there.
impl Bus for FlatMemory {
    ghost memory = { λ memory. memory };

    ghost lacks = { λ _ _. ⊥ };

    ghost has = { λ _ _. Unit {0} };

    ghost marks = { λ _ _. Unit {0} };

    ghost within = { λ _ _ _. Unit {0} };

    ghost takes = { λ _ _. Unit {0} };

    ghost misses = { λ _ _ _ _. Unit {0} };

    ghost keeps = { λ _ _. Unit {0} };

    ghost keeps_itself = { λ _. tt };

    ghost keeps_on = { λ _ _ _ _ _. tt };

    ghost lacked_before = { λ _ _ _ _ lacked. lacked };

    ghost had_before = { λ _ _ _ _ had. had };

    ghost marked_on = { λ _ _ _ _ marked. marked };

    ghost takes_on = { λ _ _ _ _ taken. taken };

    #[inline]
    fn fetch(&mut self, address: u32) -> Result<u32, BusError> {
        Ok(FlatMemory::fetch(self, address)?)
    }

    #[inline]
    fn load(&mut self, width: Width, address: u32) -> Result<u32, BusError> {
        Ok(FlatMemory::load(self, width, address)?)
    }

    #[inline]
    fn store(&mut self, width: Width, address: u32, word: u32) -> Result<(), BusError> {
        Ok(FlatMemory::store(self, width, address, word)?)
    }

    #[inline]
    fn amo(&mut self, address: u32, operation: AmoKind, operand: u32) -> Result<u32, BusError> {
        Ok(replace(self, address, operation, operand)?)
    }

    fn load_reserved(&mut self, hart: u32, address: u32) -> Result<u32, BusError> {
        Ok(FlatMemory::load_reserved(self, hart, address)?)
    }

    fn store_conditional(&mut self, hart: u32, address: u32, word: u32) -> Result<bool, BusError> {
        Ok(FlatMemory::store_conditional(self, hart, address, word)?)
    }

    fn copy_out(&mut self, address: u32, to: &mut [u8]) -> Result<(), BusError> {
        Ok(FlatMemory::copy_out(self, address, to)?)
    }

    fn copy_in(&mut self, address: u32, from: &[u8]) -> Result<(), BusError> {
        Ok(FlatMemory::copy_in(self, address, from)?)
    }

    fn map_zeroed(&mut self, first: u32, count: u32) -> Result<(), AllocError> {
        FlatMemory::map_zeroed(self, first, count)
    }
}

/// Replaces the word at an address by an operation's result, and answers the old word.
#[inline]
#[tactic(auto, using(crate::proofs::Replacing::unreplaced))]
fn replace(
    memory: &mut FlatMemory,
    address: u32,
    operation: AmoKind,
    operand: u32,
) -> Result<u32, MemoryFault>
    ensures ok { let update = λ (old : ℕ). amo_result operation old operand in
        IfOk result (λ old. replaced memory.old update address ≡ Ok (old, memory.new)) }
    ensures fault { let update = λ (old : ℕ). amo_result operation old operand in
        IfErr result (λ fault. replaced memory.old update address ≡ Err fault) }
    ensures err { OnErr result (memory.new ≡ memory.old) }
{
    let old = memory.load_to_replace(address)?;
    memory.store(Width::Word, address, amo_word(operation, old, operand))?;
    Ok(old)
}
