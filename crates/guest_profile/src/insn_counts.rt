//! How often instructions ran.

ghost use Rattle.std.specs.Prelude.{◌≡◌, ◌↔◌, ℕ, None, Some, IfOk, IsTrue, OnOk, nat_eq};
ghost use Rattle.std.specs.HashMap.{IsUnique, keys};
ghost use Rattle.std.specs.List.Sorted.{IsSorted};
ghost use Rattle.std.specs.Ordering.{nat_cmp};
ghost use Rattle.guest_profile.specs.Counting.{counted, counts_of, has_run, one_more};
ghost use Rattle.guest_profile.specs.Listed.{AreAll, AreSoMany};

use std::alloc::{AllocError, AllocFailed, Global};
use std::collections::HashMap;

/// What is counted of an instruction.
#[derive(Clone, Copy, Debug, PartialEq, Eq)]
pub struct InsnTally {
    /// How often it ran.
    pub steps: u64,
    /// How often the program went on elsewhere than at the instruction after it.
    pub taken: u64,
    /// How often it ran within a call of level 2.
    pub inner_steps: u64,
    /// How often the program then went on elsewhere than at the instruction after it.
    pub inner_taken: u64,
    /// Its word, as it was when it ran first.
    pub word: u32,
}

/// The counts of instructions, by their addresses.
#[derive(Drop)]
pub struct InsnCounts {
    counts: HashMap<u32, InsnTally>,
}

impl InsnCounts {
    pub(crate) fn new(alloc: Global) -> Self
        ensures { (at : ℕ) → counts_of result at ≡ None }
    {
        InsnCounts {
            counts: HashMap::new(alloc),
        }
    }

    /// Counts a step of the instruction at an address, of an inner call or not.
    pub(crate) fn count(
        &mut self,
        address: u32,
        word: u32,
        is_taken: bool,
        is_inner: bool,
    ) -> Result<(), AllocError>
        ensures { OnOk result ((at : ℕ) → counts_of self.new at ≡
            counted address word is_taken is_inner at (counts_of self.old at)) }
    {
        let counts = match self.counts.get(&address) {
            Some(counts) => *counts,
            None => InsnTally {
                steps: 0,
                taken: 0,
                inner_steps: 0,
                inner_taken: 0,
                word,
            },
        };
        let more = one_more(counts, is_taken, is_inner);
        self.counts.insert(address, more).map_err(AllocError::from)?;
        Ok(())
    }

    /// How many instructions ran, each counted once.
    pub fn len(&self) -> usize
        ensures { AreSoMany nat_eq (has_run self.now) result }
    {
        self.counts.len()
    }

    /// Whether none ran.
    pub fn is_empty(&self) -> bool
        ensures { IsTrue result ↔ ((at : ℕ) → counts_of self.now at ≡ None) }
    {
        self.counts.is_empty()
    }

    /// The counts of an instruction that ran.
    pub fn at(&self, address: u32) -> Option<InsnTally>
        ensures { result ≡ counts_of self.now address }
    {
        self.counts.get(&address).copied()
    }

    /// The addresses of the instructions that ran, by rising number.
    pub fn addresses(&self, alloc: Global) -> Result<Vec<u32>, AllocError>
        ensures rising { IfOk result (λ addresses. IsSorted nat_cmp addresses.items) }
        ensures all { IfOk result (λ addresses. AreAll nat_eq (has_run self.now) addresses.items) }
    {
        let mut addresses = self.keys(alloc)?;
        addresses.sort_unstable();
        Ok(addresses)
    }

    fn keys(&self, alloc: Global) -> Result<Vec<u32>, AllocError>
        ensures keys { IfOk result (λ all. all.items ≡ keys self.now.counts) }
        ensures unique { IsUnique nat_eq self.now.counts }
    {
        self.counts.keys().copied().collect(alloc)
    }
}

fn one_more(counts: InsnTally, is_taken: bool, is_inner: bool) -> InsnTally
    ensures { result ≡ one_more is_taken is_inner counts }
{
    let is_inner_taken = is_taken && is_inner;
    InsnTally {
        steps: counts.steps.saturating_add(1),
        taken: counts.taken.saturating_add(u64::from(is_taken)),
        inner_steps: counts.inner_steps.saturating_add(u64::from(is_inner)),
        inner_taken: counts.inner_taken.saturating_add(u64::from(is_inner_taken)),
        word: counts.word,
    }
}
