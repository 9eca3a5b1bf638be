//! A policy that plays a string piece by piece.

ghost use Rattle.std.specs.Prelude.{◌≡◌, ◌+◌, ◌≤◌, ◌++◌, List, [], IfOk, OnOk, length};
ghost use Rattle.guest_strings.specs.declared.reference.Reference.{Reference};
ghost use Rattle.miss_counts.specs.Playing.{GoesOn};
ghost use Rattle.miss_counts.specs.StringPages.{pages_of, use_of, uses_of};

use guest_strings::Reference;
use page_policies::{Frames, HitOrMiss, Policy};
use std::alloc::{AllocError, Global};
use ticked_policies::{PageUse, WritingPolicy};

/// A count that is kept as references come. After an error nothing is said of it.
pub trait Counting: Drop {
    ghost use Rattle.std.specs.Prelude.{ℕ, List};
    ghost use Rattle.guest_strings.specs.declared.reference.Reference.{Reference};

    /// What is counted so far, and what would be counted of a string to come.
    ghost all: { Self → List Reference → ℕ };

    /// Pages are used, one after another. The count stops at the greatest number that there is.
    fn play(&mut self, references: &[Reference]) -> Result<(), AllocError>
        ensures goes_on { OnOk result (GoesOn all references.now self.old self.new) }
        ensures few { OnOk result (all self.new [] ≤ all self.old [] + length references.now) };

    /// What is counted so far.
    fn count(&self) -> u64
        ensures { result ≡ all self.now [] };

    /// Begins to count anew. What is to come stays the same.
    fn forget(&mut self)
        ensures { (string : List Reference) →
            all self.old string ≡ all self.old [] + all self.new string };
}

/// A policy, with how many references have missed so far. After an error nothing is said of it.
#[derive(Drop)]
pub struct Player<P: Policy> {
    policy: P,
    misses: u64,
}

/// A policy that begins to count.
pub(crate) fn player_of<P: Policy>(policy: P) -> Player<P>
    ensures all { (string : List Reference) → ⟦<Player<P> as Counting>⟧.all result string ≡ P.to_miss
        policy (pages_of string) }
    ensures none { ⟦<Player<P> as Counting>⟧.all result [] ≡ 0 }
{
    Player { policy, misses: 0 }
}

/// A policy that begins to count. It serves so many frames.
pub(crate) fn new_player<P: Policy>(alloc: Global, frames: Frames) -> Result<Player<P>, AllocError>
    requires { P.refuses frames.number → ⊥ }
    ensures all { IfOk result (λ player. (string : List Reference) →
        ⟦<Player<P> as Counting>⟧.all player string ≡ P.misses frames.number (pages_of
        string)) }
    ensures none { IfOk result (λ player. ⟦<Player<P> as Counting>⟧.all player [] ≡ 0) }
{
    match P::new(alloc, frames) {
        Ok(policy) => Ok(player_of(policy)),
        // The policy serves these frames, so the only error is that there is not enough memory.
        Err(_) => Err(AllocError),
    }
}

impl<P: Policy> Counting for Player<P> {
    ghost use Rattle.std.specs.Prelude.{◌+◌};
    ghost use Rattle.miss_counts.specs.StringPages.{pages_of};

    ghost all = { λ player string. player.misses + P.to_miss player.policy (pages_of string) };

    fn play(&mut self, references: &[Reference]) -> Result<(), AllocError> {
        let missed = misses_of(&mut self.policy, references)?;
        self.misses = self.misses.saturating_add(missed as u64);
        Ok(())
    }

    fn count(&self) -> u64 {
        self.misses
    }

    fn forget(&mut self) {
        self.misses = 0;
    }
}

/// How many of these references miss.
fn misses_of<P: Policy>(policy: &mut P, references: &[Reference]) -> Result<usize, AllocError>
    ensures few { IfOk result (λ count. count ≤ length references.now) }
    ensures misses { IfOk result (λ count. (string : List Reference) → P.to_miss policy.old (pages_of
        (references.now ++ string)) ≡ count + P.to_miss policy.new (pages_of string)) }
{
    let mut count = 0;
    'references: for reference in references {
        match policy.refer(reference.page)? {
            HitOrMiss::Hit => {}
            HitOrMiss::Miss => count += 1,
        }
    }
    Ok(count)
}

/// A policy that knows which references write, with how many references have missed so far. After an error nothing is said of it.
#[derive(Drop)]
pub struct WritingPlayer<P: WritingPolicy> {
    policy: P,
    misses: u64,
}

/// A policy that knows which references write, which begins to count.
pub(crate) fn writing_player<P: WritingPolicy>(policy: P) -> WritingPlayer<P>
    ensures all { (string : List Reference) → ⟦<WritingPlayer<P> as Counting>⟧.all result string ≡
        P.to_miss policy (uses_of string) }
    ensures none { ⟦<WritingPlayer<P> as Counting>⟧.all result [] ≡ 0 }
{
    WritingPlayer { policy, misses: 0 }
}

impl<P: WritingPolicy> Counting for WritingPlayer<P> {
    ghost use Rattle.std.specs.Prelude.{◌+◌};
    ghost use Rattle.miss_counts.specs.StringPages.{uses_of};

    ghost all = { λ player string. player.misses + P.to_miss player.policy (uses_of string) };

    fn play(&mut self, references: &[Reference]) -> Result<(), AllocError> {
        let missed = misses_with_writes(&mut self.policy, references)?;
        self.misses = self.misses.saturating_add(missed as u64);
        Ok(())
    }

    fn count(&self) -> u64 {
        self.misses
    }

    fn forget(&mut self) {
        self.misses = 0;
    }
}

/// What a policy is given of a reference.
fn use_of(reference: Reference) -> PageUse
    ensures { result ≡ use_of reference }
{
    PageUse {
        page: reference.page,
        is_written: reference.is_written,
    }
}

/// How many of these references miss.
fn misses_with_writes<P: WritingPolicy>(
    policy: &mut P,
    references: &[Reference],
) -> Result<usize, AllocError>
    ensures few { IfOk result (λ count. count ≤ length references.now) }
    ensures misses { IfOk result (λ count. (string : List Reference) → P.to_miss policy.old (uses_of
        (references.now ++ string)) ≡ count + P.to_miss policy.new (uses_of string)) }
{
    let mut count = 0;
    'references: for reference in references {
        match policy.refer(use_of(*reference))? {
            HitOrMiss::Hit => {}
            HitOrMiss::Miss => count += 1,
        }
    }
    Ok(count)
}
