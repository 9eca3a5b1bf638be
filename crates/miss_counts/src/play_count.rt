//! One count under each policy, whatever is counted.

ghost use Rattle.std.specs.Prelude.{◌≡◌, List, [], true, IfOk};
ghost use Rattle.guest_strings.specs.declared.reference.Reference.{Reference};
ghost use Rattle.miss_counts.specs.Counted.{IsCounted, asked, misses_of, serves};

use crate::any_player::AnyPlayer;
use crate::counts::{PolicyCount, PolicyCounts};
use crate::player::Counting;
use crate::policy_name::PolicyName;
use page_policies::Frames;
use std::alloc::{AllocError, Global};

/// What is counted while a policy serves a string.
pub trait PlayCount {
    ghost use Rattle.std.specs.Prelude.{ℕ, List};
    ghost use Rattle.guest_strings.specs.declared.reference.Reference.{Reference};

    /// The count under a policy that misses so many of each string.
    ghost counts: { Self → (List Reference → ℕ) → ℕ };

    /// The count under a policy that begins.
    fn count_under(&self, alloc: Global, player: &mut AnyPlayer) -> Result<u64, AllocError>
        requires { ⟦<AnyPlayer as Counting>⟧.all player.old [] ≡ 0 }
        ensures { IfOk result (λ count. (misses : List Reference → ℕ) → ((string : List Reference) →
            ⟦<AnyPlayer as Counting>⟧.all player.old string ≡ misses string) → count ≡ counts
            self.now misses) };
}

/// The count under a policy by its name, where it serves so many frames.
fn count_where_served<C: PlayCount>(
    alloc: Global,
    policy: PolicyName,
    frames: Frames,
    counting: &C,
) -> Result<Option<u64>, AllocError>
    ensures { IfOk result (λ count. count ≡ asked (serves policy frames.number) (C.counts
        counting.now (misses_of policy frames.number))) }
{
    if !policy.serves(frames) {
        return Ok(None);
    }
    let count = count_served(alloc, policy, frames, counting)?;
    Ok(Some(count))
}

/// The count under a policy that serves so many frames.
fn count_served<C: PlayCount>(
    alloc: Global,
    policy: PolicyName,
    frames: Frames,
    counting: &C,
) -> Result<u64, AllocError>
    requires { serves policy frames.number ≡ true }
    ensures { IfOk result (λ count. count ≡ C.counts counting.now (misses_of policy
        frames.number)) }
{
    let mut player = AnyPlayer::new(alloc, policy, frames)?;
    counting.count_under(alloc, &mut player)
}

/// The count under each policy that is asked for, of a string of so many references, where the count
/// of the optimum is given.
pub fn counts_by<C: PlayCount>(
    alloc: Global,
    frames: Frames,
    counting: &C,
    references: u64,
    optimum: Option<u64>,
    policies: &[PolicyName],
) -> Result<PolicyCounts, AllocError>
    ensures { IfOk result (IsCounted (C.counts counting.now) policies.now references optimum
        frames) }
{
    let mut counts = Vec::new(alloc);
    'policies: for at in 0..policies.len() {
        let policy = policies[at];
        let count = count_where_served(alloc, policy, frames, counting)?;
        counts.push(PolicyCount { policy, count })?;
    }
    Ok(PolicyCounts {
        frames,
        references,
        counts,
        optimum,
    })
}
