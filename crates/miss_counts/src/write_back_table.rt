//! A table of what is written back.

ghost use Rattle.std.specs.Prelude.{◌≡◌, ◌↔◌, Err, List, [], false, map, IfOk};
ghost use Rattle.std.specs.List.{AllZip};
ghost use Rattle.miss_counts.specs.Counted.{any_served};
ghost use Rattle.miss_counts.specs.WriteBacks.{write_backs};
ghost use Rattle.miss_counts.specs.WrittenBack.{IsWrittenBack};

use crate::any_player::AnyPlayer;
use crate::counts::PolicyCounts;
use crate::dirty_pages::write_backs;
use crate::play_count::{PlayCount, counts_by};
use crate::player::Counting;
use crate::policy_name::{PolicyName, any_served};
use crate::stages::{Stage, StageListener};
use guest_strings::Reference;
use page_policies::{Frames, PolicyRefusal};
use std::alloc::{AllocError, Global};

/// What a policy writes back of a string.
#[derive(Drop)]
struct WriteBackCount<'s> {
    string: &'s [Reference],
}

impl<'s> PlayCount for WriteBackCount<'s> {
    ghost counts = { λ counting misses. write_backs misses counting.string.now };

    fn count_under(&self, alloc: Global, player: &mut AnyPlayer) -> Result<u64, AllocError> {
        let count = write_backs(alloc, player, self.string)?;
        Ok(count as u64)
    }
}

/// What is written back of a string with so many frames.
#[tactic(auto, unfolding(crate::specs::WrittenBack::IsWrittenBack))]
fn counts_of(
    alloc: Global,
    frames: Frames,
    string: &[Reference],
    policies: &[PolicyName],
) -> Result<PolicyCounts, AllocError>
    ensures { IfOk result (IsWrittenBack policies.now string.now frames) }
{
    let counting = WriteBackCount { string };
    counts_by(
        alloc,
        frames,
        &counting,
        string.len() as u64,
        None,
        policies,
    )
}

/// What is written back of a string with each of these numbers of frames, under the policies that are asked for. It is refused where
/// nothing is counted.
pub fn write_back_rows<P: StageListener>(
    alloc: Global,
    frames: &[Frames],
    string: &[Reference],
    policies: &[PolicyName],
    progress: &mut P,
) -> Result<Vec<PolicyCounts>, PolicyRefusal>
    ensures rows { IfOk result (λ rows. AllZip (IsWrittenBack policies.now string.now) frames.now
        rows.items) }
    ensures bad_size { (result ≡ Err PolicyRefusal.BadSize) ↔ (any_served policies.now (map (λ f.
        f.number) frames.now) ≡ false) }
{
    if !any_served(policies, frames) {
        return Err(PolicyRefusal::BadSize);
    }
    Ok(count_rows(alloc, frames, string, policies, progress)?)
}

/// The same rows.
fn count_rows<P: StageListener>(
    alloc: Global,
    frames: &[Frames],
    string: &[Reference],
    policies: &[PolicyName],
    progress: &mut P,
) -> Result<Vec<PolicyCounts>, AllocError>
    ensures { IfOk result (λ rows. AllZip (IsWrittenBack policies.now string.now) frames.now
        rows.items) }
{
    let mut rows = Vec::new(alloc);
    'frames: for at in 0..frames.len() {
        rows.push(counts_of(alloc, frames[at], string, policies)?)?;
        progress.tell(Stage::Rows(rows.len(), frames.len()));
    }
    Ok(rows)
}
