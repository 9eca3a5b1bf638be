//! What each policy misses.

ghost use Rattle.std.specs.Prelude.{◌≡◌, ◌↔◌, IfOk, Err, Some, None, List, [], true, false, map};
ghost use Rattle.std.specs.List.{AllZip};
ghost use Rattle.page_policies.specs.Optimal.{optimal_misses};
ghost use Rattle.miss_counts.specs.Counted.{IsRow, asked, is_counted};
ghost use Rattle.miss_counts.specs.StringPages.{pages_of};

use crate::any_player::AnyPlayer;
use crate::page_counts::pages_in;
use crate::play_count::{PlayCount, counts_by};
use crate::player::Counting;
use crate::policy_name::PolicyName;
use crate::policy_set::PolicySet;
use crate::stages::{Stage, StageListener};
use guest_strings::Reference;
use page_policies::{Frames, PolicyRefusal};
use std::alloc::{AllocError, Global};
use whole_strings::optimum_counts;

/// What is counted of a policy.
#[derive(Clone, Copy, Debug, PartialEq, Eq)]
pub struct PolicyCount {
    pub policy: PolicyName,
    /// None where the policy serves other numbers of frames only.
    pub count: Option<u64>,
}

/// What is counted with so many frames, of the policies that were asked for.
#[derive(Debug, Drop)]
pub struct PolicyCounts {
    pub frames: Frames,
    /// How many references were counted.
    pub references: u64,
    /// A count for each policy, in the order in which they were asked for.
    pub counts: Vec<PolicyCount>,
    /// None also where the string was not known as a whole.
    pub optimum: Option<u64>,
}

/// What a string misses under a policy.
#[derive(Drop)]
struct MissCount<'s> {
    string: &'s [Reference],
}

impl<'s> PlayCount for MissCount<'s> {
    ghost counts = { λ counting misses. misses counting.string.now };

    fn count_under(&self, _: Global, player: &mut AnyPlayer) -> Result<u64, AllocError> {
        player.play(self.string)?;
        Ok(player.count())
    }
}

/// These counts, where each was asked for.
fn as_asked(alloc: Global, counts: &[usize]) -> Result<Vec<Option<u64>>, AllocError>
    ensures { IfOk result (λ floors. floors.items ≡ map (λ n. Some n) counts.now) }
{
    let mut floors = Vec::with_capacity(alloc, counts.len())?;
    'counts: for count in counts {
        floors.push(Some(*count as u64))?;
    }
    Ok(floors)
}

/// Nothing for each of these numbers of frames.
fn not_asked(alloc: Global, frames: &[Frames]) -> Result<Vec<Option<u64>>, AllocError>
    ensures { IfOk result (λ floors. floors.items ≡ map (λ f. None) frames.now) }
{
    let mut floors = Vec::with_capacity(alloc, frames.len())?;
    'frames: for number in frames {
        let _ = number;
        floors.push(None)?;
    }
    Ok(floors)
}

/// What a string misses under the optimum with each of these numbers of frames, where that is asked for.
fn floors_if(
    alloc: Global,
    frames: &[Frames],
    string: &[Reference],
    is_wanted: bool,
) -> Result<Vec<Option<u64>>, AllocError>
    ensures { IfOk result (λ floors. floors.items ≡ map (λ f. asked is_wanted (optimal_misses
        f.number (pages_of string.now))) frames.now) }
{
    if is_wanted {
        let pages = pages_in(alloc, string)?;
        let counts = optimum_counts(alloc, pages.as_slice(), frames)?;
        let floors = as_asked(alloc, counts.as_slice())?;
        return Ok(floors);
    }
    let floors = not_asked(alloc, frames)?;
    Ok(floors)
}

/// What a string misses with so many frames, where the misses of the optimum are given.
fn counts_of(
    alloc: Global,
    frames: Frames,
    string: &[Reference],
    optimum: Option<u64>,
    wanted: &PolicySet,
) -> Result<PolicyCounts, AllocError>
    requires { optimum ≡ asked wanted.now.optimum (optimal_misses frames.number
        (pages_of string.now)) }
    ensures { IfOk result (IsRow wanted.now string.now frames) }
{
    let counting = MissCount { string };
    counts_by(
        alloc,
        frames,
        &counting,
        string.len() as u64,
        optimum,
        wanted.policies.as_slice(),
    )
}

/// What a string misses with each of these numbers of frames, under the policies that are asked for. It is refused where nothing is
/// counted.
pub fn rows_of<P: StageListener>(
    alloc: Global,
    frames: &[Frames],
    string: &[Reference],
    wanted: &PolicySet,
    progress: &mut P,
) -> Result<Vec<PolicyCounts>, PolicyRefusal>
    ensures rows { IfOk result (λ rows. AllZip (IsRow wanted.now string.now) frames.now
        rows.items) }
    ensures bad_size { (result ≡ Err PolicyRefusal.BadSize) ↔ (is_counted wanted.now (map (λ f.
        f.number) frames.now) ≡ false) }
{
    if !wanted.is_counted(frames) {
        return Err(PolicyRefusal::BadSize);
    }
    Ok(count_rows(alloc, frames, string, wanted, progress)?)
}

/// The same rows.
#[tactic(auto, using(crate::proofs::Floors::floors_whole, crate::proofs::Floors::floor_here))]
fn count_rows<P: StageListener>(
    alloc: Global,
    frames: &[Frames],
    string: &[Reference],
    wanted: &PolicySet,
    progress: &mut P,
) -> Result<Vec<PolicyCounts>, AllocError>
    ensures { IfOk result (λ rows. AllZip (IsRow wanted.now string.now) frames.now rows.items) }
{
    let floors = floors_if(alloc, frames, string, wanted.optimum)?;
    let mut rows = Vec::new(alloc);
    'frames: for at in 0..frames.len() {
        rows.push(counts_of(alloc, frames[at], string, floors[at], wanted)?)?;
        progress.tell(Stage::Rows(rows.len(), frames.len()));
    }
    Ok(rows)
}
