//! Misses counted as references come.

ghost use Rattle.std.specs.Prelude.{◌≡◌, ◌+◌, ◌<◌, ◌^◌, None, true, false, List, [], length, map};
ghost use Rattle.std.specs.Prelude.{option_map, IfOk, OnOk};
ghost use Rattle.std.specs.List.{AllZip};
ghost use Rattle.guest_strings.specs.declared.reference.Reference.{Reference};
ghost use Rattle.miss_counts.specs.Counted.{serves};
ghost use Rattle.miss_counts.specs.Playing.{Begins, Opens, PlaysPages, StartsAnew, Where};

use crate::any_player::AnyPlayer;
use crate::counts::{PolicyCount, PolicyCounts};
use crate::player::Counting;
use crate::policy_name::PolicyName;
use guest_strings::Reference;
use page_policies::Frames;
use std::alloc::{AllocError, Global};

/// A policy that counts, with its name; none where it serves other numbers of frames only.
#[derive(Drop)]
pub struct NamedPlayer<P: Counting> {
    policy: PolicyName,
    player: Option<P>,
}

/// The policies that are asked for with one number of frames, which count as references come. After an error nothing is said of them.
///
/// Of each policy what it has counted and what it would miss of a string to come make what its definition misses of the whole.
#[derive(Drop)]
pub struct Row {
    frames: Frames,
    references: u64,
    players: Vec<NamedPlayer<AnyPlayer>>,
}

impl Row {
    pub fn new(alloc: Global, frames: Frames, policies: &[PolicyName]) -> Result<Row, AllocError>
        ensures frames { IfOk result (λ row. row.frames ≡ frames) }
        ensures references { IfOk result (λ row. row.references ≡ 0) }
        ensures players { IfOk result (λ row. AllZip (λ policy named. Opens
            ⟦<AnyPlayer as Counting>⟧.all frames.number policy (named.policy, named.player))
            policies.now row.players.items) }
    {
        let players = players_of(alloc, policies, frames)?;
        Ok(Row {
            frames,
            references: 0,
            players,
        })
    }

    /// Pages are used, one after another. A count stops at the greatest number that there is.
    pub fn play(&mut self, references: &[Reference]) -> Result<(), AllocError>
        ensures frames { OnOk result (self.new.frames ≡ self.old.frames) }
        ensures references { OnOk result (self.old.references + length references.now < 2 ^ 64 →
            self.new.references ≡ self.old.references + length references.now) }
        ensures players { OnOk result (AllZip (λ s t. (t.policy ≡ s.policy) × Where (PlaysPages
            ⟦<AnyPlayer as Counting>⟧.all references.now) s.player t.player)
            self.old.players.items self.new.players.items) }
    {
        self.references = self.references.saturating_add(references.len() as u64);
        play_each(&mut self.players, references)
    }

    /// Begins to count anew. What the policies have in frames stays.
    pub fn forget(&mut self)
        ensures frames { self.new.frames ≡ self.old.frames }
        ensures references { self.new.references ≡ 0 }
        ensures players { AllZip (λ s t. (t.policy ≡ s.policy) × Where (StartsAnew
            ⟦<AnyPlayer as Counting>⟧.all) s.player t.player)
            self.old.players.items self.new.players.items }
    {
        self.references = 0;
        forget_each(&mut self.players);
    }

    /// What is counted so far.
    pub fn counts(&self, alloc: Global) -> Result<PolicyCounts, AllocError>
        ensures frames { IfOk result (λ row. row.frames ≡ self.now.frames) }
        ensures references { IfOk result (λ row. row.references ≡ self.now.references) }
        ensures counts { IfOk result (λ row. row.counts.items ≡ map (λ named. record {
          policy = named.policy;
          count = option_map (λ p. ⟦<AnyPlayer as Counting>⟧.all p []) named.player;
        }) self.now.players.items) }
        ensures optimum { IfOk result (λ row. row.optimum ≡ None) }
    {
        Ok(PolicyCounts {
            frames: self.frames,
            references: self.references,
            counts: counts_so_far(alloc, self.players.as_slice())?,
            optimum: None,
        })
    }
}

/// A policy that begins to count, where it serves so many frames.
fn player_where_served(
    alloc: Global,
    policy: PolicyName,
    frames: Frames,
) -> Result<Option<AnyPlayer>, AllocError>
    ensures { IfOk result (Begins ⟦<AnyPlayer as Counting>⟧.all frames.number policy) }
{
    if !policy.serves(frames) {
        return Ok(None);
    }
    let player = AnyPlayer::new(alloc, policy, frames)?;
    Ok(Some(player))
}

/// The same with its name.
fn named_player(
    alloc: Global,
    policy: PolicyName,
    frames: Frames,
) -> Result<NamedPlayer<AnyPlayer>, AllocError>
    ensures { IfOk result (λ named. Opens ⟦<AnyPlayer as Counting>⟧.all frames.number policy
        (named.policy, named.player)) }
{
    let player = player_where_served(alloc, policy, frames)?;
    Ok(NamedPlayer { policy, player })
}

/// The policies that begin to count.
fn players_of(
    alloc: Global,
    policies: &[PolicyName],
    frames: Frames,
) -> Result<Vec<NamedPlayer<AnyPlayer>>, AllocError>
    ensures { IfOk result (λ players. AllZip (λ policy named. Opens
        ⟦<AnyPlayer as Counting>⟧.all frames.number policy (named.policy, named.player))
        policies.now players.items) }
{
    let mut players = Vec::new(alloc);
    'policies: for at in 0..policies.len() {
        players.push(named_player(alloc, policies[at], frames)?)?;
    }
    Ok(players)
}

/// Pages are used under a policy, if it is there.
fn play_one<P: Counting>(player: &mut Option<P>, references: &[Reference]) -> Result<(), AllocError>
    ensures { OnOk result (Where (PlaysPages P.all references.now) player.old player.new) }
{
    match player {
        Some(player) => player.play(references),
        None => Ok(()),
    }
}

/// A policy, if it is there, begins to count anew.
fn forget_one<P: Counting>(player: &mut Option<P>)
    ensures { Where (StartsAnew P.all) player.old player.new }
{
    match player {
        Some(player) => player.forget(),
        None => {}
    }
}

/// What a policy, if it is there, has counted so far.
fn count_so_far<P: Counting>(player: &Option<P>) -> Option<u64>
    ensures { result ≡ option_map (λ p. P.all p []) player.now }
{
    match player {
        Some(player) => Some(player.count()),
        None => None,
    }
}

/// Pages are used under each of the policies.
fn play_each<P: Counting>(
    players: &mut Vec<NamedPlayer<P>>,
    references: &[Reference],
) -> Result<(), AllocError>
    ensures { OnOk result (AllZip (λ s t. (t.policy ≡ s.policy) × Where (PlaysPages P.all references.now)
        s.player t.player) players.old.items players.new.items) }
{
    'players: for named in players.iter_mut() {
        play_one(&mut named.player, references)?;
    }
    Ok(())
}

/// Each of the policies begins to count anew.
fn forget_each<P: Counting>(players: &mut Vec<NamedPlayer<P>>)
    ensures { AllZip (λ s t. (t.policy ≡ s.policy) × Where (StartsAnew P.all) s.player t.player)
        players.old.items players.new.items }
{
    'players: for named in players.iter_mut() {
        forget_one(&mut named.player);
    }
}

/// What each of the policies has counted so far.
fn counts_so_far<P: Counting>(
    alloc: Global,
    players: &[NamedPlayer<P>],
) -> Result<Vec<PolicyCount>, AllocError>
    ensures { IfOk result (λ counts. counts.items ≡ map (λ named. record {
      policy = named.policy;
      count = option_map (λ p. P.all p []) named.player;
    }) players.now) }
{
    let mut counts = Vec::new(alloc);
    'players: for named in players {
        let (policy, count) = (named.policy, count_so_far(&named.player));
        counts.push(PolicyCount { policy, count })?;
    }
    Ok(counts)
}
