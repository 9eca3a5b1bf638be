//! A policy by its name, which counts as references come.

ghost use Rattle.std.specs.Prelude.{◌≡◌, ◌+◌, ◌≤◌, true, List, [], length, IfOk};
ghost use Rattle.guest_strings.specs.declared.reference.Reference.{Reference};
ghost use Rattle.miss_counts.specs.Counted.{misses_of, serves};

use crate::player::{Counting, Player, WritingPlayer, new_player, player_of, writing_player};
use crate::policy_name::PolicyName;
use clock_ring::ClockRing;
use guest_strings::Reference;
use kernel_policies::TwoLists;
use page_policies::{Fifo, Frames, Lru, Policy, RandomPolicy, SecondChance};
use std::alloc::{AllocError, Global};
use textbook_policies::{Car, GClock, Lfu, LruK, Mru};
use ticked_policies::{Ticked, WsClock, second_chance};
use tiny_lfu::WTinyLfu;
use younger_policies::{Arc, ClockPro, ClockProUsed, Lirs, S3Fifo, Sieve, TwoQueues};

/// A policy of any name. After an error nothing is said of it.
#[derive(Drop)]
pub enum AnyPlayer {
    Fifo(Player<Fifo>),
    Clock(Player<SecondChance>),
    Lru(Player<Lru>),
    ClockProUsed(Player<ClockProUsed<ClockRing>>),
    ClockPro(Player<ClockPro<ClockRing>>),
    TwoQueues(Player<TwoQueues>),
    Lirs(Player<Lirs>),
    Arc(Player<Arc>),
    Sieve(Player<Sieve>),
    S3Fifo(Player<S3Fifo>),
    WTinyLfu(Player<WTinyLfu>),
    Car(Player<Car>),
    LruK(Player<LruK>),
    GClock(Player<GClock>),
    Lfu(Player<Lfu>),
    Mru(Player<Mru>),
    SecondChance(Player<GClock>),
    Nru(WritingPlayer<Ticked>),
    Aging(WritingPlayer<Ticked>),
    WsClock(WritingPlayer<WsClock>),
    TwoLists(Player<TwoLists>),
    Random(Player<RandomPolicy>),
}

impl AnyPlayer {
    /// The policy with its frames empty. What is to come are its definition's misses.
    #[tactic(auto, using(crate::proofs::ServingLaws::not_refused))]
    pub fn new(alloc: Global, policy: PolicyName, frames: Frames) -> Result<Self, AllocError>
        requires { serves policy frames.number ≡ true }
        ensures all { IfOk result (λ player. (string : List Reference) →
            ⟦<AnyPlayer as Counting>⟧.all player string ≡ misses_of policy frames.number string) }
        ensures none { IfOk result (λ player. ⟦<AnyPlayer as Counting>⟧.all player [] ≡ 0) }
    {
        match policy {
            PolicyName::Fifo => Ok(AnyPlayer::Fifo(new_player(alloc, frames)?)),
            PolicyName::Clock => Ok(AnyPlayer::Clock(new_player(alloc, frames)?)),
            PolicyName::Lru => Ok(AnyPlayer::Lru(new_player(alloc, frames)?)),
            PolicyName::ClockProUsed => Ok(AnyPlayer::ClockProUsed(new_player(alloc, frames)?)),
            PolicyName::ClockPro => Ok(AnyPlayer::ClockPro(new_player(alloc, frames)?)),
            PolicyName::TwoQueues(shares) => {
                let policy = TwoQueues::with_shares(alloc, frames, shares)?;
                Ok(AnyPlayer::TwoQueues(player_of(policy)))
            }
            PolicyName::Lirs(shares) => {
                let policy = Lirs::with_shares(alloc, frames, shares)?;
                Ok(AnyPlayer::Lirs(player_of(policy)))
            }
            PolicyName::Arc => Ok(AnyPlayer::Arc(new_player(alloc, frames)?)),
            PolicyName::Sieve => Ok(AnyPlayer::Sieve(new_player(alloc, frames)?)),
            PolicyName::S3Fifo(shares) => {
                let policy = S3Fifo::with_shares(alloc, frames, shares)?;
                Ok(AnyPlayer::S3Fifo(player_of(policy)))
            }
            PolicyName::WTinyLfu(shares) => {
                let policy = WTinyLfu::with_shares(alloc, frames, shares)?;
                Ok(AnyPlayer::WTinyLfu(player_of(policy)))
            }
            PolicyName::Car => Ok(AnyPlayer::Car(new_player(alloc, frames)?)),
            PolicyName::LruK(uses) => {
                let policy = LruK::with_uses(alloc, frames, uses)?;
                Ok(AnyPlayer::LruK(player_of(policy)))
            }
            PolicyName::GClock(counts) => {
                let policy = GClock::with_counts(alloc, frames, counts)?;
                Ok(AnyPlayer::GClock(player_of(policy)))
            }
            PolicyName::Lfu => Ok(AnyPlayer::Lfu(new_player(alloc, frames)?)),
            PolicyName::Mru => Ok(AnyPlayer::Mru(new_player(alloc, frames)?)),
            PolicyName::SecondChance(arrival) => {
                let policy = second_chance(alloc, frames, arrival)?;
                Ok(AnyPlayer::SecondChance(player_of(policy)))
            }
            PolicyName::Nru(ticks) => {
                let policy = Ticked::nru(alloc, frames, ticks);
                Ok(AnyPlayer::Nru(writing_player(policy)))
            }
            PolicyName::Aging(ticks) => {
                let policy = Ticked::aging(alloc, frames, ticks);
                Ok(AnyPlayer::Aging(writing_player(policy)))
            }
            PolicyName::WsClock(set) => {
                let policy = WsClock::with_time(alloc, frames, set)?;
                Ok(AnyPlayer::WsClock(writing_player(policy)))
            }
            PolicyName::TwoLists(parts) => {
                let policy = TwoLists::with_parts(alloc, frames, parts)?;
                Ok(AnyPlayer::TwoLists(player_of(policy)))
            }
            PolicyName::Random(seed) => {
                let policy = RandomPolicy::with_seed(alloc, frames, seed);
                Ok(AnyPlayer::Random(player_of(policy)))
            }
        }
    }
}

impl Counting for AnyPlayer {
    ghost use Rattle.std.specs.Prelude.{ℕ};
    ghost use Rattle.miss_counts.specs.declared.any_player.AnyPlayer.{AnyPlayer};

    ghost all = { λ player string. elim player as (λ _. ℕ) [
      | AnyPlayer.Fifo p ↦ ⟦<Player<Fifo> as Counting>⟧.all p string
      | AnyPlayer.Clock p ↦ ⟦<Player<SecondChance> as Counting>⟧.all p string
      | AnyPlayer.Lru p ↦ ⟦<Player<Lru> as Counting>⟧.all p string
      | AnyPlayer.ClockProUsed p ↦
          ⟦<Player<ClockProUsed<ClockRing>> as Counting>⟧.all p string
      | AnyPlayer.ClockPro p ↦ ⟦<Player<ClockPro<ClockRing>> as Counting>⟧.all p string
      | AnyPlayer.TwoQueues p ↦ ⟦<Player<TwoQueues> as Counting>⟧.all p string
      | AnyPlayer.Lirs p ↦ ⟦<Player<Lirs> as Counting>⟧.all p string
      | AnyPlayer.Arc p ↦ ⟦<Player<Arc> as Counting>⟧.all p string
      | AnyPlayer.Sieve p ↦ ⟦<Player<Sieve> as Counting>⟧.all p string
      | AnyPlayer.S3Fifo p ↦ ⟦<Player<S3Fifo> as Counting>⟧.all p string
      | AnyPlayer.WTinyLfu p ↦ ⟦<Player<WTinyLfu> as Counting>⟧.all p string
      | AnyPlayer.Car p ↦ ⟦<Player<Car> as Counting>⟧.all p string
      | AnyPlayer.LruK p ↦ ⟦<Player<LruK> as Counting>⟧.all p string
      | AnyPlayer.GClock p ↦ ⟦<Player<GClock> as Counting>⟧.all p string
      | AnyPlayer.Lfu p ↦ ⟦<Player<Lfu> as Counting>⟧.all p string
      | AnyPlayer.Mru p ↦ ⟦<Player<Mru> as Counting>⟧.all p string
      | AnyPlayer.SecondChance p ↦ ⟦<Player<GClock> as Counting>⟧.all p string
      | AnyPlayer.Nru p ↦ ⟦<WritingPlayer<Ticked> as Counting>⟧.all p string
      | AnyPlayer.Aging p ↦ ⟦<WritingPlayer<Ticked> as Counting>⟧.all p string
      | AnyPlayer.WsClock p ↦ ⟦<WritingPlayer<WsClock> as Counting>⟧.all p string
      | AnyPlayer.TwoLists p ↦ ⟦<Player<TwoLists> as Counting>⟧.all p string
      | AnyPlayer.Random p ↦ ⟦<Player<RandomPolicy> as Counting>⟧.all p string
    ] };

    fn play(&mut self, references: &[Reference]) -> Result<(), AllocError> {
        match self {
            AnyPlayer::Fifo(player) => player.play(references),
            AnyPlayer::Clock(player) => player.play(references),
            AnyPlayer::Lru(player) => player.play(references),
            AnyPlayer::ClockProUsed(player) => player.play(references),
            AnyPlayer::ClockPro(player) => player.play(references),
            AnyPlayer::TwoQueues(player) => player.play(references),
            AnyPlayer::Lirs(player) => player.play(references),
            AnyPlayer::Arc(player) => player.play(references),
            AnyPlayer::Sieve(player) => player.play(references),
            AnyPlayer::S3Fifo(player) => player.play(references),
            AnyPlayer::WTinyLfu(player) => player.play(references),
            AnyPlayer::Car(player) => player.play(references),
            AnyPlayer::LruK(player) => player.play(references),
            AnyPlayer::GClock(player) => player.play(references),
            AnyPlayer::Lfu(player) => player.play(references),
            AnyPlayer::Mru(player) => player.play(references),
            AnyPlayer::SecondChance(player) => player.play(references),
            AnyPlayer::Nru(player) => player.play(references),
            AnyPlayer::Aging(player) => player.play(references),
            AnyPlayer::WsClock(player) => player.play(references),
            AnyPlayer::TwoLists(player) => player.play(references),
            AnyPlayer::Random(player) => player.play(references),
        }
    }

    fn count(&self) -> u64 {
        match self {
            AnyPlayer::Fifo(player) => player.count(),
            AnyPlayer::Clock(player) => player.count(),
            AnyPlayer::Lru(player) => player.count(),
            AnyPlayer::ClockProUsed(player) => player.count(),
            AnyPlayer::ClockPro(player) => player.count(),
            AnyPlayer::TwoQueues(player) => player.count(),
            AnyPlayer::Lirs(player) => player.count(),
            AnyPlayer::Arc(player) => player.count(),
            AnyPlayer::Sieve(player) => player.count(),
            AnyPlayer::S3Fifo(player) => player.count(),
            AnyPlayer::WTinyLfu(player) => player.count(),
            AnyPlayer::Car(player) => player.count(),
            AnyPlayer::LruK(player) => player.count(),
            AnyPlayer::GClock(player) => player.count(),
            AnyPlayer::Lfu(player) => player.count(),
            AnyPlayer::Mru(player) => player.count(),
            AnyPlayer::SecondChance(player) => player.count(),
            AnyPlayer::Nru(player) => player.count(),
            AnyPlayer::Aging(player) => player.count(),
            AnyPlayer::WsClock(player) => player.count(),
            AnyPlayer::TwoLists(player) => player.count(),
            AnyPlayer::Random(player) => player.count(),
        }
    }

    fn forget(&mut self) {
        match self {
            AnyPlayer::Fifo(player) => player.forget(),
            AnyPlayer::Clock(player) => player.forget(),
            AnyPlayer::Lru(player) => player.forget(),
            AnyPlayer::ClockProUsed(player) => player.forget(),
            AnyPlayer::ClockPro(player) => player.forget(),
            AnyPlayer::TwoQueues(player) => player.forget(),
            AnyPlayer::Lirs(player) => player.forget(),
            AnyPlayer::Arc(player) => player.forget(),
            AnyPlayer::Sieve(player) => player.forget(),
            AnyPlayer::S3Fifo(player) => player.forget(),
            AnyPlayer::WTinyLfu(player) => player.forget(),
            AnyPlayer::Car(player) => player.forget(),
            AnyPlayer::LruK(player) => player.forget(),
            AnyPlayer::GClock(player) => player.forget(),
            AnyPlayer::Lfu(player) => player.forget(),
            AnyPlayer::Mru(player) => player.forget(),
            AnyPlayer::SecondChance(player) => player.forget(),
            AnyPlayer::Nru(player) => player.forget(),
            AnyPlayer::Aging(player) => player.forget(),
            AnyPlayer::WsClock(player) => player.forget(),
            AnyPlayer::TwoLists(player) => player.forget(),
            AnyPlayer::Random(player) => player.forget(),
        }
    }
}
