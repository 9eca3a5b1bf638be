//! CLOCK-Pro.

ghost use Rattle.std.specs.Prelude.{◌≡◌, ◌<◌, ◌⊎◌, ◌↔◌, refl, cond, true, false, not, Err, None, IfOk, OnOk, OnErr};
ghost use Rattle.std.specs.HashSet.{contains};
ghost use Rattle.clock_policy.specs.declared.key.Key.{Key};
ghost use Rattle.clock_policy.specs.ClockPro.{kind_of, question_of, admitted, opening_state};
ghost use Rattle.clock_policy.specs.FrameCounts.{least_frames, most_frames};
ghost use Rattle.page_policies.specs.Strings.{is_page, misses as misses_by};
ghost use Rattle.younger_policies.specs.ClockProPlay.{is_resident_kind, in_play, bit_of, asked};
ghost use Rattle.younger_policies.specs.ClockProPlay.{is_full_refusal, makes_room, placed, wants_by};
ghost use Rattle.younger_policies.specs.ClockProPlay.{marked_used, clock_pro, clock_pro_misses, play_of};

use clock_policy::{Bit, Clock, EntryKind, Key, Kind, NewRefusal, Refusal, Verdict};
use page_policies::{Frames, HitOrMiss, Policy, PolicyRefusal};
use std::alloc::{AllocError, Global};
use std::collections::HashSet;

/// CLOCK-Pro as published, by whatever represents its list: a page comes in with its mark clear.
#[derive(Drop)]
pub struct ClockPro<C: Clock> {
    clock: C,
    used: HashSet<Key>,
    /// how many questions make room at most
    turns: usize,
}

/// An empty list for so many frames.
pub(crate) fn new_clock<C: Clock>(alloc: Global, frames: Frames) -> Result<C, PolicyRefusal>
    ensures opens { IfOk result (λ clock. C.state clock ≡ opening_state frames.number) }
    ensures bad_size { (result ≡ Err PolicyRefusal.BadSize) ↔ ((frames.number < least_frames) ⊎
        (most_frames < frames.number)) }
{
    match C::new(alloc, frames.number()) {
        Ok(clock) => Ok(clock),
        Err(NewRefusal::BadSize) => Err(PolicyRefusal::BadSize),
        Err(NewRefusal::NoMemory) => Err(PolicyRefusal::NoMemory),
    }
}

/// The mark of a page as the answer to the question for it.
fn bit_of(used: bool) -> Bit
    ensures { result ≡ bit_of used }
{
    if used { Bit::One } else { Bit::Zero }
}

/// Whether the list knows the page as one that is in a frame.
pub(crate) fn is_resident_kind(kind: Option<EntryKind>) -> bool
    ensures { result ≡ is_resident_kind kind }
{
    match kind {
        None => false,
        Some(kind) => !kind.is_shadow(),
    }
}

/// Whether an answer makes room: a page is to leave its frame.
fn makes_room(verdict: Result<Verdict, Refusal>) -> bool
    ensures { result ≡ makes_room verdict }
{
    matches!(verdict, Ok(Verdict::Victim(_)))
}

/// The question is answered by its page's mark, which the page loses. Answers whether there is a frame now, where there was none before.
#[tactic(auto, using(crate::proofs::RoomLaws::room_made))]
fn ask<C: Clock>(clock: &mut C, used: &mut HashSet<Key>) -> bool
    ensures moved { play_of (C.state clock.new) used.new ≡ asked (question_of (C.state clock.old))
        (play_of (C.state clock.old) used.old) }
    ensures room { (page : Key) → is_full_refusal (admitted page (C.state clock.old)).1 ≡ true →
        is_full_refusal (admitted page (C.state clock.new)).1 ≡ not result }
{
    let Some(page) = clock.question() else {
        return false;
    };
    let was = used.remove(&page);
    makes_room(clock.answer(bit_of(was)))
}

/// The page comes in where there is a frame for it, and answers whether there is none.
fn enter<C: Clock>(clock: &mut C, page: Key) -> Result<bool, AllocError>
    ensures full { IfOk result (λ full. full ≡ is_full_refusal
        (admitted page (C.state clock.old)).1) }
    ensures moved { OnOk result (C.state clock.new ≡ (admitted page (C.state clock.old)).0) }
    ensures memory { OnErr result (kind_of page (C.state clock.old).entries ≡ None) }
{
    match clock.admit(page) {
        Ok(_) => Ok(false),
        Err(Refusal::Full) => Ok(true),
        Err(Refusal::NoMemory) => Err(AllocError),
        Err(Refusal::AlreadyResident) => Ok(false),
        Err(Refusal::NoQuestion) => Ok(false),
        Err(Refusal::NotThere) => Ok(false),
    }
}

/// While each frame has its page, the list's question is answered, so many times at most; then the page comes in. It is looked up
/// again only after an answer that makes room, since any other leaves it refused.
pub(crate) fn place<C: Clock>(
    clock: &mut C,
    used: &mut HashSet<Key>,
    turns: usize,
    page: Key,
) -> Result<(), AllocError>
    ensures placed { OnOk result (play_of (C.state clock.new) used.new ≡ placed turns page
        (play_of (C.state clock.old) used.old)) }
    ensures memory { OnErr result ((kind_of page (C.state clock.old).entries ≡ None) ⊎
        (is_full_refusal (admitted page (C.state clock.old)).1 ≡ true)) }
{
    if !enter(clock, page)? {
        return Ok(());
    }
    'turns: for _turn in 0..turns {
        if ask(clock, used) {
            enter(clock, page)?;
            return Ok(());
        }
    }
    Ok(())
}

/// The page is marked as used.
pub(crate) fn mark_used(used: &mut HashSet<Key>, page: Key) -> Result<(), AllocError>
    ensures marked { OnOk result ((q : Key) → contains is_page used.new q ≡ cond (is_page page q)
        true (contains is_page used.old q)) }
    ensures memory { OnErr result (contains is_page used.old page ≡ false) }
{
    match used.insert(page) {
        Ok(_) => Ok(()),
        Err(_) => Err(AllocError),
    }
}

impl<C: Clock> Policy for ClockPro<C> {
    ghost misses = { clock_pro_misses };

    ghost to_miss = { λ policy string. misses_by in_play (clock_pro policy.turns)
        (play_of (C.state policy.clock) policy.used) string };

    ghost refuses = { λ number. (number < least_frames) ⊎ (most_frames < number) };

    ghost grows = { λ policy page. wants_by (kind_of page (C.state policy.clock).entries)
        (is_full_refusal (admitted page (C.state policy.clock)).1) (contains is_page policy.used
        page) ≡ true };

    ghost none_to_miss = { λ policy. refl };

    #[tactic(auto, unfolding(crate::specs::ClockProPlay::clock_pro_misses))]
    fn new(alloc: Global, frames: Frames) -> Result<Self, PolicyRefusal> {
        let clock = new_clock(alloc, frames)?;
        Ok(ClockPro {
            clock,
            used: HashSet::new(alloc),
            turns: 5 * frames.number(),
        })
    }

    fn refer(&mut self, page: Key) -> Result<HitOrMiss, AllocError> {
        if is_resident_kind(self.clock.kind_of(page)) {
            mark_used(&mut self.used, page)?;
            return Ok(HitOrMiss::Hit);
        }
        place(&mut self.clock, &mut self.used, self.turns, page)?;
        Ok(HitOrMiss::Miss)
    }
}
