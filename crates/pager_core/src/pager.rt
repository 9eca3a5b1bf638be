//! The free frames and the replacement list together: admission of pages, questions, answers and victims.

ghost use Rattle.std.specs.Prelude.{◌≡◌, ◌≢◌, ◌+◌, ◌*◌, ◌<◌, ◌≤◌, ◌↔◌, ◌⊎◌, [], ◌∷◌, ◌++◌, length, IsTrue, IsOk, IsErr, IsNone, IsErrOf, IfOk, IfErr, OnOk, OnErr, Ok, Err, Some, None, true, false, slice_get, option_map, vec_len, vec_capacity};
ghost use Rattle.clock_policy.specs.ClockPro.{question_of, answered, restored, withdrawn, purged, purge_count, kind_of};
ghost use Rattle.clock_policy.specs.Lawful.{Lawful};
ghost use Rattle.clock_policy.specs.Bound.{answers_left, NothingResident};
ghost use Rattle.pager_core.specs.Pager.{full_pager, is_listed_resident, admission_refused, admitted_with};
ghost use Rattle.pager_core.specs.Pager.{pager_answered, takes_back, with_list};
ghost use Rattle.pager_core.specs.Refusals.{RefusesAdmission, list_refusal};

use crate::counts::{Counts, Tallies, tally};
use crate::refusal::AdmitRefusal;
use clock_policy::{Bit, Clock, Entry, EntryKind, Key, NewRefusal, Refusal, Verdict};
use frame_pool::{Frame, FramePool, PoolError};
use std::alloc::{AllocError, Global};
use std::marker::Model;
use std::sync::ledger::{Blank, Ledger, Share};

/// The free frames of a machine and its replacement list.
#[derive(Drop)]
pub struct Pager<L: Ledger, C: Clock> {
    frames: FramePool<L>,
    pub(crate) list: C,
    tallies: Tallies,
}

impl<L: Ledger, C: Clock> Model for Pager<L, C> {
    ghost use Rattle.std.specs.Prelude.{◌≡◌};
    ghost use Rattle.pager_core.specs.Pager.{PagerState};

    ghost Value = { PagerState };

    ghost view = { λ p. record { free = p.frames.free; size = p.frames.size; list = C.state p.list; tallies = p.tallies } };

    ghost invariant = { λ p. p.frames.size ≡ (C.state p.list).frames };
}

impl<L: Ledger, C: Clock> Pager<L, C> {
    /// A pager of 4 to 4096 frames of zero bytes, all free, and an empty list. The ledger has one part for each frame, and one
    /// for the pool itself.
    #[tactic(auto, unfolding(clock_policy::specs::ClockPro::opening_state))]
    pub fn new(alloc: Global, frames: u32, blank: Blank) -> Result<Self, PoolError>
        requires name { blank.name ≡ L.name }
        requires parts { blank.parts ≡ L.parts }
        requires one_each { L.parts ≡ frames + 1 }
        ensures made { IfOk result (λ pager. pager ≡ full_pager frames) }
        ensures bad_size { IsErrOf result PoolError.BadSize ↔ ((frames < 4) ⊎ (4096 < frames)) }
    {
        let pool = FramePool::new(alloc, frames, blank)?;
        match C::new(alloc, frames as usize) {
            Ok(list) => Ok(Pager {
                frames: pool,
                list,
                tallies: Tallies {
                    page_ins: 0,
                    victims: 0,
                    questions: 0,
                },
            }),
            Err(NewRefusal::BadSize) => Err(PoolError::BadSize),
            Err(NewRefusal::NoMemory) => Err(PoolError::NoMemory),
        }
    }

    /// Admits a page: lists it, and takes the frame that it is to have, whole.
    #[tactic(auto, using(crate::proofs::Admission::admissions), unfolding(crate::specs::Pager::admitted_with))]
    pub fn admit(&mut self, key: Key) -> Result<Frame<L>, AdmitRefusal>
        ensures frame { IfOk result (λ frame. self.old.free ≡ self.new.free ++ frame ∷ []) }
        ensures whole { IfOk result (λ frame. length frame.bytes ≡ 4096) }
        ensures admitted { OnOk result (self.new ≡ admitted_with key self.new.free self.old) }
        ensures ok { OnOk result (admission_refused key self.old ≡ None) }

        // Lack of memory is the reason only where there is no other.
        ensures refused { IfErr result (λ refusal. RefusesAdmission refusal key self.old) }
        ensures grows { result ≡ Err AdmitRefusal.NoMemory → kind_of key self.old.list.entries ≡
            None }
        ensures err { OnErr result (self.new ≡ self.old) }
        ensures lawful { OnOk result (Lawful self.new.list) }
    {
        if self.frames.is_empty() {
            return Err(self.refusal_without_frame(key));
        }
        match self.list.admit(key) {
            Ok(_) => {}
            Err(refusal) => return Err(refusal_of(refusal)),
        }
        let Some(frame) = self.frames.take() else {
            unreachable!()
        };
        self.tallies.page_ins = tally(self.tallies.page_ins);
        Ok(frame)
    }

    /// Why a page is not admitted where no frame is free.
    #[cold]
    #[tactic(auto, using(crate::proofs::Admission::no_frames))]
    fn refusal_without_frame(&self, key: Key) -> AdmitRefusal
        requires { self.now.free ≡ [] }
        ensures refused { RefusesAdmission result key self.now }
        ensures memory { result ≢ AdmitRefusal.NoMemory }
    {
        match self.list.kind_of(key) {
            None | Some(EntryKind::Shadow) => AdmitRefusal::NoFrame,
            Some(EntryKind::Hot | EntryKind::Test | EntryKind::Cold) => {
                AdmitRefusal::AlreadyResident
            }
        }
    }

    /// The page whose accessed bit is the next answer, if any page is resident.
    pub fn question(&self) -> Option<Key>
        ensures exact { result ≡ question_of self.now.list }
        ensures none { IsNone result ↔ NothingResident self.now.list }
        ensures lawful { Lawful self.now.list }
        ensures bound { answers_left self.now.list ≤ 5 * self.now.list.frames }
        ensures end { answers_left self.now.list ≡ 0 → NothingResident self.now.list }
        ensures size { self.now.list.frames ≡ self.now.size }
    {
        self.list.question()
    }

    /// Answers the question of this moment.
    #[tactic(auto, unfolding(crate::specs::Pager::pager_answered))]
    pub fn answer(&mut self, bit: Bit) -> Result<Verdict, Refusal>
        ensures moved { self.new ≡ pager_answered bit self.old }
        ensures exact { result ≡ (answered bit self.old.list).1 }
        ensures none { IsErr result ↔ NothingResident self.old.list }
        ensures err { OnErr result (self.new ≡ self.old) }
        ensures lawful { Lawful self.new.list }

        // An answer without a victim lowers the number of answers that are left.
        ensures lowers { result ≡ Ok Verdict.GoOn →
            answers_left self.new.list < answers_left self.old.list }
    {
        let verdict = self.list.answer(bit)?;
        self.tallies.questions = tally(self.tallies.questions);
        if let Verdict::Victim(_) = verdict {
            self.tallies.victims = tally(self.tallies.victims);
        }
        Ok(verdict)
    }

    /// Whether the list would take a victim back: it is not resident, and not each frame has its page.
    #[tactic(auto, using(crate::proofs::Restoration::restorations))]
    pub fn takes_back(&self, key: Key) -> bool
        ensures { result ≡ takes_back key self.now.list }
    {
        match self.list.kind_of(key) {
            None | Some(EntryKind::Shadow) => !self.list.is_full(),
            Some(EntryKind::Hot | EntryKind::Test | EntryKind::Cold) => false,
        }
    }

    /// Takes a victim back that could not leave its frame.
    pub fn restore(&mut self, key: Key) -> Result<(), Refusal>
        ensures moved { self.new ≡ with_list (restored key self.old.list).0 self.old }
        ensures exact { result ≡ (restored key self.old.list).1 }
        ensures err { OnErr result (self.new ≡ self.old) }
        ensures lawful { Lawful self.new.list }
    {
        self.list.restore(key)
    }

    /// Forgets a page.
    pub fn withdraw(&mut self, key: Key) -> Result<(), Refusal>
        ensures moved { self.new ≡ with_list (withdrawn key self.old.list).0 self.old }
        ensures exact { result ≡ (withdrawn key self.old.list).1 }
        ensures err { OnErr result (self.new ≡ self.old) }
        ensures no_more_left { answers_left self.new.list ≤ answers_left self.old.list }
        ensures lawful { Lawful self.new.list }
    {
        self.list.withdraw(key)
    }

    /// Forgets every page of a process, and answers how many entries went.
    pub fn purge(&mut self, process: u32) -> u32
        ensures moved { self.new ≡ with_list (purged process self.old.list) self.old }
        ensures count { result ≡ purge_count process self.old.list }
        ensures no_more_left { answers_left self.new.list ≤ answers_left self.old.list }
        ensures lawful { Lawful self.new.list }
    {
        self.list.purge(process)
    }

    /// Gives a frame back. Where all are there it is another pager's, and is handed back.
    pub fn free(&mut self, frame: Frame<L>) -> Result<(), Frame<L>>
        ensures full { IsErr result ↔ (length self.old.free ≡ self.old.size) }
        ensures ok { OnOk result (self.new ≡ record self.old {
          free = self.old.free ++
              frame ∷ [];
        }) }
        ensures handed_back { IfErr result (λ back. back ≡ frame) }
        ensures err { OnErr result (self.new ≡ self.old) }
    {
        self.frames.give(frame)
    }

    /// Gives a frame back, which always has its place.
    pub fn put_back(&mut self, frame: Frame<L>)
        ensures { self.new ≡ record self.old { free = self.old.free ++ frame ∷ [] } }
    {
        self.frames.put_back(frame);
    }

    /// What the list knows of a page.
    pub fn kind_of(&self, key: Key) -> Option<EntryKind>
        ensures { result ≡ kind_of key self.now.list.entries }
    {
        self.list.kind_of(key)
    }

    /// The entry of the list at a place, counted from the front.
    pub fn entry(&self, i: usize) -> Option<(Key, EntryKind)>
        ensures { result ≡ option_map (λ e. (e.key, e.kind)) (slice_get self.now.list.entries i) }
    {
        self.list.entry(i)
    }

    /// Adds all entries of the list to a vector, from the front, in time linear in the list. It takes memory only where the
    /// vector has not the room.
    pub fn copy_entries(&self, to: &mut Vec<Entry>) -> Result<(), AllocError>
        ensures items { OnOk result (to.new.items ≡ to.old.items ++ self.now.list.entries) }
        ensures err { OnErr result (to.new.items ≡ to.old.items) }
        ensures room { vec_len to.old + length self.now.list.entries ≤ vec_capacity to.old →
            IsOk result }
    {
        self.list.copy_entries(to)
    }

    /// How many frames are free, and the tallies.
    pub fn counts(&self) -> Counts
        ensures free { result.free ≡ length self.now.free }
        ensures tallies { result.tallies ≡ self.now.tallies }
    {
        Counts {
            free: self.frames.len(),
            tallies: self.tallies,
        }
    }

    /// Of how many frames the pager was made.
    pub fn size(&self) -> u32
        ensures { result ≡ self.now.size }
    {
        self.frames.size()
    }

    /// Gives up the pager and its free frames. Its share has one part for each, and the pager's own.
    pub fn give_up(self) -> Share<L>
        ensures { result.parts ≡ length self.free + 1 }
    {
        let Pager {
            frames,
            list: _,
            tallies: _,
        } = self;
        frames.give_up()
    }
}

/// What a refusal of the list is for a page that is to be admitted.
fn refusal_of(refusal: Refusal) -> AdmitRefusal
    ensures { result ≡ list_refusal refusal }
{
    match refusal {
        Refusal::AlreadyResident => AdmitRefusal::AlreadyResident,
        Refusal::NoQuestion | Refusal::NotThere | Refusal::Full => AdmitRefusal::NoFrame,
        Refusal::NoMemory => AdmitRefusal::NoMemory,
    }
}
