//! The policy, as every representation of its list owes it.

ghost use Rattle.std.specs.Prelude.{◌≡◌, ◌≢◌, ◌≤◌, ◌<◌, ◌+◌, ◌*◌, ◌++◌, ◌⊎◌, ℕ, IfOk, OnOk, OnErr, IsOk, IsErr, IsNone, ◌↔◌, Ok, Err, None, length, slice_get, option_map, vec_len, vec_capacity};
ghost use Rattle.clock_policy.specs.ClockPro.{ClockState, opening_state, is_full, kind_of, question_of, answered, admitted, restored, withdrawn, purged, purge_count};
ghost use Rattle.clock_policy.specs.FrameCounts.{least_frames, most_frames};
ghost use Rattle.clock_policy.specs.Lawful.{Lawful};
ghost use Rattle.clock_policy.specs.Bound.{answers_left, NothingResident};

use crate::answer::{Bit, Kind, Verdict};
use crate::entry::{Entry, EntryKind};
use crate::key::Key;
use crate::refusal::{NewRefusal, Refusal};
use std::alloc::{AllocError, Global};

/// A list of pages under CLOCK-Pro, which names the page that is to leave its frame.
///
/// `state` is what the list stands for: each call is that of the definition on it, the refusals in the order of their numbers included.
/// A refusal changes nothing. `admit` may answer `NoMemory` where a representation takes memory for a new entry and the definition would
/// refuse nothing: an entry that is there already never meets it.
pub trait Clock: Drop {
    ghost state: { Self → ClockState };

    /// An empty list for as many frames as a machine may have.
    fn new(alloc: Global, frames: usize) -> Result<Self, NewRefusal>
        ensures ok { IfOk result (λ clock. state clock ≡ opening_state frames) }
        ensures bad_size { (result ≡ Err NewRefusal.BadSize) ↔ ((frames < least_frames) ⊎
            (most_frames < frames)) }
        ensures lawful { IfOk result (λ clock. Lawful (state clock)) };

    /// The number of frames that the list serves.
    fn frames(&self) -> usize
        ensures { result ≡ (state self.now).frames };

    /// The page whose accessed bit is the next answer, if any page is resident.
    fn question(&self) -> Option<Key>
        ensures exact { result ≡ question_of (state self.now) }
        ensures none { IsNone result ↔ NothingResident (state self.now) }
        ensures lawful { Lawful (state self.now) }

        // The answers that are left are bounded, and end where nothing is resident.
        ensures bound { answers_left (state self.now) ≤ 5 * (state self.now).frames }
        ensures end { answers_left (state self.now) ≡ 0 → NothingResident (state self.now) };

    /// Answers the question of this moment.
    fn answer(&mut self, bit: Bit) -> Result<Verdict, Refusal>
        ensures moved { state self.new ≡ (answered bit (state self.old)).0 }
        ensures exact { result ≡ (answered bit (state self.old)).1 }
        ensures none { IsErr result ↔ NothingResident (state self.old) }
        ensures err { OnErr result (state self.new ≡ state self.old) }
        ensures frames { (state self.new).frames ≡ (state self.old).frames }
        ensures lawful { Lawful (state self.new) }

        // An answer without a victim lowers the number of answers that are left.
        ensures lowers { result ≡ Ok Verdict.GoOn → answers_left (state self.new) < answers_left
            (state self.old) };

    /// Adds a page that was brought into a frame, as a hot one where it is still in its test.
    fn admit(&mut self, key: Key) -> Result<Kind, Refusal>
        ensures moved { OnOk result (state self.new ≡ (admitted key (state self.old)).0) }
        ensures exact { result ≢ Err Refusal.NoMemory → result ≡ (admitted key (state self.old)).1 }
        ensures memory { result ≡ Err Refusal.NoMemory → IsOk (admitted key (state self.old)).1 }
        ensures grows { result ≡ Err Refusal.NoMemory → kind_of key (state self.old).entries ≡
            None }
        ensures err { OnErr result (state self.new ≡ state self.old) }
        ensures frames { (state self.new).frames ≡ (state self.old).frames }
        ensures lawful { Lawful (state self.new) };

    /// Whether each frame has its page.
    fn is_full(&self) -> bool
        ensures { result ≡ is_full (state self.now) };

    /// Takes a victim back that could not leave its frame.
    fn restore(&mut self, key: Key) -> Result<(), Refusal>
        ensures moved { state self.new ≡ (restored key (state self.old)).0 }
        ensures exact { result ≡ (restored key (state self.old)).1 }
        ensures err { OnErr result (state self.new ≡ state self.old) }
        ensures frames { (state self.new).frames ≡ (state self.old).frames }
        ensures lawful { Lawful (state self.new) };

    /// Forgets a page. No more answers are left until a victim than were.
    fn withdraw(&mut self, key: Key) -> Result<(), Refusal>
        ensures moved { state self.new ≡ (withdrawn key (state self.old)).0 }
        ensures exact { result ≡ (withdrawn key (state self.old)).1 }
        ensures no_more_left { answers_left (state self.new) ≤ answers_left (state self.old) }
        ensures err { OnErr result (state self.new ≡ state self.old) }
        ensures frames { (state self.new).frames ≡ (state self.old).frames }
        ensures lawful { Lawful (state self.new) };

    /// Forgets every page of a process, and answers how many entries went. No more answers are left until a victim than were.
    fn purge(&mut self, process: u32) -> u32
        ensures moved { state self.new ≡ purged process (state self.old) }
        ensures count { result ≡ purge_count process (state self.old) }
        ensures no_more_left { answers_left (state self.new) ≤ answers_left (state self.old) }
        ensures frames { (state self.new).frames ≡ (state self.old).frames }
        ensures lawful { Lawful (state self.new) };

    /// How many of the frames cold pages are to have.
    fn share(&self) -> usize
        ensures { result ≡ (state self.now).share };

    /// How many answers came since the last victim, at most three for each frame.
    fn asked(&self) -> usize
        ensures { result ≡ (state self.now).asked };

    fn cold_hand(&self) -> Option<Key>
        ensures { result ≡ (state self.now).cold_hand };

    fn test_hand(&self) -> Option<Key>
        ensures { result ≡ (state self.now).test_hand };

    /// The entry at a place, counted from the front.
    fn entry(&self, i: usize) -> Option<(Key, EntryKind)>
        ensures { result ≡ option_map (λ e. (e.key, e.kind))
            (slice_get (state self.now).entries i) };

    /// What the list knows of a page.
    fn kind_of(&self, key: Key) -> Option<EntryKind>
        ensures { result ≡ kind_of key (state self.now).entries };

    /// Adds all entries to a vector, from the front, in time linear in the list. It takes memory only where the vector has not the room.
    fn copy_entries(&self, to: &mut Vec<Entry>) -> Result<(), AllocError>
        ensures items { OnOk result (to.new.items ≡ to.old.items ++ (state self.now).entries) }
        ensures err { OnErr result (to.new.items ≡ to.old.items) }
        ensures room { vec_len to.old + length (state self.now).entries ≤ vec_capacity to.old →
            IsOk result };
}
