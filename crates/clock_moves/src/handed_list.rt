//! The single moves that the policy's calls are made of.

ghost use Rattle.std.specs.Prelude.{◌≡◌, ◌≤◌, ◌<◌, ◌+◌, ◌*◌, None, IfSome, length, option_map};
ghost use Rattle.clock_policy.specs.ClockPro.{ClockState, kind_of, hot_count, cold_count};
ghost use Rattle.clock_policy.specs.ClockPro.{asked_entry, cold_hand_on, turned_to, trimmed};
ghost use Rattle.clock_policy.specs.ClockPro.{removed, appended, sent_to_end, marked, shadowed};
ghost use Rattle.clock_policy.specs.ClockPro.{grown};
ghost use Rattle.clock_policy.specs.FrameCounts.{most_frames};
ghost use Rattle.clock_policy.specs.Lawful.{Lawful};

use crate::found::Found;
use clock_policy::{Bit, Entry, EntryKind, Key};

/// A list of entries with its hands, moved one step at a time.
///
/// `state` is what the list stands for, and each move is that of the definition on it. `holds` says that an entry stands where it was
/// found.
pub trait HandedList {
    ghost use Rattle.clock_moves.specs.declared.found.Found.{Found};

    ghost state: { Self → ClockState };

    ghost holds: { Self → Found → Type 0 };

    /// How many frames the list serves.
    fn frames(&self) -> usize
        ensures frames { result ≡ (state self.now).frames }
        ensures most { result ≤ most_frames };

    /// How many answers came since the last victim, at most three for each frame.
    fn asked(&self) -> usize
        ensures asked { result ≡ (state self.now).asked }
        ensures few { result ≤ 3 * (state self.now).frames };

    fn set_asked(&mut self, asked: usize)
        requires { asked ≤ 3 * (state self.old).frames }
        ensures moved { state self.new ≡ record (state self.old) { asked = asked } };

    /// How many entries are resident.
    fn resident_count(&self) -> usize
        ensures { result ≡ hot_count (state self.now).entries +
            cold_count (state self.now).entries };

    /// The entry that the question names.
    fn asked_entry(&self) -> Option<Found>
        ensures exact { asked_entry (state self.now) ≡ option_map (λ x. x.entry) result }
        ensures there { IfSome result (holds self.now) };

    /// The entry of a page.
    fn find(&self, key: Key) -> Option<Found>
        ensures there { IfSome result (holds self.now) }
        ensures key { IfSome result (λ found. found.entry.key ≡ key) }
        ensures kind { kind_of key (state self.now).entries ≡ option_map (λ found.
            found.entry.kind) result };

    /// Adds an entry of a new page as the last. Hands that stand on none rest on it.
    fn append(&mut self, entry: Entry)
        requires new { kind_of entry.key (state self.old).entries ≡ None }
        requires room { length (state self.old).entries < 2 * (state self.old).frames }
        ensures moved { state self.new ≡ appended entry (state self.old) };

    /// Takes an entry out. A hand on it goes on to its next.
    fn remove(&mut self, found: Found)
        requires { holds self.old found }
        ensures moved { state self.new ≡ removed found.entry.key (state self.old) };

    /// An entry becomes of this kind, where it stands.
    fn mark(&mut self, found: Found, kind: EntryKind)
        requires { holds self.old found }
        ensures moved { state self.new ≡ marked found.entry.key kind (state self.old) };

    /// An entry becomes the last, of this kind. A hand on it goes on to its next.
    fn send_to_end(&mut self, found: Found, kind: EntryKind)
        requires { holds self.old found }
        ensures moved { state self.new ≡ sent_to_end found.entry.key kind (state self.old) };

    /// An entry becomes a shadow where it stands, and the cold hand goes to its next.
    fn shadow(&mut self, found: Found)
        requires { holds self.old found }
        ensures moved { state self.new ≡ shadowed found.entry.key (state self.old) };

    /// The cold hand goes to an entry, and each entry stays where it stands.
    fn set_cold_hand(&mut self, found: Found)
        requires { holds self.old found }
        ensures moved { state self.new ≡ cold_hand_on found.entry.key (state self.old) }
        ensures there { holds self.new found };

    /// The hot hand goes to the hot entry, which is answered.
    fn turn_to(&mut self, bit: Bit, hot: Found)
        requires lawful { Lawful (state self.old) }
        requires there { holds self.old hot }
        ensures moved { state self.new ≡ turned_to bit hot.entry (state self.old) };

    /// One frame more for cold pages, if one is left.
    fn grow(&mut self)
        ensures moved { state self.new ≡ grown (state self.old) };

    /// Where there are more shadows than frames, tests end from the test hand on to a shadow, which goes.
    fn trim(&mut self)
        ensures moved { state self.new ≡ trimmed (state self.old) };
}
