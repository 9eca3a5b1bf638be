//! What is read from a list of entries.

ghost use Rattle.std.specs.Prelude.{◌≡◌, ◌≤◌, ◌<◌, ℕ, length, find, true};
ghost use Rattle.std.specs.List.{list_any};
ghost use Rattle.clock_policy.specs.ClockPro.{hot_count, cold_count, shadow_count, test_count};
ghost use Rattle.clock_policy.specs.ClockPro.{place, place_of, round, found_key, stays_in, settled};
ghost use Rattle.clock_policy.specs.ClockPro.{is_hot, is_cold, is_shadow, has_key, kind_of, number};
ghost use Rattle.clock_policy.specs.ClockPro.{is_of_process};

use clock_policy::{Entry, EntryKind, Key};

#[tactic(auto, using(clock_policy::proofs::LookupLaws::number_is))]
pub(crate) fn hot_count(entries: &[Entry]) -> usize
    ensures { result ≡ hot_count entries.now }
{
    entries.iter().filter(|e| e.kind.is_hot()).count()
}

#[tactic(auto, using(clock_policy::proofs::LookupLaws::number_is))]
pub(crate) fn cold_count(entries: &[Entry]) -> usize
    ensures { result ≡ cold_count entries.now }
{
    entries.iter().filter(|e| e.kind.is_cold()).count()
}

#[tactic(auto, using(clock_policy::proofs::LookupLaws::number_is))]
pub(crate) fn shadow_count(entries: &[Entry]) -> usize
    ensures { result ≡ shadow_count entries.now }
{
    entries.iter().filter(|e| e.kind.is_shadow()).count()
}

#[tactic(auto, using(clock_policy::proofs::LookupLaws::number_is))]
pub(crate) fn test_count(entries: &[Entry]) -> usize
    ensures { result ≡ test_count entries.now }
{
    entries.iter().filter(|e| e.kind.is_in_test()).count()
}

#[tactic(auto, using(clock_policy::proofs::LookupLaws::number_is))]
pub(crate) fn process_count(entries: &[Entry], process: u32) -> usize
    ensures count { result ≡ number (is_of_process process) entries.now }
    ensures within { result ≤ length entries.now }
{
    entries.iter().filter(|e| e.key.process == process).count()
}

/// How many entries come before the key's, or the number of all entries if the key has none.
pub(crate) fn place(entries: &[Entry], key: Key) -> usize
    ensures at { result ≡ place key entries.now }
    ensures within { result ≤ length entries.now }
{
    for (i, e) in entries.iter().enumerate() {
        if e.has_key(key) {
            return i;
        }
    }
    entries.len()
}

pub(crate) fn place_of(entries: &[Entry], hand: Option<Key>) -> usize
    ensures at { result ≡ place_of hand entries.now }
    ensures within { result ≤ length entries.now }
{
    match hand {
        None => 0,
        Some(key) => place(entries, key),
    }
}

pub(crate) fn kind_of(entries: &[Entry], key: Key) -> Option<EntryKind>
    ensures { result ≡ kind_of key entries.now }
{
    entries.iter().find(|e| e.has_key(key)).map(|e| e.kind)
}

pub(crate) fn entry_of(entries: &[Entry], key: Key) -> Option<Entry>
    ensures { result ≡ find (has_key key) entries.now }
{
    for e in entries {
        if e.has_key(key) {
            return Some(*e);
        }
    }
    None
}

pub(crate) fn first_hot(entries: &[Entry]) -> Option<Entry>
    ensures { result ≡ find (λ e. is_hot e.kind) entries.now }
{
    for e in entries {
        if e.kind.is_hot() {
            return Some(*e);
        }
    }
    None
}

pub(crate) fn first_cold(entries: &[Entry]) -> Option<Entry>
    ensures { result ≡ find (λ e. is_cold e.kind) entries.now }
{
    for e in entries {
        if e.kind.is_cold() {
            return Some(*e);
        }
    }
    None
}

fn first_shadow(entries: &[Entry]) -> Option<Key>
    ensures { result ≡ found_key (find (λ e. is_shadow e.kind) entries.now) }
{
    entries.iter().find(|e| e.kind.is_shadow()).map(|e| e.key)
}

pub(crate) fn has_shadow(entries: &[Entry]) -> bool
    ensures { result ≡ list_any (λ e. is_shadow e.kind) entries.now }
{
    entries.iter().any(|e| e.kind.is_shadow())
}

fn stays_in(list: &[Entry], entry: &Entry) -> bool
    ensures { result ≡ stays_in list.now entry.now }
{
    list.iter().any(|e| e.has_key(entry.key))
}

fn first_staying(part: &[Entry], list: &[Entry]) -> Option<Key>
    ensures { result ≡ found_key (find (stays_in list.now) part.now) }
{
    part.iter().find(|e| stays_in(list, e)).map(|e| e.key)
}

/// Where a hand of the old list rests when the list is the new one.
#[tactic(auto, using(clock_policy::proofs::LookupLaws::settled_halves))]
pub(crate) fn settled(old: &[Entry], new: &[Entry], hand: Option<Key>) -> Option<Key>
    ensures { result ≡ settled old.now new.now hand }
{
    let (before, ahead) = old.split_at(place_of(old, hand));
    match first_staying(ahead, new) {
        Some(key) => Some(key),
        None => first_staying(before, new),
    }
}

/// The first cold entry from the cold hand on, once round.
#[tactic(auto, using(clock_policy::proofs::LookupLaws::cold_halves))]
pub(crate) fn first_cold_from(entries: &[Entry], hand: Option<Key>) -> Option<Entry>
    ensures { result ≡ find (λ e. is_cold e.kind) (round (place_of hand entries.now) entries.now) }
{
    let (before, ahead) = entries.split_at(place_of(entries, hand));
    match first_cold(ahead) {
        Some(entry) => Some(entry),
        None => first_cold(before),
    }
}

/// The key of the first shadow from the place on, once round.
#[tactic(auto, using(clock_policy::proofs::LookupLaws::shadow_halves))]
pub(crate) fn first_shadow_from(entries: &[Entry], i: usize) -> Option<Key>
    requires { i ≤ length entries.now }
    ensures { result ≡ found_key (find (λ e. is_shadow e.kind) (round i entries.now)) }
{
    let (before, ahead) = entries.split_at(i);
    match first_shadow(ahead) {
        Some(key) => Some(key),
        None => first_shadow(before),
    }
}

/// The key of the entry at the place, or of the front where that is past the last.
#[tactic(auto, using(clock_policy::proofs::LookupLaws::any_halves))]
pub(crate) fn first_key_from(entries: &[Entry], i: usize) -> Option<Key>
    requires { i ≤ length entries.now }
    ensures { result ≡ found_key (find (λ _. true) (round i entries.now)) }
{
    let (before, ahead) = entries.split_at(i);
    match ahead.first().or(before.first()) {
        Some(entry) => Some(entry.key),
        None => None,
    }
}
