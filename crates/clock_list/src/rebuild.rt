//! A new list made from the old one, in a vector whose room is there.

ghost use Rattle.std.specs.Prelude.{◌≡◌, ◌≤◌, ◌<◌, ◌+◌, ◌*◌, ℕ, length, take, drop, ◌++◌, ◌∷◌, []};
ghost use Rattle.std.specs.Prelude.{not, filter, vec_len, vec_capacity};
ghost use Rattle.std.specs.List.{list_any};
ghost use Rattle.clock_policy.specs.ClockPro.{test_ended, tests_ended, trimmed_part, trimmed_tests};
ghost use Rattle.clock_policy.specs.ClockPro.{trimmed_list, round, hot_left, is_shadow};
ghost use Rattle.clock_policy.specs.ClockPro.{is_of_process};

use crate::scan::has_shadow;
use clock_policy::{Bit, Entry, EntryKind};

fn copy(to: &mut Vec<Entry>, from: &[Entry])
    requires { vec_len to.old + length from.now ≤ vec_capacity to.old }
    ensures items { to.new.items ≡ to.old.items ++ from.now }
    ensures len { vec_len to.new ≡ vec_len to.old + length from.now }
    ensures capacity { vec_capacity to.old ≤ vec_capacity to.new }
{
    to.extend_from_slice(from).unwrap();
}

/// Adds what is left of the entry when its test ends.
fn push_test_ended(to: &mut Vec<Entry>, entry: Entry)
    requires { vec_len to.old < vec_capacity to.old }
    ensures items { to.new.items ≡ to.old.items ++ test_ended entry.kind entry }
    ensures len { vec_len to.new ≤ vec_len to.old + 1 }
    ensures capacity { vec_capacity to.old ≤ vec_capacity to.new }
{
    match entry.kind {
        EntryKind::Hot | EntryKind::Cold => to.push_reserved(entry),
        EntryKind::Test => to.push_reserved(Entry {
            key: entry.key,
            kind: EntryKind::Cold,
        }),
        EntryKind::Shadow => {}
    }
}

fn push_tests_ended(to: &mut Vec<Entry>, passed: &[Entry])
    requires { vec_len to.old + length passed.now ≤ vec_capacity to.old }
    ensures items { to.new.items ≡ to.old.items ++ tests_ended passed.now }
    ensures len { vec_len to.new ≤ vec_len to.old + length passed.now }
    ensures capacity { vec_capacity to.old ≤ vec_capacity to.new }
{
    for entry in passed {
        push_test_ended(to, *entry);
    }
}

/// Ends the tests up to the first shadow, leaves that out and answers how many tests these were.
fn push_trimmed(to: &mut Vec<Entry>, part: &[Entry]) -> usize
    requires { vec_len to.old + length part.now ≤ vec_capacity to.old }
    ensures tests { result ≡ trimmed_tests part.now }
    ensures few { result ≤ length part.now }
    ensures items { to.new.items ≡ to.old.items ++ trimmed_part part.now }
    ensures len { vec_len to.new ≤ vec_len to.old + length part.now }
    ensures capacity { vec_capacity to.old ≤ vec_capacity to.new }
{
    let mut tests = 0;
    for (i, entry) in part.iter().enumerate() {
        if entry.kind.is_shadow() {
            copy(to, &part[i + 1..]);
            return tests + 1;
        }
        if entry.kind.is_in_test() {
            tests += 1;
        }
        push_test_ended(to, *entry);
    }
    tests
}

/// The entries without the one at the place.
pub(crate) fn rebuild_without(to: &mut Vec<Entry>, entries: &[Entry], i: usize)
    requires listed { i < length entries.now }
    requires room { length entries.now ≤ vec_capacity to.old }
    ensures items { to.new.items ≡ take i entries.now ++ drop (i + 1) entries.now }
    ensures len { vec_len to.new + 1 ≡ length entries.now }
    ensures capacity { vec_capacity to.old ≤ vec_capacity to.new }
{
    to.clear();
    let (before, _) = entries.split_at(i);
    let (_, behind) = entries.split_at(i + 1);
    copy(to, before);
    copy(to, behind);
}

/// The entries but those of the process.
pub(crate) fn rebuild_without_process(to: &mut Vec<Entry>, entries: &[Entry], process: u32)
    requires { length entries.now ≤ vec_capacity to.old }
    ensures items { to.new.items ≡ filter (λ e. not (is_of_process process e)) entries.now }
    ensures len { vec_len to.new ≤ length entries.now }
    ensures capacity { vec_capacity to.old ≤ vec_capacity to.new }
{
    to.clear();
    for entry in entries {
        if entry.key.process != process {
            to.push_reserved(*entry);
        }
    }
}

/// The entries with the hot hand gone to the one at the place, `hot`, which is answered.
pub(crate) fn rebuild_turned(to: &mut Vec<Entry>, entries: &[Entry], i: usize, bit: Bit, hot: Entry)
    requires listed { i < length entries.now }
    requires room { length entries.now ≤ vec_capacity to.old }
    ensures items { to.new.items ≡ drop (i + 1) entries.now ++ tests_ended (take i entries.now) ++
        hot_left bit hot }
    ensures len { vec_len to.new ≤ length entries.now }
    ensures capacity { vec_capacity to.old ≤ vec_capacity to.new }
{
    to.clear();
    let (passed, _) = entries.split_at(i);
    let (_, behind) = entries.split_at(i + 1);
    copy(to, behind);
    push_tests_ended(to, passed);
    match bit {
        Bit::Zero => to.push_reserved(Entry {
            key: hot.key,
            kind: EntryKind::Cold,
        }),
        Bit::One => to.push_reserved(hot),
        Bit::Gone => {}
    }
}

#[tactic(auto, using(clock_policy::proofs::LookupLaws::round_tests_then, clock_policy::proofs::LookupLaws::round_tests_else, clock_policy::proofs::LookupLaws::trimmed_list_then, clock_policy::proofs::LookupLaws::trimmed_list_else))]
/// The entries once trimmed from the place on, and how many tests that ended.
pub(crate) fn rebuild_trimmed(to: &mut Vec<Entry>, entries: &[Entry], i: usize) -> usize
    requires listed { i ≤ length entries.now }
    requires room { length entries.now ≤ vec_capacity to.old }
    ensures tests { result ≡ trimmed_tests (round i entries.now) }
    ensures items { to.new.items ≡ trimmed_list i entries.now }
    ensures len { vec_len to.new ≤ length entries.now }
    ensures capacity { vec_capacity to.old ≤ vec_capacity to.new }
{
    to.clear();
    let (before, ahead) = entries.split_at(i);
    if has_shadow(ahead) {
        copy(to, before);
        push_trimmed(to, ahead)
    } else {
        let tests = push_trimmed(to, before);
        tests + push_trimmed(to, ahead)
    }
}
