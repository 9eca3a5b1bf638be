//! Lists of policies.

use crate::fault::RequestFault;
use crate::policy_parts::{name_in, parts_of, policy_in, policy_named};
use miss_counts::{PolicyName, PolicySet};
use page_policies::Frames;
use policies_tables::OPTIMUM;
use std::alloc::{AllocError, Global};
use std::fmt;

/// The word that names all of them.
const ALL: &str = "all";

/// Those that are counted where none is named.
const USUAL: [PolicyName; 4] = [
    PolicyName::Fifo,
    PolicyName::Clock,
    PolicyName::Lru,
    PolicyName::ClockProUsed,
];

/// What `--policies` may name.
#[derive(Clone, Copy, Debug)]
pub struct PolicyWords;

impl fmt::Display for PolicyWords {
    fn fmt<W: fmt::Write>(&self, f: &mut fmt::Formatter<W>) -> fmt::Result {
        for policy in PolicyName::ALL {
            write!(f, "{}, ", policy.text())?;
        }
        write!(f, "{OPTIMUM}, parted by commas, or {ALL}")
    }
}

/// The usual policies that serve each of these numbers of frames.
pub(crate) fn usual_policies(
    alloc: Global,
    frames: &[Frames],
    optimum: bool,
) -> Result<PolicySet, AllocError> {
    let mut policies = Vec::new(alloc);
    for policy in USUAL {
        if serves_each(policy, frames) {
            policies.push(policy)?;
        }
    }
    Ok(PolicySet { policies, optimum })
}

fn serves_each(policy: PolicyName, frames: &[Frames]) -> bool {
    for number in frames {
        if !policy.serves(*number) {
            return false;
        }
    }
    true
}

/// The policies that a list names, in the order of a table's columns, one name's in the order of the list. `random` has this seed where
/// the list says none. Where no writes are marked, `all` are those that do not go by them.
pub(crate) fn policies_in<'a>(
    alloc: Global,
    list: &'a str,
    seed: u64,
    has_writes: bool,
) -> Result<PolicySet, RequestFault<'a>> {
    if let Some(wrong) = wrong_word(list) {
        return Err(wrong);
    }
    Ok(named_policies(alloc, list, seed, has_writes)?)
}

/// The policies that a list has.
fn named_policies(
    alloc: Global,
    list: &str,
    seed: u64,
    has_writes: bool,
) -> Result<PolicySet, AllocError> {
    let has_all = has_word(list, ALL);
    let mut policies = Vec::new(alloc);
    for policy in PolicyName::ALL {
        if has_all && (has_writes || !policy.needs_writes()) {
            add(&mut policies, seeded(policy, policy.text(), seed))?;
        }
        add_named(&mut policies, list, policy.text(), seed)?;
    }
    Ok(PolicySet {
        policies,
        optimum: has_all || has_word(list, OPTIMUM),
    })
}

/// Adds the policies of a list that have this name.
fn add_named(
    policies: &mut Vec<PolicyName>,
    list: &str,
    name: &str,
    seed: u64,
) -> Result<(), AllocError> {
    for word in list.split(',') {
        if name_in(word) != name {
            continue;
        }
        if let Some(policy) = policy_in(word) {
            add(policies, seeded(policy, word, seed))?;
        }
    }
    Ok(())
}

/// Adds a policy that is not there.
fn add(policies: &mut Vec<PolicyName>, policy: PolicyName) -> Result<(), AllocError> {
    if policies.contains(&policy) {
        return Ok(());
    }
    match policies.push(policy) {
        Ok(()) => Ok(()),
        Err(_) => Err(AllocError),
    }
}

/// The policy of a word, with this seed where it draws and the word says no other.
fn seeded(policy: PolicyName, word: &str, seed: u64) -> PolicyName {
    match policy {
        PolicyName::Random(_) if word == policy.text() => PolicyName::Random(seed),
        _ => policy,
    }
}

/// Whether a list has the word.
pub(crate) fn has_word(list: &str, word: &str) -> bool {
    for named in list.split(',') {
        if named == word {
            return true;
        }
    }
    false
}

/// What is wrong with the first word of a list that is no policy.
fn wrong_word<'a>(list: &'a str) -> Option<RequestFault<'a>> {
    for word in list.split(',') {
        if word == OPTIMUM || word == ALL || policy_in(word).is_some() {
            continue;
        }
        return match policy_named(name_in(word)) {
            Some(policy) => Some(RequestFault::PolicyParts(word, policy.text(), parts_of(policy))),
            None => Some(RequestFault::Policies(word, PolicyWords)),
        };
    }
    None
}
