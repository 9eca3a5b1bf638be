//! The parameters of policies in a list.

use kernel_policies::TwoListsParts;
use miss_counts::PolicyName;
use text_lines::numeral;
use textbook_policies::{GClockCounts, LruKUses};
use ticked_policies::{AgingTicks, Arrival, NruTicks, WorkingSetTime};
use tiny_lfu::{SketchWidth, TinyLfuShares};
use younger_policies::{LirsShares, MovedCount, S3FifoShares, TwoQueueShares};

/// The policy of a word, `NAME` or `NAME:PART=VALUE..`, where its name is one; as it is usual in what is not asked for.
pub(crate) fn policy_in(word: &str) -> Option<PolicyName> {
    let mut words = word.split(':');
    let mut policy = policy_named(words.next()?)?;
    for part in words {
        let (name, value) = part.split_once('=')?;
        policy = with_part(policy, name, value)?;
    }
    Some(policy)
}

/// The name that a word begins with.
pub(crate) fn name_in(word: &str) -> &str {
    match word.split_once(':') {
        Some((name, _)) => name,
        None => word,
    }
}

/// The policy of a name, as it is usual.
pub(crate) fn policy_named(name: &str) -> Option<PolicyName> {
    for policy in PolicyName::ALL {
        if policy.text() == name {
            return Some(policy);
        }
    }
    None
}

/// Which parameters a policy may have.
pub(crate) fn parts_of(policy: PolicyName) -> &'static str {
    match policy {
        PolicyName::TwoQueues(_) => "kin from 0 to 99, kout from 0 to 1000",
        PolicyName::Lirs(_) =>
            "hirs from 0 to 99, floor from 1 to 1000, stack from 100 to 100000 or none",
        PolicyName::S3Fifo(_) => "small from 1 to 99, ghost from 0 to 1000, moved keep or clear",
        PolicyName::WTinyLfu(_) => {
            "window and protected from 0 to 100, width 1 or 4, sample from 1 to 1000"
        }
        PolicyName::LruK(_) => "k from 1 to 64",
        PolicyName::GClock(_) => "most from 1 to 255, first from 0 to 255",
        PolicyName::SecondChance(_) => "arrival marked or clear",
        PolicyName::Nru(_) => "every from 1 to 4294967295",
        PolicyName::Aging(_) => "every from 1 to 4294967295, bits from 1 to 32",
        PolicyName::WsClock(_) => "tau from 1 to 4294967295",
        PolicyName::TwoLists(_) => "ratio from 1 to 1000, arrival marked or clear",
        PolicyName::Random(_) => "seed from 0 to 4294967295",
        _ => "no parameter",
    }
}

/// The policy with one part of it asked for.
fn with_part(policy: PolicyName, name: &str, value: &str) -> Option<PolicyName> {
    match policy {
        PolicyName::TwoQueues(shares) => two_queues_with(shares, name, value),
        PolicyName::Lirs(shares) => lirs_with(shares, name, value),
        PolicyName::S3Fifo(shares) => s3_fifo_with(shares, name, value),
        PolicyName::WTinyLfu(shares) => tiny_lfu_with(shares, name, value),
        PolicyName::LruK(_) if name == "k" => Some(PolicyName::LruK(LruKUses {
            k: within(value, LruKUses::K)?,
        })),
        PolicyName::GClock(counts) => g_clock_with(counts, name, value),
        PolicyName::SecondChance(_) if name == "arrival" => {
            Some(PolicyName::SecondChance(arrival_named(value)?))
        }
        PolicyName::Nru(_) if name == "every" => Some(PolicyName::Nru(NruTicks {
            every: Some(within(value, NruTicks::EVERY)?),
        })),
        PolicyName::Aging(ticks) => aging_with(ticks, name, value),
        PolicyName::WsClock(_) if name == "tau" => Some(PolicyName::WsClock(WorkingSetTime {
            tau: Some(within(value, WorkingSetTime::TAU)?),
        })),
        PolicyName::TwoLists(parts) => two_lists_with(parts, name, value),
        PolicyName::Random(_) if name == "seed" => {
            Some(PolicyName::Random(u64::from(within(value, (0, u32::MAX))?)))
        }
        _ => None,
    }
}

fn two_queues_with(shares: TwoQueueShares, name: &str, value: &str) -> Option<PolicyName> {
    let TwoQueueShares { mut kin, mut kout } = shares;
    match name {
        "kin" => kin = within(value, TwoQueueShares::KIN)?,
        "kout" => kout = within(value, TwoQueueShares::KOUT)?,
        _ => return None,
    }
    Some(PolicyName::TwoQueues(TwoQueueShares { kin, kout }))
}

fn lirs_with(shares: LirsShares, name: &str, value: &str) -> Option<PolicyName> {
    let LirsShares {
        mut hirs,
        mut floor,
        mut stack,
    } = shares;
    match name {
        "hirs" => hirs = within(value, LirsShares::HIRS)?,
        "floor" => floor = within(value, LirsShares::FLOOR)?,
        "stack" => stack = stack_bound(value)?,
        _ => return None,
    }
    Some(PolicyName::Lirs(LirsShares { hirs, floor, stack }))
}

/// A bound, or that there is none.
fn stack_bound(value: &str) -> Option<Option<u32>> {
    if value == "none" {
        return Some(None);
    }
    Some(Some(within(value, LirsShares::STACK)?))
}

fn s3_fifo_with(shares: S3FifoShares, name: &str, value: &str) -> Option<PolicyName> {
    let S3FifoShares {
        mut small,
        mut ghosts,
        mut moved,
    } = shares;
    match name {
        "small" => small = within(value, S3FifoShares::SMALL)?,
        "ghost" => ghosts = within(value, S3FifoShares::GHOSTS)?,
        "moved" => moved = moved_count(value)?,
        _ => return None,
    }
    Some(PolicyName::S3Fifo(S3FifoShares {
        small,
        ghosts,
        moved,
    }))
}

fn moved_count(value: &str) -> Option<MovedCount> {
    match value {
        "keep" => Some(MovedCount::Keep),
        "clear" => Some(MovedCount::Clear),
        _ => None,
    }
}

fn tiny_lfu_with(shares: TinyLfuShares, name: &str, value: &str) -> Option<PolicyName> {
    let TinyLfuShares {
        mut window,
        mut protected,
        mut width,
        mut sample,
    } = shares;
    match name {
        "window" => window = within(value, TinyLfuShares::WINDOW)?,
        "protected" => protected = within(value, TinyLfuShares::PROTECTED)?,
        "width" => width = sketch_width(value)?,
        "sample" => sample = within(value, TinyLfuShares::SAMPLE)?,
        _ => return None,
    }
    Some(PolicyName::WTinyLfu(TinyLfuShares {
        window,
        protected,
        width,
        sample,
    }))
}

fn sketch_width(value: &str) -> Option<SketchWidth> {
    match value {
        "1" => Some(SketchWidth::One),
        "4" => Some(SketchWidth::Four),
        _ => None,
    }
}

fn g_clock_with(counts: GClockCounts, name: &str, value: &str) -> Option<PolicyName> {
    let GClockCounts {
        mut most,
        mut first,
    } = counts;
    match name {
        "most" => most = within(value, GClockCounts::MOST)?,
        "first" => first = within(value, GClockCounts::FIRST)?,
        _ => return None,
    }
    Some(PolicyName::GClock(GClockCounts { most, first }))
}

fn arrival_named(value: &str) -> Option<Arrival> {
    match value {
        "marked" => Some(Arrival::Marked),
        "clear" => Some(Arrival::Clear),
        _ => None,
    }
}

fn aging_with(ticks: AgingTicks, name: &str, value: &str) -> Option<PolicyName> {
    let AgingTicks {
        mut every,
        mut bits,
    } = ticks;
    match name {
        "every" => every = Some(within(value, NruTicks::EVERY)?),
        "bits" => bits = within(value, AgingTicks::BITS)?,
        _ => return None,
    }
    Some(PolicyName::Aging(AgingTicks { every, bits }))
}

fn two_lists_with(parts: TwoListsParts, name: &str, value: &str) -> Option<PolicyName> {
    let TwoListsParts {
        mut ratio,
        mut arrival,
    } = parts;
    match name {
        "ratio" => ratio = Some(within(value, TwoListsParts::RATIO)?),
        "arrival" => arrival = arrival_named(value)?,
        _ => return None,
    }
    Some(PolicyName::TwoLists(TwoListsParts { ratio, arrival }))
}

/// A number that is no less than the one and no greater than the other.
fn within(value: &str, range: (u32, u32)) -> Option<u32> {
    let (least, most) = range;
    let number = numeral(value.as_bytes(), 10, most)?;
    if number < least {
        return None;
    }
    Some(number)
}
