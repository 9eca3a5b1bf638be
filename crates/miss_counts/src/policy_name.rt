//! The policies by name.

ghost use Rattle.std.specs.Prelude.{◌≡◌, ◌↔◌, false, map, IsNone};
ghost use Rattle.miss_counts.specs.Counted.{any_needs_writes, any_served, any_serves, needs_writes};
ghost use Rattle.miss_counts.specs.Counted.{serves};

use kernel_policies::TwoListsParts;
use page_policies::{Frames, USUAL_SEED};
use std::fmt;
use textbook_policies::{GClockCounts, LruKUses};
use ticked_policies::{AgingTicks, Arrival, NruTicks, WorkingSetTime};
use tiny_lfu::{SketchWidth, TinyLfuShares};
use younger_policies::{LirsShares, MovedCount, S3FifoShares, TwoQueueShares};

/// A policy that plays a string as it comes, with how it is asked for.
#[derive(Clone, Copy, Debug, PartialEq, Eq)]
pub enum PolicyName {
    Fifo,
    Clock,
    Lru,
    ClockProUsed,
    ClockPro,
    TwoQueues(TwoQueueShares),
    Lirs(LirsShares),
    Arc,
    Sieve,
    S3Fifo(S3FifoShares),
    WTinyLfu(TinyLfuShares),
    Car,
    LruK(LruKUses),
    GClock(GClockCounts),
    Lfu,
    Mru,
    SecondChance(Arrival),
    Nru(NruTicks),
    Aging(AgingTicks),
    WsClock(WorkingSetTime),
    TwoLists(TwoListsParts),
    /// By a generator of this seed.
    Random(u64),
}

impl PolicyName {
    /// The policies in the order of a table's columns, each as it is where nothing else is asked for.
    pub const ALL: [PolicyName; 22] = [
        PolicyName::Fifo,
        PolicyName::Clock,
        PolicyName::Lru,
        PolicyName::ClockProUsed,
        PolicyName::ClockPro,
        PolicyName::TwoQueues(TwoQueueShares::USUAL),
        PolicyName::Lirs(LirsShares::USUAL),
        PolicyName::Arc,
        PolicyName::Sieve,
        PolicyName::S3Fifo(S3FifoShares::USUAL),
        PolicyName::WTinyLfu(TinyLfuShares::USUAL),
        PolicyName::Car,
        PolicyName::LruK(LruKUses::USUAL),
        PolicyName::GClock(GClockCounts::USUAL),
        PolicyName::Lfu,
        PolicyName::Mru,
        PolicyName::SecondChance(Arrival::Marked),
        PolicyName::Nru(NruTicks::USUAL),
        PolicyName::Aging(AgingTicks::USUAL),
        PolicyName::WsClock(WorkingSetTime::USUAL),
        PolicyName::TwoLists(TwoListsParts::USUAL),
        PolicyName::Random(USUAL_SEED),
    ];

    /// Its name in lists and tables, without how it is asked for.
    pub fn text(self) -> &'static str {
        match self {
            PolicyName::Fifo => "fifo",
            PolicyName::Clock => "clock",
            PolicyName::Lru => "lru",
            PolicyName::ClockProUsed => "clock-pro-used",
            PolicyName::ClockPro => "clock-pro",
            PolicyName::TwoQueues(_) => "2q",
            PolicyName::Lirs(_) => "lirs",
            PolicyName::Arc => "arc",
            PolicyName::Sieve => "sieve",
            PolicyName::S3Fifo(_) => "s3-fifo",
            PolicyName::WTinyLfu(_) => "w-tinylfu",
            PolicyName::Car => "car",
            PolicyName::LruK(_) => "lru-k",
            PolicyName::GClock(_) => "gclock",
            PolicyName::Lfu => "lfu",
            PolicyName::Mru => "mru",
            PolicyName::SecondChance(_) => "second-chance",
            PolicyName::Nru(_) => "nru",
            PolicyName::Aging(_) => "aging",
            PolicyName::WsClock(_) => "wsclock",
            PolicyName::TwoLists(_) => "two-lists",
            PolicyName::Random(_) => "random",
        }
    }

    /// Whether it goes by which references write.
    pub fn needs_writes(self) -> bool
        ensures { result ≡ needs_writes self }
    {
        match self {
            PolicyName::Nru(_) => true,
            PolicyName::WsClock(_) => true,
            _ => false,
        }
    }

    /// Whether it serves so many frames: CLOCK-Pro's list is for 4 to 4096.
    pub fn serves(self, frames: Frames) -> bool
        ensures { result ≡ serves self frames.number }
    {
        match self {
            PolicyName::ClockProUsed => frames.are_a_machines(),
            PolicyName::ClockPro => frames.are_a_machines(),
            _ => true,
        }
    }
}

/// Its name, and how it is asked for where that is not the usual.
impl fmt::Display for PolicyName {
    fn fmt<W: fmt::Write>(&self, f: &mut fmt::Formatter<W>) -> fmt::Result {
        f.write_str(self.text())?;
        match *self {
            PolicyName::TwoQueues(shares) => write_two_queues(shares, f),
            PolicyName::Lirs(shares) => write_lirs(shares, f),
            PolicyName::S3Fifo(shares) => write_s3_fifo(shares, f),
            PolicyName::WTinyLfu(shares) => write_tiny_lfu(shares, f),
            PolicyName::LruK(uses) => write_lru_k(uses, f),
            PolicyName::GClock(counts) => write_g_clock(counts, f),
            PolicyName::SecondChance(arrival) => write_arrival(arrival, f),
            PolicyName::Nru(ticks) => write_given("every", ticks.every, f),
            PolicyName::Aging(ticks) => write_aging(ticks, f),
            PolicyName::WsClock(set) => write_given("tau", set.tau, f),
            PolicyName::TwoLists(parts) => write_two_lists(parts, f),
            PolicyName::Random(seed) => write_part("seed", seed, USUAL_SEED, f),
            _ => Ok(()),
        }
    }
}

fn write_two_queues<W: fmt::Write>(
    shares: TwoQueueShares,
    f: &mut fmt::Formatter<W>,
) -> fmt::Result {
    let usual = TwoQueueShares::USUAL;
    write_part("kin", u64::from(shares.kin), u64::from(usual.kin), f)?;
    write_part("kout", u64::from(shares.kout), u64::from(usual.kout), f)
}

fn write_lirs<W: fmt::Write>(shares: LirsShares, f: &mut fmt::Formatter<W>) -> fmt::Result {
    let usual = LirsShares::USUAL;
    write_part("hirs", u64::from(shares.hirs), u64::from(usual.hirs), f)?;
    write_part("floor", u64::from(shares.floor), u64::from(usual.floor), f)?;
    match shares.stack {
        Some(stack) => write!(f, ":stack={stack}"),
        None => Ok(()),
    }
}

fn write_s3_fifo<W: fmt::Write>(shares: S3FifoShares, f: &mut fmt::Formatter<W>) -> fmt::Result {
    let usual = S3FifoShares::USUAL;
    write_part("small", u64::from(shares.small), u64::from(usual.small), f)?;
    write_part(
        "ghost",
        u64::from(shares.ghosts),
        u64::from(usual.ghosts),
        f,
    )?;
    match shares.moved {
        MovedCount::Keep => Ok(()),
        MovedCount::Clear => f.write_str(":moved=clear"),
    }
}

fn write_tiny_lfu<W: fmt::Write>(shares: TinyLfuShares, f: &mut fmt::Formatter<W>) -> fmt::Result {
    let usual = TinyLfuShares::USUAL;
    write_part(
        "window",
        u64::from(shares.window),
        u64::from(usual.window),
        f,
    )?;
    write_part(
        "protected",
        u64::from(shares.protected),
        u64::from(usual.protected),
        f,
    )?;
    if shares.width == SketchWidth::Four {
        f.write_str(":width=4")?;
    }
    write_part(
        "sample",
        u64::from(shares.sample),
        u64::from(usual.sample),
        f,
    )
}

fn write_lru_k<W: fmt::Write>(uses: LruKUses, f: &mut fmt::Formatter<W>) -> fmt::Result {
    let usual = LruKUses::USUAL;
    write_part("k", u64::from(uses.k), u64::from(usual.k), f)
}

fn write_g_clock<W: fmt::Write>(counts: GClockCounts, f: &mut fmt::Formatter<W>) -> fmt::Result {
    let usual = GClockCounts::USUAL;
    write_part("most", u64::from(counts.most), u64::from(usual.most), f)?;
    write_part("first", u64::from(counts.first), u64::from(usual.first), f)
}

fn write_arrival<W: fmt::Write>(arrival: Arrival, f: &mut fmt::Formatter<W>) -> fmt::Result {
    match arrival {
        Arrival::Marked => Ok(()),
        Arrival::Clear => f.write_str(":arrival=clear"),
    }
}

fn write_aging<W: fmt::Write>(ticks: AgingTicks, f: &mut fmt::Formatter<W>) -> fmt::Result {
    let usual = AgingTicks::USUAL;
    write_given("every", ticks.every, f)?;
    write_part("bits", u64::from(ticks.bits), u64::from(usual.bits), f)
}

fn write_two_lists<W: fmt::Write>(parts: TwoListsParts, f: &mut fmt::Formatter<W>) -> fmt::Result {
    write_given("ratio", parts.ratio, f)?;
    write_arrival(parts.arrival, f)
}

/// What is asked for by this name, where it does not follow from the number of frames.
fn write_given<W: fmt::Write>(
    name: &str,
    given: Option<u32>,
    f: &mut fmt::Formatter<W>,
) -> fmt::Result {
    match given {
        Some(given) => write!(f, ":{name}={given}"),
        None => Ok(()),
    }
}

/// What is asked for by this name, where it is not the usual.
fn write_part<W: fmt::Write>(
    name: &str,
    given: u64,
    usual: u64,
    f: &mut fmt::Formatter<W>,
) -> fmt::Result {
    if given == usual {
        return Ok(());
    }
    write!(f, ":{name}={given}")
}

/// The first policy that goes by which references write.
#[tactic(auto, using(crate::proofs::ServingLaws::writing_on, crate::proofs::ServingLaws::writing_found))]
pub fn first_writing(policies: &[PolicyName]) -> Option<PolicyName>
    ensures { IsNone result ↔ (any_needs_writes policies.now ≡ false) }
{
    'policies: for policy in policies {
        if policy.needs_writes() {
            return Some(*policy);
        }
    }
    None
}

/// Whether one of the policies serves so many frames.
#[tactic(auto, using(crate::proofs::ServingLaws::serving_on, crate::proofs::ServingLaws::serving_found))]
pub fn any_serves(policies: &[PolicyName], frames: Frames) -> bool
    ensures { result ≡ any_serves policies.now frames.number }
{
    'policies: for policy in policies {
        if policy.serves(frames) {
            return true;
        }
    }
    false
}

/// Whether one of them serves one of these numbers of frames.
#[tactic(auto, using(crate::proofs::ServingLaws::served_found))]
pub fn any_served(policies: &[PolicyName], frames: &[Frames]) -> bool
    ensures { result ≡ any_served policies.now (map (λ f. f.number) frames.now) }
{
    'frames: for number in frames {
        if any_serves(policies, *number) {
            return true;
        }
    }
    false
}
