//! Turns by random priorities, which change at random steps: the scheduler of Burckhardt, Kothari, Musuvathi and Nagarakatte ("A randomized
//! scheduler with probabilistic guarantees of finding bugs", 2010).

ghost use Rattle.std.specs.Prelude.{◌≡◌, ◌<◌, ◌≤◌, true};
ghost use Rattle.flat_machine.specs.Process.{is_live};

use crate::chosen_turn::ChosenTurn;
use crate::live_harts::HARTS;
use crate::random_numbers::{below, long_below};
use crate::waiting::is_yield;
use flat_machine::FlatProcess;
use rand_core::utils::NextWord;
use rand_pcg::Pcg32;
use std::alloc::{AllocError, Global};

/// The priorities of harts at first, in some order. They are above all that a hart can get later.
const FIRST: [u64; 8] = [
    0x100_0000_0000,
    0x100_0000_0001,
    0x100_0000_0002,
    0x100_0000_0003,
    0x100_0000_0004,
    0x100_0000_0005,
    0x100_0000_0006,
    0x100_0000_0007,
];

/// The priority that the first change gives. The next one gives the next higher one, and so on.
const CHANGED: u64 = 0x1_0000_0000;

/// The priority of the first hart that waits. The next one gets the next lower one, and so on.
const WAITING: u64 = 0xFFFF_FFFF;

/// The live hart of the highest priority runs. Before chosen steps the hart that is to run gets a priority below all first ones. A hart that
/// waits gets one below all others: it yields, goes round a loop that changes nothing, or took more steps in a row than patience has.
#[derive(Debug, Drop)]
pub(crate) struct Priorities {
    of_harts: [u64; 8],
    /// Behind how many steps of the run each change is.
    changes: Vec<u64>,
    /// The priority of the next hart that waits.
    lowest: u64,
    /// The most steps of a hart in a row.
    patience: u64,
    /// Whose turn it is, and after how many steps it began.
    hart: u32,
    begun: u64,
}

impl Priorities {
    /// What is chosen depends only on these and the process.
    pub(crate) fn new(
        alloc: Global,
        depth: u32,
        steps: u64,
        patience: u64,
        seed: u64,
    ) -> Result<Self, AllocError> {
        let mut generator = Pcg32::new(seed, 1);
        let of_harts = shuffled(&mut generator);
        let steps = steps.max(1);
        let mut changes = Vec::new(alloc);
        for _ in 1..depth {
            changes.push(long_below(&mut generator, steps))?;
        }
        Ok(Priorities {
            of_harts,
            changes,
            lowest: WAITING,
            patience,
            hart: 0,
            begun: 0,
        })
    }

    /// The next turn of a process, of which so many steps are done.
    pub(crate) fn choose(&mut self, process: &mut FlatProcess, done: u64) -> ChosenTurn
        ensures same { process.new ≡ process.old }
        ensures live { is_live result.hart process.old ≡ true }
        ensures some { 0 < result.most }
    {
        self.change(process, done);
        let hart = self.next_hart(process, done);
        if is_yield(process, hart) {
            self.put_back(hart, done);
            return ChosenTurn {
                hart,
                most: 1,
                is_cut: true,
            };
        }
        ChosenTurn {
            hart,
            most: self.steps_to_change(done),
            is_cut: true,
        }
    }

    /// Makes the changes that are due after so many steps.
    fn change(&mut self, process: &FlatProcess, done: u64) {
        let mut given = CHANGED;
        for behind in self.changes.as_slice() {
            if *behind == done {
                let hart = highest(&self.of_harts, process);
                give(&mut self.of_harts, hart, given);
            }
            given = given.saturating_add(1);
        }
    }

    /// The hart whose turn it is: one that took too many steps in a row is put back.
    fn next_hart(&mut self, process: &FlatProcess, done: u64) -> u32
        ensures { is_live result process.now ≡ true }
    {
        let hart = highest(&self.of_harts, process);
        if hart != self.hart {
            self.begin(hart, done);
            return hart;
        }
        if done.saturating_sub(self.begun) < self.patience {
            return hart;
        }
        self.put_back(hart, done);
        let next = highest(&self.of_harts, process);
        self.begin(next, done);
        next
    }

    fn begin(&mut self, hart: u32, done: u64) {
        self.hart = hart;
        self.begun = done;
    }

    /// Gives a hart a priority below all others.
    pub(crate) fn put_back(&mut self, hart: u32, done: u64) {
        give(&mut self.of_harts, hart, self.lowest);
        self.lowest = self.lowest.saturating_sub(1);
        self.begun = done;
    }

    /// After how many steps at most the next hart is chosen, where so many are done.
    fn steps_to_change(&self, done: u64) -> u32
        ensures { 0 < result }
    {
        let row = done.saturating_sub(self.begun);
        let mut least = self.patience.saturating_sub(row);
        for behind in self.changes.as_slice() {
            if *behind > done {
                least = least.min(*behind - done);
            }
        }
        word_of(least)
    }
}

/// A number as a word above 0, or the one nearest to it.
fn word_of(number: u64) -> u32
    ensures { 0 < result }
{
    if number > 1_000_000_000 {
        1_000_000_000
    } else if number == 0 {
        1
    } else {
        number as u32
    }
}

/// The first priorities, each order as likely as the others.
fn shuffled(generator: &mut Pcg32) -> [u64; 8] {
    let mut numbers = FIRST;
    for last in 1..HARTS {
        let other = below(generator.next_word(), last + 1);
        numbers.swap(other as usize, last as usize);
    }
    numbers
}

/// Gives a hart a priority.
fn give(of_harts: &mut [u64; 8], hart: u32, priority: u64) {
    if let Some(place) = of_harts.get_mut(hart as usize) {
        *place = priority;
    }
}

/// The live hart of the highest priority.
fn highest(of_harts: &[u64; 8], process: &FlatProcess) -> u32
    ensures { is_live result process.now ≡ true }
{
    let mut found = process.turn_after(HARTS - 1);
    let mut most = 0u64;
    'harts: for hart in 0..HARTS {
        let priority = of_harts[hart as usize];
        if priority >= most && process.is_live(hart) {
            found = hart;
            most = priority;
        }
    }
    found
}
