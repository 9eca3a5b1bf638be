//! Whose steps a run was made of, in order.

ghost use Rattle.std.specs.Prelude.{◌≡◌, ◌++◌, ◌+◌, ◌≤◌, ◌<◌, ◌^◌, true, IfNone, IfOk, IfSome, OnOk, length};
ghost use Rattle.run_paths.specs.Extending.{Extends, GoesOn, IsCounted, Lengthens};
ghost use Rattle.run_paths.specs.declared.path.Whose.TheVariants as whose;
ghost use Rattle.run_paths.specs.Paths.{hart_of, part_of, path_of, steps_of, taken_of, whose_at};

use flat_machine::Turn;
use std::alloc::{AllocError, Global};

/// Whose step it is.
#[derive(Clone, Copy, Debug, PartialEq, Eq)]
pub enum Whose {
    /// That of the hart whose turn it is.
    ByTurns,
    /// This hart's, whosever turn it is.
    Hart(u32),
}

/// So many steps in a row.
#[derive(Clone, Copy, Debug, PartialEq, Eq)]
pub struct Stretch {
    pub whose: Whose,
    pub count: u64,
}

/// The steps of a run, in order, and how many they are.
#[derive(Debug, Drop)]
pub struct Path {
    pub stretches: Vec<Stretch>,
    pub total: u64,
}

/// The hart of a step, where it is a hart's turn.
pub fn hart_of(whose: Whose, turn: u32) -> u32
    ensures { result ≡ hart_of whose turn }
{
    match whose {
        Whose::ByTurns => turn,
        Whose::Hart(hart) => hart,
    }
}

/// The steps of turns.
#[tactic(auto, using(crate::proofs::Parts::path_more, crate::proofs::Parts::path_all))]
pub fn path_of(alloc: Global, turns: &[Turn]) -> Result<Vec<Stretch>, AllocError>
    ensures { IfOk result (λ path. path.items ≡ path_of turns.now) }
{
    let mut path = Vec::new(alloc);
    'turns: for turn in turns {
        path.push(stretch_of(*turn))?;
    }
    Ok(path)
}

/// The steps of a turn.
fn stretch_of(turn: Turn) -> Stretch
    ensures { result ≡ record { whose = whose.Hart turn.hart; count = turn.count } }
{
    Stretch {
        whose: Whose::Hart(turn.hart),
        count: u64::from(turn.count),
    }
}

/// How many steps a path has, if that is a number that is counted here.
#[tactic(auto, using(crate::proofs::Parts::count_more, crate::proofs::Parts::count_all))]
pub fn count_of(path: &[Stretch]) -> Option<u64>
    ensures counted { IfSome result (λ count. count ≡ steps_of path.now) }
    ensures many { IfNone result (2 ^ 64 ≤ steps_of path.now) }
{
    let mut count: u64 = 0;
    'stretches: for stretch in path {
        count = sum_of(count, stretch.count)?;
    }
    Some(count)
}

/// The sum, if it is counted here.
fn sum_of(one: u64, other: u64) -> Option<u64>
    ensures sum { IfSome result (λ sum. sum ≡ one + other) }
    ensures large { IfNone result (2 ^ 64 ≤ one + other) }
{
    one.checked_add(other)
}

/// So many steps of a path, after so many others.
#[tactic(auto, using(crate::proofs::Parts::part_more, crate::proofs::Parts::part_all))]
pub fn part_of(
    alloc: Global,
    path: &[Stretch],
    before: u64,
    count: u64,
) -> Result<Vec<Stretch>, AllocError>
    ensures { IfOk result (λ part. part.items ≡ part_of path.now before count) }
{
    let mut part = Vec::new(alloc);
    let mut before = before;
    let mut left = count;
    'stretches: for stretch in path {
        let here = stretch.count.saturating_sub(before);
        let taken = left.min(here);
        push_some(&mut part, *stretch, taken)?;
        before = before.saturating_sub(stretch.count);
        left = left.saturating_sub(here);
    }
    Ok(part)
}

/// Adds so many steps of a stretch, if they are some.
fn push_some(path: &mut Vec<Stretch>, stretch: Stretch, count: u64) -> Result<(), AllocError>
    ensures { OnOk result (path.new.items ≡ path.old.items ++ taken_of stretch count) }
{
    if count == 0 {
        return Ok(());
    }
    path.push(Stretch {
        whose: stretch.whose,
        count,
    })?;
    Ok(())
}

/// Whose step comes after so many.
#[tactic(auto, using(crate::proofs::Parts::whose_found, crate::proofs::Parts::whose_more, crate::proofs::Parts::whose_none))]
pub fn whose_at(path: &[Stretch], before: u64) -> Option<Whose>
    ensures { result ≡ whose_at path.now before }
{
    let mut left = before;
    'stretches: for stretch in path {
        if left < stretch.count {
            return Some(stretch.whose);
        }
        left -= stretch.count;
    }
    None
}

/// Whether both are by turns.
fn are_by_turns(one: Whose, other: Whose) -> bool
    ensures { result ≡ true → other ≡ one }
{
    match one {
        Whose::ByTurns => match other {
            Whose::ByTurns => true,
            Whose::Hart(_) => false,
        },
        Whose::Hart(_) => false,
    }
}

impl Path {
    /// Adds so many steps after so many others. Where different steps followed, all of these are forgotten. Returns true if none was.
    #[tactic(auto, using(crate::proofs::Extending::extends_less))]
    pub fn extend(
        &mut self,
        alloc: Global,
        done: u64,
        whose: Whose,
        count: u64,
    ) -> Result<bool, AllocError>
        requires counted { IsCounted self.old }
        requires within { done ≤ self.old.total }
        requires small { done + count < 2 ^ 64 }
        ensures extended { IfOk result (λ is_kept. Extends self.old done whose count is_kept
            self.new) }
    {
        let end = done + count;
        if self.goes_on(done, whose) {
            self.lengthen(end);
            return Ok(true);
        }
        let stretch = Stretch { whose, count };
        if done == self.total {
            push_some(&mut self.stretches, stretch, count)?;
            self.total = end;
            return Ok(true);
        }
        let mut stretches = part_of(alloc, self.stretches.as_slice(), 0, done)?;
        push_some(&mut stretches, stretch, count)?;
        self.stretches = stretches;
        self.total = end;
        Ok(false)
    }

    /// Whether these are steps by turns, and the last stretch is by turns too and begins after no more than `done` steps.
    fn goes_on(&self, done: u64, whose: Whose) -> bool
        requires counted { IsCounted self.now }
        requires within { done ≤ self.now.total }
        ensures { result ≡ true → GoesOn self.now.stretches.items done whose }
    {
        let places = self.stretches.len();
        if places == 0 {
            return false;
        }
        let last = self.stretches[places - 1];
        if !are_by_turns(whose, last.whose) {
            return false;
        }
        self.total.saturating_sub(last.count) <= done
    }

    /// Lengthens the last stretch so that the path ends after so many steps, if the path is shorter.
    fn lengthen(&mut self, end: u64)
        requires counted { IsCounted self.old }
        requires some { 0 < length self.old.stretches.items }
        ensures { Lengthens self.old end self.new }
    {
        if end <= self.total {
            return;
        }
        let last = self.stretches.len() - 1;
        self.stretches[last].count += end - self.total;
        self.total = end;
    }
}
