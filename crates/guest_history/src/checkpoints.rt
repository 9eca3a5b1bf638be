//! Copies of a process on its path, so that a way back need not begin at the beginning.

ghost use Rattle.std.specs.Prelude.{◌≡◌, ◌<◌, ◌≤◌, ℕ, List, [], true, false, filter, All, length, slice_index_or, IfOk, IfSome};
ghost use Rattle.run_paths.specs.declared.path.Stretch.{Stretch};
ghost use Rattle.run_paths.specs.declared.program.Program.{Program};
ghost use Rattle.guest_history.specs.Checkpoints.{is_at_most, AreKept, IsKept};
ghost use Rattle.guest_history.specs.declared.checkpoints.Checkpoint.{Checkpoint};

use flat_machine::FlatProcess;
use run_paths::Place;
use std::alloc::{AllocError, Global};

/// How many steps are between two checkpoints at first. They are run in a millisecond.
const FIRST_SPACING: u64 = 1 << 18;

/// Most checkpoints.
const MOST_COPIES: usize = 128;

/// Most pages of all checkpoints: 256 MiB.
const MOST_PAGES: usize = 1 << 16;

/// A process, after so many steps.
#[derive(Drop)]
pub struct Checkpoint {
    pub place: Place,
    pub done: u64,
}

/// Checkpoints, and how many steps are between two of them: a power of two.
#[derive(Drop)]
pub struct Checkpoints {
    pub copies: Vec<Checkpoint>,
    pub spacing: u64,
}

impl Checkpoint {
    /// A copy.
    pub(crate) fn try_clone(&self, alloc: Global) -> Result<Self, AllocError>
        ensures { IfOk result (λ copy. copy ≡ self.now) }
    {
        Ok(Checkpoint {
            place: self.place.try_clone(alloc)?,
            done: self.done,
        })
    }
}

impl Checkpoints {
    /// None yet.
    pub(crate) fn new(alloc: Global) -> Self
        ensures none { result.copies.items ≡ [] }
        ensures spaced { 0 < result.spacing }
    {
        Checkpoints {
            copies: Vec::new(alloc),
            spacing: FIRST_SPACING,
        }
    }

    /// How many steps are taken until the next one is due.
    pub(crate) fn until_due(&self, done: u64) -> u64
        requires spaced { 0 < self.now.spacing }
        ensures some { 0 < result }
    {
        self.spacing - done % self.spacing
    }

    /// Whether one is due after so many steps.
    pub(crate) fn is_due(&self, done: u64) -> bool
        requires spaced { 0 < self.now.spacing }
    {
        done % self.spacing == 0 && self.copies.iter().all(|kept| kept.done != done)
    }

    /// The number of the last one that is after no more steps.
    pub(crate) fn number_before(&self, step: u64) -> Option<usize>
        ensures within { IfSome result (λ number. number < length self.now.copies.items) }
        ensures before { IfSome result (λ number. (kept : Checkpoint) →
            (slice_index_or self.now.copies.items number kept).done ≤ step) }
    {
        let mut found: Option<usize> = None;
        'copies: for number in 0..self.copies.len() {
            if self.is_nearer(number, found, step) {
                found = Some(number);
            }
        }
        found
    }

    /// Whether one is after no more steps, and after more than the one that was found.
    fn is_nearer(&self, number: usize, found: Option<usize>, step: u64) -> bool
        requires within { number < length self.now.copies.items }
        requires found { IfSome found (λ other. other < length self.now.copies.items) }
        ensures before { result ≡ true → (kept : Checkpoint) →
            (slice_index_or self.now.copies.items number kept).done ≤ step }
    {
        let done = self.copies[number].done;
        if done > step {
            return false;
        }
        match found {
            Some(other) => self.copies[other].done < done,
            None => true,
        }
    }

    /// Keeps one more. Where that would be too many, only each second one of the others stays.
    pub(crate) fn add(&mut self, checkpoint: Checkpoint) -> Result<(), AllocError>
        ensures { (program : Program) (path : List Stretch) (total : ℕ) →
            AreKept program path total self.old → IsKept program path total checkpoint →
            AreKept program path total self.new }
    {
        let most = most_copies(&checkpoint.place.process);
        self.thin(most);
        if self.copies.len() >= most {
            return Ok(());
        }
        self.copies.push(checkpoint)?;
        Ok(())
    }

    /// Keeps each second one, where there are so many.
    fn thin(&mut self, most: usize)
        ensures { (program : Program) (path : List Stretch) (total : ℕ) →
            AreKept program path total self.old → AreKept program path total self.new }
    {
        if self.copies.len() < most {
            return;
        }
        let spacing = self.spacing;
        self.copies.retain(|kept| kept.done & spacing == 0);
        self.spacing = spacing.saturating_mul(2);
    }

    /// Forgets those after more steps, where steps after so many were forgotten.
    pub(crate) fn follow(&mut self, is_kept: bool, done: u64)
        ensures all { is_kept ≡ true → self.new ≡ self.old }
        ensures copies { is_kept ≡ false → self.new.copies.items ≡
            filter (λ kept. is_at_most done kept.done) self.old.copies.items }
        ensures within { is_kept ≡ false → All (λ kept. kept.done ≤ done) self.new.copies.items }
        ensures spaced { self.new.spacing ≡ self.old.spacing }
    {
        if is_kept {
            return;
        }
        self.copies.retain(|kept| kept.done <= done);
    }
}

/// How many copies of a process are kept at most.
fn most_copies(process: &FlatProcess) -> usize {
    let pages = process.pages() as usize + process.output().len() / 4096 + 1;
    MOST_COPIES.min(MOST_PAGES / pages)
}
