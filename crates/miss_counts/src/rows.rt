//! Rows of counts that play together, one for each number of frames.

ghost use Rattle.std.specs.Prelude.{◌≡◌, ◌<◌, [], IfOk, OnOk};
ghost use Rattle.std.specs.List.{AllZip};
ghost use Rattle.miss_counts.specs.Replayed.{HasPlayed, HavePlayed, RowPlays, RowSkips, RowTells};
ghost use Rattle.miss_counts.specs.Replayed.{RowsPlay, RowsSkip, RowsTell};

use crate::counts::PolicyCounts;
use crate::policy_name::PolicyName;
use crate::row::Row;
use guest_strings::Reference;
use page_policies::Frames;
use std::alloc::{AllocError, Global};

/// The same policies with each of some numbers of frames, which count as references come. After an error nothing is said of them.
#[derive(Drop)]
pub struct Rows {
    rows: Vec<Row>,
}

impl Rows {
    /// Nothing is played yet.
    #[tactic(auto, unfolding(crate::specs::Replayed::HavePlayed))]
    pub fn new(
        alloc: Global,
        frames: &[Frames],
        policies: &[PolicyName],
    ) -> Result<Rows, AllocError>
        ensures { IfOk result (HavePlayed policies.now frames.now [] []) }
    {
        let mut rows = Vec::new(alloc);
        'frames: for at in 0..frames.len() {
            rows.push(new_row(alloc, frames[at], policies)?)?;
        }
        Ok(Rows { rows })
    }

    /// Pages are used, one after another.
    #[tactic(auto, using(crate::proofs::RowsLaws::rows_play))]
    pub fn play(&mut self, references: &[Reference]) -> Result<(), AllocError>
        ensures { OnOk result (RowsPlay references.now self.old self.new) }
    {
        play_each(&mut self.rows, references)?;
        Ok(())
    }

    /// What was played is left out from now on. What the policies have in frames stays.
    #[tactic(auto, using(crate::proofs::RowsLaws::rows_skip))]
    pub fn skip(&mut self)
        ensures { RowsSkip self.old self.new }
    {
        skip_each(&mut self.rows);
    }

    /// What is counted so far.
    #[tactic(auto, using(crate::proofs::RowsLaws::rows_tell))]
    pub fn counts(&self, alloc: Global) -> Result<Vec<PolicyCounts>, AllocError>
        ensures { IfOk result (λ counts. RowsTell self.now counts.items) }
    {
        let counts = counts_of_each(alloc, self.rows.as_slice())?;
        Ok(counts)
    }
}

/// A row in which nothing is played yet.
#[tactic(auto, using(crate::proofs::RowLaws::opens))]
fn new_row(alloc: Global, frames: Frames, policies: &[PolicyName]) -> Result<Row, AllocError>
    ensures { IfOk result (HasPlayed policies.now [] [] frames) }
{
    let row = Row::new(alloc, frames, policies)?;
    Ok(row)
}

fn play_row(row: &mut Row, references: &[Reference]) -> Result<(), AllocError>
    ensures { OnOk result (RowPlays references.now row.old row.new) }
{
    row.play(references)?;
    Ok(())
}

fn skip_row(row: &mut Row)
    ensures { RowSkips row.old row.new }
{
    row.forget();
}

fn counts_of_row(alloc: Global, row: &Row) -> Result<PolicyCounts, AllocError>
    ensures { IfOk result (RowTells row.now) }
{
    let counts = row.counts(alloc)?;
    Ok(counts)
}

fn play_each(rows: &mut Vec<Row>, references: &[Reference]) -> Result<(), AllocError>
    ensures { OnOk result (AllZip (RowPlays references.now) rows.old.items rows.new.items) }
{
    'rows: for row in rows.iter_mut() {
        play_row(row, references)?;
    }
    Ok(())
}

fn skip_each(rows: &mut Vec<Row>)
    ensures { AllZip RowSkips rows.old.items rows.new.items }
{
    'rows: for row in rows.iter_mut() {
        skip_row(row);
    }
}

fn counts_of_each(alloc: Global, rows: &[Row]) -> Result<Vec<PolicyCounts>, AllocError>
    ensures { IfOk result (λ counts. AllZip RowTells rows.now counts.items) }
{
    let mut counts = Vec::new(alloc);
    'rows: for at in 0..rows.len() {
        counts.push(counts_of_row(alloc, &rows[at])?)?;
    }
    Ok(counts)
}
