//! A record as a value.

ghost use Rattle.std.specs.Prelude.{◌≡◌, ◌<◌, false, true};
ghost use Rattle.flat_machine.specs.Schedule.{IsJoined};
ghost use Rattle.run_records.specs.Fitting.{AreTurns, IsEnd, IsPrint, IsRecord};
ghost use Rattle.run_records.specs.Records.{value_of};

use crate::fingerprint::Fingerprint;
use flat_machine::{End, MOST_TURNS, Turn};

/// What a run began with, whose turns it was made of, and what it came to.
#[derive(Debug, Drop)]
pub struct Record {
    pub image: Fingerprint,
    pub input: Fingerprint,
    /// first to last
    pub turns: Vec<Turn>,
    pub closing: Closing,
}

/// What a run came to.
#[derive(Clone, Copy, Debug, PartialEq, Eq)]
pub struct Closing {
    pub end: End,
    pub steps: u64,
    pub output: Fingerprint,
}

/// Whether turns are those of a schedule: neighbours of one hart are one turn, until its count is the largest, and there are no more than a schedule
/// has.
pub fn are_joined(turns: &[Turn]) -> bool
    ensures yes { result ≡ true → IsJoined turns.now }
    ensures no { result ≡ false → ¬ IsJoined turns.now }
{
    if turns.len() > MOST_TURNS {
        return false;
    }
    'turns: for number in 0..turns.len() {
        let turn = turns[number];
        if turn.count == 0 {
            return false;
        }
        if number > 0 && goes_on(turns[number - 1], turn) {
            return false;
        }
    }
    true
}

/// Whether a turn belongs into the one before it.
fn goes_on(before: Turn, turn: Turn) -> bool
    ensures yes { result ≡ true → (before.hart ≡ turn.hart) × (before.count < 4294967295) }
    ensures no { result ≡ false → before.hart ≡ turn.hart → before.count ≡ 4294967295 }
{
    if before.hart != turn.hart {
        return false;
    }
    before.count < u32::MAX
}

/// Lets a caller know that a record fits its text, whose turns are those of a schedule. It does nothing.
pub fn know_fitting(told: &Record)
    requires { IsJoined told.now.turns.items }
    ensures { IsRecord (value_of told.now) }
{
    know_print(told.image);
    know_print(told.input);
    know_print(told.closing.output);
    know_turns(told.turns.as_slice());
    know_end(told.closing.end);
    let _steps = told.closing.steps;
}

fn know_print(print: Fingerprint)
    ensures { IsPrint print }
{
    let _digest = print.digest.as_slice();
}

#[tactic(auto, using(crate::proofs::Fitting::turns_fit))]
fn know_turns(turns: &[Turn])
    requires { IsJoined turns.now }
    ensures { AreTurns turns.now }
{
    'turns: for number in 0..turns.len() {
        know_turn(turns[number]);
    }
}

fn know_turn(turn: Turn)
    ensures { turn.hart < 4294967296 }
{
    let _hart = turn.hart;
}

fn know_end(end: End)
    ensures { IsEnd end }
{
    match end {
        End::Exited(_status) => {}
        End::Trapped {
            hart: _hart,
            cause: _cause,
            pc: _pc,
            value: _value,
        } => {}
        End::Killed(_cause) => {}
    }
}
