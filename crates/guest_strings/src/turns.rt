//! Whose turn it is.

ghost use Rattle.std.specs.Prelude.{◌≡◌, ◌<◌, ◌≤◌, ◌+◌, ◌-◌, length, IfSome};
ghost use Rattle.flat_machine.specs.Process.{may_step};
ghost use Rattle.guest_strings.specs.Slices.{first_place, first_turn, is_kept, may_run};
ghost use Rattle.guest_strings.specs.Slices.{most_places, next_place, place_of, turn_after};

use flat_machine::FlatProcess;
use machine_limits::{MOST_HARTS, MOST_PROCESSES};

/// A hart's turn.
#[derive(Clone, Copy, Debug, PartialEq, Eq)]
pub(crate) struct Turn {
    /// The hart, by its place among the harts of all processes, of which each has eight.
    pub(crate) place: usize,
    /// How many more instructions its slice has.
    pub(crate) left: u32,
}

/// Whose turn it is at first, if a hart may step.
#[tactic(auto, unfolding(crate::specs::Slices::first_turn))]
pub(crate) fn first_turn(processes: &[FlatProcess], slice: u32) -> Option<Turn>
    requires { length processes.now ≤ MOST_PROCESSES }
    ensures turn { result ≡ first_turn slice processes.now }
    ensures small { place_of result < most_places }
{
    match first_place(processes, 0, MOST_HARTS * processes.len()) {
        Some(place) => Some(Turn { place, left: slice }),
        None => None,
    }
}

/// Whose turn it is after an instruction of a turn, which may have let others have theirs.
#[tactic(auto, unfolding(crate::specs::Slices::turn_after))]
pub(crate) fn turn_after(
    processes: &[FlatProcess],
    slice: u32,
    yielded: bool,
    turn: Turn,
) -> Option<Turn>
    requires few { length processes.now ≤ MOST_PROCESSES }
    requires small { turn.place < most_places }
    ensures turn { result ≡ turn_after slice yielded turn processes.now }
    ensures small { place_of result < most_places }
{
    if is_kept(processes, yielded, turn) {
        return Some(Turn {
            place: turn.place,
            left: turn.left.saturating_sub(1),
        });
    }
    match next_place(processes, turn.place) {
        Some(place) => Some(Turn { place, left: slice }),
        None => None,
    }
}

/// Whether a hart goes on with its slice.
fn is_kept(processes: &[FlatProcess], yielded: bool, turn: Turn) -> bool
    ensures { result ≡ is_kept yielded turn processes.now }
{
    if yielded || turn.left <= 1 {
        return false;
    }
    may_run(processes, turn.place)
}

/// The next place whose hart may step.
fn next_place(processes: &[FlatProcess], place: usize) -> Option<usize>
    requires few { length processes.now ≤ MOST_PROCESSES }
    requires small { place < most_places }
    ensures next { result ≡ next_place place processes.now }
    ensures small { IfSome result (λ next. next < most_places) }
{
    match first_place(processes, place + 1, MOST_HARTS * processes.len()) {
        Some(next) => Some(next),
        None => first_place(processes, 0, place + 1),
    }
}

/// The first place, from one on and below another, whose hart may step.
fn first_place(processes: &[FlatProcess], from: usize, below: usize) -> Option<usize>
    ensures first { result ≡ first_place (below - from) from processes.now }
    ensures below { IfSome result (λ place. place < below) }
{
    'places: for place in from..below {
        if may_run(processes, place) {
            return Some(place);
        }
    }
    None
}

/// Whether a place's hart may step.
fn may_run(processes: &[FlatProcess], place: usize) -> bool
    ensures { result ≡ may_run place processes.now }
{
    match processes.get(place / MOST_HARTS) {
        Some(process) => may_step(process, (place % MOST_HARTS) as u32),
        None => false,
    }
}

/// Whether a process goes on and its hart is live.
fn may_step(process: &FlatProcess, hart: u32) -> bool
    ensures { result ≡ may_step hart process.now }
{
    if process.end().is_some() {
        return false;
    }
    process.is_live(hart)
}
