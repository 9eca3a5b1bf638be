//! Which harts of a process are live, and whose turn is next: the least live one above, else the least.

ghost use Rattle.std.specs.Prelude.{◌≡◌, ◌<◌, ◌≤◌, ◌+◌, ◌∷◌, ◌++◌, [], true, false, length};
ghost use Rattle.std.specs.Prelude.{slice_index_or};
ghost use Rattle.std.specs.Bool.{OnTrue, OnFalse};
ghost use Rattle.env_calls.specs.Calls.{without};
ghost use Rattle.env_calls.specs.Environment.{most_harts, any_live, least_live_from, next_live};

use machine_limits::MOST_HARTS;
use std::marker::Model;

/// Of each hart that a process has started, by its number, whether it is live.
#[derive(Drop)]
pub struct LiveHarts {
    /// The marks of those that were not started are of no account.
    marks: [bool; MOST_HARTS],
    started: usize,
}

impl Model for LiveHarts {
    ghost use Rattle.std.specs.Prelude.{List, Bool, take, ◌≤◌};

    ghost Value = { List Bool };

    ghost view = { λ harts. take harts.started harts.marks };

    ghost invariant = { λ harts. harts.started ≤ 8 };
}

impl LiveHarts {
    /// Only hart 0, which is live.
    pub fn new() -> Self
        ensures { result ≡ true ∷ [] }
    {
        LiveHarts {
            marks: [true, false, false, false, false, false, false, false],
            started: 1,
        }
    }

    /// The same harts, live once more.
    pub fn copied(&self) -> Self
        ensures { result ≡ self.now }
    {
        LiveHarts {
            marks: self.marks,
            started: self.started,
        }
    }

    /// The marks of the harts that were started.
    pub fn marks(&self) -> &[bool]
        ensures marks { result.now ≡ self.now }
        ensures few { length self.now ≤ most_harts }
    {
        &self.marks[..self.started]
    }

    /// Starts a hart.
    pub fn start(&mut self)
        requires { length self.old < most_harts }
        ensures { self.new ≡ self.old ++ true ∷ [] }
    {
        self.marks[self.started] = true;
        self.started += 1;
    }

    /// A hart is live no more, if another one is: whether that is so.
    pub fn end_beside_others(&mut self, hart: usize) -> bool
        ensures others { result ≡ any_live (without hart self.old) }
        ensures done { OnTrue result (self.new ≡ without hart self.old) }
        ensures last { OnFalse result (self.new ≡ self.old) }
    {
        let mut left = LiveHarts {
            marks: self.marks,
            started: self.started,
        };
        left.end(hart);
        if any_live(left.marks()) {
            *self = left;
            true
        } else {
            false
        }
    }

    /// A hart is live no more.
    #[tactic(auto, using(crate::proofs::Marks::take_without))]
    fn end(&mut self, hart: usize)
        ensures { self.new ≡ without hart self.old }
    {
        if hart < self.started {
            self.marks[hart] = false;
        }
    }
}

/// Whether a hart is live by these marks.
pub fn is_live(marks: &[bool], hart: u32) -> bool
    ensures { result ≡ slice_index_or marks.now hart false }
{
    match marks.get(hart as usize) {
        Some(mark) => *mark,
        None => false,
    }
}

/// Whose turn it is after a hart: the least live one above it, else the least live one.
#[tactic(auto, unfolding(crate::specs::Environment::next_live))]
pub fn next_live(marks: &[bool], hart: u32) -> Option<u32>
    requires few { length marks.now ≤ most_harts }
    ensures turn { result ≡ next_live hart marks.now }
{
    match least_live_from(marks, hart as usize + 1) {
        Some(above) => Some(above),
        None => least_live_from(marks, 0),
    }
}

/// The least live hart from a number on.
#[tactic(auto, using(crate::proofs::Marks::looking_on))]
fn least_live_from(marks: &[bool], number: usize) -> Option<u32>
    requires few { length marks.now ≤ most_harts }
    ensures least { result ≡ least_live_from number marks.now }
{
    for hart in number..marks.len() {
        if marks[hart] {
            return Some(hart as u32);
        }
    }
    None
}

/// Whether some hart is live.
#[tactic(auto, using(crate::proofs::Marks::some_live))]
fn any_live(marks: &[bool]) -> bool
    requires few { length marks.now ≤ most_harts }
    ensures { result ≡ any_live marks.now }
{
    least_live_from(marks, 0).is_some()
}
