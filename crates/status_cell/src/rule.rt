//! The rule of the cell, and what each atomic step shows: a publication, a look, and a viewer's view cut in two or joined.
ghost use Rattle.std.specs.Prelude.{◌≡◌};
ghost use Rattle.status_cell.specs.Counts.{AtMost, most, nothing};
ghost use Rattle.status_cell.specs.Views.{NoneAbove, view_of};

use crate::status::Status;
use atomic_table::{Join, Split};
use crossbeam_utils::atomic::seq_cell::{Pass, RuledSeqCell};
use crossbeam_utils::rule::{Outcome, Protocol};

/// What one of a cell's handles knows. No value of it is made.
pub struct Known {
    pub writes: bool,
    pub status: Status,
}

pub(crate) type StatusCell = RuledSeqCell<Status, Known, NoneIsAbove, 2>;

pub(crate) type StatusPass = Pass<Status, Known>;

/// No view is above the pair in the cell, and the writer's view is that pair.
pub struct NoneIsAbove;

impl Protocol<Status, Known> for NoneIsAbove {
    ghost use Rattle.status_cell.specs.Views.{opening};

    ghost holds = { NoneAbove };

    ghost first = { opening };
}

pub(crate) struct Publication;

impl Outcome<Status, Known> for Publication {
    ghost then = { λ v _ new w. w ≡ record v { status = new } };
}

pub(crate) struct Look;

impl Outcome<Status, Known> for Look {
    ghost then = { λ v old new w. AtMost v.status old × (w ≡ record v { status = new }) };
}

/// A new viewer has seen what the handle that it was cut from had.
pub(crate) struct Cut;

impl Split<Known> for Cut {
    ghost left = { λ v. v };

    ghost right = { λ v. view_of v.status };
}

/// A view is handed on whole.
pub(crate) struct HandedOn;

impl Split<Known> for HandedOn {
    ghost left = { λ _. view_of nothing };

    ghost right = { λ v. v };
}

/// A viewer that takes in another has seen what either had.
pub(crate) struct Both;

impl Join<Known> for Both {
    ghost both = { λ v w. view_of (most v.status w.status) };

    ghost spent = { view_of nothing };
}
