//! The one writer of a process's published counts, and the making of a cell for them.

ghost use Rattle.std.specs.Prelude.{◌≡◌, IfOk};
ghost use Rattle.status_cell.specs.Counts.{AtMost, nothing};

use crate::rule::{Cut, Publication, StatusCell, StatusPass};
use crate::status::Status;
use crate::viewer::Viewer;
use crossbeam_utils::atomic::seq_cell::RuledSeqCell;
use std::alloc::{AllocError, Global};
use std::marker::Model;
use std::sync::{Arc, Wait};

/// The one handle that publishes into its cell.
#[derive(Drop)]
pub struct Writer {
    cell: Arc<StatusCell>,
    pass: StatusPass,
}

impl Model for Writer {
    ghost use Rattle.std.specs.Prelude.{◌≡◌, true};
    ghost use Rattle.std.specs.Arc.{arc_value};
    ghost use Rattle.crossbeam_utils.specs.Seq.{cell_view};
    ghost use Rattle.status_cell.specs.WriterValue.{WriterValue};

    ghost Value = { WriterValue };

    ghost view = { λ w. record { cell = w.pass.table_id; last = (cell_view w.pass).status } };

    ghost invariant = { λ w. (w.pass.table_id ≡ (arc_value w.cell).table.shared.table_id) × ((cell_view w.pass).writes ≡ true) };
}

/// A new cell with no step and no output in it, its writer, and a viewer that has seen that.
pub fn new_cell(alloc: Global) -> Result<(Writer, Viewer), AllocError>
    ensures writer { IfOk result (λ cell. cell.0.last ≡ nothing) }
    ensures viewer { IfOk result (λ cell. cell.1.seen ≡ nothing) }
    ensures same_cell { IfOk result (λ cell. cell.1.cell ≡ cell.0.cell) }
{
    let start = Status {
        steps: 0,
        output: 0,
    };
    let (cell, mut pass): (StatusCell, StatusPass) = RuledSeqCell::ruled(alloc, start)?;
    let viewing = cell.split_pass::<Cut>(&mut pass);
    let cell = Arc::new(alloc, cell)?;
    let shared = Arc::try_clone(&cell)?;
    Ok((Writer { cell, pass }, Viewer::new(shared, viewing)))
}

impl Writer {
    /// Publishes the pair, whose numbers are not below those that were published last.
    pub fn publish<R: Wait>(&mut self, rt: &R, status: Status)
        requires rises { AtMost self.old.last status }
        ensures last { self.new ≡ record self.old { last = status } }
    {
        self.cell
            .swap_as::<Publication, R>(rt, &mut self.pass, status);
    }
}
