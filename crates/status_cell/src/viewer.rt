//! A viewer of a process's published counts, which never fall for it; viewers can be split and joined.

ghost use Rattle.std.specs.Prelude.{◌≡◌, false, IfOk};
ghost use Rattle.std.specs.Arc.{arc_value};
ghost use Rattle.crossbeam_utils.specs.Seq.{cell_view};
ghost use Rattle.status_cell.specs.Counts.{AtMost};
ghost use Rattle.status_cell.specs.ViewerValue.{viewer_value};

use crate::rule::{Both, Cut, HandedOn, Look, StatusCell, StatusPass};
use crate::status::Status;
use std::alloc::AllocError;
use std::marker::Model;
use std::sync::{Arc, Wait};

/// A handle that looks at what is published in its cell.
#[derive(Drop)]
pub struct Viewer {
    cell: Arc<StatusCell>,
    pass: StatusPass,
}

impl Model for Viewer {
    ghost use Rattle.std.specs.Prelude.{◌≡◌, false};
    ghost use Rattle.std.specs.Arc.{arc_value};
    ghost use Rattle.crossbeam_utils.specs.Seq.{cell_view};
    ghost use Rattle.status_cell.specs.ViewerValue.{ViewerValue, viewer_value};

    ghost Value = { ViewerValue };

    ghost view = { λ v. viewer_value v.pass.table_id (cell_view v.pass).status };

    ghost invariant = { λ v. (v.pass.table_id ≡ (arc_value v.cell).table.shared.table_id) × ((cell_view v.pass).writes ≡ false) };
}

impl Viewer {
    pub(crate) fn new(cell: Arc<StatusCell>, pass: StatusPass) -> Viewer
        requires cell { pass.table_id ≡ (arc_value cell).table.shared.table_id }
        requires views { (cell_view pass).writes ≡ false }
        ensures { result ≡ viewer_value pass.table_id (cell_view pass).status }
    {
        Viewer { cell, pass }
    }

    /// A pair that was published, with no number below those that this viewer had seen.
    pub fn look<R: Wait>(&mut self, rt: &R) -> Status
        ensures not_below { AtMost self.old.seen result }
        ensures seen { self.new ≡ record self.old { seen = result } }
    {
        self.cell.load_as::<Look, R>(rt, &mut self.pass)
    }

    /// Another viewer of the same cell, which has then seen what this one had. Fails if there is not enough memory.
    pub fn split(&mut self) -> Result<Viewer, AllocError>
        ensures same { self.new ≡ self.old }
        ensures split { IfOk result (λ other. other ≡ self.old) }
    {
        let cell = Arc::try_clone(&self.cell)?;
        let pass = self.cell.split_pass::<Cut>(&mut self.pass);
        Ok(Viewer::new(cell, pass))
    }

    /// Takes in another viewer of the same cell, and has then seen what each of the two had.
    pub fn join(&mut self, mut other: Viewer)
        requires same_cell { other.cell ≡ self.old.cell }
        ensures cell { self.new.cell ≡ self.old.cell }
        ensures mine { AtMost self.old.seen self.new.seen }
        ensures other { AtMost other.seen self.new.seen }
    {
        let whole = other.cell.split_pass::<HandedOn>(&mut other.pass);
        self.cell.join_pass::<Both>(&mut self.pass, whole);
    }
}
