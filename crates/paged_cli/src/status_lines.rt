//! How far processes are, printed while they run.

ghost use Rattle.std.specs.Prelude.{◌≡◌, OnOk};
ghost use Rattle.std.specs.Io.KnownBytes.{Appends};
ghost use Rattle.paged_cli.specs.StatusText.{status_text, statuses_text};

use clock_policy::Key;
use reclaim_daemon::Gate;
use status_cell::Status;
use std::io;
use std::io::Write;
use std::sync::{Mutex, Wait};

/// Writes a line for each process whenever a frame has come free. What can't be written is left out.
#[derive(Drop)]
pub struct StatusLines<'a, R: Wait, E> {
    rt: &'a R,
    err: Mutex<&'a mut E>,
}

impl<'a, R: Wait, E: Write> StatusLines<'a, R, E> {
    pub fn new(rt: &'a R, err: &'a mut E) -> Self {
        Self {
            rt,
            err: Mutex::new(err),
        }
    }
}

impl<R: Wait, E: Write> Gate for StatusLines<'_, R, E> {
    fn before_save(&self, _key: Key) {}

    fn before_load(&self, _key: Key) {}

    fn after_slice(&self, _process: u32, _hart: u32, _ran: u32) {}

    fn wants_statuses(&self) -> bool {
        true
    }

    fn after_free(&self, statuses: &[Status]) {
        let mut err = self.err.lock(self.rt);
        let _ = write_statuses(statuses, &mut **err);
        let _ = err.flush();
    }
}

/// Writes a line for each process, by their numbers.
fn write_statuses<E: Write>(statuses: &[Status], err: &mut E) -> io::Result<()>
    ensures { OnOk result (Appends (E.contents err.old) (E.contents err.new)
        (statuses_text 0 statuses.now)) }
{
    let mut number = 0;
    let mut rest = statuses;
    while let Some((status, others)) = rest.split_first() {
        write_status(number, *status, err)?;
        number += 1;
        rest = others;
    }
    Ok(())
}

#[tactic(auto, unfolding(crate::specs::StatusText::status_text))]
fn write_status<E: Write>(number: usize, status: Status, err: &mut E) -> io::Result<()>
    ensures { OnOk result (Appends (E.contents err.old) (E.contents err.new)
        (status_text number status)) }
{
    let (steps, output) = (status.steps, status.output);
    writeln!(err, "status {number} steps {steps} output {output}")
}
