//! The exit status of a run of one process.

ghost use Rattle.std.specs.Prelude.{◌≡◌};
ghost use Rattle.process_text.specs.ExitStatus.{exit_status, ending_of};

use flat_machine::{End, KillCause};

/// The exit status of a run of one process: 0 where it exited with 0, 3 where it was killed, else 1.
pub fn status_of_end(end: End) -> u8
    ensures { result ≡ exit_status end }
{
    match end {
        End::Exited(0) => 0,
        End::Exited(_) | End::Trapped { .. } => 1,
        End::Killed(_) => 3,
    }
}

/// How a process ended; one that goes on when its run is over was stopped at the limit.
pub fn end_of(end: Option<End>) -> End
    ensures { result ≡ ending_of end }
{
    match end {
        Some(end) => end,
        None => End::Killed(KillCause::Limit),
    }
}
