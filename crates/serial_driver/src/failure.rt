//! What a process fails of in one event.

ghost use Rattle.std.specs.Prelude.{◌≡◌, false};
ghost use Rattle.serial_driver.specs.Closing.{is_limit};
ghost use Rattle.serial_driver.specs.TurnsDuty.{cause_of};

use flat_machine::KillCause;

/// Why a process is ended for what one event was answered with.
#[derive(Clone, Copy)]
pub(crate) enum Failure {
    /// A saved page could not be loaded.
    LoadFailed,
    /// What was loaded of a saved page is not what was saved.
    Damaged,
    /// Its schedule takes no more.
    ScheduleFull,
    /// Memory was refused.
    NoMemory,
}

impl Failure {
    /// The cause that the machine records. None is the limit's.
    pub(crate) fn cause(self) -> KillCause
        ensures exact { result ≡ cause_of self }
        ensures limit { is_limit result ≡ false }
    {
        match self {
            Failure::LoadFailed => KillCause::LoadFailed,
            Failure::Damaged => KillCause::Damaged,
            Failure::ScheduleFull => KillCause::ScheduleFull,
            Failure::NoMemory => KillCause::NoMemory,
        }
    }
}
