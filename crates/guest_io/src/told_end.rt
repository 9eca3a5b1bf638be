//! How a guest ended: as a status, and in words.

ghost use Rattle.std.specs.Prelude.{◌≡◌, ℕ};
ghost use Rattle.flat_machine.specs.declared.end.End.TheVariants.{Exited};
ghost use Rattle.guest_io.specs.GuestStatus.{guest_status};

use flat_machine::{End, KillCause};
use process_text::Ending;
use rv_exec::Cause;
use std::io::Write;

/// The exit status: the guest's own, of which the lower eight bits are seen; 128 and the number of a trap; 125 for a guest that the
/// machine ended.
pub fn status_of(end: End) -> u8
    ensures { result ≡ guest_status end }
{
    match end {
        End::Exited(status) => (status % 256) as u8,
        End::Trapped { cause, .. } => 128 + cause.number() as u8,
        End::Killed(_) => 125,
    }
}

/// Prints how a guest ended that did not end itself. If this can't be written, only the status shows it.
pub fn tell_end<E: Write>(end: End, steps: u64, err: &mut E)
    ensures quiet { (status : ℕ) → end ≡ Exited status → err.new ≡ err.old }
{
    let words = match end {
        End::Exited(_) => return,
        End::Trapped { cause, .. } => words_of_trap(cause),
        End::Killed(cause) => words_of_kill(cause),
    };
    let end = Ending(end);
    let _ = writeln!(err, "guest: {end} after {steps} steps: {words}");
    let _ = err.flush();
}

/// What a trap means.
fn words_of_trap(cause: Cause) -> &'static str {
    match cause {
        Cause::InstructionMisaligned => "a jump to an address that is no multiple of 4",
        Cause::IllegalInstruction => "a word that is no instruction of this machine",
        Cause::Breakpoint => "an ebreak",
        Cause::LoadMisaligned => "a load from an address that is no multiple of its width",
        Cause::StoreMisaligned => "a store to an address that is no multiple of its width",
        Cause::InstructionPageFault => "a jump to where no page may be executed",
        Cause::LoadPageFault => "a load from where no page may be read",
        Cause::StorePageFault => "a store to where no page may be written",
    }
}

/// What a kill means.
fn words_of_kill(cause: KillCause) -> &'static str {
    match cause {
        KillCause::NoSwap => "no page could be had",
        KillCause::LoadFailed => "a page could not be loaded",
        KillCause::Damaged => "a page was no more what was saved",
        KillCause::ScheduleFull => "its harts took turns more often than can be recorded",
        KillCause::NoMemory => "there is no memory for its next step",
        KillCause::Limit => "as many steps were done as were allowed",
    }
}
