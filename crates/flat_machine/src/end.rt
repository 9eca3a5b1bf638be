//! How a process ended: by itself with a status, by a trap, or by the machine, with the cause's number.

ghost use Rattle.std.specs.Prelude.{◌≡◌, ◌<◌, ◌⊎◌, None, IfSome};
ghost use Rattle.flat_machine.specs.Ending.{kill_number};

use rv_exec::Cause;
use std::fmt;

/// How a process ended.
#[derive(Clone, Copy, PartialEq, Eq, Debug)]
pub enum End {
    /// It ended itself, with this status.
    Exited(u32),
    /// A hart's instruction trapped: the instruction at `pc` has done nothing else.
    Trapped {
        hart: u32,
        cause: Cause,
        pc: u32,
        value: u32,
    },
    /// The machine ended it.
    Killed(KillCause),
}

/// Why the machine ended a process, in the order of the causes' numbers.
#[derive(Clone, Copy, PartialEq, Eq, Debug)]
pub enum KillCause {
    /// It had no place to save pages to.
    NoSwap,
    /// A saved page could not be loaded.
    LoadFailed,
    /// A saved page was no more what was saved.
    Damaged,
    /// Its schedule took no more.
    ScheduleFull,
    /// Memory for its next step was refused.
    NoMemory,
    /// It had run as many instructions as it was allowed.
    Limit,
}

impl KillCause {
    /// The cause's number, 1 to 6.
    pub fn number(self) -> u32
        ensures { result ≡ kill_number self }
    {
        match self {
            KillCause::NoSwap => 1,
            KillCause::LoadFailed => 2,
            KillCause::Damaged => 3,
            KillCause::ScheduleFull => 4,
            KillCause::NoMemory => 5,
            KillCause::Limit => 6,
        }
    }

    /// The cause that a number names, 1 to 6.
    pub fn from_number(number: u32) -> Option<KillCause>
        ensures found { IfSome result (λ cause. kill_number cause ≡ number) }
        ensures none { result ≡ None → (number ≡ 0) ⊎ (6 < number) }
    {
        match number {
            1 => Some(KillCause::NoSwap),
            2 => Some(KillCause::LoadFailed),
            3 => Some(KillCause::Damaged),
            4 => Some(KillCause::ScheduleFull),
            5 => Some(KillCause::NoMemory),
            6 => Some(KillCause::Limit),
            _ => None,
        }
    }
}

impl fmt::Display for KillCause {
    ghost use Rattle.std.specs.Prelude.{Some};
    ghost use Rattle.flat_machine.specs.Ending.{kill_text};

    ghost output = { λ cause. Some (kill_text cause) };

    fn fmt<W: fmt::Write>(&self, f: &mut fmt::Formatter<W>) -> fmt::Result {
        f.write_str(match self {
            KillCause::NoSwap => "no swap",
            KillCause::LoadFailed => "load failed",
            KillCause::Damaged => "damaged",
            KillCause::ScheduleFull => "schedule full",
            KillCause::NoMemory => "no memory",
            KillCause::Limit => "limit",
        })
    }
}
