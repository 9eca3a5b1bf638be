//! The events of a machine, and the replies to them.

use crate::error::EventRefusal;
use clock_policy::Key;
use flat_machine::KillCause;

/// What may happen in the machine.
#[derive(Clone, Copy, PartialEq, Eq, Debug)]
pub enum Event {
    /// A hart runs one instruction.
    Step { process: u32, hart: u32 },
    /// A hart drops its translations that are marked as ones to be dropped.
    Notice { process: u32, hart: u32 },
    /// The replacement list asks whether a page was used; an unused one may have to leave its frame.
    Sweep,
    /// A page that is to leave its frame is looked at.
    Collect(Key),
    /// A page is written to its slot, and leaves its frame.
    Saved(Key),
    /// A page is brought into a frame.
    PageIn(Key),
    /// The machine ends a process.
    Kill { process: u32, cause: KillCause },
    /// An ended process gives its frames and slots back.
    Purge { process: u32 },
    /// A changed resident page's cleaning begins.
    Clean(Key),
    /// A page that is being cleaned is copied, if no store was made since.
    Copy(Key),
    /// A copy of a page is written to its slot, and comes back.
    Cleaned(Key),
}

/// What came of an event.
#[derive(Clone, Copy, PartialEq, Eq, Debug)]
pub enum Reply {
    /// The instruction ran, and the hart goes on.
    Ran,
    /// The instruction ran, and lets other harts have their turn.
    Yielded,
    /// The instruction ran, and ended its hart.
    HartDone,
    /// The instruction ran, and ended its process.
    Ended,
    /// The instruction uses this page, by number, which has to be brought in first. It did not run.
    Absent(u32),
    /// The schedule takes no further instruction of the hart. It did not run.
    ScheduleFull,
    /// The hart has dropped the translations.
    Noticed,
    /// The list asked for a page, which stays; `used` is whether it was used since it was last asked for.
    Asked { key: Key, used: bool },
    /// The list asked for a page that was not used, and it begins to leave its frame.
    Victim(Key),
    /// A cache holds a translation to the page's frame still.
    NotYet,
    /// The page's frame is free.
    Freed,
    /// The page was copied, to be saved.
    Dirty,
    /// No slot is free for the page: one that was leaving is resident again, one that was being cleaned is changed.
    NoSlot,
    /// The device failed: a page that was to be saved is resident again, one that was to be loaded is where it was, and one that
    /// was being cleaned is changed.
    Device,
    /// What was loaded is not what was saved, by its digest. The page is where it was.
    Damaged,
    /// The page is in a frame.
    Mapped,
    /// The process is ended.
    Killed,
    /// The process has given everything back.
    Purged,
    /// The page's dirty bit is clear, so that it shows the next store.
    Cleaning,
    /// A store was made since the cleaning began, which has ended: the page is changed.
    Stored,
    /// The page was copied, to be written while it stays.
    Copied,
    /// The page's slot holds what the page does, which is unchanged.
    Cleaned,
    /// Nothing was done, except where there was not enough memory: what was done before that stays.
    Refused(EventRefusal),
}
