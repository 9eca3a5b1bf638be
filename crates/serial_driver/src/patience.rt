//! How long a process may go on with no instruction completed.

ghost use Rattle.std.specs.Prelude.{◌≡◌, ◌*◌, ◌<◌, ℕ, None, Some, if◌then◌else◌};
ghost use Rattle.machine_core.specs.Headline.{has_run};
ghost use Rattle.machine_core.specs.ManySteps.{steps_of, replies_of};
ghost use Rattle.machine_limits.specs.Limits.{most_processes};
ghost use Rattle.serial_driver.specs.Patience.{IsPatient, any_ran, has_failed, is_served, renewed};
ghost use Rattle.serial_driver.specs.Patience.{run_of, spent_of, spent_with, tried_after};
ghost use Rattle.serial_driver.specs.Patience.{tried_again, tried_with, try_of, tries_per_frame};

use machine_core::{Event, Reply, StepsReply};
use machine_limits::{MOST_PROCESSES, TRIES_PER_FRAME};

/// Counts of what was tried in vain.
#[derive(Drop)]
pub(crate) struct Patience {
    /// Page-ins, and collects that failed, of each process's pages since its last completed instruction, up to the most.
    tries: [u64; MOST_PROCESSES],
    most_tries: u64,
    /// The process for whose page the last event was one try too many.
    spent: Option<u32>,
}

impl Patience {
    /// The counts at the start of a machine of so many frames.
    pub(crate) fn new(frames: u32) -> Self
        ensures tries { IsPatient (tries_per_frame * frames) (λ number. 0) result }
        ensures spent { result.spent ≡ None }
    {
        Patience {
            tries: [0; MOST_PROCESSES],
            most_tries: TRIES_PER_FRAME * u64::from(frames),
            spent: None,
        }
    }

    /// The process for whose page the last event was one try too many, if it was.
    pub(crate) fn spent(&self) -> Option<u32>
        ensures { result ≡ self.now.spent }
    {
        self.spent
    }

    /// Heeds an event and the reply to it.
    pub(crate) fn heed(&mut self, event: Event, reply: Reply)
        requires { (number : ℕ) → try_of event reply ≡ Some number → number < most_processes }
        ensures tries { (most : ℕ) (tried : ℕ → ℕ) → IsPatient most tried self.old →
            IsPatient most (λ number. tried_with number event reply (tried number)) self.new }
        ensures spent { (most : ℕ) (tried : ℕ → ℕ) → IsPatient most tried self.old →
            self.new.spent ≡ spent_with most tried event reply }
    {
        self.renew(run_of(event, reply));
        self.try_again(try_of(event, reply));
    }

    /// Heeds steps of a process's hart in a row.
    pub(crate) fn heed_steps(&mut self, process: u32, steps: StepsReply)
        ensures tries { (most : ℕ) (tried : ℕ → ℕ) (hart : ℕ) → IsPatient most tried self.old →
            IsPatient most (λ number. tried_after number
            (steps_of process hart steps.ran steps.last) (replies_of steps.ran steps.last)
            (tried number)) self.new }
        ensures spent { self.new.spent ≡ None }
    {
        let ran = if any_ran(steps) { Some(process) } else { None };
        self.renew(ran);
        self.spent = None;
    }

    /// A process has completed an instruction.
    fn renew(&mut self, process: Option<u32>)
        ensures { (most : ℕ) (tried : ℕ → ℕ) → IsPatient most tried self.old →
            IsPatient most (λ number. renewed number process (tried number)) self.new }
    {
        let Some(process) = process else {
            return;
        };
        let place = process as usize;
        if place < MOST_PROCESSES {
            self.tries[place] = 0;
        }
    }

    /// A page of a process was brought in, or failed to leave.
    fn try_again(&mut self, process: Option<u32>)
        requires { (number : ℕ) → process ≡ Some number → number < most_processes }
        ensures tries { (most : ℕ) (tried : ℕ → ℕ) → IsPatient most tried self.old →
            IsPatient most (λ number. tried_again number process (tried number)) self.new }
        ensures spent { (most : ℕ) (tried : ℕ → ℕ) → IsPatient most tried self.old →
            self.new.spent ≡ spent_of most (λ number.
            tried_again number process (tried number)) process }
    {
        self.spent = None;
        let Some(process) = process else {
            return;
        };
        let place = process as usize;
        let tries = self.tries[place].saturating_add(1).min(self.most_tries);
        self.tries[place] = tries;
        if tries >= self.most_tries {
            self.spent = Some(process);
        }
    }
}

/// The process for whose page an event was a try: it was to come in, or it failed to leave.
fn try_of(event: Event, reply: Reply) -> Option<u32>
    ensures { result ≡ try_of event reply }
{
    match event {
        Event::Collect(key) => failed_of(key.process, reply),
        Event::Saved(key) => failed_of(key.process, reply),
        Event::PageIn(key) => served_of(key.process, reply),
        _ => None,
    }
}

/// A process, where its page failed to leave its frame.
fn failed_of(process: u32, reply: Reply) -> Option<u32>
    ensures { result ≡ (if has_failed reply then Some process else None) }
{
    if has_failed(reply) {
        Some(process)
    } else {
        None
    }
}

/// A process, where its event was served.
fn served_of(process: u32, reply: Reply) -> Option<u32>
    ensures { result ≡ (if is_served reply then Some process else None) }
{
    if is_served(reply) {
        Some(process)
    } else {
        None
    }
}

/// The process that completed an instruction.
fn run_of(event: Event, reply: Reply) -> Option<u32>
    ensures { result ≡ run_of event reply }
{
    match event {
        Event::Step { process, .. } => { if has_run(reply) { Some(process) } else { None } }
        _ => None,
    }
}

/// Whether a step of some in a row ran.
fn any_ran(steps: StepsReply) -> bool
    ensures { result ≡ any_ran steps.ran steps.last }
{
    match steps.last {
        Some(reply) => steps.ran != 0 || has_run(reply),
        None => steps.ran != 0,
    }
}

/// Whether a step that is answered so ran its instruction.
pub(crate) fn has_run(reply: Reply) -> bool
    ensures { result ≡ has_run reply }
{
    matches!(
        reply,
        Reply::Ran | Reply::Yielded | Reply::HartDone | Reply::Ended
    )
}

/// Whether a page failed to leave its frame.
fn has_failed(reply: Reply) -> bool
    ensures { result ≡ has_failed reply }
{
    matches!(reply, Reply::NoSlot | Reply::Device)
}

/// Whether an event was served, whatever came of it.
pub(crate) fn is_served(reply: Reply) -> bool
    ensures { result ≡ is_served reply }
{
    !matches!(reply, Reply::Refused(_))
}
