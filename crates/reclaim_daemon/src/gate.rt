//! Who is called while a machine runs.

use clock_policy::Key;
use status_cell::Status;

/// What the threads of a machine call before and after what they do. A call may wait; each says what of the machine goes on meanwhile.
pub trait Gate {
    /// A page is about to be written to its slot. Nobody else makes room meanwhile; no lock of the pager, a process or the slots is held.
    fn before_save(&self, key: Key);

    /// A page is about to be brought into its frame. Only the lock of its process is held.
    fn before_load(&self, key: Key);

    /// A slice of a hart is over, in which so many instructions ran. No lock is held.
    fn after_slice(&self, process: u32, hart: u32, ran: u32);

    /// Whether it wants to know how far processes have come. Else nobody looks at that.
    fn wants_statuses(&self) -> bool;

    /// Frames have come free since the last call. It gets what each process has published last, by rising number. The daemon calls it, with no lock held:
    /// all else goes on meanwhile.
    fn after_free(&self, statuses: &[Status]);
}

/// A gate that does nothing.
#[derive(Clone, Copy, Debug)]
pub struct OpenGate;

impl Gate for OpenGate {
    fn before_save(&self, _key: Key) {}

    fn before_load(&self, _key: Key) {}

    fn after_slice(&self, _process: u32, _hart: u32, _ran: u32) {}

    fn wants_statuses(&self) -> bool {
        false
    }

    fn after_free(&self, _statuses: &[Status]) {}
}
