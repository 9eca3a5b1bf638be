//! An event, as the line that causes it in a drive script.

use machine_core::Event;
use std::fmt;

/// An event as a line of a drive script writes it.
#[derive(Clone, Copy)]
pub(crate) struct EventLine(pub Event);

impl fmt::Display for EventLine {
    fn fmt<W: fmt::Write>(&self, f: &mut fmt::Formatter<W>) -> fmt::Result {
        match self.0 {
            Event::Step { process, hart } => write!(f, "step {process} {hart}"),
            Event::Notice { process, hart } => write!(f, "notice {process} {hart}"),
            Event::Sweep => f.write_str("sweep"),
            Event::Collect(key) => write!(f, "collect {} {}", key.process, key.vpn),
            Event::Saved(key) => write!(f, "saved {} {}", key.process, key.vpn),
            Event::PageIn(key) => write!(f, "pagein {} {}", key.process, key.vpn),
            Event::Kill { process, cause } => write!(f, "kill {process} {}", cause.number()),
            Event::Purge { process } => write!(f, "purge {process}"),
            Event::Clean(key) => write!(f, "clean {} {}", key.process, key.vpn),
            Event::Copy(key) => write!(f, "copy {} {}", key.process, key.vpn),
            Event::Cleaned(key) => write!(f, "cleaned {} {}", key.process, key.vpn),
        }
    }
}
