//! Page replacement by CLOCK-Pro: what every representation of its list stands on.
#![tactic(auto)]

mod answer;
mod clock;
mod entry;
mod key;
mod refusal;
mod run;

pub use answer::{Bit, Kind, Verdict};
pub use clock::Clock;
pub use entry::{Entry, EntryKind};
pub use key::Key;
pub use refusal::{NewRefusal, Refusal};
pub use run::first_victim;
