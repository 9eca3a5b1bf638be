//! The reply to an event, as one line of text.

use machine_core::Reply;
use std::fmt;

/// A reply as it is printed, in a line.
#[derive(Clone, Copy)]
pub struct ReplyLine(pub Reply);

impl fmt::Display for ReplyLine {
    ghost use Rattle.std.specs.Prelude.{Some};
    ghost use Rattle.event_scripts.specs.ReplyText.{reply_text};

    ghost output = { λ line. Some (reply_text line.0) };

    fn fmt<W: fmt::Write>(&self, f: &mut fmt::Formatter<W>) -> fmt::Result {
        match self.0 {
            Reply::Ran => f.write_str("ran"),
            Reply::Yielded => f.write_str("yield"),
            Reply::HartDone => f.write_str("hart done"),
            Reply::Ended => f.write_str("ended"),
            Reply::Absent(vpn) => write!(f, "absent {vpn}"),
            Reply::ScheduleFull => f.write_str("schedule full"),
            Reply::Noticed => f.write_str("noticed"),
            Reply::Asked { key, used: true } => write!(f, "asked {key} one"),
            Reply::Asked { key, used: false } => write!(f, "asked {key} zero"),
            Reply::Victim(key) => write!(f, "victim {key}"),
            Reply::NotYet => f.write_str("not yet"),
            Reply::Freed => f.write_str("freed"),
            Reply::Dirty => f.write_str("dirty"),
            Reply::NoSlot => f.write_str("no slot"),
            Reply::Device => f.write_str("device"),
            Reply::Damaged => f.write_str("damaged"),
            Reply::Mapped => f.write_str("mapped"),
            Reply::Killed => f.write_str("killed"),
            Reply::Purged => f.write_str("purged"),
            Reply::Cleaning => f.write_str("cleaning"),
            Reply::Stored => f.write_str("stored"),
            Reply::Copied => f.write_str("copied"),
            Reply::Cleaned => f.write_str("clean"),
            Reply::Refused(refusal) => {
                let number = refusal.number();
                write!(f, "refused {number}")
            }
        }
    }
}
