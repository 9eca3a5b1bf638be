//! The replies of a debugger that goes back.

use debug_core::Why;
use debug_session::DebugReply;
use std::fmt;

/// What a debugger that goes back replies.
#[derive(Drop)]
pub(crate) enum HistoryReply {
    /// As any debugger.
    Plain(DebugReply),
    /// So many steps were done, of so many that are known.
    At {
        done: u64,
        total: u64,
    },
    /// The same, where a point was met on the way back, or the beginning.
    Met {
        why: Option<Why>,
        done: u64,
        total: u64,
    },
    /// The same, where no point was met among as many steps as were allowed.
    NoneMet {
        done: u64,
        total: u64,
    },
    /// The record has no more steps, after so many of the run.
    RecordEnds {
        steps: u64,
    },
    /// The same, with the harts of the last step and of the next.
    ToldRecordEnds {
        last: u32,
        turn: u32,
        steps: u64,
    },
    /// There is no next step in the record.
    PastRecord,
    /// The next step in the record is another hart's.
    OtherHart,
    /// Fewer steps were done than it was to go back.
    NoStepBefore,
}

impl fmt::Display for HistoryReply {
    ghost use Rattle.std.specs.Prelude.{Some};
    ghost use Rattle.guest_history.specs.HistoryText.{history_text};

    ghost output = { λ reply. Some (history_text reply) };

    fn fmt<W: fmt::Write>(&self, f: &mut fmt::Formatter<W>) -> fmt::Result {
        match self {
            HistoryReply::Plain(reply) => write!(f, "{reply}"),
            HistoryReply::At { done, total } => write!(f, "at {done} of {total}"),
            HistoryReply::Met { why, done, total } => {
                let met = MetPoint(*why);
                write!(f, "{met} at {done} of {total}")
            }
            HistoryReply::NoneMet { done, total } => write!(f, "limit at {done} of {total}"),
            HistoryReply::RecordEnds { steps } => write!(f, "record-end after {steps}"),
            HistoryReply::ToldRecordEnds { last, turn, steps } => {
                write!(f, "record-end last {last} turn {turn} after {steps}")
            }
            HistoryReply::PastRecord => f.write_str("refused 10"),
            HistoryReply::OtherHart => f.write_str("refused 11"),
            HistoryReply::NoStepBefore => f.write_str("refused 12"),
        }
    }
}

/// A point that was met on the way back, or the beginning.
#[derive(Clone, Copy)]
struct MetPoint(Option<Why>);

impl fmt::Display for MetPoint {
    ghost use Rattle.std.specs.Prelude.{Some};
    ghost use Rattle.guest_history.specs.HistoryText.{met_text};

    ghost output = { λ met. Some (met_text met.0) };

    fn fmt<W: fmt::Write>(&self, f: &mut fmt::Formatter<W>) -> fmt::Result {
        match self.0 {
            Some(Why::Watch(number)) => write!(f, "watch {number}"),
            Some(Why::Break(number)) => write!(f, "break {number}"),
            None | Some(Why::Ended | Why::Gone | Why::Limit | Why::Absent) => f.write_str("begin"),
        }
    }
}
