//! Replies as they are printed.

use crate::hexadecimal::{HexByte, HexWord};
use crate::reply::DebugReply;
use debug_core::{DebugStep, Why};
use process_text::Ending;
use rv_exec::Regs;
use std::fmt;

impl fmt::Display for DebugReply {
    ghost use Rattle.std.specs.Prelude.{Some};
    ghost use Rattle.debug_session.specs.ReplyText.{reply_text};

    ghost output = { λ reply. Some (reply_text reply) };

    fn fmt<W: fmt::Write>(&self, f: &mut fmt::Formatter<W>) -> fmt::Result {
        match self {
            DebugReply::Point(number) => write!(f, "point {number}"),
            DebugReply::Removed => f.write_str("removed"),
            DebugReply::Stepped(DebugStep::Ran) => f.write_str("ran"),
            DebugReply::Stepped(DebugStep::Absent) => f.write_str("absent"),
            DebugReply::Stopped { why, turn, steps } => {
                let stop = Stop {
                    why: *why,
                    turn: *turn,
                };
                write!(f, "{stop} after {steps}")
            }
            DebugReply::Told {
                why,
                last,
                turn,
                steps,
            } => {
                let stop = ToldStop(*why);
                write!(f, "{stop} last {last} turn {turn} after {steps}")
            }
            DebugReply::Ending(None) => f.write_str("goes on"),
            DebugReply::Ending(Some(end)) => {
                let ending = Ending(*end);
                write!(f, "{ending}")
            }
            DebugReply::Live(true) => f.write_str("live"),
            DebugReply::Live(false) => f.write_str("not live"),
            DebugReply::Registers(regs) => {
                let lines = RegisterLines(regs);
                write!(f, "{lines}")
            }
            DebugReply::Bytes(bytes) => {
                let line = ByteLine(bytes.as_slice());
                write!(f, "{line}")
            }
            DebugReply::Refused(refusal) => {
                let number = refusal.number();
                write!(f, "refused {number}")
            }
        }
    }
}

/// Why a debugger stopped, with the hart that is at a break.
#[derive(Clone, Copy)]
struct Stop {
    why: Why,
    turn: u32,
}

impl fmt::Display for Stop {
    ghost use Rattle.std.specs.Prelude.{Some};
    ghost use Rattle.debug_session.specs.ReplyText.{why_text};

    ghost output = { λ stop. Some (why_text stop.why stop.turn) };

    fn fmt<W: fmt::Write>(&self, f: &mut fmt::Formatter<W>) -> fmt::Result {
        let turn = self.turn;
        match self.why {
            Why::Ended => f.write_str("ended"),
            Why::Watch(number) => write!(f, "watch {number}"),
            Why::Gone => f.write_str("gone"),
            Why::Break(number) => write!(f, "break {number} hart {turn}"),
            Why::Limit => f.write_str("limit"),
            Why::Absent => f.write_str("absent"),
        }
    }
}

/// Why a debugger stopped, with no hart.
#[derive(Clone, Copy)]
struct ToldStop(Why);

impl fmt::Display for ToldStop {
    ghost use Rattle.std.specs.Prelude.{Some};
    ghost use Rattle.debug_session.specs.ReplyText.{told_why};

    ghost output = { λ stop. Some (told_why stop.0) };

    fn fmt<W: fmt::Write>(&self, f: &mut fmt::Formatter<W>) -> fmt::Result {
        match self.0 {
            Why::Ended => f.write_str("ended"),
            Why::Watch(number) => write!(f, "watch {number}"),
            Why::Gone => f.write_str("gone"),
            Why::Break(number) => write!(f, "break {number}"),
            Why::Limit => f.write_str("limit"),
            Why::Absent => f.write_str("absent"),
        }
    }
}

/// A hart's registers, a line each.
#[derive(Clone, Copy)]
struct RegisterLines<'a>(&'a Regs);

impl fmt::Display for RegisterLines<'_> {
    ghost use Rattle.std.specs.Prelude.{Some};
    ghost use Rattle.debug_session.specs.ReplyText.{registers_text};

    ghost output = { λ lines. Some (registers_text lines.0.now) };

    fn fmt<W: fmt::Write>(&self, f: &mut fmt::Formatter<W>) -> fmt::Result {
        let pc = HexWord(self.0.pc());
        write!(f, "pc {pc}")?;
        for above in 0..31u8 {
            let number = above + 1;
            let value = HexWord(self.0.x(number));
            write!(f, "\nx{number} {value}")?;
        }
        Ok(())
    }
}

/// Bytes in one line, with a space between two.
#[derive(Clone, Copy)]
struct ByteLine<'a>(&'a [u8]);

impl fmt::Display for ByteLine<'_> {
    ghost use Rattle.std.specs.Prelude.{Some};
    ghost use Rattle.debug_session.specs.ReplyText.{bytes_text};

    ghost output = { λ line. Some (bytes_text line.0.now) };

    fn fmt<W: fmt::Write>(&self, f: &mut fmt::Formatter<W>) -> fmt::Result {
        if let [first, rest @ ..] = self.0 {
            let first = HexByte(*first);
            write!(f, "{first}")?;
            for byte in rest {
                let byte = HexByte(*byte);
                write!(f, " {byte}")?;
            }
        }
        Ok(())
    }
}
