//! What is done for one line.

ghost use Rattle.std.specs.Prelude.{ℕ, ◌++◌, ◌∷◌, [], List, IfOk, OnErr, OnOk};
ghost use Rattle.std.specs.Io.KnownBytes.{Appends};
ghost use Rattle.debug_session.specs.ReplyText.{reply_text};
ghost use Rattle.debug_session.specs.Conversation.{IsAnswered, TakesTurn};

use crate::answers::answer;
use crate::lines::{Dialect, debug_line};
use crate::reply::DebugReply;
use debug_core::{Debugger, Target};
use std::alloc::Global;
use std::io;
use std::io::Write;

/// What a line comes to.
#[derive(Clone, Copy, Debug, PartialEq, Eq)]
pub(crate) enum Turn {
    /// It was skipped, or answered.
    GoesOn,
    /// It was `quit`.
    Quits,
    /// It says nothing that may be said.
    Bad,
}

/// Does what a line asks for, and writes the reply at once.
pub(crate) fn take_turn<T: Target, O: Write>(
    alloc: Global,
    dialect: Dialect,
    debugger: &mut Debugger<T>,
    line: &[u8],
    out: &mut O,
) -> io::Result<Turn>
    ensures taken { IfOk result (λ turn. TakesTurn dialect T.shown T.limits turn line.now
        debugger.old (O.contents out.old) debugger.new (O.contents out.new)) }
    ensures err { OnErr result ((told : List ℕ) ×
        IsAnswered dialect T.shown T.limits line.now debugger.old told debugger.new) }
{
    let Ok(asked) = debug_line(dialect, line) else {
        return Ok(Turn::Bad);
    };
    let Some(asked) = asked else {
        return Ok(Turn::GoesOn);
    };
    let Some(reply) = answer(alloc, debugger, asked) else {
        return Ok(Turn::Quits);
    };
    match say(&reply, out) {
        Ok(()) => Ok(Turn::GoesOn),
        Err(error) => Err(error),
    }
}

/// Writes a reply with a line end, at once.
fn say<O: Write>(reply: &DebugReply, out: &mut O) -> io::Result<()>
    ensures { OnOk result (Appends (O.contents out.old) (O.contents out.new)
        (reply_text reply.now ++ 10 ∷ [])) }
{
    writeln!(out, "{reply}")?;
    out.flush()
}
