//! What is done for one line.

ghost use Rattle.std.specs.Prelude.{◌++◌, ◌∷◌, [], IfErr, IfOk, OnOk};
ghost use Rattle.std.specs.Io.KnownBytes.{Appends};
ghost use Rattle.guest_history.specs.Conversation.{IsBroken, TakesTurn};
ghost use Rattle.guest_history.specs.Histories.{IsSameRun, Stands};
ghost use Rattle.guest_history.specs.HistoryText.{history_text};

use crate::fault::HistoryFault;
use crate::history::History;
use crate::lines::history_line;
use crate::reply::HistoryReply;
use std::alloc::Global;
use std::io;
use std::io::Write;

/// What a line comes to.
#[derive(Clone, Copy, Debug, PartialEq, Eq)]
pub(crate) enum Turn {
    /// It was skipped, or answered.
    GoesOn,
    /// It was `quit`.
    Quits,
    /// It says nothing that may be said.
    Bad,
}

/// Does what a line asks for, and writes the reply at once.
#[tactic(auto, using(crate::proofs::SameRuns::same_path, crate::proofs::SameRuns::same_then, crate::proofs::Conversed::replied, crate::proofs::Conversed::quit_line))]
pub(crate) fn take_turn<O: Write>(
    alloc: Global,
    history: &mut History,
    line: &[u8],
    out: &mut O,
) -> Result<Turn, HistoryFault>
    requires stands { Stands history.old }
    ensures stands { OnOk result (Stands history.new) }
    ensures same { OnOk result (IsSameRun history.old history.new) }
    ensures taken { IfOk result (λ turn. TakesTurn turn line.now history.old (O.contents out.old)
        history.new (O.contents out.new)) }
    ensures broken { IfErr result IsBroken }
{
    let Ok(asked) = history_line(line) else {
        return Ok(Turn::Bad);
    };
    let Some(asked) = asked else {
        return Ok(Turn::GoesOn);
    };
    let Some(reply) = history.answer(alloc, asked)? else {
        return Ok(Turn::Quits);
    };
    match say(&reply, out) {
        Ok(()) => Ok(Turn::GoesOn),
        Err(_) => Err(HistoryFault::CannotWrite),
    }
}

/// Writes a reply with a line end, at once.
fn say<O: Write>(reply: &HistoryReply, out: &mut O) -> io::Result<()>
    ensures { OnOk result (Appends (O.contents out.old) (O.contents out.new)
        (history_text reply.now ++ 10 ∷ [])) }
{
    writeln!(out, "{reply}")?;
    out.flush()
}
