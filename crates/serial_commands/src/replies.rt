//! What is printed for the events of a script.

ghost use Rattle.std.specs.Prelude.{◌≡◌, OnOk};
ghost use Rattle.std.specs.Io.KnownBytes.{Appends};
ghost use Rattle.serial_commands.specs.Replies.{reply_line, replies_text};

use event_scripts::ReplyLine;
use machine_core::Reply;
use std::io;
use std::io::Write;

/// Writes a line for each reply.
pub fn write_replies<W: Write>(replies: &[Reply], out: &mut W) -> io::Result<()>
    ensures { OnOk result (Appends (W.contents out.old) (W.contents out.new)
        (replies_text replies.now)) }
{
    for reply in replies {
        write_reply(*reply, out)?;
    }
    Ok(())
}

fn write_reply<W: Write>(reply: Reply, out: &mut W) -> io::Result<()>
    ensures { OnOk result (Appends (W.contents out.old) (W.contents out.new) (reply_line reply)) }
{
    let line = ReplyLine(reply);
    writeln!(out, "{line}")
}
