//! What a debugger does for a line, and replies.

ghost use Rattle.debug_session.specs.Answers.{Answers, AnswersBreak, AnswersWatch, AnswersRemove, AnswersStep, AnswersGo, AnswersRun, AnswersGoHart, AnswersEnd, AnswersLive, AnswersRegs, AnswersMem};

use crate::lines::DebugLine;
use crate::reply::DebugReply;
use debug_core::{DebugRefusal, Debugger, Target};
use std::alloc::{AllocError, Global};

/// Does what a line asks for, and returns the reply; `None` where the line is `quit`.
pub fn answer<T: Target>(
    alloc: Global,
    debugger: &mut Debugger<T>,
    line: DebugLine,
) -> Option<DebugReply>
    ensures { Answers T.shown T.limits line debugger.old result debugger.new }
{
    match line {
        DebugLine::Break { address } => Some(add_break(debugger, address)),
        DebugLine::Watch { address, length } => Some(add_watch(debugger, address, length)),
        DebugLine::Remove { number } => Some(remove(debugger, number)),
        DebugLine::Step { hart } => Some(step(debugger, hart)),
        DebugLine::Go { limit } => Some(go(debugger, limit)),
        DebugLine::Regs { hart } => Some(regs(debugger, hart)),
        DebugLine::Mem { address, length } => Some(mem(alloc, debugger, address, length)),
        DebugLine::Run { limit } => Some(run(debugger, limit)),
        DebugLine::GoHart { hart, limit } => Some(go_hart(debugger, hart, limit)),
        DebugLine::End => Some(end(debugger)),
        DebugLine::Live { hart } => Some(is_live(debugger, hart)),
        DebugLine::Quit => None,
    }
}

fn add_break<T: Target>(debugger: &mut Debugger<T>, address: u32) -> DebugReply
    ensures { AnswersBreak address debugger.old result debugger.new }
{
    match debugger.add_break(address) {
        Ok(number) => DebugReply::Point(number),
        Err(refusal) => DebugReply::Refused(refusal),
    }
}

fn add_watch<T: Target>(debugger: &mut Debugger<T>, address: u32, length: u32) -> DebugReply
    ensures { AnswersWatch address length debugger.old result debugger.new }
{
    match debugger.add_watch(address, length) {
        Ok(number) => DebugReply::Point(number),
        Err(refusal) => DebugReply::Refused(refusal),
    }
}

fn remove<T: Target>(debugger: &mut Debugger<T>, number: u32) -> DebugReply
    ensures { AnswersRemove number debugger.old result debugger.new }
{
    match debugger.remove(number) {
        Ok(()) => DebugReply::Removed,
        Err(refusal) => DebugReply::Refused(refusal),
    }
}

fn step<T: Target>(debugger: &mut Debugger<T>, hart: u32) -> DebugReply
    ensures { AnswersStep T.shown T.limits hart debugger.old result debugger.new }
{
    match debugger.step(hart) {
        Ok(stepped) => DebugReply::Stepped(stepped),
        Err(refusal) => DebugReply::Refused(refusal),
    }
}

fn go<T: Target>(debugger: &mut Debugger<T>, limit: u32) -> DebugReply
    ensures { AnswersGo T.shown T.limits limit debugger.old result debugger.new }
{
    match debugger.go(u64::from(limit)) {
        Ok((why, steps, _)) => DebugReply::Stopped {
            why,
            turn: debugger.turn(),
            steps,
        },
        Err(AllocError) => DebugReply::Refused(DebugRefusal::NoMemory),
    }
}

fn run<T: Target>(debugger: &mut Debugger<T>, limit: u32) -> DebugReply
    ensures { AnswersRun T.shown T.limits limit debugger.old result debugger.new }
{
    match debugger.go(u64::from(limit)) {
        Ok((why, steps, last)) => DebugReply::Told {
            why,
            last,
            turn: debugger.turn(),
            steps,
        },
        Err(AllocError) => DebugReply::Refused(DebugRefusal::NoMemory),
    }
}

fn go_hart<T: Target>(debugger: &mut Debugger<T>, hart: u32, limit: u32) -> DebugReply
    ensures { AnswersGoHart T.shown T.limits hart limit debugger.old result debugger.new }
{
    match debugger.go_hart(hart, u64::from(limit)) {
        Ok((why, steps)) => DebugReply::Told {
            why,
            last: hart,
            turn: debugger.turn(),
            steps,
        },
        Err(refusal) => DebugReply::Refused(refusal),
    }
}

fn end<T: Target>(debugger: &Debugger<T>) -> DebugReply
    ensures { AnswersEnd T.shown T.limits debugger.now result }
{
    DebugReply::Ending(debugger.end())
}

fn is_live<T: Target>(debugger: &Debugger<T>, hart: u32) -> DebugReply
    ensures { AnswersLive T.shown T.limits hart debugger.now result }
{
    DebugReply::Live(debugger.is_live(hart))
}

fn regs<T: Target>(debugger: &mut Debugger<T>, hart: u32) -> DebugReply
    ensures { AnswersRegs T.shown T.limits hart debugger.old result debugger.new }
{
    match debugger.regs(hart) {
        Ok(regs) => DebugReply::Registers(*regs),
        Err(refusal) => DebugReply::Refused(refusal),
    }
}

fn mem<T: Target>(
    alloc: Global,
    debugger: &mut Debugger<T>,
    address: u32,
    length: u32,
) -> DebugReply
    ensures { AnswersMem T.shown T.limits address length debugger.old result debugger.new }
{
    match debugger.mem(alloc, address, length) {
        Ok(bytes) => DebugReply::Bytes(bytes),
        Err(refusal) => DebugReply::Refused(refusal),
    }
}
