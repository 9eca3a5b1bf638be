//! What a debugger that goes back does for a line, and replies.

ghost use Rattle.std.specs.Prelude.{◌≡◌, false, IfOk, OnOk, slice_set};
ghost use Rattle.debug_session.specs.Answers.{AnswersBreak, AnswersRemove, AnswersWatch};
ghost use Rattle.guest_history.specs.Answered.{
  looked_reply,
  reply_at,
  reply_of,
  stop_reply,
  told_reply,
  AnswersBack,
  AnswersBackGo,
  AnswersBackWithin,
  AnswersGo,
  AnswersGoHart,
  AnswersLine,
  AnswersLook,
  AnswersPlain,
  AnswersPoint,
  AnswersRun,
  AnswersStep,
};
ghost use Rattle.guest_history.specs.Going.{turn_of};
ghost use Rattle.guest_history.specs.Histories.{IsSameRun, Looks, Stands};
ghost use Rattle.guest_history.specs.declared.history.History.{History};

use crate::forward::Stepped;
use crate::history::{History, Looked};
use crate::lines::HistoryLine;
use crate::reply::HistoryReply;
use debug_core::{DebugRefusal, DebugStep, MOST_POINTS, Point, Why};
use debug_session::{DebugLine, DebugReply, answer};
use run_paths::{Points, RunFault};
use std::alloc::Global;

impl History {
    /// Does what a line asks for, and says what came of it; `None` where the line is `quit`.
    pub(crate) fn answer(
        &mut self,
        alloc: Global,
        line: HistoryLine,
    ) -> Result<Option<HistoryReply>, RunFault>
        requires stands { Stands self.old }
        ensures stands { OnOk result (Stands self.new) }
        ensures same { OnOk result (IsSameRun self.old self.new) }
        ensures answered { IfOk result (λ reply. AnswersLine line self.old reply self.new) }
    {
        match line {
            HistoryLine::Back { count } => Ok(Some(self.answer_back(alloc, count)?)),
            HistoryLine::BackGo => Ok(Some(self.answer_back_go(alloc)?)),
            HistoryLine::BackGoWithin { count } => {
                Ok(Some(self.answer_back_within(alloc, count)?))
            }
            HistoryLine::At => Ok(Some(self.answer_at())),
            HistoryLine::Plain(line) => self.answer_plain(alloc, line),
        }
    }

    #[tactic(auto, using(crate::proofs::SameRuns::same_back))]
    fn answer_back(&mut self, alloc: Global, count: u32) -> Result<HistoryReply, RunFault>
        requires stands { Stands self.old }
        ensures stands { OnOk result (Stands self.new) }
        ensures same { OnOk result (IsSameRun self.old self.new) }
        ensures back { IfOk result (λ reply. AnswersBack count self.old reply self.new) }
    {
        if self.back(alloc, u64::from(count))? {
            Ok(self.answer_at())
        } else {
            Ok(HistoryReply::NoStepBefore)
        }
    }

    #[tactic(auto, using(crate::proofs::SameRuns::same_back))]
    fn answer_back_go(&mut self, alloc: Global) -> Result<HistoryReply, RunFault>
        requires stands { Stands self.old }
        ensures stands { OnOk result (Stands self.new) }
        ensures same { OnOk result (IsSameRun self.old self.new) }
        ensures stop { IfOk result (λ reply. AnswersBackGo self.old reply self.new) }
    {
        let why = self.back_go(alloc)?;
        Ok(HistoryReply::Met {
            why,
            done: self.done,
            total: self.path.total,
        })
    }

    #[tactic(auto, using(crate::proofs::SameRuns::same_back))]
    fn answer_back_within(&mut self, alloc: Global, count: u32) -> Result<HistoryReply, RunFault>
        requires stands { Stands self.old }
        ensures stands { OnOk result (Stands self.new) }
        ensures same { OnOk result (IsSameRun self.old self.new) }
        ensures stop { IfOk result (λ reply. AnswersBackWithin count self.old reply self.new) }
    {
        let looked = self.back_go_within(alloc, u64::from(count))?;
        Ok(looked_reply(looked, self.done, self.path.total))
    }

    fn answer_at(&self) -> HistoryReply
        ensures { result ≡ reply_at self.now }
    {
        HistoryReply::At {
            done: self.done,
            total: self.path.total,
        }
    }

    fn answer_plain(
        &mut self,
        alloc: Global,
        line: DebugLine,
    ) -> Result<Option<HistoryReply>, RunFault>
        requires stands { Stands self.old }
        ensures stands { OnOk result (Stands self.new) }
        ensures same { OnOk result (IsSameRun self.old self.new) }
        ensures answered { IfOk result (λ reply. AnswersPlain line self.old reply self.new) }
    {
        match line {
            DebugLine::Break { address } => Ok(Some(self.add_break(address))),
            DebugLine::Watch { address, length } => Ok(Some(self.add_watch(address, length))),
            DebugLine::Remove { number } => Ok(Some(self.remove(number))),
            DebugLine::Step { hart } => Ok(Some(self.answer_step(alloc, hart)?)),
            DebugLine::Go { limit } => Ok(Some(self.answer_go(alloc, limit)?)),
            DebugLine::Run { limit } => Ok(Some(self.answer_run(alloc, limit)?)),
            DebugLine::GoHart { hart, limit } => {
                Ok(Some(self.answer_go_hart(alloc, hart, limit)?))
            }
            DebugLine::Regs { .. }
            | DebugLine::Mem { .. }
            | DebugLine::End
            | DebugLine::Live { .. }
            | DebugLine::Quit => Ok(self.answer_looking(alloc, line)),
        }
    }

    /// Shows what is asked for.
    #[tactic(auto, using(crate::proofs::SameRuns::same_path))]
    fn answer_looking(&mut self, alloc: Global, line: DebugLine) -> Option<HistoryReply>
        requires stands { Stands self.old }
        requires looks { Looks line }
        ensures stands { Stands self.new }
        ensures same { IsSameRun self.old self.new }
        ensures looked { AnswersLook line self.old result self.new }
    {
        match answer(alloc, &mut self.debugger, line) {
            Some(reply) => Some(HistoryReply::Plain(reply)),
            None => None,
        }
    }

    #[tactic(auto, using(crate::proofs::SameRuns::same_path, debug_core::proofs::Points::with_point))]
    fn add_break(&mut self, address: u32) -> HistoryReply
        requires stands { Stands self.old }
        ensures stands { Stands self.new }
        ensures same { IsSameRun self.old self.new }
        ensures added { AnswersPoint (AnswersBreak address) self.old result self.new }
    {
        match self.debugger.add_break(address) {
            Ok(number) => {
                put(&mut self.points, number, Some(Point::Break { address }));
                HistoryReply::Plain(DebugReply::Point(number))
            }
            Err(refusal) => HistoryReply::Plain(DebugReply::Refused(refusal)),
        }
    }

    #[tactic(auto, using(crate::proofs::SameRuns::same_path, debug_core::proofs::Points::with_point))]
    fn add_watch(&mut self, address: u32, length: u32) -> HistoryReply
        requires stands { Stands self.old }
        ensures stands { Stands self.new }
        ensures same { IsSameRun self.old self.new }
        ensures added { AnswersPoint (AnswersWatch address length) self.old result self.new }
    {
        match self.debugger.add_watch(address, length) {
            Ok(number) => {
                put(
                    &mut self.points,
                    number,
                    Some(Point::Watch { address, length }),
                );
                HistoryReply::Plain(DebugReply::Point(number))
            }
            Err(refusal) => HistoryReply::Plain(DebugReply::Refused(refusal)),
        }
    }

    #[tactic(auto, using(crate::proofs::SameRuns::same_path, debug_core::proofs::Points::with_point))]
    fn remove(&mut self, number: u32) -> HistoryReply
        requires stands { Stands self.old }
        ensures stands { Stands self.new }
        ensures same { IsSameRun self.old self.new }
        ensures removed { AnswersPoint (AnswersRemove number) self.old result self.new }
    {
        match self.debugger.remove(number) {
            Ok(()) => {
                put(&mut self.points, number, None);
                HistoryReply::Plain(DebugReply::Removed)
            }
            Err(refusal) => HistoryReply::Plain(DebugReply::Refused(refusal)),
        }
    }

    fn answer_step(&mut self, alloc: Global, hart: u32) -> Result<HistoryReply, RunFault>
        requires stands { Stands self.old }
        ensures stands { OnOk result (Stands self.new) }
        ensures same { OnOk result (IsSameRun self.old self.new) }
        ensures stepped { IfOk result (λ reply. AnswersStep hart self.old reply self.new) }
    {
        let stepped = self.step(alloc, hart)?;
        Ok(reply_of(stepped))
    }

    fn answer_go(&mut self, alloc: Global, limit: u32) -> Result<HistoryReply, RunFault>
        requires stands { Stands self.old }
        ensures stands { OnOk result (Stands self.new) }
        ensures same { OnOk result (IsSameRun self.old self.new) }
        ensures gone { IfOk result (λ reply. AnswersGo limit self.old reply self.new) }
    {
        let stop = self.go(alloc, u64::from(limit))?;
        Ok(stop_reply(stop.why, self.turn(), stop.steps))
    }

    fn answer_run(&mut self, alloc: Global, limit: u32) -> Result<HistoryReply, RunFault>
        requires stands { Stands self.old }
        ensures stands { OnOk result (Stands self.new) }
        ensures same { OnOk result (IsSameRun self.old self.new) }
        ensures gone { IfOk result (λ reply. AnswersRun limit self.old reply self.new) }
    {
        let stop = self.go(alloc, u64::from(limit))?;
        Ok(told_reply(stop.why, stop.last, self.turn(), stop.steps))
    }

    fn answer_go_hart(
        &mut self,
        alloc: Global,
        hart: u32,
        limit: u32,
    ) -> Result<HistoryReply, RunFault>
        requires stands { Stands self.old }
        ensures stands { OnOk result (Stands self.new) }
        ensures same { OnOk result (IsSameRun self.old self.new) }
        ensures gone { IfOk result (λ reply. AnswersGoHart hart limit self.old reply
            self.new) }
    {
        if self.is_recorded {
            return Ok(HistoryReply::OtherHart);
        }
        match self.go_hart(alloc, hart, u64::from(limit))? {
            Some(stop) => Ok(told_reply(stop.why, stop.last, self.turn(), stop.steps)),
            None => Ok(HistoryReply::Plain(DebugReply::Refused(DebugRefusal::NoHart))),
        }
    }
}

/// What is replied where a bounded way back has led to so many steps, of how many.
fn looked_reply(looked: Looked, done: u64, total: u64) -> HistoryReply
    ensures { (history : History) → history.done ≡ done → history.path.total ≡ total →
        result ≡ looked_reply looked history }
{
    match looked {
        Looked::Met(why) => HistoryReply::Met {
            why: Some(why),
            done,
            total,
        },
        Looked::Limit => HistoryReply::NoneMet { done, total },
        Looked::Beginning => HistoryReply::Met {
            why: None,
            done,
            total,
        },
    }
}

/// What is replied where a run has come to this, and it is the turn of a hart.
fn stop_reply(why: Option<Why>, turn: u32, steps: u64) -> HistoryReply
    ensures { result ≡ stop_reply why turn steps }
{
    match why {
        Some(why) => HistoryReply::Plain(DebugReply::Stopped { why, turn, steps }),
        None => HistoryReply::RecordEnds { steps },
    }
}

/// The same with the hart of the last step.
fn told_reply(why: Option<Why>, last: u32, turn: u32, steps: u64) -> HistoryReply
    ensures { result ≡ told_reply why last turn steps }
{
    match why {
        Some(why) => HistoryReply::Plain(DebugReply::Told {
            why,
            last,
            turn,
            steps,
        }),
        None => HistoryReply::ToldRecordEnds { last, turn, steps },
    }
}

/// What is replied where this has come of a step.
fn reply_of(stepped: Stepped) -> HistoryReply
    ensures { result ≡ reply_of stepped }
{
    match stepped {
        Stepped::Ran => HistoryReply::Plain(DebugReply::Stepped(DebugStep::Ran)),
        Stepped::Refused(refusal) => HistoryReply::Plain(DebugReply::Refused(refusal)),
        Stepped::PastRecord => HistoryReply::PastRecord,
        Stepped::OtherHart => HistoryReply::OtherHart,
    }
}

/// Puts a point in its place, if there is one.
fn put(points: &mut Points, number: u32, point: Option<Point>)
    ensures { points.new ≡ slice_set points.old number point }
{
    if (number as usize) < MOST_POINTS {
        points[number as usize] = point;
    }
}
