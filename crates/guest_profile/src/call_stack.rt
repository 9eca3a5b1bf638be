//! The calls of a hart that have not returned.

ghost use Rattle.std.specs.Prelude.{◌≡◌, ◌≤◌, ◌<◌, ◌+◌, ◌^◌, [], IfSome, OnOk, drop, length, take};
ghost use Rattle.guest_profile.specs.declared.call_site.CallSite.{CallSite};
ghost use Rattle.guest_profile.specs.Sums.{nothing};
ghost use Rattle.guest_profile.specs.Calls.{begun, call_after, call_flowed, call_made, calls_of, counts_beside, ended, cut, ended_from, flowed, hart_after, hart_calls, held, is_sought, last_sought, last_to, level_beside, level_in, made, pending_made, place_left, place_returned, return_place, unwound};

use crate::call_counts::CallCounts;
use crate::call_site::{CallSite, Jump};
use crate::sums::{NOTHING, Sums};
use guest_steps::Flow;
use std::alloc::{AllocError, AllocFailed, Global};

/// The level of a call where none of the same callee is pending.
const OUTER: u32 = 1;

/// The level of a call where one is.
const INNER: u32 = 2;

/// A call, what its hart had done when it was made, and the hart's stack pointer then.
#[derive(Clone, Copy, Debug)]
pub(crate) struct PendingCall {
    pub(crate) call: CallSite,
    pub(crate) begun: Sums,
    pub(crate) sp: u32,
    /// Whether its steps count: not where a call of level 2 to the same callee was pending.
    pub(crate) counts: bool,
}

/// What is sought among calls.
#[derive(Clone, Copy, Debug)]
pub(crate) enum Sought {
    /// The call that this address directly follows.
    Behind(u32),
    /// A call of this callee.
    To(u32),
    /// A call that was made at this stack pointer or above it.
    HeldAt(u32),
    /// A call that was made above this stack pointer.
    HeldAbove(u32),
}

/// The calls of a hart that have not returned, the last one last, and what it has done.
#[derive(Drop)]
pub(crate) struct CallStack {
    pending: Vec<PendingCall>,
    done: Sums,
}

impl CallStack {
    pub(crate) fn new(alloc: Global) -> Self
        ensures { hart_calls result ≡ record { pending = []; done = nothing } }
    {
        CallStack {
            pending: Vec::new(alloc),
            done: NOTHING,
        }
    }

    /// How many calls are pending.
    pub(crate) fn depth(&self) -> usize
        ensures { result ≡ length self.now.pending.items }
    {
        self.pending.len()
    }

    /// The level at which the hart's steps count: that of the last pending call.
    pub(crate) fn level(&self) -> u32
        ensures { result ≡ level_in self.now.pending.items }
    {
        level_in(self.pending.as_slice())
    }

    /// The hart does a step. Calls that were made at a lower stack pointer than it has then are over. Where the step calls, the call is
    /// made; where it returns, the last call that was made before that address has returned, and those that were made since.
    pub(crate) fn follow(
        &mut self,
        flow: Flow,
        jump: Jump,
        counts: &mut CallCounts,
    ) -> Result<(), AllocError>
        ensures hart { OnOk result (hart_calls self.new ≡
            hart_after flow jump (hart_calls self.old)) }
        ensures calls { OnOk result ((site : CallSite) → calls_of counts.new site ≡
            call_after flow jump (hart_calls self.old) site (calls_of counts.old site)) }
    {
        self.done = self.done.and(jump.step);
        self.unwind(jump.sp, counts)?;
        self.flow(flow, jump, counts)
    }

    /// All calls are over.
    pub(crate) fn end(&mut self, counts: &mut CallCounts) -> Result<(), AllocError>
        ensures hart { OnOk result (hart_calls self.new ≡
            record { pending = []; done = self.old.done }) }
        ensures calls { OnOk result ((site : CallSite) → calls_of counts.new site ≡
            ended self.old.done self.old.pending.items site (calls_of counts.old site)) }
    {
        self.end_from(0, counts)
    }

    /// Calls that were made at a lower stack pointer than this are over.
    fn unwind(&mut self, sp: u32, counts: &mut CallCounts) -> Result<(), AllocError>
        ensures hart { OnOk result (hart_calls self.new ≡ unwound sp (hart_calls self.old)) }
        ensures calls { OnOk result ((site : CallSite) → calls_of counts.new site ≡
            ended_from (place_left sp (hart_calls self.old)) (hart_calls self.old) site
            (calls_of counts.old site)) }
    {
        let place = held(self.pending.as_slice(), Sought::HeldAt(sp));
        self.end_from(place, counts)
    }

    /// The hart calls, returns or does neither.
    fn flow(&mut self, flow: Flow, jump: Jump, counts: &mut CallCounts) -> Result<(), AllocError>
        ensures hart { OnOk result (hart_calls self.new ≡
            flowed flow jump (hart_calls self.old)) }
        ensures calls { OnOk result ((site : CallSite) → calls_of counts.new site ≡
            call_flowed flow jump (hart_calls self.old) site (calls_of counts.old site)) }
    {
        match flow {
            Flow::Call => self.make(jump, counts),
            Flow::Return => self.come_back(jump, counts),
            Flow::Branch => Ok(()),
            Flow::Other => Ok(()),
        }
    }

    /// The hart calls.
    fn make(&mut self, jump: Jump, counts: &mut CallCounts) -> Result<(), AllocError>
        ensures hart { OnOk result (hart_calls self.new ≡ made jump (hart_calls self.old)) }
        ensures calls { OnOk result ((site : CallSite) → calls_of counts.new site ≡
            begun (call_made jump self.old.pending.items) site (calls_of counts.old site)) }
    {
        let made = pending_made(self.pending.as_slice(), jump, self.done);
        counts.begin(made.call)?;
        self.pending.push(made).map_err(AllocError::from)?;
        Ok(())
    }

    /// The hart returns.
    fn come_back(&mut self, jump: Jump, counts: &mut CallCounts) -> Result<(), AllocError>
        ensures hart { OnOk result (hart_calls self.new ≡
            cut (place_returned jump (hart_calls self.old)) (hart_calls self.old)) }
        ensures calls { OnOk result ((site : CallSite) → calls_of counts.new site ≡
            ended_from (place_returned jump (hart_calls self.old)) (hart_calls self.old) site
            (calls_of counts.old site)) }
    {
        let place = return_place(self.pending.as_slice(), jump.target, jump.sp);
        self.end_from(place, counts)
    }

    /// The calls from a place on are over, the last one first.
    fn end_from(&mut self, place: usize, counts: &mut CallCounts) -> Result<(), AllocError>
        requires { place ≤ length self.old.pending.items }
        ensures hart { OnOk result (hart_calls self.new ≡
            record { pending = take place self.old.pending.items; done = self.old.done }) }
        ensures calls { OnOk result ((site : CallSite) → calls_of counts.new site ≡
            ended self.old.done (drop place self.old.pending.items) site
            (calls_of counts.old site)) }
    {
        end_from(&mut self.pending, place, self.done, counts)
    }
}

/// The call that a jump makes where these are pending, when the hart has done this.
fn pending_made(pending: &[PendingCall], jump: Jump, done: Sums) -> PendingCall
    ensures { result ≡ pending_made jump (record { pending = pending.now; done = done }) }
{
    let beside = last_to(pending, jump.target);
    PendingCall {
        call: CallSite {
            site: jump.site,
            callee: jump.target,
            from_level: level_in(pending),
            level: level_beside(beside),
        },
        begun: done,
        sp: jump.sp,
        counts: counts_beside(beside),
    }
}

/// The level of the last pending call.
fn level_in(pending: &[PendingCall]) -> u32
    ensures { result ≡ level_in pending.now }
{
    match pending.last().copied() {
        Some(one) => one.call.level,
        None => OUTER,
    }
}

/// The level of a call, beside the last pending one of the same callee.
fn level_beside(beside: Option<PendingCall>) -> u32
    ensures { result ≡ level_beside beside }
{
    match beside {
        Some(_) => INNER,
        None => OUTER,
    }
}

/// Whether its steps count: once at each level.
fn counts_beside(beside: Option<PendingCall>) -> bool
    ensures { result ≡ counts_beside beside }
{
    match beside {
        Some(one) => one.call.level == OUTER,
        None => true,
    }
}

/// The last pending call of a callee.
fn last_to(pending: &[PendingCall], callee: u32) -> Option<PendingCall>
    ensures { result ≡ last_to callee pending.now }
{
    match last_sought(pending, Sought::To(callee)) {
        Some(place) => pending.get(place).copied(),
        None => None,
    }
}

/// The place from which on calls are over where a hart returns to an address, at this stack pointer.
fn return_place(pending: &[PendingCall], address: u32, sp: u32) -> usize
    ensures place { result ≡ return_place address sp pending.now }
    ensures within { result ≤ length pending.now }
{
    match last_sought(pending, Sought::Behind(address)) {
        Some(place) => place,
        None => held(pending, Sought::HeldAbove(sp)),
    }
}

/// How many calls there are up to the last one that is sought.
fn held(pending: &[PendingCall], sought: Sought) -> usize
    ensures count { result ≡ held sought pending.now }
    ensures within { result ≤ length pending.now }
{
    match last_sought(pending, sought) {
        Some(place) => place + 1,
        None => 0,
    }
}

/// The last of some calls that is sought, by its place among them.
#[tactic(auto, using(crate::proofs::PendingCalls::sought_found, crate::proofs::PendingCalls::sought_passed, crate::proofs::PendingCalls::sought_all, crate::proofs::PendingCalls::sought_none))]
fn last_sought(pending: &[PendingCall], sought: Sought) -> Option<usize>
    ensures last { result ≡ last_sought sought pending.now }
    ensures within { IfSome result (λ place. place < length pending.now) }
    ensures fits { IfSome result (λ place. place + 1 < 2 ^ 64) }
{
    let mut place = pending.len();
    'places: while place > 0 {
        place -= 1;
        if is_sought(&pending[place], sought) {
            return Some(place);
        }
    }
    None
}

/// Whether a pending call is one that is sought.
fn is_sought(pending: &PendingCall, sought: Sought) -> bool
    ensures { result ≡ is_sought sought pending.now }
{
    match sought {
        Sought::Behind(address) => pending.call.site.wrapping_add(4) == address,
        Sought::To(callee) => pending.call.callee == callee,
        Sought::HeldAt(sp) => sp <= pending.sp,
        Sought::HeldAbove(sp) => sp < pending.sp,
    }
}

/// Of some calls those from a place on are over, the last one first, when their hart has done this.
#[tactic(auto, using(crate::proofs::PendingCalls::ended_last, crate::proofs::PendingCalls::taken_last, crate::proofs::PendingCalls::ended_none))]
fn end_from(
    pending: &mut Vec<PendingCall>,
    place: usize,
    done: Sums,
    counts: &mut CallCounts,
) -> Result<(), AllocError>
    requires { place ≤ length pending.old.items }
    ensures hart { OnOk result (pending.new.items ≡ take place pending.old.items) }
    ensures calls { OnOk result ((site : CallSite) → calls_of counts.new site ≡
        ended done (drop place pending.old.items) site (calls_of counts.old site)) }
{
    'calls: while pending.len() > place {
        if let Some(last) = pending.pop() {
            counts.end(last, done)?;
        }
    }
    Ok(())
}
