//! What is counted of each call.

ghost use Rattle.std.specs.Prelude.{◌≡◌, IfOk, None, OnOk, if◌then◌else◌};
ghost use Rattle.std.specs.HashMap.{IsUnique, keys};
ghost use Rattle.std.specs.List.Sorted.{IsSorted};
ghost use Rattle.guest_profile.specs.declared.call_site.CallSite.{CallSite};
ghost use Rattle.guest_profile.specs.Calls.{begun, begun_count, call_cmp, call_known, ended_call, ended_count, calls_of, is_call, was_made};
ghost use Rattle.guest_profile.specs.Listed.{AreAll};

use crate::call_site::{CallCount, CallSite};
use crate::call_stack::PendingCall;
use crate::sums::{NOTHING, Sums};
use std::alloc::{AllocError, AllocFailed, Global};
use std::collections::HashMap;

/// What is counted of each call.
#[derive(Drop)]
pub(crate) struct CallCounts {
    counts: HashMap<CallSite, CallCount>,
}

impl CallCounts {
    pub(crate) fn new(alloc: Global) -> Self
        ensures { (site : CallSite) → calls_of result site ≡ None }
    {
        CallCounts {
            counts: HashMap::new(alloc),
        }
    }

    /// A call is made.
    pub(crate) fn begin(&mut self, call: CallSite) -> Result<(), AllocError>
        ensures { OnOk result ((site : CallSite) → calls_of self.new site ≡
            begun call site (calls_of self.old site)) }
    {
        let count = begun_count(self.known(call));
        self.set(call, count)
    }

    /// A call is over, when its hart has done this.
    pub(crate) fn end(&mut self, ended: PendingCall, done: Sums) -> Result<(), AllocError>
        ensures { OnOk result ((site : CallSite) → calls_of self.new site ≡
            ended_call done ended site (calls_of self.old site)) }
    {
        let inside = done.without(ended.begun);
        let count = ended_count(inside, ended.counts, self.known(ended.call));
        self.set(ended.call, count)
    }

    /// What is counted of a call that was made.
    pub(crate) fn at(&self, call: CallSite) -> Option<CallCount>
        ensures { result ≡ calls_of self.now call }
    {
        self.counts.get(&call).copied()
    }

    /// The calls that were made, by rising site.
    pub(crate) fn sites(&self, alloc: Global) -> Result<Vec<CallSite>, AllocError>
        ensures rising { IfOk result (λ sites. IsSorted call_cmp sites.items) }
        ensures all { IfOk result (λ sites. AreAll is_call (was_made self.now) sites.items) }
    {
        let mut sites = self.keys(alloc)?;
        sites.sort_unstable();
        Ok(sites)
    }

    fn keys(&self, alloc: Global) -> Result<Vec<CallSite>, AllocError>
        ensures keys { IfOk result (λ all. all.items ≡ keys self.now.counts) }
        ensures unique { IsUnique is_call self.now.counts }
    {
        self.counts.keys().copied().collect(alloc)
    }

    /// What is counted of a call.
    fn known(&self, call: CallSite) -> CallCount
        ensures { result ≡ call_known (calls_of self.now call) }
    {
        match self.counts.get(&call) {
            Some(count) => *count,
            None => CallCount {
                times: 0,
                inside: NOTHING,
            },
        }
    }

    fn set(&mut self, call: CallSite, count: CallCount) -> Result<(), AllocError>
        ensures { OnOk result ((site : CallSite) → calls_of self.new site ≡
            (if is_call call site then Some count else calls_of self.old site)) }
    {
        match self.counts.insert(call, count) {
            Ok(_) => Ok(()),
            Err(_) => Err(AllocError),
        }
    }
}

/// One more of the same call.
fn begun_count(count: CallCount) -> CallCount
    ensures { result ≡ begun_count count }
{
    CallCount {
        times: count.times.saturating_add(1),
        inside: count.inside,
    }
}

/// One of the same calls is over, after these steps, which count or do not.
fn ended_count(inside: Sums, counts: bool, count: CallCount) -> CallCount
    ensures { result ≡ ended_count inside counts count }
{
    let added = if counts { inside } else { NOTHING };
    CallCount {
        times: count.times,
        inside: count.inside.and(added),
    }
}
