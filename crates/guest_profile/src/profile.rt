//! All that is counted of a run.

ghost use Rattle.std.specs.Prelude.{◌≡◌, IfOk, OnOk, nat_eq};
ghost use Rattle.std.specs.List.Sorted.{IsSorted};
ghost use Rattle.guest_profile.specs.Accounts.{Account, IsAccount, after, closed, nothing};
ghost use Rattle.guest_profile.specs.Calls.{call_cmp, calls_of, is_call, was_made};
ghost use Rattle.guest_profile.specs.Listed.{AreAll, AreSoMany};
ghost use Rattle.guest_profile.specs.UsedPagesOf.{was_used, was_stored_to};

use crate::call_counts::CallCounts;
use crate::call_site::{CallCount, CallSite, Jump};
use crate::call_stack::CallStack;
use crate::insn_counts::InsnCounts;
use crate::stacks::{end_all, follow, level, no_stacks};
use crate::sums::Sums;
use crate::used_pages::UsedPages;
use guest_steps::{ToldStep, access_of, flow_of};
use rv_isa::decode;
use std::alloc::{AllocError, Global};

/// The number of the stack pointer.
pub(crate) const SP: u8 = 2;

/// What is counted of the steps of a process.
#[derive(Drop)]
pub struct Profile {
    insns: InsnCounts,
    calls: CallCounts,
    pages: UsedPages,
    /// The calls of each hart that have not returned.
    stacks: Vec<CallStack>,
}

impl Profile {
    pub fn new(alloc: Global) -> Result<Self, AllocError>
        ensures { IfOk result (λ profile. IsAccount profile nothing) }
    {
        Ok(Profile {
            insns: InsnCounts::new(alloc),
            calls: CallCounts::new(alloc),
            pages: UsedPages::new(alloc),
            stacks: no_stacks(alloc)?,
        })
    }

    /// Counts a step. One whose instruction could not be fetched is no step of an instruction.
    pub fn count(&mut self, told: &ToldStep) -> Result<(), AllocError>
        ensures { OnOk result ((account : Account) → IsAccount self.old account →
            IsAccount self.new (after told.now account)) }
    {
        let Ok(word) = told.word else {
            return Ok(());
        };
        let before = &told.before;
        let (pc, next) = (before.pc(), told.after.pc());
        let is_taken = next != before.next_pc();
        let is_inner = level(self.stacks.as_slice(), told.hart) == 2;
        self.insns.count(pc, word, is_taken, is_inner)?;
        let Some(insn) = decode(word) else {
            return Ok(());
        };
        let (kept, again) = (insn, insn);
        self.pages.mark(access_of(before, kept))?;
        let jump = Jump {
            site: pc,
            target: next,
            sp: told.after.x(SP),
            step: Sums::of_step(again, is_taken),
        };
        let flow = flow_of(insn);
        follow(&mut self.stacks, told.hart, flow, jump, &mut self.calls)?;
        Ok(())
    }

    /// The run is over, and so are all calls.
    #[tactic(auto, unfolding(crate::specs::Accounts::closed))]
    pub fn end(&mut self) -> Result<(), AllocError>
        ensures { OnOk result ((account : Account) → IsAccount self.old account →
            IsAccount self.new (closed account)) }
    {
        end_all(&mut self.stacks, &mut self.calls)
    }

    /// The counts of the instructions.
    pub fn insns(&self) -> &InsnCounts
        ensures { result.now ≡ self.now.insns }
    {
        &self.insns
    }

    /// The calls, by rising site.
    pub fn calls(&self, alloc: Global) -> Result<Vec<CallSite>, AllocError>
        ensures rising { IfOk result (λ sites. IsSorted call_cmp sites.items) }
        ensures all { IfOk result (λ sites. AreAll is_call (was_made self.now.calls) sites.items) }
    {
        self.calls.sites(alloc)
    }

    /// The counts of a call.
    pub fn call(&self, call: CallSite) -> Option<CallCount>
        ensures { result ≡ calls_of self.now.calls call }
    {
        self.calls.at(call)
    }

    /// How many pages the program loaded from or stored to, and to how many of them it stored.
    pub fn data_pages(&self) -> (usize, usize)
        ensures used { AreSoMany nat_eq (was_used self.now.pages) result.0 }
        ensures stored { AreSoMany nat_eq (was_stored_to self.now.pages) result.1 }
    {
        (self.pages.len(), self.pages.stored())
    }
}
