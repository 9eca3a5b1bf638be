//! The string of references, handed on one after another.

ghost use Rattle.std.specs.Prelude.{◌≡◌, List, ◌≤◌, ◌++◌, ◌∷◌, [], None, Some, IfOk, OnErr, length};
ghost use Rattle.guest_strings.specs.References.{joined};
ghost use Rattle.guest_strings.specs.declared.reference.Reference.{Reference};
ghost use Rattle.guest_strings.specs.Slices.{guest_string};
ghost use Rattle.guest_strings.specs.ToCome.{all_uses, listed, to_come};
ghost use Rattle.guest_strings.specs.Wanting.{StringWants};

use crate::access_kinds::AccessKinds;
use crate::reference::Reference;
use crate::round::Round;
use crate::uses::Uses;
use flat_machine::FlatProcess;
use machine_limits::MOST_PROCESSES;
use std::alloc::AllocError;

/// The string of references of processes that run by slices. It holds the processes, and no part of the string.
#[derive(Drop)]
pub struct GuestString {
    uses: Uses,
    /// The last reference: the next one may be to the same page.
    held: Option<Reference>,
}

impl GuestString {
    /// The string of processes, of the references that are kept, by slices of so many instructions, of up to so many instructions in all.
    #[tactic(auto, unfolding(crate::specs::Slices::guest_string))]
    pub fn new(processes: Vec<FlatProcess>, accesses: AccessKinds, slice: u32, limit: u64) -> Self
        requires { length processes.items ≤ MOST_PROCESSES }
        ensures string { to_come result ≡ guest_string accesses slice limit processes.items }
    {
        GuestString {
            uses: Uses::new(Round::new(processes, accesses, slice, limit)),
            held: None,
        }
    }

    /// The next reference of the string, or `None` at its end. After an error no more is said of the string.
    pub fn next(&mut self) -> Result<Option<Reference>, AllocError>
        ensures next { IfOk result (λ next. to_come self.old ≡ listed next ++ to_come self.new) }
        ensures end { IfOk result (λ next. next ≡ None → to_come self.new ≡ []) }
        ensures memory { OnErr result (StringWants self.new) }
    {
        'uses: while let Some(next) = self.uses.next()? {
            if let Some(held) = self.hold(next) {
                return Ok(Some(held));
            }
        }
        Ok(self.held.take())
    }

    /// Takes a reference in. The one that was held is done where the new one is to another page.
    fn hold(&mut self, next: Reference) -> Option<Reference>
        ensures string { (string : List Reference) →
            joined (listed self.old.held ++ (next ∷ string)) ≡ listed result ++
            joined (listed self.new.held ++ string) }
        ensures same { self.new.uses ≡ self.old.uses }
    {
        let Some(held) = self.held else {
            self.held = Some(next);
            return None;
        };
        if held.is_to_page_of(next) {
            self.held = Some(held.and(next));
            return None;
        }
        self.held = Some(next);
        Some(held)
    }
}
