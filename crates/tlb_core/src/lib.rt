//! The translations that a hart has cached: a bounded list, one for each page, of which the oldest goes first.
//!
//! The list is in an array of twice its capacity, so that no entry moves when the oldest goes. Only the list decides what a
//! cache answers. A table of hints says where in the list a page was last put: a hint is tested before it is used,
//! so that it makes a look-up fast and changes no answer. How many entries have pages of the same low bits is counted, so that
//! a page of whose bits there is none is not looked for. And the pages that were used last are ready: an access of the same
//! kind finds its page's place by one comparison, which tests page, right and alignment, for as long as the list has the
//! entry. No call takes memory.
#![tactic(auto)]

mod crowds;
mod entries;
mod hints;
mod tlb;
mod translation;

pub use tlb::{Spot, TLB_ENTRIES, Tlb};
pub use translation::Translation;
