//! How many pages a string has.

ghost use Rattle.std.specs.Prelude.{◌≡◌, ◌≤◌, IfOk, OnOk, cond, true};
ghost use Rattle.std.specs.HashSet.{contains};
ghost use Rattle.clock_policy.specs.declared.key.Key.{Key};
ghost use Rattle.page_policies.specs.Strings.{is_page};
ghost use Rattle.miss_counts.specs.StringPages.{pages_of};
ghost use Rattle.whole_strings.specs.PageCounts.{page_count};

use clock_policy::Key;
use guest_strings::Reference;
use std::alloc::{AllocError, Global};
use std::collections::HashSet;

/// How many pages a string refers to.
#[tactic(auto, unfolding(whole_strings::specs::PageCounts::page_count), using(crate::proofs::Seen::seen_more))]
pub fn count_pages(alloc: Global, string: &[Reference]) -> Result<usize, AllocError>
    ensures { IfOk result (λ count. count ≡ page_count (pages_of string.now)) }
{
    let mut seen = HashSet::new(alloc);
    let mut count = 0;
    'references: for reference in string {
        count += see(&mut seen, reference.page)?;
    }
    Ok(count)
}

/// The pages of references.
pub fn pages_in(alloc: Global, string: &[Reference]) -> Result<Vec<Key>, AllocError>
    ensures { IfOk result (λ pages. pages.items ≡ pages_of string.now) }
{
    let mut pages = Vec::with_capacity(alloc, string.len())?;
    'references: for reference in string {
        pages.push(reference.page)?;
    }
    Ok(pages)
}

/// The page is seen. How many pages are seen for the first time: 1 or none.
pub fn see(seen: &mut HashSet<Key>, page: Key) -> Result<usize, AllocError>
    ensures new { IfOk result (λ new. new ≡ cond (contains is_page seen.old page) 0 1) }
    ensures few { IfOk result (λ new. new ≤ 1) }
    ensures seen { OnOk result ((q : Key) → contains is_page seen.new q ≡
        cond (is_page page q) true (contains is_page seen.old q)) }
{
    match seen.insert(page) {
        Ok(true) => Ok(1),
        Ok(false) => Ok(0),
        Err(_) => Err(AllocError),
    }
}
