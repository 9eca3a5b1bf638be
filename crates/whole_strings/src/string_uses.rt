//! When each page of a string is used again.

ghost use Rattle.std.specs.Prelude.{◌≡◌, ◌-◌, ◌≤◌, ◌+◌, Some, cond, IfOk, OnOk};
ghost use Rattle.std.specs.HashMap.{get};
ghost use Rattle.clock_policy.specs.declared.key.Key.{Key};
ghost use Rattle.page_policies.specs.Strings.{is_page};
ghost use Rattle.page_policies.specs.NextUses.{next_uses, known};

use clock_policy::Key;
use std::alloc::{AllocError, Global};
use std::collections::HashMap;

/// How many references come before the page's next use, where so many were seen from the string's end on.
fn next_use(ends: &HashMap<Key, usize>, seen: usize, page: Key) -> usize
    ensures { result ≡ seen - known (get is_page ends.now page) }
{
    match ends.get(&page) {
        Some(end) => seen.saturating_sub(*end),
        None => seen,
    }
}

/// The page was met.
pub(crate) fn note(ends: &mut HashMap<Key, usize>, page: Key, end: usize) -> Result<(), AllocError>
    ensures { OnOk result ((q : Key) → get is_page ends.new q ≡ cond (is_page page q) (Some end)
        (get is_page ends.old q)) }
{
    match ends.insert(page, end) {
        Ok(_) => Ok(()),
        Err(_) => Err(AllocError),
    }
}

/// For each reference of a string how many others come before its page is used again; where it never is, how many others there are.
pub fn next_uses(alloc: Global, string: &[Key]) -> Result<Vec<usize>, AllocError>
    ensures { IfOk result (λ uses. uses.items ≡ next_uses string.now) }
{
    let mut ends = HashMap::new(alloc);
    let mut uses = Vec::with_capacity(alloc, string.len())?;
    for seen in 0..string.len() {
        let page = string[string.len() - 1 - seen];
        uses.push(next_use(&ends, seen, page))?;
        note(&mut ends, page, seen + 1)?;
    }
    uses.reverse();
    Ok(uses)
}
