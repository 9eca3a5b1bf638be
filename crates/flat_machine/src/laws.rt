//! What is so of definitions, whatever runs. These functions do nothing.

ghost use Rattle.std.specs.Prelude.{◌≡◌, ◌≢◌, ℕ, ◌≤◌, ◌<◌, ◌⊎◌, List, Some, None, length};
ghost use Rattle.std.specs.Prelude.{slice_index_or};
ghost use Rattle.std.specs.Ordering.{nat_cmp};
ghost use Rattle.std.specs.FinMap.{get, from_entries};
ghost use Rattle.page_memory.specs.Pages.{zero_page};
ghost use Rattle.elf_image.specs.declared.image.ImagePage.{ImagePage};
ghost use Rattle.elf_image.specs.Image.{ArePages};
ghost use Rattle.flat_machine.specs.Process.{Process, opening_pages, flat_run};
ghost use Rattle.flat_machine.specs.ByTurns.{by_turns, turns};
ghost use Rattle.flat_machine.specs.declared.schedule.Turn.{Turn};
ghost use Rattle.flat_machine.specs.Schedule.{rest_in_last, room};

/// A process begins with the pages of its image, with pages of zeros for its stack, and with no other page.
pub fn opening_has_pages()
    ensures image { (pages : List ImagePage) (i : ℕ) (d : ImagePage) → ArePages pages →
        i < length pages
        → get (from_entries {R = nat_cmp} (opening_pages pages)) (slice_index_or pages i d).number ≡
        Some (slice_index_or pages i d).page }
    ensures stack { (pages : List ImagePage) (number : ℕ) → ArePages pages → 524224 ≤ number →
        number < 524288
        → get (from_entries {R = nat_cmp} (opening_pages pages)) number ≡ Some zero_page }
    ensures none { (pages : List ImagePage) (number : ℕ) → ((i : ℕ) (d : ImagePage) →
        i < length pages → (slice_index_or pages i d).number ≢ number)
        → ((number < 524224) ⊎ (524288 ≤ number)) → get (from_entries {R = nat_cmp}
        (opening_pages pages)) number ≡ None }
{}

/// Steps that harts take by turns are the flat run of the schedule of those turns.
#[tactic(auto, using(crate::proofs::RunLaws::by_turns_run))]
pub fn turns_are_a_schedule()
    ensures { (n hart turn : ℕ) (before after : Process) →
        by_turns n hart before ≡ Some (turn, after) → flat_run (turns n hart before) before ≡
        Some after }
{}

/// A schedule takes no more instructions of a hart exactly where it has all its entries and the last of them takes none.
#[tactic(auto, using(crate::proofs::ScheduleLaws::no_room, crate::proofs::ScheduleLaws::no_room_where))]
pub fn schedule_is_full()
    ensures where_none { (turns : List Turn) (hart : ℕ) → length turns ≤ 1000000 →
        room turns hart ≡ 0 → (length turns ≡ 1000000) × (rest_in_last turns hart ≡ 0) }
    ensures none { (turns : List Turn) (hart : ℕ) → length turns ≡ 1000000 →
        rest_in_last turns hart ≡ 0 → room turns hart ≡ 0 }
{}
