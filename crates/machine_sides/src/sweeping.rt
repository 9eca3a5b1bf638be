//! One question of the replacement list, answered by the page's accessed bit; a victim is unmapped.

ghost use Rattle.std.specs.Prelude.{◌≡◌, ◌<◌, ◌^◌, true, Some, None};
ghost use Rattle.clock_policy.specs.ClockPro.{question_of};
ghost use Rattle.clock_policy.specs.Lawful.{Lawful};
ghost use Rattle.machine_sides.specs.Agreeing.{AgreeStill, AsksOf};
ghost use Rattle.machine_sides.specs.Sweeping.{bit_at, Evicts, ReadsBit, Sweeps};
ghost use Rattle.paged_memory.specs.moves.Stages.{is_resident_stage};
ghost use Rattle.paged_memory.specs.Whole.{stage_in};

use crate::pager_side::PagerSide;
use clock_policy::{Bit, Clock, Key, Verdict};
use page_memory::PAGE_COUNT;
use space_core::Space;
use std::sync::ledger::Ledger;
use swap_slots::SwapSlot;

/// What came of a question of the list.
#[derive(Clone, Copy, PartialEq, Eq, Debug)]
pub enum Swept {
    /// No page is resident.
    NothingResident,
    /// The list asked for a page, and goes on.
    Asked { key: Key, bit: Bit },
    /// The page that the list asked for begins to leave its frame.
    Victim(Key),
}

/// Asks the list, reads and clears the accessed bit of the page that it names, and answers with it. A victim is unmapped.
///
/// The process is the one of the page that the list names.
#[tactic(auto, using(crate::proofs::Agreements::sweep_agrees))]
pub fn sweep<L: Ledger, S: SwapSlot, C: Clock>(
    pager: &mut PagerSide<L, C>,
    process: &mut Space<L, S>,
) -> Swept
    ensures swept { Sweeps pager.old pager.new process.old process.new result }
    ensures agree { AsksOf pager.old.pager process.old →
        AgreeStill None pager.old.pager pager.new.pager process.old process.new }
{
    ask_and_answer(pager, process)
}

/// The question, the bit that answers it, and what becomes of the page.
fn ask_and_answer<L: Ledger, S: SwapSlot, C: Clock>(
    pager: &mut PagerSide<L, C>,
    process: &mut Space<L, S>,
) -> Swept
    ensures swept { Sweeps pager.old pager.new process.old process.new result }
    ensures lawful { Lawful pager.old.pager.list }
{
    let Some(key) = pager.question() else {
        return Swept::NothingResident;
    };
    let bit = read_bit(process, key.vpn);
    let Ok(verdict) = pager.pager.answer(bit) else {
        unreachable!()
    };
    let Verdict::Victim(_) = verdict else {
        return Swept::Asked { key, bit };
    };
    evict(process, key.vpn);
    Swept::Victim(key)
}

/// Reads and clears a page's accessed bit.
fn read_bit<L: Ledger, S: SwapSlot>(space: &mut Space<L, S>, vpn: u32) -> Bit
    ensures bit { result ≡ bit_at space.old vpn }
    ensures read { ReadsBit result vpn space.old space.new }
{
    if vpn >= PAGE_COUNT {
        return Bit::Gone;
    }
    match space.test_and_clear(vpn) {
        None => Bit::Gone,
        Some(false) => Bit::Zero,
        Some(true) => Bit::One,
    }
}

/// A resident page begins to leave its frame.
#[tactic(auto, using(paged_memory::proofs::move_laws::MovingLaws::same_reserved))]
fn evict<L: Ledger, S: SwapSlot>(space: &mut Space<L, S>, vpn: u32)
    requires small { vpn < 2 ^ 20 }
    requires resident { is_resident_stage (stage_in space.old.memory vpn) ≡ true }
    ensures evicts { Evicts vpn space.old space.new }
{
    if space.begin_evict(vpn).is_err() {
        unreachable!()
    }
}
