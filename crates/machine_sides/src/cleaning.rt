//! Cleans a changed page while it stays in use: the beginning, the copy, and the end when the copy is back.

ghost use Rattle.std.specs.Prelude.{◌≡◌, ◌<◌, ◌^◌, None, OnOk, OnErr, IfOk};
ghost use Rattle.paged_memory.specs.cleaning.Cleaning.{refused_of};
ghost use Rattle.paged_memory.specs.Paged.{memory_of};
ghost use Rattle.machine_sides.specs.Cleaning.{Copies, PageCopied, SpareBack, StartsCleaning};
ghost use Rattle.machine_sides.specs.Cleaning.{TakesCopyBack, clean_bars, copy_bars};

use page_memory::PAGE_COUNT;
use page_store::{CleanCopy, CleanJob, CleanRefusal, Cleaned, CleanedJob};
use space_core::Space;
use std::sync::ledger::Ledger;
use swap_slots::{SlotPool, SwapSlot};
use thiserror::Error;

/// Why a page's cleaning does not begin, in the order in which the reasons are tested.
#[derive(Clone, Copy, PartialEq, Eq, Debug, Error)]
pub enum CleanBar {
    #[error("the process has ended")]
    Ended,
    #[error("the page is not resident")]
    NotResident,
    #[error("the page is not changed")]
    NotChanged,
    #[error("the page is being cleaned")]
    AlreadyCleaning,
}

/// Why no copy of a page is looked for, in the order in which the reasons are tested.
#[derive(Clone, Copy, PartialEq, Eq, Debug, Error)]
pub enum CopyBar {
    #[error("the process has ended")]
    Ended,
    #[error("the page is not being cleaned")]
    NotCleaning,
}

/// What came of the copy of a page that is being cleaned.
#[derive(Drop)]
pub enum Copying<S: SwapSlot> {
    /// A store was made since the cleaning began, which has ended.
    Stored,
    /// A cache lets a store be made that no dirty bit would show.
    NotYet,
    /// No slot is there for the page. Its cleaning has ended.
    NoSlot,
    /// The copy is to be written.
    Copied(CleanJob<S>),
}

/// Begins to clean a changed resident page; see [`space_core::Space::begin_clean`]. A refusal changes nothing.
pub fn begin_clean<L: Ledger, S: SwapSlot>(
    space: &mut Space<L, S>,
    vpn: u32,
) -> Result<(), CleanBar>
    ensures starts { OnOk result (StartsCleaning vpn space.old space.new) }
    ensures barred { refused_of result ≡ clean_bars space.old vpn }
    ensures err { OnErr result (space.new ≡ space.old) }
    ensures memory { memory_of S.content space.new.memory ≡
        memory_of S.content space.old.memory }
{
    if space.end().is_some() {
        return Err(CleanBar::Ended);
    }
    if vpn >= PAGE_COUNT {
        return Err(CleanBar::NotResident);
    }
    match space.begin_clean(vpn) {
        Ok(()) => Ok(()),
        Err(CleanRefusal::NotResident) => Err(CleanBar::NotResident),
        Err(CleanRefusal::NotChanged) => Err(CleanBar::NotChanged),
        Err(CleanRefusal::AlreadyCleaning) => Err(CleanBar::AlreadyCleaning),
    }
}

/// Copies a page that is being cleaned, if it may be; see [`space_core::Space::copy_clean`]. A slot is taken from the free
/// ones only for a page that has none. A refusal changes nothing.
pub fn copy_clean<L: Ledger, S: SwapSlot>(
    space: &mut Space<L, S>,
    vpn: u32,
    slots: &mut SlotPool<S>,
) -> Result<Copying<S>, CopyBar>
    ensures copies { IfOk result (Copies vpn space.old space.new slots.old slots.new) }
    ensures barred { refused_of result ≡ copy_bars space.old vpn }
    ensures err { OnErr result (space.new ≡ space.old) }
    ensures slots { OnErr result (slots.new ≡ slots.old) }
    ensures memory { memory_of S.content space.new.memory ≡
        memory_of S.content space.old.memory }
{
    if space.end().is_some() {
        return Err(CopyBar::Ended);
    }
    if vpn >= PAGE_COUNT {
        return Err(CopyBar::NotCleaning);
    }
    match copy_page(space, vpn, slots) {
        CleanCopy::NotCleaning => Err(CopyBar::NotCleaning),
        CleanCopy::Stored => Ok(Copying::Stored),
        CleanCopy::NotYet => Ok(Copying::NotYet),
        CleanCopy::NoSlot => Ok(Copying::NoSlot),
        CleanCopy::Copied(job) => Ok(Copying::Copied(job)),
    }
}

/// The copy itself, with a free slot at hand, which goes back where it is not taken.
fn copy_page<L: Ledger, S: SwapSlot>(
    space: &mut Space<L, S>,
    vpn: u32,
    slots: &mut SlotPool<S>,
) -> CleanCopy<S>
    requires small { vpn < 2 ^ 20 }
    requires live { space.old.running.ending ≡ None }
    ensures copied { PageCopied vpn result space.old space.new slots.old slots.new }
    ensures memory { memory_of S.content space.new.memory ≡
        memory_of S.content space.old.memory }
{
    // For the proof only: a pool holds no more than it was made of.
    let _ = slots.len();
    let mut spare = slots.take();
    let copied = space.copy_clean(vpn, &mut spare);
    put_back(slots, spare);
    copied
}

/// Ends the cleaning of a page whose copy comes back; see [`space_core::Space::cleaned`].
pub fn cleaned<L: Ledger, S: SwapSlot>(space: &mut Space<L, S>, job: CleanedJob<S>) -> Cleaned<S>
    ensures ends { TakesCopyBack job result space.old space.new }
    ensures memory { memory_of S.content space.new.memory ≡
        memory_of S.content space.old.memory }
{
    space.cleaned(job)
}

/// A slot that was taken from the pool and is not used goes back.
fn put_back<S: SwapSlot>(slots: &mut SlotPool<S>, spare: Option<S>)
    ensures { SpareBack spare slots.old slots.new }
{
    if let Some(slot) = spare {
        let _ = slots.give(slot);
    }
}
