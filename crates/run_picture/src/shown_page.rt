//! A page as a picture shows it.

ghost use Rattle.std.specs.Prelude.{◌≡◌, IfOk, map};
ghost use Rattle.run_picture.specs.Pictures.{shown_in};

use clock_policy::{Clock, Key};
use machine_core::Core;
use paged_memory::PageStatus;
use std::alloc::{AllocError, Global};
use std::sync::ledger::Ledger;
use swap_slots::SwapSlot;

/// A page with what the machine shows of it: nothing where it is not mapped.
#[derive(Clone, Copy, PartialEq, Eq, Debug)]
pub struct ShownPage {
    pub key: Key,
    pub status: Option<PageStatus>,
}

/// These pages of a machine.
pub(crate) fn shown_pages<L: Ledger, S: SwapSlot, C: Clock>(
    alloc: Global,
    core: &Core<L, S, C>,
    pages: &[Key],
) -> Result<Vec<ShownPage>, AllocError>
    ensures { IfOk result (λ shown. shown.items ≡ map (shown_in core.now) pages.now) }
{
    let mut shown = Vec::new(alloc);
    'pages: for key in pages {
        shown.push(show(core, *key))?;
    }
    Ok(shown)
}

fn show<L: Ledger, S: SwapSlot, C: Clock>(core: &Core<L, S, C>, key: Key) -> ShownPage
    ensures { result ≡ shown_in core.now key }
{
    ShownPage {
        key,
        status: core.status(key.process, key.vpn),
    }
}
