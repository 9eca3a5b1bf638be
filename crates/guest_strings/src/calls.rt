//! Environment calls: the page that a call copies bytes from or to.
ghost use Rattle.std.specs.Prelude.{◌≡◌};
ghost use Rattle.rv_exec.specs.Registers.{register};
ghost use Rattle.env_calls.specs.Calls.{call_of, call_pages, call_stores, read_pages, write_pages};
ghost use Rattle.env_calls.specs.Calls.{a1, a2, a7};
ghost use Rattle.guest_strings.specs.Yields.{is_yield};
ghost use Rattle.guest_strings.specs.Told.{used_page, stored_page, listed};

use crate::accesses::{may_load, may_store};
use crate::step_pages::{PageUse, loaded, stored};
use page_memory::{FlatMemory, page_of};
use rv_exec::Regs;

/// The numbers of the registers of a call's address, length and number.
const A1: u8 = 11;

const A2: u8 = 12;

const A7: u8 = 17;

/// The page that a call uses.
#[tactic(auto, unfolding(env_calls::specs::Calls::call_pages, env_calls::specs::Calls::call_stores, env_calls::specs::Calls::call_of))]
pub(crate) fn page_of_call(regs: &Regs, memory: &FlatMemory) -> Option<PageUse>
    ensures pages { used_page result ≡ call_pages regs.now memory.now }
    ensures stores { stored_page result ≡ call_stores regs.now memory.now }
{
    let address = regs.x(A1);
    let length = regs.x(A2);
    match regs.x(A7) {
        63 => stored(page_of_read(memory, address, length)),
        64 => loaded(page_of_write(memory, address, length)),
        _ => None,
    }
}

/// Whether the call lets others have their turn.
#[tactic(auto, unfolding(env_calls::specs::Calls::call_of))]
pub(crate) fn is_yield(regs: &Regs) -> bool
    ensures { result ≡ is_yield (call_of (register regs.now a7)) }
{
    regs.x(A7) == 124
}

/// The page to which a read copies the input.
#[tactic(auto, using(crate::proofs::CallPages::read_where), unfolding(env_calls::specs::Calls::read_pages))]
fn page_of_read(memory: &FlatMemory, address: u32, length: u32) -> Option<u32>
    ensures { listed result ≡ read_pages memory.now address length }
{
    if length == 0 {
        return None;
    }
    if may_store(memory, address) {
        Some(page_of(address))
    } else {
        None
    }
}

/// The page from which a write copies.
#[tactic(auto, using(crate::proofs::CallPages::write_where), unfolding(env_calls::specs::Calls::write_pages))]
fn page_of_write(memory: &FlatMemory, address: u32, length: u32) -> Option<u32>
    ensures { listed result ≡ write_pages memory.now address length }
{
    if length == 0 {
        return None;
    }
    if may_load(memory, address) {
        Some(page_of(address))
    } else {
        None
    }
}
