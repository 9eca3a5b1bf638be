//! Accesses to memory: the page of each, where memory allows it.
ghost use Rattle.std.specs.Prelude.{◌≡◌, is_ok};
ghost use Rattle.page_memory.specs.Words.{bytes_in};
ghost use Rattle.page_memory.specs.Pages.{usable};
ghost use Rattle.page_memory.specs.declared.words.Access.{Access};
ghost use Rattle.rv_exec.specs.Uses.{load_pages, store_pages, amo_pages};
ghost use Rattle.guest_strings.specs.Told.{listed, page_where};

use page_memory::{FlatMemory, Width, page_of};
use rv_exec::{width_of_load, width_of_store};
use rv_isa::{AmoKind, LoadKind, StoreKind};

/// Whether the page of an address may be loaded from.
#[tactic(auto, using(crate::proofs::AccessPages::copied_where))]
pub(crate) fn may_load(memory: &FlatMemory, address: u32) -> bool
    ensures { result ≡ is_ok (usable memory.now.pages Access.Load address) }
{
    memory.copy_out(address, &mut []).is_ok()
}

/// Whether the page of an address may be stored to.
#[tactic(auto, using(crate::proofs::AccessPages::replaced_where))]
pub(crate) fn may_store(memory: &FlatMemory, address: u32) -> bool
    ensures { result ≡ is_ok (usable memory.now.pages Access.Store address) }
{
    memory.load_to_replace(address - address % 4).is_ok()
}

/// The page of an access, where it is aligned and the page has the right.
pub(crate) fn page_where(may_use: bool, width: Width, address: u32) -> Option<u32>
    ensures { listed result ≡ page_where may_use (bytes_in width) address }
{
    if address % width.bytes() != 0 {
        return None;
    }
    if may_use {
        Some(page_of(address))
    } else {
        None
    }
}

/// The page of a load.
#[tactic(auto, using(crate::proofs::AccessPages::load_where))]
pub(crate) fn page_of_load(memory: &FlatMemory, kind: LoadKind, address: u32) -> Option<u32>
    ensures { listed result ≡ load_pages memory.now kind address }
{
    page_where(may_load(memory, address), width_of_load(kind), address)
}

/// The page of a store, whatever the word.
#[tactic(auto, using(crate::proofs::AccessPages::store_where))]
pub(crate) fn page_of_store(
    memory: &FlatMemory,
    kind: StoreKind,
    address: u32,
    word: u32,
) -> Option<u32>
    ensures { listed result ≡ store_pages memory.now kind address word }
{
    page_where(may_store(memory, address), width_of_store(kind), address)
}

/// The page of an atomic memory operation, whatever the operation.
#[tactic(auto, using(crate::proofs::AccessPages::amo_where))]
pub(crate) fn page_of_amo(
    memory: &FlatMemory,
    kind: AmoKind,
    address: u32,
    operand: u32,
) -> Option<u32>
    ensures { listed result ≡ amo_pages memory.now kind address operand }
{
    page_where(may_store(memory, address), Width::Word, address)
}
