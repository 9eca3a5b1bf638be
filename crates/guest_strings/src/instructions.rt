//! Instructions: the page of their data, or of the call that they make.
ghost use Rattle.std.specs.Prelude.{◌≡◌};
ghost use Rattle.guest_strings.specs.Told.{used_page, stored_page};
ghost use Rattle.guest_strings.specs.InsnPages.{insn_pages, insn_stores, insn_yields};

use crate::accesses::{page_of_amo, page_of_load, page_of_store};
use crate::calls::{is_yield, page_of_call};
use crate::step_pages::{PageUse, loaded, stored};
use page_memory::FlatMemory;
use rv_exec::Regs;
use rv_isa::{Insn, LoadKind, StoreKind};

/// The page that an instruction, or the call that it makes, loads or stores.
pub(crate) fn page_of_insn(regs: &Regs, memory: &FlatMemory, insn: Insn) -> Option<PageUse>
    ensures pages { used_page result ≡ insn_pages regs.now memory.now insn }
    ensures stores { stored_page result ≡ insn_stores regs.now memory.now insn }
{
    match insn {
        Insn::Load {
            kind,
            rd: _,
            rs1,
            offset,
        } => {
            let address = regs.address_at(rs1, offset);
            loaded(page_of_load(memory, kind, address))
        }
        Insn::Store {
            kind,
            rs1,
            rs2,
            offset,
        } => {
            let address = regs.address_at(rs1, offset);
            stored(page_of_store(memory, kind, address, regs.read(rs2)))
        }
        Insn::Amo {
            kind,
            acquire: _,
            release: _,
            rd: _,
            rs1,
            rs2,
        } => stored(page_of_amo(memory, kind, regs.read(rs1), regs.read(rs2))),
        Insn::LoadReserved {
            acquire: _,
            release: _,
            rd: _,
            rs1,
        } => loaded(page_of_load(memory, LoadKind::Lw, regs.read(rs1))),
        Insn::StoreConditional {
            acquire: _,
            release: _,
            rd: _,
            rs1,
            rs2,
        } => {
            let word = regs.read(rs2);
            stored(page_of_store(memory, StoreKind::Sw, regs.read(rs1), word))
        }
        Insn::Ecall => page_of_call(regs, memory),
        _ => None,
    }
}

/// Whether an instruction is a call that lets others have their turn.
pub(crate) fn yields(regs: &Regs, insn: &Insn) -> bool
    ensures { result ≡ insn_yields regs.now insn.now }
{
    match insn {
        Insn::Ecall => is_yield(regs),
        _ => false,
    }
}
