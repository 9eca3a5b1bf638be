//! A process on flat memory before its first step: image, stack, break and first registers.

ghost use Rattle.std.specs.Prelude.{◌≡◌, ◌++◌, map, IfOk, OnOk};
ghost use Rattle.std.specs.List.{range_with_len};
ghost use Rattle.std.specs.FinMap.{from_entries};
ghost use Rattle.page_memory.specs.Memory.{Memory, unreserved};
ghost use Rattle.page_memory.specs.MemoryMap.{first_stack_pointer};
ghost use Rattle.rv_exec.specs.Registers.{cleared, with_register};
ghost use Rattle.env_calls.specs.Calls.{sp};
ghost use Rattle.elf_image.specs.Image.{ArePages};
ghost use Rattle.flat_machine.specs.Process.{opening, first_break, opening_pages, image_entry};
ghost use Rattle.flat_machine.specs.Process.{stack_entry};
ghost use Rattle.flat_machine.specs.ImageCode.{HasImage};
ghost use Rattle.decoded_pages.specs.Code.{ShowsAll};

use crate::process::FlatProcess;
use decoded_pages::DecodedPages;
use elf_image::{Image, ImagePage};
use env_calls::Env;
use machine_limits::MOST_HARTS;
use page_memory::{FlatMemory, Page, Rights};
use rv_exec::Regs;
use rv_isa::Reg;
use shared_origins::SharedBytes;
use std::alloc::{AllocError, Global};
use std::sync::Arc;

/// Where the first hart's stack pointer begins.
const STACK_TOP: u32 = 0x7FFF_FFF0;

/// The number of the first page of the stack, which goes from 0x7FFC0000 to 0x7FFFFFFF.
pub const STACK_START: u32 = 0x7_FFC0;

const STACK_END: u32 = 0x8_0000;

/// How many pages the stack has.
pub const STACK_PAGES: u32 = STACK_END - STACK_START;

impl FlatProcess {
    /// A process that is to run an image on an input.
    #[tactic(auto, unfolding(crate::specs::Process::opening))]
    pub fn new(alloc: Global, image: &Image, input: Vec<u8>) -> Result<Self, AllocError>
        ensures { IfOk result (λ process. process ≡ opening image.now input.items) }
    {
        let mut harts = Vec::with_capacity(alloc, MOST_HARTS)?;
        harts.push_reserved(first_registers(image.entry()));
        let pages = image.pages();
        let memory = opening_memory(alloc, pages)?;
        let input = SharedBytes::new(alloc, input)?;
        let mapped = pages.len() as u32 + STACK_PAGES;
        let env = Env::new(alloc, input, first_break(pages), mapped);
        let decoded = Arc::new(alloc, decoded_pages_of(alloc, pages)?)?;
        Ok(FlatProcess {
            harts,
            env,
            memory,
            decoded,
            end: None,
        })
    }
}

/// What the first hart of an image begins with.
pub fn first_registers(entry: u32) -> Regs
    ensures { result ≡ with_register (cleared entry) sp first_stack_pointer }
{
    let mut regs = Regs::new(entry);
    let stack_pointer = Reg::from_index(2);
    regs.write(stack_pointer, STACK_TOP);
    regs
}

/// Where the break of a process is at first: after the highest page of its image.
#[tactic(auto, unfolding(crate::specs::Process::first_break))]
pub fn first_break(pages: &[ImagePage]) -> u32
    requires { ArePages pages.now }
    ensures { result ≡ first_break pages.now }
{
    match pages.last() {
        Some(highest) => (highest.number + 1) * 4096,
        None => 0,
    }
}

/// The memory of an image's pages and the stack.
fn opening_memory(alloc: Global, pages: &[ImagePage]) -> Result<FlatMemory, AllocError>
    requires { ArePages pages.now }
    ensures { IfOk result (λ memory. memory ≡ unreserved (from_entries (opening_pages pages.now))) }
{
    let mut memory = image_memory(alloc, pages)?;
    for number in STACK_START..STACK_END {
        let page = Page::zeroed(alloc, Rights::READ_WRITE)?;
        memory.map_page(number, page)?;
    }
    Ok(memory)
}

/// The memory of an image's pages, with room for the stack.
fn image_memory(alloc: Global, pages: &[ImagePage]) -> Result<FlatMemory, AllocError>
    requires { ArePages pages.now }
    ensures { IfOk result (λ memory. memory ≡ unreserved
        (from_entries (map image_entry pages.now))) }
{
    let mut memory = FlatMemory::with_capacity(alloc, pages.len() as u32 + STACK_PAGES)?;
    for listed in pages {
        let page = listed.page.to_page(alloc)?;
        memory.map_page(listed.number, page)?;
    }
    Ok(memory)
}

/// The decoded pages of an image: wherever memory has its pages, they show what memory has.
pub fn decoded_pages_of(alloc: Global, pages: &[ImagePage]) -> Result<DecodedPages, AllocError>
    requires { ArePages pages.now }
    ensures { IfOk result (λ decoded. (memory : Memory) → HasImage pages.now memory →
        ShowsAll decoded memory) }
{
    let mut decoded = DecodedPages::with_places(alloc, pages.len())?;
    for listed in pages {
        let page = &listed.page;
        decoded.add(alloc, listed.number, page.rights(), page.bytes())?;
    }
    Ok(decoded)
}
