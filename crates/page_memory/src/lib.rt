//! Words, pages and rights, and the memory made of them: the floor that every other crate stands on.
//!
//! An address is a 32-bit word. Its upper 20 bits number a page of 4096 bytes, its lower 12 bits are
//! the offset in that page. A memory is a finite map from page numbers to pages, and each page has a
//! set of rights.
#![tactic(auto)]

mod allowed;
mod fault;
mod flat_memory;
mod flat_pages;
mod page;
mod page_bytes;
mod page_index;
mod page_map;
mod page_row;
mod recent_pages;
mod reply;
mod reservations;
mod rights;
mod words;
mod zeroing;

pub use fault::MemoryFault;
pub use flat_memory::FlatMemory;
pub use page::Page;
pub use page_bytes::{number, number_from, put_bytes, put_number_from};
pub use page_index::PageIndex;
pub use page_map::PageMap;
pub use recent_pages::{RecentPage, RecentPages};
pub use reservations::Reservations;
pub use rights::Rights;
pub use words::{Access, PAGE_COUNT, PAGE_SIZE, Width, offset_in_page, offset_past, page_of};
pub use zeroing::ZeroPage;
