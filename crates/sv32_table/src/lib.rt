//! Sv32 page tables (privileged manual, "Sv32: Page-Based 32-bit Virtual-Memory Systems"), walked in user mode.
//!
//! `Tables` may hold any words, as `set` writes them, and its walk is the manual's over them. `PageTables` are those that
//! only mapping makes: they form a tree, and the contracts describe each page's entry.
#![tactic(auto)]

mod fault;
mod page_tables;
mod pte;
mod tables;
mod walk;

pub use fault::{MapFault, NoTable, WalkFault};
pub use page_tables::PageTables;
pub use pte::{Pte, Shape};
pub use tables::{MAX_TABLES, TABLE_PPN, Tables};
pub use walk::Leaf;
