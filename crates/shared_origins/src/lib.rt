//! The initial data of a process, for several holders: the pages of an image and an input. There is one copy, which is only read.
#![tactic(auto)]

mod shared_bytes;
mod shared_page;

pub use shared_bytes::SharedBytes;
pub use shared_page::SharedPage;
