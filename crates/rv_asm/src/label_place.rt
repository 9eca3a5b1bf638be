//! The place of a label: its section, and its offset there in bytes.

use asm_statements::Section;

/// Where a label is: its section, and how many bytes the section has before it.
#[derive(Clone, Copy, Debug, PartialEq, Eq)]
pub(crate) struct LabelPlace {
    pub(crate) section: Section,
    pub(crate) offset: u32,
}
