//! What bounds an image.

/// The first address that no image may have.
pub(crate) const END_OF_RANGE: u64 = 0x7000_0000;

/// The number of the page that begins there.
pub(crate) const END_PAGE: u32 = (END_OF_RANGE / 4096) as u32;

/// The most pages that an image may have.
pub(crate) const MOST_PAGES: usize = 4032;

/// The most regions of 4 MiB in which these may lie.
pub(crate) const MOST_REGIONS: usize = 56;

/// How many pages lie in a region of 4 MiB.
pub(crate) const REGION_PAGES: u32 = 1024;
