//! One cached translation: page, place, frame and rights, with its dirty and doomed marks.

ghost use Rattle.std.specs.Prelude.{◌≡◌, false};

use bitflags::Flags;
use page_memory::Rights;

/// What a hart has cached of a page's translation.
#[derive(Clone, Copy, PartialEq, Eq, Debug)]
pub struct Translation {
    /// The virtual page number.
    pub page: u32,
    /// Where the page is among its process's pages.
    pub place: usize,
    /// The physical page number of its frame.
    pub frame: u32,
    /// What the page may be used for.
    pub rights: Rights,
    /// Whether a store through this entry needs no walk: the leaf had its D set.
    pub dirty: bool,
    /// Whether the entry is to be dropped when the hart takes its notices.
    pub doomed: bool,
}

/// What is in a place that no entry has.
impl Default for Translation {
    fn default() -> Translation
        ensures { result ≡ record {
          page = 0;
          place = 0;
          frame = 0;
          rights = record { 0 = 0 };
          dirty = false;
          doomed = false;
        } }
    {
        Translation {
            page: 0,
            place: 0,
            frame: 0,
            rights: Rights::empty(),
            dirty: false,
            doomed: false,
        }
    }
}
