//! Where a cache looks first for the entry of a page. A wrong hint costs only time.

ghost use Rattle.std.specs.Prelude.{◌<◌, ◌≤◌, length};

use crate::translation::Translation;

/// How many hints there are: as many pages in a row have one each.
const HINTS: usize = 256;

/// Where in a list the entries of pages were last put, by the pages' low bits. Nothing rests on a hint.
#[derive(Drop)]
pub(crate) struct Hints {
    /// Counted from the first entry that ever was, modulo 256.
    places: [u8; HINTS],
    /// How many first entries have gone since, modulo 256.
    gone: u8,
}

impl Hints {
    pub fn new() -> Hints {
        Hints {
            places: [0; HINTS],
            gone: 0,
        }
    }

    /// Where to look for the entry of a page first.
    #[inline]
    pub fn place(&self, page: u32) -> usize {
        usize::from(self.places[(page as usize) % HINTS].wrapping_sub(self.gone))
    }

    /// The entry of a page was put at this place.
    pub fn put(&mut self, page: u32, place: usize)
        requires { place < 256 }
    {
        self.places[(page as usize) % HINTS] = (place as u8).wrapping_add(self.gone);
    }

    /// The entries are in this order.
    pub fn set(&mut self, entries: &[Translation])
        requires { length entries.now ≤ 16 }
    {
        for (place, entry) in entries.iter().enumerate() {
            self.put(entry.page, place);
        }
    }

    /// The first entry is gone, and each other is one place before.
    pub fn first_is_gone(&mut self) {
        self.gone = self.gone.wrapping_add(1);
    }
}
