//! Adds pages of zeros to a map of pages, wherever none is: all of them, or none if memory runs out.

ghost use Rattle.std.specs.Prelude.{◌≡◌, ◌+◌, ◌≤◌, ◌^◌, ◌<◌, None, OnOk, OnErr, IsErr};
ghost use Rattle.page_memory.specs.Entries.{place_of, added, with_added, LacksOne};
ghost use Rattle.page_memory.specs.Rights.{read_write};

use crate::page_map::PageMap;
use crate::rights::Rights;
use std::alloc::{AllocError, Global};

/// What a map keeps for a page of zeros that may be read and written.
pub trait ZeroPage: Drop {
    /// All that are made are alike.
    ghost zero_page: { Self };

    /// What is kept for a new one.
    fn zero_page() -> Self
        ensures { result ≡ zero_page };
}

impl ZeroPage for Rights {
    ghost zero_page = { read_write };

    fn zero_page() -> Rights {
        Rights::READ_WRITE
    }
}

impl<T: ZeroPage> PageMap<T> {
    /// Adds a page of zeros at each of so many page numbers from the first on that has none, or at none where memory is
    /// wanting, as it can be only where one is missing.
    #[tactic(auto, using(crate::proofs::EntriesLaws::front_stays, crate::proofs::EntriesLaws::lacks_one), unfolding(crate::specs::Entries::with_added))]
    pub fn add_zeroed(&mut self, alloc: Global, first: u32, count: u32) -> Result<(), AllocError>
        requires { first + count ≤ 2 ^ 20 }
        ensures ok { OnOk result (self.new ≡ with_added first count T.zero_page self.old) }
        ensures err { OnErr result (self.new ≡ self.old) }
        ensures missing { IsErr result → LacksOne first count self.old }
    {
        let before = self.len();
        for number in first..first + count {
            if self.add_zero_page(alloc, number).is_err() {
                self.truncate(before);
                return Err(AllocError);
            }
        }
        Ok(())
    }

    /// Adds a page of zeros at a page number that has none.
    #[tactic(auto, using(crate::proofs::EntriesLaws::added_behind), unfolding(crate::specs::Entries::added))]
    fn add_zero_page(&mut self, alloc: Global, number: u32) -> Result<(), AllocError>
        requires { number < 2 ^ 20 }
        ensures ok { OnOk result (self.new ≡ added number T.zero_page self.old) }
        ensures err { OnErr result (self.new ≡ self.old) }
        ensures absent { IsErr result → place_of number self.old ≡ None }
    {
        if self.place(number).is_some() {
            return Ok(());
        }
        self.insert(alloc, number, T::zero_page())?;
        Ok(())
    }
}
