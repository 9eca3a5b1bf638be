//! Memory, as far as accesses are served by pages that were used before.

ghost use Rattle.std.specs.Prelude.{◌≡◌, ℕ, Ok, IfSome, true, false};
ghost use Rattle.page_memory.specs.declared.words.Access.{Access};
ghost use Rattle.page_memory.specs.Memory.{Memory, loaded, stored};
ghost use Rattle.page_memory.specs.Words.{page_number};

use page_memory::{FlatMemory, Width};

/// What decoded instructions reach memory through. An access that is served changes nothing but the bytes it writes; one that is
/// not served has changed nothing, and may still be served by other means.
pub trait ReadyMemory {
    /// The memory that it represents.
    ghost memory: { Self → Memory };

    /// That a hart of a number may reach it.
    ghost admits: { ℕ → Self → Type 0 };

    /// That a page, by number, is at hand for a hart's accesses of a kind.
    ghost serves: { ℕ → Self → Access → ℕ → Type 0 };

    /// What stays over an access of a hart that is served, the bytes it writes aside.
    ghost stays: { ℕ → Self → Self → Type 0 };

    /// Whether the page of an address is at hand for instructions to be run from it.
    fn ready_fetch(&self, hart: u32, address: u32) -> bool
        requires hart { admits hart self.now }
        ensures { result ≡ true → serves hart self.now Access.Fetch (page_number address) };

    /// The number at an address, not extended.
    fn ready_load(&self, hart: u32, width: Width, address: u32) -> Option<u32>
        requires hart { admits hart self.now }
        ensures value { IfSome result (λ number. loaded (memory self.now) width address ≡ Ok number) }
        ensures served { IfSome result (λ _.
            serves hart self.now Access.Load (page_number address)) };

    /// Stores the low bytes of a word, and answers whether it has.
    fn ready_store(&mut self, hart: u32, width: Width, address: u32, word: u32) -> bool
        requires hart { admits hart self.old }
        ensures done { result ≡ true →
            stored (memory self.old) width address word ≡ Ok (memory self.new) }
        ensures served { result ≡ true →
            serves hart self.old Access.Store (page_number address) }
        ensures stayed { result ≡ true → stays hart self.old self.new }
        ensures other { result ≡ false → self.new ≡ self.old };

    // What stays does so where nothing is done; and after an access that is served the hart may reach it as before, and a page
    // that was at hand is so.
    ghost stays_itself: { (hart : ℕ) (memory : Self) → stays hart memory memory };

    ghost admits_on: { (hart : ℕ) (before after : Self) → stays hart before after →
        admits hart before → admits hart after };

    ghost serves_on: { (hart : ℕ) (before after : Self) (access : Access) (page : ℕ) →
        stays hart before after → serves hart before access page → serves hart after access page };
}

impl ReadyMemory for FlatMemory {
    ghost memory = { λ memory. memory };

    ghost admits = { λ _ _. Unit {0} };

    ghost serves = { λ _ _ _ _. Unit {0} };

    ghost stays = { λ _ _ _. Unit {0} };

    ghost stays_itself = { λ _ _. tt };

    ghost admits_on = { λ _ _ _ _ admitted. admitted };

    ghost serves_on = { λ _ _ _ _ _ _ served. served };

    #[inline(always)]
    fn ready_fetch(&self, hart: u32, address: u32) -> bool {
        let _ = hart;
        let _ = address;
        true
    }

    #[inline(always)]
    fn ready_load(&self, hart: u32, width: Width, address: u32) -> Option<u32> {
        let _ = hart;
        self.load_at_hand(width, address)
    }

    #[inline(always)]
    fn ready_store(&mut self, hart: u32, width: Width, address: u32, word: u32) -> bool {
        let _ = hart;
        self.store_at_hand(width, address, word)
    }
}
