//! The bus through which instructions reach memory: each call is one access, and may report an absent page.

ghost use Rattle.std.specs.Prelude.{◌≡◌, ℕ, Bool, ◌+◌, ◌^◌, ◌<◌, ◌≤◌, [], length, OnOk, OnErr};
ghost use Rattle.std.specs.Prelude.{IsErr, List, ◌∷◌};
ghost use Rattle.page_memory.specs.declared.words.Access.{Access};
ghost use Rattle.page_memory.specs.declared.words.Width.{Width};
ghost use Rattle.page_memory.specs.Words.{page_number, page_offset};
ghost use Rattle.page_memory.specs.Memory.{Memory, fetched, loaded, stored, replaced};
ghost use Rattle.page_memory.specs.Memory.{loaded_reserved, stored_conditionally, copied_out};
ghost use Rattle.page_memory.specs.Memory.{copied_in, with_zeroed};
ghost use Rattle.page_memory.specs.Pages.{HasGap};

use page_memory::{MemoryFault, Width};
use rv_isa::AmoKind;
use std::alloc::AllocError;

/// Why a bus refuses an access. It has changed neither memory nor what a `&mut` slice holds.
#[derive(Clone, Copy, Debug, PartialEq, Eq)]
pub enum BusError {
    /// Memory refuses it, whatever lies where.
    Fault(MemoryFault),
    /// Memory allows it, but this page, by number, has to be brought in first.
    Absent(u32),
}

impl From<MemoryFault> for BusError {
    ghost use Rattle.rv_exec.specs.declared.bus.BusError.TheVariants.{Fault};

    ghost from_gives = { λ fault refusal. refusal ≡ Fault fault };

    fn from(fault: MemoryFault) -> BusError {
        BusError::Fault(fault)
    }
}

/// What instructions reach memory through: each call is one access, and memory is flat.
///
/// A bus may answer that a page is absent, and then it is to be asked again once the page is there.
pub trait Bus {
    ghost use Rattle.rv_exec.specs.Answers.{Answers, with_answer};
    ghost use Rattle.rv_exec.specs.Amo.{amo_result};
    ghost use Rattle.rv_exec.specs.Bounds.{Bounds};
    ghost use Rattle.rv_exec.specs.Leaves.{Leaves, MissedBefore};
    ghost use Rattle.rv_exec.specs.Uses.{page_of_access};

    /// The memory that the bus represents.
    ghost memory: { Self → Memory };

    /// The pages that it may answer absent: those that it does not hold, mapped or not.
    ghost lacks: { Self → ℕ → Type 0 };

    /// The pages that it may answer from.
    ghost has: { Self → ℕ → Type 0 };

    /// The pages whose use it has marked.
    ghost marks: { Self → ℕ → Type 0 };

    /// That no mark is set but of pages of which tests hold: of each page that is marked as used the first, and of
    /// each that is marked as stored to the second.
    ghost within: { Self → (ℕ → Bool) → (ℕ → Bool) → Type 0 };

    /// The pages that take stores: their marks show a store, or need not.
    ghost takes: { Self → ℕ → Type 0 };

    /// That a page is not at hand for an access of a kind, after accesses to these pages at the most.
    ghost misses: { Self → List ℕ → Access → ℕ → Type 0 };

    /// What holds of the bus before and after any calls; `memory` aside, all that stays.
    ghost keeps: { Self → Self → Type 0 };

    /// The word at an address, to be run.
    fn fetch(&mut self, address: u32) -> Result<u32, BusError>
        ensures answer { let expected = fetched (memory self.old) address in
            Answers (has self.old) (marks self.new) (lacks self.old) address expected result }
        ensures same { memory self.new ≡ memory self.old }
        ensures bound { let pages = page_of_access address (fetched (memory self.old) address) in
            Bounds (within self.old) (within self.new) pages [] }
        ensures leaves { Leaves (MissedBefore (misses self.old) (misses self.new)
            (page_number address)) (misses self.old [] Access.Fetch) result }
        ensures kept { keeps self.old self.new };

    /// The number at an address, not extended.
    fn load(&mut self, width: Width, address: u32) -> Result<u32, BusError>
        ensures answer { let expected = loaded (memory self.old) width address in
            Answers (has self.old) (marks self.new) (lacks self.old) address expected result }
        ensures same { memory self.new ≡ memory self.old }
        ensures bound { let pages = page_of_access address (loaded (memory self.old) width address)
            in Bounds (within self.old) (within self.new) pages [] }
        ensures leaves { Leaves (Unit {0}) (misses self.old [] Access.Load) result }
        ensures kept { keeps self.old self.new };

    /// Stores the low bytes of a word.
    fn store(&mut self, width: Width, address: u32, word: u32) -> Result<(), BusError>
        ensures answer { let expected = stored (memory self.old) width address word in
            let after = with_answer (λ _. memory self.new) result in
            Answers (has self.old) (marks self.new) (lacks self.old) address expected after }
        ensures refused { OnErr result (memory self.new ≡ memory self.old) }
        ensures bound { let pages = page_of_access address
            (stored (memory self.old) width address word) in
            Bounds (within self.old) (within self.new) pages pages }
        ensures leaves { Leaves (takes self.new (page_number address))
            (misses self.old [] Access.Store) result }
        ensures kept { keeps self.old self.new };

    /// Replaces the word at an address by the operation's result, in one step, and answers the old word.
    fn amo(&mut self, address: u32, operation: AmoKind, operand: u32) -> Result<u32, BusError>
        ensures answer { let update = λ (old : ℕ). amo_result operation old operand in
            let expected = replaced (memory self.old) update address in
            let after = with_answer (λ old. (old, memory self.new)) result in
            Answers (has self.old) (marks self.new) (lacks self.old) address expected after }
        ensures refused { OnErr result (memory self.new ≡ memory self.old) }
        ensures bound { let pages = page_of_access address (replaced (memory self.old)
            (λ (old : ℕ). amo_result operation old operand) address) in
            Bounds (within self.old) (within self.new) pages pages }
        ensures leaves { Leaves (takes self.new (page_number address))
            (misses self.old [] Access.Store) result }
        ensures kept { keeps self.old self.new };

    /// Loads the word at an address, and reserves it for the hart of a number.
    fn load_reserved(&mut self, hart: u32, address: u32) -> Result<u32, BusError>
        ensures answer { let expected = loaded_reserved (memory self.old) hart address in
            let after = with_answer (λ word. (word, memory self.new)) result in
            Answers (has self.old) (marks self.new) (lacks self.old) address expected after }
        ensures refused { OnErr result (memory self.new ≡ memory self.old) }
        ensures bound { let pages = page_of_access address
            (loaded (memory self.old) Width.Word address) in
            Bounds (within self.old) (within self.new) pages [] }
        ensures leaves { Leaves (Unit {0}) (misses self.old [] Access.Load) result }
        ensures kept { keeps self.old self.new };

    /// Stores a word where the hart of a number has reserved it, and answers whether it has. The hart's reservation goes.
    fn store_conditional(&mut self, hart: u32, address: u32, word: u32) -> Result<bool, BusError>
        ensures answer { let expected = stored_conditionally (memory self.old) hart address word in
            let after = with_answer (λ is_stored. (is_stored, memory self.new)) result in
            Answers (has self.old) (marks self.new) (lacks self.old) address expected after }
        ensures refused { OnErr result (memory self.new ≡ memory self.old) }
        ensures bound { let pages = page_of_access address
            (stored (memory self.old) Width.Word address word) in
            Bounds (within self.old) (within self.new) pages pages }
        ensures leaves { Leaves (takes self.new (page_number address))
            (misses self.old [] Access.Store) result }
        ensures kept { keeps self.old self.new };

    /// Copies bytes of one page to a slice.
    fn copy_out(&mut self, address: u32, to: &mut [u8]) -> Result<(), BusError>
        requires within { page_offset address + length to.old ≤ 4096 }
        ensures answer { let expected = copied_out (memory self.old) address (length to.old) in
            let copied = with_answer (λ _. to.new) result in
            Answers (has self.old) (marks self.new) (lacks self.old) address expected copied }
        ensures refused { OnErr result (to.new ≡ to.old) }
        ensures same { memory self.new ≡ memory self.old }
        ensures bound { let pages = page_of_access address (copied_out (memory self.old) address
            (length to.old)) in Bounds (within self.old) (within self.new) pages [] }
        ensures leaves { Leaves (Unit {0}) (misses self.old [] Access.Load) result }
        ensures kept { keeps self.old self.new };

    /// Copies a slice into one page.
    fn copy_in(&mut self, address: u32, from: &[u8]) -> Result<(), BusError>
        requires within { page_offset address + length from.now ≤ 4096 }
        ensures answer { let expected = copied_in (memory self.old) address from.now in
            let after = with_answer (λ _. memory self.new) result in
            Answers (has self.old) (marks self.new) (lacks self.old) address expected after }
        ensures refused { OnErr result (memory self.new ≡ memory self.old) }
        ensures bound { let pages = page_of_access address
            (copied_in (memory self.old) address from.now) in
            Bounds (within self.old) (within self.new) pages pages }
        ensures leaves { Leaves (takes self.new (page_number address))
            (misses self.old [] Access.Store) result }
        ensures kept { keeps self.old self.new };

    /// Maps readable and writable pages of zeros at so many page numbers from the first on, wherever none is mapped.
    /// It maps all of them, or none where there is not enough memory. Memory can be lacking only where a page is missing.
    fn map_zeroed(&mut self, first: u32, count: u32) -> Result<(), AllocError>
        requires within { first + count ≤ 2 ^ 20 }
        ensures mapped { OnOk result (memory self.new ≡ with_zeroed first count (memory self.old)) }
        ensures refused { OnErr result (memory self.new ≡ memory self.old) }
        ensures missing { IsErr result → HasGap first count (memory self.old).pages }
        ensures bound { Bounds (within self.old) (within self.new) [] [] }
        ensures kept { keeps self.old self.new };

    // `keeps` is a preorder; no page is lacked or had after it that was not before, and what is marked stays so,
    // and what takes stores does.
    ghost keeps_itself: { (bus : Self) → keeps bus bus };

    ghost keeps_on: { (before between after : Self) → keeps before between →
        keeps between after → keeps before after };

    ghost lacked_before: { (before after : Self) (page : ℕ) → keeps before after →
        lacks after page → lacks before page };

    ghost had_before: { (before after : Self) (page : ℕ) → keeps before after →
        has after page → has before page };

    ghost marked_on: { (before after : Self) (page : ℕ) → keeps before after →
        marks before page → marks after page };

    ghost takes_on: { (before after : Self) (page : ℕ) → keeps before after →
        takes before page → takes after page };
}
