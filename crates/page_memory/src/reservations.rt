//! Words that harts have reserved, and what ends their reservations.

ghost use Rattle.std.specs.Prelude.{◌≡◌, None, false, slice_set, slice_index_or, is_some};
ghost use Rattle.std.specs.List.{list_any};
ghost use Rattle.page_memory.specs.Reservations.{has_reserved, with_reserved, without_reserved, left_by, none_reserved, touches, unless_touched};

use machine_limits::MOST_HARTS;
use std::marker::Model;

/// The words that the harts of a process have reserved, one each (unprivileged manual, "Zalrsc").
#[derive(Drop)]
pub struct Reservations {
    by_hart: [Option<u32>; MOST_HARTS],
    /// Whether any may stand.
    any: bool,
}

impl Model for Reservations {
    ghost use Rattle.std.specs.Prelude.{◌≡◌, ℕ, false};
    ghost use Rattle.page_memory.specs.Reservations.{Reservations, none_reserved};
    ghost use Rattle.std.specs.Coded.{coded_ℕ, coded_list, coded_option};

    ghost Value = { Reservations };

    ghost coded = { coded_list (coded_option coded_ℕ) };

    ghost view = { λ reservations. reservations.by_hart };

    ghost invariant = { λ reservations. reservations.any ≡ false → reservations.by_hart ≡ none_reserved };
}

impl Reservations {
    /// No word is reserved.
    pub fn new() -> Self
        ensures { result ≡ none_reserved }
    {
        Reservations {
            by_hart: [None; MOST_HARTS],
            any: false,
        }
    }

    /// The same words, reserved once more.
    pub fn copied(&self) -> Self
        ensures { result ≡ self.now }
    {
        Reservations {
            by_hart: self.by_hart,
            any: self.any,
        }
    }

    /// Whether a hart has reserved the word at an address.
    #[tactic(auto, unfolding(crate::specs::Reservations::has_reserved))]
    pub fn has(&self, hart: u32, address: u32) -> bool
        ensures { result ≡ has_reserved hart address self.now }
    {
        match word_of(&self.by_hart, hart) {
            Some(word) => word == address,
            None => false,
        }
    }

    /// A hart reserves the word at an address, and no other. A hart past the last that may have one gets none.
    #[tactic(auto, unfolding(crate::specs::Reservations::with_reserved))]
    pub fn reserve(&mut self, hart: u32, address: u32)
        ensures { self.new ≡ with_reserved hart address self.old }
    {
        put(&mut self.by_hart, hart, Some(address));
        self.any = true;
    }

    /// A hart's reservation goes, if it has one.
    #[tactic(auto, unfolding(crate::specs::Reservations::without_reserved))]
    pub fn release(&mut self, hart: u32)
        ensures { self.new ≡ without_reserved hart self.old }
    {
        put(&mut self.by_hart, hart, None);
        self.any = any_of(&self.by_hart);
    }

    /// Whether any may stand.
    #[inline(always)]
    pub fn any(&self) -> bool
        ensures { result ≡ false → self.now ≡ none_reserved }
    {
        // For the proof only: a read shows its invariant.
        let _ = &self.by_hart;
        self.any
    }

    /// So many bytes from an address on were written.
    #[inline(always)]
    #[tactic(auto, using(crate::proofs::Reserving::nothing_left))]
    pub fn end(&mut self, address: u32, count: usize)
        ensures { self.new ≡ left_by address count self.old }
    {
        if self.any {
            self.end_each(address, count);
        }
    }

    #[cold]
    #[inline(never)]
    fn end_each(&mut self, address: u32, count: usize)
        ensures { self.new ≡ left_by address count self.old }
    {
        end_all(&mut self.by_hart, address, count);
        self.any = any_of(&self.by_hart);
    }
}

/// The word that a hart has reserved, if it has.
fn word_of(by_hart: &[Option<u32>; MOST_HARTS], hart: u32) -> Option<u32>
    ensures { result ≡ slice_index_or by_hart.now hart None }
{
    if hart as usize >= MOST_HARTS {
        return None;
    }
    by_hart[hart as usize]
}

/// Puts a hart's reservation in its place, where it has one.
fn put(by_hart: &mut [Option<u32>; MOST_HARTS], hart: u32, reserved: Option<u32>)
    ensures { by_hart.new ≡ slice_set by_hart.old hart reserved }
{
    if (hart as usize) < MOST_HARTS {
        by_hart[hart as usize] = reserved;
    }
}

/// Whether any word is reserved.
#[tactic(auto, using(crate::proofs::Reserving::none_left))]
fn any_of(by_hart: &[Option<u32>; MOST_HARTS]) -> bool
    ensures { result ≡ false → by_hart.now ≡ none_reserved }
{
    any_in(by_hart.as_slice())
}

fn any_in(by_hart: &[Option<u32>]) -> bool
    ensures { result ≡ list_any is_some by_hart.now }
{
    by_hart.iter().any(|reserved| reserved.is_some())
}

/// Ends the reservations of words of which a byte was written.
#[tactic(auto, using(crate::proofs::Reserving::left_more, crate::proofs::Reserving::left_all))]
fn end_all(by_hart: &mut [Option<u32>; MOST_HARTS], address: u32, count: usize)
    ensures { by_hart.new ≡ left_by address count by_hart.old }
{
    for hart in 0..MOST_HARTS {
        by_hart[hart] = left(by_hart[hart], address, count);
    }
}

/// A reservation after so many bytes were written from an address on.
fn left(reserved: Option<u32>, address: u32, count: usize) -> Option<u32>
    ensures { result ≡ unless_touched address count reserved }
{
    match reserved {
        Some(word) if is_touched(word, address, count) => None,
        other => other,
    }
}

/// Whether one of so many bytes from an address on is one of a word's four.
fn is_touched(word: u32, address: u32, count: usize) -> bool
    ensures { result ≡ touches address count word }
{
    let (word, address) = (u64::from(word), u64::from(address));
    count != 0 && word < address.saturating_add(count as u64) && address < word + 4
}
