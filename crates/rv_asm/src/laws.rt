//! A law on listings.

ghost use Rattle.std.specs.Prelude.{◌≡◌, ℕ, List, ◌<◌, ◌^◌};
ghost use Rattle.std.specs.List.{AllByRecursion};
ghost use Rattle.rv_asm.specs.Listing.{ListingContent};
ghost use Rattle.rv_asm.specs.Assembly.{Assembles};

/// A source has one listing: the relation leaves nothing open.
pub fn one_listing()
    ensures { (source : List ℕ) (one other : ListingContent)
        → AllByRecursion (λ word. word < 2 ^ 32) one.words → AllByRecursion (λ word. word < 2 ^ 32) other.words
        → Assembles source one → Assembles source other → one ≡ other }
{}
