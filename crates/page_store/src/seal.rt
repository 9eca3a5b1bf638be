//! The digests of what is saved, which are taken where slots are not known to be honest.

ghost use Rattle.std.specs.Prelude.{◌≡◌, ◌↔◌, ◌⊎◌, IsTrue, IfSome};
ghost use Rattle.sha2.specs.Sha256.{sha256};
ghost use Rattle.page_store.specs.Seal.{IsTaken};

use sha2::{Digest, Sha256};
use swap_slots::SwapSlot;

/// The digest of a page that is saved to a slot of this kind; none where the kind is known to be honest.
pub(crate) fn digest_for<S: SwapSlot>(page: &[u8; 4096]) -> Option<[u8; 32]>
    ensures { IsTaken S.honest (sha256 page.now) result }
{
    if S::is_known_honest() {
        None
    } else {
        Some(digest_of(page))
    }
}

/// Takes digests of pages.
pub(crate) trait PageDigest {
    /// What taking a digest makes of this. Nothing else is known of it: where it holds, one digest was taken, and no more.
    ghost taken: { Self → Self → Type 0 };

    /// The SHA-256 digest of a page.
    fn digest(&mut self, page: &[u8; 4096]) -> [u8; 32]
        ensures value { result ≡ sha256 page.now }
        ensures taken { taken self.old self.new };
}

/// The one kind there is.
#[derive(Drop)]
pub(crate) struct Sha256Digest;

impl PageDigest for Sha256Digest {
    ghost taken = { λ _ _. Unit {0} };

    fn digest(&mut self, page: &[u8; 4096]) -> [u8; 32] {
        digest_of(page)
    }
}

/// Whether a page has this digest, if one was taken. At most one is taken to compare.
pub(crate) fn has_digest<D: PageDigest>(
    page: &[u8; 4096],
    wanted: &Option<[u8; 32]>,
    digest: &mut D,
) -> bool
    ensures same { IsTrue result ↔ IfSome wanted.now (λ taken. sha256 page.now ≡ taken) }
    ensures once { (digest.new ≡ digest.old) ⊎ D.taken digest.old digest.new }
{
    match wanted {
        Some(wanted) => digest.digest(page) == *wanted,
        None => true,
    }
}

/// The SHA-256 digest of a page.
fn digest_of(page: &[u8; 4096]) -> [u8; 32]
    ensures { result ≡ sha256 page.now }
{
    Sha256::digest(page.as_slice())
}
