//! A page in its slot, with the digest of what was saved unless this kind of slot is known to be honest.

ghost use Rattle.std.specs.Prelude.{◌≡◌, ◌⊎◌, IfErr, OnOk, OnErr};
ghost use Rattle.sha2.specs.Sha256.{sha256};
ghost use Rattle.swap_slots.specs.Slot.{Rose};
ghost use Rattle.page_store.specs.CopyValue.{RefusesLoad};
ghost use Rattle.page_store.specs.Seal.{IsSealed, sealed_digest};

use crate::refusal::FillFault;
use crate::seal::{PageDigest, has_digest};
use std::marker::Model;
use swap_slots::{SlotFault, SwapSlot};

/// A page in its slot, with the digest of what was saved.
#[derive(Drop)]
pub struct PageCopy<S: SwapSlot> {
    slot: S,
    /// None is taken where slots of this kind are known to be honest: it is then the digest of what the slot holds.
    digest: Option<[u8; 32]>,
}

impl<S: SwapSlot> Model for PageCopy<S> {
    ghost use Rattle.page_store.specs.CopyValue.{CopyValue};
    ghost use Rattle.page_store.specs.Seal.{IsSealed, sealed_digest};

    ghost Value = { CopyValue S };

    ghost view = { λ c. record { slot = c.slot; digest = sealed_digest (S.content c.slot) c.digest } };

    ghost invariant = { λ c. IsSealed S.honest (S.content c.slot) c.digest };
}

impl<S: SwapSlot> PageCopy<S> {
    /// The page in this slot, which has this digest if the slot is honest; none where it is known to be.
    pub(crate) fn new(slot: S, digest: Option<[u8; 32]>) -> Self
        requires { IsSealed S.honest (S.content slot) digest }
        ensures { result ≡ record {
          slot = slot;
          digest = sealed_digest (S.content slot) digest;
        } }
    {
        PageCopy { slot, digest }
    }

    /// Loads the page, whatever its digest is.
    #[tactic(auto, using(crate::proofs::Seals::digest_stays, crate::proofs::Seals::still_sealed))]
    pub(crate) fn load(&mut self, page: &mut [u8; 4096]) -> Result<(), SlotFault>
        ensures loaded { S.honest → OnOk result (page.new ≡ S.content self.old.slot) }
        ensures kept { S.honest → S.content self.new.slot ≡ S.content self.old.slot }
        ensures passed { OnOk result (S.failures self.new.slot ≡ S.failures self.old.slot) }
        ensures fault { OnErr result (Rose (S.failures self.old.slot) (S.failures self.new.slot)) }
        ensures digest { self.new.digest ≡ self.old.digest }
        ensures called { S.called self.old.slot self.new.slot }
    {
        self.slot.load(page)
    }

    /// Loads the page, and compares its digest with the one that was kept, if one was taken: one call of the slot, and one digest at most.
    #[tactic(auto, using(crate::proofs::Seals::digest_stays, crate::proofs::Seals::still_sealed, crate::proofs::Seals::comes_whole, crate::proofs::Seals::comes_damaged))]
    pub(crate) fn load_whole<D: PageDigest>(
        &mut self,
        page: &mut [u8; 4096],
        digest: &mut D,
    ) -> Result<(), FillFault>
        ensures whole { OnOk result (sha256 page.new ≡ self.old.digest) }
        ensures refused { IfErr result (RefusesLoad S.honest S.failures self.old self.new
            page.new) }
        ensures loaded { S.honest → OnOk result (page.new ≡ S.content self.old.slot) }
        ensures kept { S.honest → S.content self.new.slot ≡ S.content self.old.slot }
        ensures passed { OnOk result (S.failures self.new.slot ≡ S.failures self.old.slot) }
        ensures digest { self.new.digest ≡ self.old.digest }
        ensures called { S.called self.old.slot self.new.slot }
        ensures once { (digest.new ≡ digest.old) ⊎ D.taken digest.old digest.new }
    {
        if self.slot.load(page).is_err() {
            return Err(FillFault::Device);
        }
        if !has_digest(page, &self.digest, digest) {
            return Err(FillFault::Damaged);
        }
        Ok(())
    }

    /// The slot.
    pub(crate) fn into_slot(self) -> S
        ensures { result ≡ self.slot }
    {
        let PageCopy { slot, digest: _ } = self;
        slot
    }
}
