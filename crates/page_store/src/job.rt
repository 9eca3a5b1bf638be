//! Jobs that write a copy of a page to its slot: the page leaves its frame afterwards, or stays in use.

ghost use Rattle.std.specs.Prelude.{◌≡◌, ◌≤◌, ◌↔◌, IsTrue, IsFalse, IfOk, IfErr, OnOk};
ghost use Rattle.swap_slots.specs.Slot.{Rose};
ghost use Rattle.page_store.specs.Moves.{copy_of};

use crate::page_copy::PageCopy;
use crate::seal::digest_for;
use clock_policy::Key;
use std::marker::{Model, PhantomData};
use swap_slots::SwapSlot;

/// Of a page that leaves its frame once its copy is written.
pub struct Leaves;

/// Of a page that stays in its frame, and in use, while its copy is written.
pub struct Stays;

/// A page to be saved before it leaves its frame.
pub type SaveJob<S> = WriteJob<S, Leaves>;

/// The same once it was saved, or once its device failed to.
pub type SavedJob<S> = WrittenJob<S, Leaves>;

/// A page to be written to its slot ahead of the time when it leaves its frame.
pub type CleanJob<S> = WriteJob<S, Stays>;

/// The same once it was written, or once its device failed to.
pub type CleanedJob<S> = WrittenJob<S, Stays>;

/// A page to be written: a copy of its bytes, and the slot that they are for. The type says what becomes of the page meanwhile.
#[derive(Drop)]
pub struct WriteJob<S: SwapSlot, P> {
    process: u32,
    vpn: u32,
    copy: Box<[u8; 4096]>,
    slot: S,
    page: PhantomData<P>,
}

impl<S: SwapSlot, P> Model for WriteJob<S, P> {
    ghost use Rattle.page_store.specs.JobValue.{JobValue};

    ghost Value = { JobValue S };

    ghost view = { λ j. record {
      process = j.process;
      vpn = j.vpn;
      copy = j.copy.value;
      slot = j.slot;
    } };
}

impl<S: SwapSlot, P> WriteJob<S, P> {
    /// The job of writing a page, of whose bytes this is the copy.
    pub(crate) fn new(process: u32, vpn: u32, copy: Box<[u8; 4096]>, slot: S) -> Self
        ensures { result ≡ record { process = process; vpn = vpn; copy = copy.value; slot = slot } }
    {
        WriteJob {
            process,
            vpn,
            copy,
            slot,
            page: PhantomData,
        }
    }

    /// The process that the page belongs to.
    pub fn process(&self) -> u32
        ensures { result ≡ self.now.process }
    {
        self.process
    }

    /// The page's number.
    pub fn vpn(&self) -> u32
        ensures { result ≡ self.now.vpn }
    {
        self.vpn
    }

    /// The page, with its process.
    pub fn key(&self) -> Key
        ensures { result ≡ record { process = self.now.process; vpn = self.now.vpn } }
    {
        Key {
            process: self.process,
            vpn: self.vpn,
        }
    }

    /// Writes the copy to the slot, and takes its digest where slots are not known to be honest. Takes no memory, and waits for nothing but the device.
    pub fn run(self) -> WrittenJob<S, P>
        ensures process { result.process ≡ self.process }
        ensures vpn { result.vpn ≡ self.vpn }
        ensures copy { result.copy ≡ self.copy }
        ensures saved { S.honest → IsTrue result.passed → S.content result.slot ≡ self.copy }
        ensures passed { IsTrue result.passed → S.failures result.slot ≡ S.failures self.slot }
        ensures fault { IsFalse result.passed →
            Rose (S.failures self.slot) (S.failures result.slot) }
        ensures counted { S.failures self.slot ≤ S.failures result.slot }
        ensures called { S.called self.slot result.slot }
    {
        let WriteJob {
            process,
            vpn,
            copy,
            mut slot,
            page: _,
        } = self;
        let digest = digest_for::<S>(&copy);
        let passed = slot.save(&copy).is_ok();
        WrittenJob {
            process,
            vpn,
            copy,
            digest,
            slot,
            passed,
            page: PhantomData,
        }
    }
}

/// A page that was written to its slot, or that its device failed to write.
#[derive(Drop)]
pub struct WrittenJob<S: SwapSlot, P> {
    process: u32,
    vpn: u32,
    copy: Box<[u8; 4096]>,
    /// Of the copy; none where slots of this kind are known to be honest.
    digest: Option<[u8; 32]>,
    slot: S,
    passed: bool,
    page: PhantomData<P>,
}

impl<S: SwapSlot, P> Model for WrittenJob<S, P> {
    ghost use Rattle.std.specs.Prelude.{◌≡◌, IsTrue};
    ghost use Rattle.sha2.specs.Sha256.{sha256};
    ghost use Rattle.page_store.specs.JobValue.{SavedValue};
    ghost use Rattle.page_store.specs.Seal.{IsTaken};

    ghost Value = { SavedValue S };

    ghost view = { λ j. record {
      process = j.process;
      vpn = j.vpn;
      copy = j.copy.value;
      slot = j.slot;
      passed = j.passed;
    } };

    ghost invariant = { λ j. IsTaken S.honest (sha256 j.copy.value) j.digest ×
        (S.honest → IsTrue j.passed → S.content j.slot ≡ j.copy.value) };
}

impl<S: SwapSlot, P> WrittenJob<S, P> {
    /// The process that the page belongs to.
    pub fn process(&self) -> u32
        ensures { result ≡ self.now.process }
    {
        self.process
    }

    /// The page's number.
    pub fn vpn(&self) -> u32
        ensures { result ≡ self.now.vpn }
    {
        self.vpn
    }

    /// The page, with its process.
    pub fn key(&self) -> Key
        ensures { result ≡ record { process = self.now.process; vpn = self.now.vpn } }
    {
        Key {
            process: self.process,
            vpn: self.vpn,
        }
    }

    /// Whether the bytes are those of the copy.
    pub(crate) fn is_copy(&self, bytes: &[u8; 4096]) -> bool
        ensures { IsTrue result ↔ (bytes.now ≡ self.now.copy) }
    {
        *bytes == *self.copy
    }

    /// The page in its slot, where the device passed it, else the slot; and the room of the copy.
    #[tactic(auto, using(crate::proofs::Seals::seals_saved, crate::proofs::Seals::saved_digest))]
    pub(crate) fn into_copy(self) -> (Result<PageCopy<S>, S>, Box<[u8; 4096]>)
        ensures passed { IfOk result.0 (λ copy. (copy ≡ copy_of self) × IsTrue self.passed) }
        ensures failed { IfErr result.0 (λ slot. (slot ≡ self.slot) × IsFalse self.passed) }
        ensures saved { S.honest → OnOk result.0 (S.content self.slot ≡ self.copy) }
    {
        let WrittenJob {
            process: _,
            vpn: _,
            copy,
            digest,
            slot,
            passed,
            page: _,
        } = self;
        if !passed {
            return (Err(slot), copy);
        }
        (Ok(PageCopy::new(slot, digest)), copy)
    }

    /// The slot, whatever it holds, and the room of the copy.
    pub(crate) fn into_slot(self) -> (S, Box<[u8; 4096]>)
        ensures { result.0 ≡ self.slot }
    {
        let WrittenJob {
            process: _,
            vpn: _,
            copy,
            digest: _,
            slot,
            passed: _,
            page: _,
        } = self;
        (slot, copy)
    }
}
