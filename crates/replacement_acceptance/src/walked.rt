//! The policy move by move, one entry at a time, with its loops written out. The list's equations are tested against it.

use clock_policy::{Bit, Entry, EntryKind, Key, Kind, Refusal, Verdict};
use std::alloc::{AllocError, Global};

#[derive(Drop)]
pub(crate) struct Walked {
    frames: usize,
    pub(crate) share: usize,
    pub(crate) asked: usize,
    pub(crate) list: Vec<Entry>,
    pub(crate) cold: Option<Key>,
    pub(crate) test: Option<Key>,
}

impl Walked {
    pub(crate) fn new(alloc: Global, frames: usize) -> Self {
        Walked {
            frames,
            share: 1,
            asked: 0,
            list: Vec::new(alloc),
            cold: None,
            test: None,
        }
    }

    fn find(&self, key: Key) -> Option<Entry> {
        self.list.iter().find(|e| e.key == key).map(|e| *e)
    }

    fn number(&self, kind: EntryKind) -> usize {
        self.list.iter().filter(|e| e.kind == kind).count()
    }

    /// The key after this one. After the last one comes the front's.
    fn next(&self, key: Key) -> Option<Key> {
        let mut passed = false;
        for e in &self.list {
            if passed {
                return Some(e.key);
            }
            passed = e.key == key;
        }
        self.list.first().map(|e| e.key)
    }

    fn set(&mut self, key: Key, kind: EntryKind) {
        for e in self.list.iter_mut() {
            if e.key == key {
                e.kind = kind;
            }
        }
    }

    fn leave(&mut self, key: Key, next: Option<Key>) {
        if self.cold == Some(key) {
            self.cold = next;
        }
        if self.test == Some(key) {
            self.test = next;
        }
    }

    fn remove(&mut self, key: Key) {
        let next = if self.list.len() > 1 {
            self.next(key)
        } else {
            None
        };
        self.leave(key, next);
        self.list.retain(|e| e.key != key);
    }

    fn append(&mut self, key: Key, kind: EntryKind) -> Result<(), AllocError> {
        self.list.push(Entry { key, kind })?;
        self.cold = self.cold.or(Some(key));
        self.test = self.test.or(Some(key));
        Ok(())
    }

    fn send_to_end(&mut self, key: Key, kind: EntryKind) -> Result<(), AllocError> {
        let next = self.next(key);
        self.leave(key, next);
        self.list.retain(|e| e.key != key);
        self.list.push(Entry { key, kind })?;
        Ok(())
    }

    fn turn(&mut self) -> Result<(), AllocError> {
        if !self.list.is_empty() {
            let front = self.list.remove(0);
            self.list.push(front)?;
        }
        Ok(())
    }

    fn falls(&mut self) {
        self.share = self.share.saturating_sub(1).max(1);
    }

    fn grows(&mut self) {
        self.share = self
            .share
            .saturating_add(1)
            .min(self.frames.saturating_sub(1));
    }

    /// The first entry from the hand on that is of one of the two kinds.
    fn from_hand(&self, hand: Option<Key>, one: EntryKind, other: EntryKind) -> Option<Entry> {
        let mut key = hand?;
        for _ in 0..self.list.len() {
            let e = self.find(key)?;
            if e.kind == one || e.kind == other {
                return Some(e);
            }
            key = self.next(key)?;
        }
        None
    }

    fn asked_entry(&self) -> Option<Entry> {
        let hot = self.number(EntryKind::Hot);
        let cold = self
            .number(EntryKind::Test)
            .saturating_add(self.number(EntryKind::Cold));
        if hot > self.frames.saturating_sub(self.share) || cold == 0 && hot > 0 {
            self.list
                .iter()
                .find(|e| e.kind == EntryKind::Hot)
                .map(|e| *e)
        } else {
            self.from_hand(self.cold, EntryKind::Test, EntryKind::Cold)
        }
    }

    pub(crate) fn question(&self) -> Option<Key> {
        self.asked_entry().map(|e| e.key)
    }

    /// While x is not at the front, the front is passed.
    fn go_to(&mut self, x: Key) -> Result<(), AllocError> {
        for _ in 0..self.list.len() {
            let Some(front) = self.list.first().map(|e| *e) else {
                return Ok(());
            };
            if front.key == x {
                return Ok(());
            }
            match front.kind {
                EntryKind::Shadow => {
                    self.remove(front.key);
                    self.falls();
                }
                EntryKind::Test => {
                    self.set(front.key, EntryKind::Cold);
                    self.falls();
                    self.turn()?;
                }
                EntryKind::Hot | EntryKind::Cold => self.turn()?,
            }
        }
        Ok(())
    }

    fn answer_hot(&mut self, bit: Bit, x: Key) -> Result<bool, AllocError> {
        self.go_to(x)?;
        match bit {
            Bit::Gone => self.remove(x),
            Bit::One => self.turn()?,
            Bit::Zero => {
                self.set(x, EntryKind::Cold);
                self.turn()?;
            }
        }
        Ok(false)
    }

    /// Whether x is the victim.
    fn answer_cold(&mut self, bit: Bit, x: Entry) -> Result<bool, AllocError> {
        self.cold = Some(x.key);
        let in_test = x.kind == EntryKind::Test;
        match bit {
            Bit::Gone => self.remove(x.key),
            Bit::One if in_test => {
                self.send_to_end(x.key, EntryKind::Hot)?;
                self.grows();
            }
            Bit::One => self.send_to_end(x.key, EntryKind::Test)?,
            Bit::Zero if in_test => {
                self.set(x.key, EntryKind::Shadow);
                self.cold = self.next(x.key);
            }
            Bit::Zero => self.remove(x.key),
        }
        Ok(bit == Bit::Zero)
    }

    /// While there are more shadows than frames, the test hand goes on.
    fn trim(&mut self) {
        for _ in 0..self.list.len() {
            if self.number(EntryKind::Shadow) <= self.frames {
                return;
            }
            let Some(y) = self.from_hand(self.test, EntryKind::Shadow, EntryKind::Test) else {
                return;
            };
            self.test = self.next(y.key);
            if y.kind == EntryKind::Shadow {
                self.remove(y.key);
            } else {
                self.set(y.key, EntryKind::Cold);
            }
            self.falls();
        }
    }

    pub(crate) fn answer(&mut self, bit: Bit) -> Result<Result<Verdict, Refusal>, AllocError> {
        let Some(x) = self.asked_entry() else {
            return Ok(Err(Refusal::NoQuestion));
        };
        let most = self.frames.saturating_mul(3);
        let heeded = if self.asked == most && bit == Bit::One {
            Bit::Zero
        } else {
            bit
        };
        let victim = if x.kind == EntryKind::Hot {
            self.answer_hot(heeded, x.key)?
        } else {
            self.answer_cold(heeded, x)?
        };
        if victim {
            self.trim();
            self.asked = 0;
            return Ok(Ok(Verdict::Victim(x.key)));
        }
        self.asked = self.asked.saturating_add(1).min(most);
        Ok(Ok(Verdict::GoOn))
    }

    /// Why a page may not come in.
    fn refusal(&self, key: Key) -> Option<Refusal> {
        match self.find(key) {
            Some(e) if e.kind != EntryKind::Shadow => return Some(Refusal::AlreadyResident),
            _ => {}
        }
        let shadows = self.number(EntryKind::Shadow);
        if self.list.len().saturating_sub(shadows) == self.frames {
            return Some(Refusal::Full);
        }
        None
    }

    pub(crate) fn admit(&mut self, key: Key) -> Result<Result<Kind, Refusal>, AllocError> {
        if let Some(refusal) = self.refusal(key) {
            return Ok(Err(refusal));
        }
        if self.find(key).is_some() {
            self.send_to_end(key, EntryKind::Hot)?;
            self.grows();
            return Ok(Ok(Kind::Hot));
        }
        self.append(key, EntryKind::Test)?;
        Ok(Ok(Kind::Test))
    }

    pub(crate) fn restore(&mut self, key: Key) -> Result<Result<(), Refusal>, AllocError> {
        if let Some(refusal) = self.refusal(key) {
            return Ok(Err(refusal));
        }
        if self.find(key).is_some() {
            self.set(key, EntryKind::Test);
        } else {
            self.append(key, EntryKind::Test)?;
        }
        Ok(Ok(()))
    }

    pub(crate) fn withdraw(&mut self, key: Key) -> Result<(), Refusal> {
        if self.find(key).is_none() {
            return Err(Refusal::NotThere);
        }
        self.remove(key);
        Ok(())
    }

    pub(crate) fn purge(&mut self, process: u32) -> u32 {
        let mut gone = 0u32;
        for _ in 0..self.list.len() {
            match self
                .list
                .iter()
                .find(|e| e.key.process == process)
                .map(|e| e.key)
            {
                Some(key) => {
                    self.remove(key);
                    gone = gone.saturating_add(1);
                }
                None => return gone,
            }
        }
        gone
    }
}
