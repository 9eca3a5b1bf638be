//! How the pages of a process come in and are given back, and its bytes without a page-in.

ghost use Rattle.std.specs.Prelude.{◌≡◌, ◌+◌, ◌<◌, ◌≤◌, ◌^◌, length, true, Some, IsSome, IfSome};
ghost use Rattle.std.specs.Prelude.{IfNone, OnOk, OnErr, IfErr};
ghost use Rattle.std.specs.Bool.{OnTrue, OnFalse};
ghost use Rattle.page_memory.specs.Words.{page_number, page_offset};
ghost use Rattle.flat_machine.specs.Process.{Process, flat_run, opening};
ghost use Rattle.flat_machine.specs.Schedule.{written_out};
ghost use Rattle.paged_memory.specs.cleaning.Copies.{LeavesCopies};
ghost use Rattle.paged_memory.specs.moves.Moving.{CallsOnce, ComesIn, DoesNotShow, GivesIn};
ghost use Rattle.paged_memory.specs.moves.Moving.{HasNothingBelow, LeavesLookedAt, LiesBehindIn};
ghost use Rattle.paged_memory.specs.moves.Moving.{RefusesIn, SameCaches};
ghost use Rattle.paged_memory.specs.moves.Moving.{SameEntries, SameFailures, SameTablesIn};
ghost use Rattle.paged_memory.specs.moves.Moving.{SavesNone, SavesSome, ShowsIn, with_pages};
ghost use Rattle.paged_memory.specs.Paged.{memory_of};
ghost use Rattle.paged_memory.specs.Peeking.{bytes_of};
ghost use Rattle.space_core.specs.Caches.{if_ended};

use crate::space::Space;
use frame_pool::Frame;
use paged_memory::{PageInFault, PeekFault};
use std::sync::ledger::Ledger;
use swap_slots::SwapSlot;

impl<L: Ledger, S: SwapSlot> Space<L, S> {
    /// The number of the process.
    pub fn process(&self) -> u32
        ensures { result ≡ self.now.memory.process }
    {
        self.memory.process()
    }

    /// Whether it has given all its pages back.
    pub fn is_purged(&self) -> bool
        ensures { result ≡ self.now.purged }
    {
        self.purged
    }

    /// It has given all its pages back.
    pub fn mark_purged(&mut self)
        ensures { self.new ≡ record self.old { purged = true } }
    {
        self.purged = true;
    }

    /// Brings a page into a frame, from its slot or as it began, and maps it with its rights, as used and not changed.
    ///
    /// A refusal hands the frame back and leaves the page where it was. It takes memory, and can be refused for want of
    /// it, only where the page has no table yet.
    pub fn page_in(&mut self, vpn: u32, frame: Frame<L>) -> Result<(), (Frame<L>, PageInFault)>
        requires { vpn < 2 ^ 20 }
        ensures ok { OnOk result (ComesIn S.content S.honest frame vpn self.old.memory
            self.new.memory) }
        ensures passed { OnOk result (SameFailures S.failures vpn self.old.memory
            self.new.memory) }
        ensures called { CallsOnce S.called vpn self.old.memory self.new.memory }
        ensures refused { IfErr result (λ back.
            RefusesIn S.content S.honest S.failures frame vpn back.0 back.1 self.old.memory
            self.new.memory) }
        ensures memory { S.honest → memory_of S.content self.new.memory ≡
            memory_of S.content self.old.memory }
        ensures unmapped { OnErr result (SameEntries self.old.memory self.new.memory) }
        ensures stays { self.new ≡ record self.old { memory = self.new.memory } }
        ensures process { self.new.memory.process ≡ self.old.memory.process }
        ensures caches { SameCaches self.old.memory self.new.memory }
        ensures reserved { self.new.memory.reserved ≡ self.old.memory.reserved }
        ensures copies { LeavesCopies self.old.memory self.new.memory }
    {
        self.memory.page_in(vpn, frame)
    }

    /// Reads the bytes that the memory shows from an address on, as many as there is room for, all in one page, wherever it
    /// is: the flat process's, if slots are honest. No page is brought in, and no hart's use of it is marked. A refusal
    /// leaves the room as it was.
    pub fn peek(&mut self, address: u32, bytes: &mut [Option<u8>]) -> Result<(), PeekFault>
        requires { page_offset address + length bytes.old ≤ 4096 }
        ensures bytes { OnOk result (ShowsIn S.content S.honest self.old.memory address
            (length bytes.old) bytes.new) }
        ensures shown { S.honest →
            OnOk result (bytes_of (memory_of S.content self.old.memory) address
            (length bytes.old) ≡ Some bytes.new) }
        ensures flat { S.honest → OnOk result ((flat : Process) →
            flat_run (written_out self.old.schedule) (opening self.old.image self.old.input) ≡
            Some flat → bytes_of flat.memory address (length bytes.old) ≡ Some bytes.new) }
        ensures passed { OnOk result (SameFailures S.failures
            (page_number address) self.old.memory self.new.memory) }
        ensures called { CallsOnce S.called (page_number address) self.old.memory self.new.memory }
        ensures unread { OnErr result (bytes.new ≡ bytes.old) }
        ensures refused { IfErr result (DoesNotShow S.content S.honest S.failures address
            self.old.memory self.new.memory) }
        ensures left { LeavesLookedAt S.content S.honest address self.old.memory self.new.memory }
        ensures memory { S.honest → memory_of S.content self.new.memory ≡
            memory_of S.content self.old.memory }
        ensures stays { self.new ≡ record self.old {
          memory = with_pages self.old.memory
              self.new.memory;
        } }
        ensures copies { LeavesCopies self.old.memory self.new.memory }
    {
        self.memory.peek(address, bytes)
    }

    /// Whether a page is being saved, or a copy of one is out.
    pub fn is_saving(&self) -> bool
        ensures some { OnTrue result (SavesSome self.now.memory) }
        ensures none { OnFalse result (SavesNone self.now.memory) }
    {
        self.memory.is_saving()
    }

    /// Once the process has ended, takes the frame and the slot of the first page, by number, that has either, is not being
    /// saved and has no copy out. The page is unmapped, and given up for good. `None` where there is no such page, and before the end.
    pub fn take_one(&mut self) -> Option<(Option<Frame<L>>, Option<S>)>
        ensures given { IfSome result (λ given. GivesIn given self.old.memory self.new.memory) }
        ensures tabled { SameTablesIn self.old.memory self.new.memory }
        ensures ended { IfSome result (λ _. IsSome self.old.running.ending) }
        ensures none { IfNone result (IsSome self.old.running.ending →
            HasNothingBelow (2 ^ 20) self.old.memory) }
        ensures left { IfNone result (self.new ≡
            record self.old { memory = if_ended self.old.running.ending self.old.memory }) }
        ensures stays { self.new ≡ record self.old { memory = self.new.memory } }
        ensures process { self.new.memory.process ≡ self.old.memory.process }
        ensures caches { SameCaches (if_ended self.old.running.ending self.old.memory)
            self.new.memory }
        ensures reserved { self.new.memory.reserved ≡ self.old.memory.reserved }
        ensures copies { LeavesCopies self.old.memory self.new.memory }
    {
        match self.take_from(0) {
            Some((given, _)) => Some(given),
            None => None,
        }
    }

    /// The same where it is known that no page before `from` has anything. With what the page had comes the number from which
    /// on others may have something still, so that whoever takes all looks at each page once.
    #[tactic(auto, using(paged_memory::proofs::cleaning_laws::CopiesToldLaws::leaves_itself))]
    pub fn take_from(&mut self, from: u32) -> Option<((Option<Frame<L>>, Option<S>), u32)>
        requires { HasNothingBelow from self.old.memory }
        ensures given { IfSome result (λ taken. GivesIn taken.0 self.old.memory self.new.memory) }
        ensures next { IfSome result (λ taken. HasNothingBelow taken.1 self.new.memory) }
        ensures behind { IfSome result (λ taken. LiesBehindIn self.old.memory from taken.1) }
        ensures tabled { SameTablesIn self.old.memory self.new.memory }
        ensures ended { IfSome result (λ _. IsSome self.old.running.ending) }
        ensures none { IfNone result (IsSome self.old.running.ending →
            HasNothingBelow (2 ^ 20) self.old.memory) }
        ensures left { IfNone result (self.new ≡
            record self.old { memory = if_ended self.old.running.ending self.old.memory }) }
        ensures stays { self.new ≡ record self.old { memory = self.new.memory } }
        ensures process { self.new.memory.process ≡ self.old.memory.process }
        ensures caches { SameCaches (if_ended self.old.running.ending self.old.memory)
            self.new.memory }
        ensures reserved { self.new.memory.reserved ≡ self.old.memory.reserved }
        ensures copies { LeavesCopies self.old.memory self.new.memory }
    {
        self.recorded.running().end()?;
        // An ending has emptied them already.
        self.memory.clear_caches();
        self.memory.take_from(from)
    }
}
