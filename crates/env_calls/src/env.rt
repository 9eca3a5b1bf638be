//! What the calls of a process share and keep: unread input, output, the break, mapped pages, live harts.

ghost use Rattle.std.specs.Prelude.{◌≡◌, ◌≤◌, ◌<◌, ◌+◌, ◌*◌, ◌^◌, true, false, [], ◌∷◌, ◌++◌, OnOk};
ghost use Rattle.std.specs.Prelude.{OnErr, IfOk, length, drop, slice_index_or};
ghost use Rattle.std.specs.Bool.{OnTrue, OnFalse};
ghost use Rattle.page_memory.specs.MemoryMap.{image_end_page, most_pages};
ghost use Rattle.env_calls.specs.Environment.{most_harts, next_live, any_live};
ghost use Rattle.env_calls.specs.Calls.{without, is_granted, pages_up_to, pages_to_add};

use crate::live_harts::{LiveHarts, is_live, next_live};
use shared_origins::SharedBytes;
use std::alloc::{AllocError, Global};
use std::marker::Model;

/// No break is above this address.
pub const BREAK_LIMIT: u32 = 0x7000_0000;

/// How many pages a process may have mapped.
const MOST_PAGES: u64 = 4096;

/// What a process shares with the world around it, and what its calls keep.
#[derive(Drop)]
pub struct Env {
    input: SharedBytes,
    /// How many bytes of the input were read.
    position: usize,
    output: Vec<u8>,
    break_at: u32,
    pages: u32,
    harts: LiveHarts,
}

impl Model for Env {
    ghost use Rattle.std.specs.Prelude.{◌≤◌, length, drop};
    ghost use Rattle.env_calls.specs.Environment.{Environment};

    ghost Value = { Environment };

    ghost view = { λ env. record {
      input = drop env.position env.input;
      output = env.output.items;
      break_at = env.break_at;
      pages = env.pages;
      live = env.harts;
    } };

    ghost invariant = { λ env. env.position ≤ length env.input };
}

impl Env {
    /// The environment of a process that has run nothing: hart 0 is live. The break is an address, and
    /// so many pages are mapped.
    pub fn new(alloc: Global, input: SharedBytes, break_at: u32, pages: u32) -> Self
        ensures { result ≡ record {
          input = input;
          output = [];
          break_at = break_at;
          pages = pages;
          live = true ∷ [];
        } }
    {
        Env {
            input,
            position: 0,
            output: Vec::new(alloc),
            break_at,
            pages,
            harts: LiveHarts::new(),
        }
    }

    /// A copy of the environment, which shares the input.
    pub fn try_clone(&self, alloc: Global) -> Result<Self, AllocError>
        ensures { IfOk result (λ copy. copy ≡ self.now) }
    {
        let mut output = Vec::new(alloc);
        output.extend_from_slice(&self.output)?;
        Ok(Env {
            input: self.input.share()?,
            position: self.position,
            output,
            break_at: self.break_at,
            pages: self.pages,
            harts: self.harts.copied(),
        })
    }

    /// The bytes of the input that no call has read yet.
    pub fn input(&self) -> &[u8]
        ensures { result.now ≡ self.now.input }
    {
        &self.input.as_slice()[self.position..]
    }

    /// The bytes that were written so far.
    pub fn output(&self) -> &[u8]
        ensures { result.now ≡ self.now.output }
    {
        &self.output
    }

    /// The bytes that were written, to be kept.
    pub fn into_output(self) -> Vec<u8>
        ensures { result.items ≡ self.output }
    {
        self.output
    }

    /// The address where the data that the process may grow ends.
    pub fn break_at(&self) -> u32
        ensures { result ≡ self.now.break_at }
    {
        self.break_at
    }

    /// How many pages are mapped.
    pub fn pages(&self) -> u32
        ensures { result ≡ self.now.pages }
    {
        self.pages
    }

    /// Of each hart that was started, by its number, whether it is live.
    pub fn marks(&self) -> &[bool]
        ensures marks { result.now ≡ self.now.live }
        ensures few { length self.now.live ≤ most_harts }
    {
        self.harts.marks()
    }

    /// Whether a hart was started and is live.
    pub fn is_live(&self, hart: u32) -> bool
        ensures { result ≡ slice_index_or self.now.live hart false }
    {
        is_live(self.marks(), hart)
    }

    /// Whose turn it is after a hart: the least live one above it, else the least live one.
    pub fn next_live(&self, hart: u32) -> Option<u32>
        ensures { result ≡ next_live hart self.now.live }
    {
        next_live(self.marks(), hart)
    }

    /// Whether a request would move the break.
    #[tactic(auto, unfolding(crate::specs::Calls::is_granted))]
    pub(crate) fn grants(&self, request: u32) -> bool
        ensures granted { result ≡ is_granted self.now request }
        ensures above { OnTrue result (self.now.break_at < request) }
        ensures low { OnTrue result (request ≤ BREAK_LIMIT) }
        ensures few { OnTrue result (self.now.pages + pages_to_add self.now request ≤ most_pages) }
    {
        if request <= self.break_at || request > BREAK_LIMIT {
            return false;
        }
        u64::from(self.pages) + u64::from(self.pages_to_add(request)) <= MOST_PAGES
    }

    /// The number of the first page that lies at the break or above.
    pub(crate) fn break_page(&self) -> u32
        requires low { self.now.break_at ≤ BREAK_LIMIT }
        ensures first { result ≡ pages_up_to self.now.break_at }
    {
        pages_up_to(self.break_at)
    }

    /// How many pages the break adds where it moves up to an address.
    #[tactic(auto, unfolding(crate::specs::Calls::pages_up_to))]
    pub(crate) fn pages_to_add(&self, request: u32) -> u32
        requires above { self.now.break_at < request }
        requires low { request ≤ BREAK_LIMIT }
        ensures added { result ≡ pages_to_add self.now request }
        ensures bound { pages_up_to self.now.break_at + result ≤ image_end_page }
    {
        pages_up_to(request) - pages_up_to(self.break_at)
    }

    /// Writes bytes after the others.
    pub(crate) fn write(&mut self, bytes: &[u8]) -> Result<(), AllocError>
        ensures ok { OnOk result (self.new ≡ record self.old {
          output = self.old.output ++
              bytes.now;
        }) }
        ensures err { OnErr result (self.new ≡ self.old) }
    {
        self.output.extend_from_slice(bytes)
    }

    /// So many of the next bytes of the input are read.
    pub(crate) fn skip(&mut self, count: usize)
        requires { count ≤ length self.old.input }
        ensures { self.new ≡ record self.old { input = drop count self.old.input } }
    {
        // The sum stays within the whole input, whose length is a slice's.
        let _ = self.input.as_slice();
        self.position += count;
    }

    /// Moves the break, where that was granted, past so many new pages.
    pub(crate) fn set_break(&mut self, break_at: u32, count: u32)
        requires { self.old.pages + count ≤ most_pages }
        ensures { self.new ≡ record self.old {
          break_at = break_at;
          pages = self.old.pages +
              count;
        } }
    {
        self.break_at = break_at;
        self.pages += count;
    }

    /// Starts a hart.
    pub(crate) fn start_hart(&mut self)
        requires { length self.old.live < most_harts }
        ensures { self.new ≡ record self.old { live = self.old.live ++ true ∷ [] } }
    {
        self.harts.start();
    }

    /// A hart is live no more, if another one is: whether that is so.
    pub(crate) fn end_hart(&mut self, hart: u32) -> bool
        ensures others { result ≡ any_live (without hart self.old.live) }
        ensures done { OnTrue result (self.new ≡
            record self.old { live = without hart self.old.live }) }
        ensures last { OnFalse result (self.new ≡ self.old) }
    {
        self.harts.end_beside_others(hart as usize)
    }
}

/// How many pages lie below an address, the one that it cuts too.
#[tactic(auto, unfolding(crate::specs::Calls::pages_up_to))]
pub fn pages_up_to(address: u32) -> u32
    requires low { address ≤ BREAK_LIMIT }
    ensures pages { result ≡ pages_up_to address }
    ensures bound { result ≤ image_end_page }
{
    (address + 4095) / 4096
}
