//! A page: its rights and its 4096 bytes.

ghost use Rattle.std.specs.Prelude.{◌≡◌, ◌+◌, ◌%◌, ◌≤◌, IfOk, length, replicate};
ghost use Rattle.page_memory.specs.Pages.{overwritten};
ghost use Rattle.page_memory.specs.Words.{bytes_in, page_offset};
ghost use Rattle.byteorder.specs.Endian.{little_bytes};

use crate::page_bytes::{put_bytes, put_number};
use crate::rights::Rights;
use crate::words::{PAGE_SIZE, Width};
use std::alloc::{AllocError, Global};
use std::marker::Model;

/// The 4096 bytes of a page, and what they may be used for.
#[derive(Drop)]
pub struct Page {
    rights: Rights,
    bytes: Box<[u8; PAGE_SIZE]>,
}

impl Model for Page {
    ghost use Rattle.std.specs.Prelude.{◌≡◌, length};
    ghost use Rattle.page_memory.specs.Pages.{Page as Content};

    ghost Value = { Content };

    ghost view = { λ page. record { rights = page.rights; bytes = page.bytes.value } };

    ghost invariant = { λ page. length page.bytes.value ≡ 4096 };
}

impl Page {
    /// A page of zeros.
    pub fn zeroed(alloc: Global, rights: Rights) -> Result<Self, AllocError>
        ensures { IfOk result (λ page. page ≡
            record { rights = rights; bytes = replicate 4096 0 }) }
    {
        Ok(Page {
            rights,
            bytes: Box::new(alloc, [0; PAGE_SIZE])?,
        })
    }

    #[inline]
    pub fn rights(&self) -> Rights
        ensures { result ≡ self.now.rights }
    {
        self.rights
    }

    /// Only the bytes.
    pub fn into_bytes(self) -> Box<[u8; PAGE_SIZE]>
        ensures bytes { result.value ≡ self.bytes }
        ensures whole { length result.value ≡ 4096 }
    {
        self.bytes
    }

    /// Changes what the page may be used for.
    pub fn set_rights(&mut self, rights: Rights)
        ensures { self.new ≡ record self.old { rights = rights } }
    {
        self.rights = rights;
    }

    #[inline]
    pub fn bytes(&self) -> &[u8]
        ensures bytes { result.now ≡ self.now.bytes }
        ensures whole { length result.now ≡ 4096 }
    {
        self.bytes.as_slice()
    }

    /// Writes the low bytes of a word at an address of this page that is aligned to their width.
    #[inline]
    pub fn put_number(&mut self, width: Width, address: u32, word: u32)
        requires { address % bytes_in width ≡ 0 }
        ensures { self.new ≡ record self.old {
          bytes = overwritten self.old.bytes
              (page_offset address) (little_bytes (bytes_in width) word);
        } }
    {
        put_number(self.bytes.as_mut_slice(), width, address, word);
    }

    /// Writes bytes from an offset on.
    pub fn put_bytes(&mut self, offset: usize, bytes: &[u8])
        requires { offset + length bytes.now ≤ 4096 }
        ensures { self.new ≡ record self.old {
          bytes = overwritten self.old.bytes offset bytes.now;
        } }
    {
        put_bytes(self.bytes.as_mut_slice(), offset, bytes);
    }
}
